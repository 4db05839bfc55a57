//! Why a text was not judged.

ghost use Rattle.std.specs.Prelude.{◌≡◌};
ghost use Rattle.og_lsp_document.specs.Faults.{of_pool};
ghost use Rattle.og_lsp_document.specs.declared.fault.JudgeError.TheVariants.{Memory};

use og_pool::PoolFault;
use std::alloc::{AllocError, AllocFailed};
use thiserror::Error;

/// Why a text was not judged.
#[derive(Clone, Copy, Debug, Drop, PartialEq, Eq, Error)]
pub enum JudgeError {
    /// An allocation was refused.
    #[error("out of memory")]
    Memory,
    /// A thread could not be started.
    #[error("a thread could not be started")]
    Spawn,
}

impl From<AllocError> for JudgeError {
    ghost from_gives = { λ _ e. e ≡ Memory };

    fn from(_: AllocError) -> JudgeError {
        JudgeError::Memory
    }
}

impl<T: Drop> From<AllocFailed<T>> for JudgeError {
    ghost from_gives = { λ _ e. e ≡ Memory };

    fn from(_: AllocFailed<T>) -> JudgeError {
        JudgeError::Memory
    }
}

impl From<PoolFault> for JudgeError {
    ghost from_gives = { λ fault e. e ≡ of_pool fault };

    fn from(fault: PoolFault) -> JudgeError {
        match fault {
            PoolFault::Memory => JudgeError::Memory,
            PoolFault::Spawn => JudgeError::Spawn,
        }
    }
}
