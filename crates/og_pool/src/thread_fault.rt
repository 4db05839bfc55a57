//! Why shared work was not done.

ghost use Rattle.std.specs.Prelude.{◌≡◌};
ghost use Rattle.og_pool.specs.declared.thread_fault.ThreadFault.TheVariants.{Memory};

use std::alloc::{AllocError, AllocFailed};
use thiserror::Error;

/// Why shared work was not done.
#[derive(Clone, Copy, Debug, Drop, PartialEq, Eq, Error)]
pub enum ThreadFault {
    /// An allocation was refused.
    #[error("out of memory")]
    Memory,
    /// A thread could not be started.
    #[error("a thread could not be started")]
    Spawn,
}

impl From<AllocError> for ThreadFault {
    ghost from_gives = { λ _ e. e ≡ Memory };

    fn from(_: AllocError) -> ThreadFault {
        ThreadFault::Memory
    }
}

impl<T: Drop> From<AllocFailed<T>> for ThreadFault {
    ghost from_gives = { λ _ e. e ≡ Memory };

    fn from(_: AllocFailed<T>) -> ThreadFault {
        ThreadFault::Memory
    }
}
