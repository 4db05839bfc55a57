//! Why a request has no result.

ghost use Rattle.std.specs.Prelude.{◌≡◌};
ghost use Rattle.og_lsp_features.specs.Refusals.{judge_refusal};
ghost use Rattle.og_lsp_features.specs.declared.refusal.Refusal.TheVariants.{Memory, Spawn};

use og_lsp_document::JudgeError;
use og_lsp_message::ErrorCode;
use std::alloc::{AllocError, AllocFailed};

/// Why a request has no result.
#[derive(Clone, Copy, PartialEq, Eq)]
pub enum Refusal {
    /// An allocation was refused.
    Memory,
    /// A thread could not be started.
    Spawn,
    /// The client asks for what it may not; it is told this.
    Refused(ErrorCode, &'static str),
}

/// The parameters name no open document.
pub const NO_DOCUMENT: Refusal = Refusal::Refused(
    ErrorCode::InvalidParams,
    "the parameters name no open document",
);

impl From<AllocError> for Refusal {
    ghost from_gives = { λ _ e. e ≡ Memory };

    fn from(_: AllocError) -> Refusal {
        Refusal::Memory
    }
}

impl<T: Drop> From<AllocFailed<T>> for Refusal {
    ghost from_gives = { λ _ e. e ≡ Memory };

    fn from(_: AllocFailed<T>) -> Refusal {
        Refusal::Memory
    }
}

impl From<JudgeError> for Refusal {
    ghost from_gives = { λ error e. e ≡ judge_refusal error };

    fn from(error: JudgeError) -> Refusal {
        match error {
            JudgeError::Memory => Refusal::Memory,
            JudgeError::Spawn => Refusal::Spawn,
        }
    }
}
