//! Why a text was not laid out.

ghost use Rattle.std.specs.Prelude.{◌≡◌};
ghost use Rattle.og_layout.specs.Faults.{from_lex};
ghost use Rattle.og_layout.specs.declared.fault.LayoutError.TheVariants.{Memory};

use og_text::{LexError, LexFault};
use std::alloc::{AllocError, AllocFailed};
use thiserror::Error;

/// Why a text was not laid out.
#[derive(Debug, Drop, Error)]
pub enum LayoutError {
    /// An allocation was refused.
    #[error("out of memory")]
    Memory,
    /// The text has no pieces, by this fault.
    #[error(transparent)]
    Fault(LexFault),
    /// The text laid out would have more than 1,048,576 bytes.
    #[error("the text laid out is too long")]
    TooLong,
    /// What was written has other pieces than the text. No case is known.
    #[error("the text laid out has other pieces")]
    Differs,
}

impl From<LexError> for LayoutError {
    ghost from_gives = { λ e f. f ≡ from_lex e };

    fn from(e: LexError) -> LayoutError {
        match e {
            LexError::Memory => LayoutError::Memory,
            LexError::Fault(fault) => LayoutError::Fault(fault),
        }
    }
}

impl From<AllocError> for LayoutError {
    ghost from_gives = { λ _ e. e ≡ Memory };

    fn from(_e: AllocError) -> LayoutError {
        LayoutError::Memory
    }
}

impl<T: Drop> From<AllocFailed<T>> for LayoutError {
    ghost from_gives = { λ _ e. e ≡ Memory };

    fn from(e: AllocFailed<T>) -> LayoutError {
        LayoutError::from(AllocError::from(e))
    }
}
