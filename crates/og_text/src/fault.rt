//! Why a text has no lexemes.

ghost use Rattle.std.specs.Prelude.{◌≡◌};
ghost use Rattle.og_text.specs.declared.fault.LexError.TheVariants.{Memory};
ghost use Rattle.og_text.specs.Faults.{number_of_fault, name_of_fault, place_of_fault};

use std::alloc::{AllocError, AllocFailed};
use thiserror::Error;

/// The fault of a text, and the byte offset at which, counted from 0.
#[derive(Clone, Copy, Debug, Drop, PartialEq, Eq, Error)]
pub enum LexFault {
    /// No lexeme, white space or comment begins here.
    #[error("no lexeme begins at byte {0}")]
    BadByte(u32),
    /// The number that begins here is above 9223372036854775808.
    #[error("the number at byte {0} is too large")]
    NumberTooLarge(u32),
    /// The word that begins here has more than 64 bytes.
    #[error("the name at byte {0} is too long")]
    NameTooLong(u32),
    /// The text has more than 1,048,576 bytes.
    #[error("the source is too long")]
    SourceTooLong,
}

impl LexFault {
    /// The number under which the refusal is printed, from 1 to 4.
    pub fn number(&self) -> u8
        ensures { result ≡ number_of_fault self.now }
    {
        match self {
            LexFault::BadByte(_) => 1,
            LexFault::NumberTooLarge(_) => 2,
            LexFault::NameTooLong(_) => 3,
            LexFault::SourceTooLong => 4,
        }
    }

    /// The name under which the refusal is printed, in ASCII.
    pub fn name(&self) -> &'static str
        ensures { result.now ≡ name_of_fault self.now }
    {
        match self {
            LexFault::BadByte(_) => "BadByte",
            LexFault::NumberTooLarge(_) => "NumberTooLarge",
            LexFault::NameTooLong(_) => "NameTooLong",
            LexFault::SourceTooLong => "SourceTooLong",
        }
    }

    /// The byte offset at which the fault stands, from 0. `None` where it is of the whole text.
    pub fn place(&self) -> Option<u32>
        ensures { result ≡ place_of_fault self.now }
    {
        match self {
            LexFault::BadByte(at) | LexFault::NumberTooLarge(at) | LexFault::NameTooLong(at) =>
                Some(*at),
            LexFault::SourceTooLong => None,
        }
    }
}

/// Why a text was not cut.
#[derive(Debug, Drop, Error)]
pub enum LexError {
    /// An allocation was refused.
    #[error("out of memory")]
    Memory,
    /// The text has this fault.
    #[error(transparent)]
    Fault(LexFault),
}

impl From<AllocError> for LexError {
    ghost from_gives = { λ _ e. e ≡ Memory };

    fn from(_e: AllocError) -> LexError {
        LexError::Memory
    }
}

impl<T: Drop> From<AllocFailed<T>> for LexError {
    ghost from_gives = { λ _ e. e ≡ Memory };

    fn from(e: AllocFailed<T>) -> LexError {
        LexError::from(AllocError::from(e))
    }
}
