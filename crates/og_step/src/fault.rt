//! Why a run does not start.

ghost use Rattle.std.specs.Prelude.{◌≡◌};
ghost use Rattle.og_step.specs.declared.fault.StartError.TheVariants.{Memory};
ghost use Rattle.og_step.specs.Faults.{number_of_fault, name_of_fault};

use std::alloc::{AllocError, AllocFailed};
use thiserror::Error;

/// The fault of the values that a run is to start from.
#[derive(Clone, Copy, Debug, Drop, PartialEq, Eq, Error)]
pub enum StartFault {
    /// The number of values is not that of the variables that are no auxiliaries.
    #[error("there must be one value for each variable")]
    WrongLength,
    /// The precondition is false at the values.
    #[error("the precondition is false")]
    NotPre,
}

impl StartFault {
    /// The number under which the refusal is printed: 51 WrongLength, 50 NotPre.
    pub fn number(&self) -> u8
        ensures { result ≡ number_of_fault self.now }
    {
        match self {
            StartFault::WrongLength => 51,
            StartFault::NotPre => 50,
        }
    }

    /// The name under which the refusal is printed, in ASCII.
    pub fn name(&self) -> &'static str
        ensures { result.now ≡ name_of_fault self.now }
    {
        match self {
            StartFault::WrongLength => "WrongLength",
            StartFault::NotPre => "NotPre",
        }
    }
}

/// Why there is no first moment.
#[derive(Debug, Drop, Error)]
pub enum StartError {
    /// An allocation was refused.
    #[error("out of memory")]
    Memory,
    /// The values have this fault.
    #[error(transparent)]
    Fault(StartFault),
}

impl From<AllocError> for StartError {
    ghost from_gives = { λ _ e. e ≡ Memory };

    fn from(_e: AllocError) -> StartError {
        StartError::Memory
    }
}

impl<T: Drop> From<AllocFailed<T>> for StartError {
    ghost from_gives = { λ _ e. e ≡ Memory };

    fn from(e: AllocFailed<T>) -> StartError {
        StartError::from(AllocError::from(e))
    }
}
