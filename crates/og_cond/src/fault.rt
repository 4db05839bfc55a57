//! Why the conditions are not listed.

ghost use Rattle.std.specs.Prelude.{◌≡◌, codes};
ghost use Rattle.og_cond.specs.declared.fault.ConditionsError.TheVariants.{Memory};

use std::alloc::{AllocError, AllocFailed};
use thiserror::Error;

/// The outline has more than 4,000,000 conditions.
#[derive(Clone, Copy, Debug, PartialEq, Eq, Error)]
#[error("there are more than 4000000 conditions")]
pub struct TooMany;

impl TooMany {
    /// The number under which the refusal is printed.
    pub fn number(&self) -> u8
        ensures { result ≡ 18 }
    {
        18
    }

    /// The name under which the refusal is printed, in ASCII.
    pub fn name(&self) -> &'static str
        ensures { result.now ≡ codes "TooManyConditions" }
    {
        "TooManyConditions"
    }
}

/// Why there is no list of conditions.
#[derive(Clone, Copy, Debug, PartialEq, Eq, Error)]
pub enum ConditionsError {
    /// An allocation was refused.
    #[error("out of memory")]
    Memory,
    /// There are too many conditions.
    #[error(transparent)]
    Fault(TooMany),
}

impl From<AllocError> for ConditionsError {
    ghost from_gives = { λ _ e. e ≡ Memory };

    fn from(_: AllocError) -> ConditionsError {
        ConditionsError::Memory
    }
}

impl<T: Drop> From<AllocFailed<T>> for ConditionsError {
    ghost from_gives = { λ _ e. e ≡ Memory };

    fn from(_: AllocFailed<T>) -> ConditionsError {
        ConditionsError::Memory
    }
}
