//! Why a form is not made.

ghost use Rattle.std.specs.Prelude.{◌≡◌};
ghost use Rattle.og_linear.specs.declared.fault.FormError.TheVariants.{Memory};
ghost use Rattle.og_linear.specs.Faults.{number_of_fault, name_of_fault};

use std::alloc::{AllocError, AllocFailed};
use thiserror::Error;

/// Why the arithmetic on forms has no answer.
#[derive(Clone, Copy, Debug, PartialEq, Eq, Error)]
pub enum FormFault {
    /// A product or a partial sum leaves the range of `i128`.
    #[error("a coefficient or a constant is too large")]
    TooLarge,
    /// The divisor is below 1, or it does not divide some coefficient.
    #[error("the divisor does not divide the form")]
    NotDivisible,
}

impl FormFault {
    /// The number of the refusal: 5 TooLarge, 6 NotDivisible.
    pub fn number(&self) -> u8
        ensures { result ≡ number_of_fault self.now }
    {
        match self {
            FormFault::TooLarge => 5,
            FormFault::NotDivisible => 6,
        }
    }

    /// The name of the refusal.
    pub fn name(&self) -> &'static str
        ensures { result.now ≡ name_of_fault self.now }
    {
        match self {
            FormFault::TooLarge => "TooLarge",
            FormFault::NotDivisible => "NotDivisible",
        }
    }
}

/// Why a call on forms gave no form.
#[derive(Clone, Copy, Debug, PartialEq, Eq, Error)]
pub enum FormError {
    /// An allocation was refused.
    #[error("out of memory")]
    Memory,
    /// The arithmetic has no answer.
    #[error(transparent)]
    Fault(FormFault),
}

impl From<AllocError> for FormError {
    ghost from_gives = { λ _ e. e ≡ Memory };

    fn from(_: AllocError) -> FormError {
        FormError::Memory
    }
}

impl<T: Drop> From<AllocFailed<T>> for FormError {
    ghost from_gives = { λ _ e. e ≡ Memory };

    fn from(_: AllocFailed<T>) -> FormError {
        FormError::Memory
    }
}
