//! Why a command has no answer to its input.

ghost use Rattle.std.specs.Prelude.{◌≡◌};
ghost use Rattle.og_report_text.specs.InputErrors.{of_source, of_conditions, of_certs};
ghost use Rattle.og_report_text.specs.declared.input_error.InputError.TheVariants.{Memory};

use crate::fault::InputFault;
use og_cert_text::CertTextError;
use og_cond::ConditionsError;
use og_typed::SourceError;
use std::alloc::{AllocError, AllocFailed};
use thiserror::Error;

/// Why a command has no answer to its input. `Memory` says nothing of the input.
#[derive(Clone, Copy, Debug, PartialEq, Eq, Error)]
pub enum InputError {
    /// The source or the certificates have this fault.
    #[error(transparent)]
    Fault(InputFault),
    /// An allocation was refused.
    #[error("out of memory")]
    Memory,
}

impl From<SourceError> for InputError {
    ghost from_gives = { λ error e. e ≡ of_source error };

    fn from(error: SourceError) -> InputError {
        match error {
            SourceError::Fault(fault) => InputError::Fault(InputFault::Source(fault)),
            SourceError::Memory => InputError::Memory,
        }
    }
}

impl From<ConditionsError> for InputError {
    ghost from_gives = { λ error e. e ≡ of_conditions error };

    fn from(error: ConditionsError) -> InputError {
        match error {
            ConditionsError::Fault(fault) => InputError::Fault(InputFault::Conditions(fault)),
            ConditionsError::Memory => InputError::Memory,
        }
    }
}

impl From<CertTextError> for InputError {
    ghost from_gives = { λ error e. e ≡ of_certs error };

    fn from(error: CertTextError) -> InputError {
        match error {
            CertTextError::Fault(fault) => InputError::Fault(InputFault::Certs(fault)),
            CertTextError::Memory => InputError::Memory,
        }
    }
}

impl From<AllocError> for InputError {
    ghost from_gives = { λ _ e. e ≡ Memory };

    fn from(_: AllocError) -> InputError {
        InputError::Memory
    }
}

impl<T: Drop> From<AllocFailed<T>> for InputError {
    ghost from_gives = { λ _ e. e ≡ Memory };

    fn from(_: AllocFailed<T>) -> InputError {
        InputError::Memory
    }
}
