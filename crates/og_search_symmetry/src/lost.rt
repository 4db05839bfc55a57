//! Why a certificate is not carried over.

use og_linear::FormError;
use std::alloc::{AllocError, AllocFailed};

/// Why a certificate is not carried over.
#[derive(Clone, Copy)]
pub(crate) enum Lost {
    /// An allocation was refused.
    Memory,
    /// Something that it uses has no counterpart.
    Counterpart,
}

impl From<AllocError> for Lost {
    fn from(_: AllocError) -> Lost {
        Lost::Memory
    }
}

impl<T: Drop> From<AllocFailed<T>> for Lost {
    fn from(_: AllocFailed<T>) -> Lost {
        Lost::Memory
    }
}

impl From<FormError> for Lost {
    fn from(error: FormError) -> Lost {
        match error {
            FormError::Memory => Lost::Memory,
            FormError::Fault(_) => Lost::Counterpart,
        }
    }
}
