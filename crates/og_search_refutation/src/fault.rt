//! Why a refutation is not written, or not found.

use og_search_rows::RowError;
use std::alloc::{AllocError, AllocFailed};

/// Why a leaf or a certificate is not written.
#[derive(Clone, Copy)]
pub enum Unwritten {
    /// An allocation was refused.
    Memory,
    /// A number is too large.
    TooLarge,
}

impl From<AllocError> for Unwritten {
    fn from(_: AllocError) -> Unwritten {
        Unwritten::Memory
    }
}

impl<T: Drop> From<AllocFailed<T>> for Unwritten {
    fn from(_: AllocFailed<T>) -> Unwritten {
        Unwritten::Memory
    }
}

/// Why a conflict is not refuted.
#[derive(Clone, Copy)]
pub enum Unshown {
    /// An allocation was refused.
    Memory,
    /// The budget is spent.
    Budget,
    /// A number of the leaf is too large.
    TooLarge,
}

impl From<AllocError> for Unshown {
    fn from(_: AllocError) -> Unshown {
        Unshown::Memory
    }
}

impl From<RowError> for Unshown {
    fn from(error: RowError) -> Unshown {
        match error {
            RowError::Memory => Unshown::Memory,
            RowError::Budget => Unshown::Budget,
        }
    }
}

impl From<Unwritten> for Unshown {
    fn from(unwritten: Unwritten) -> Unshown {
        match unwritten {
            Unwritten::Memory => Unshown::Memory,
            Unwritten::TooLarge => Unshown::TooLarge,
        }
    }
}
