//! Why pigeons are not refuted.

use og_search_refutation::Unshown;
use og_search_rows::RowError;
use std::alloc::{AllocError, AllocFailed};

/// Why pigeons are not refuted.
#[derive(Clone, Copy)]
pub enum Unrefuted {
    /// An allocation was refused.
    Memory,
    /// The budget is spent.
    Budget,
    /// The refutation is too large.
    Size,
    /// There are too few levels, or a number is too large.
    Levels,
}

impl From<AllocError> for Unrefuted {
    fn from(_: AllocError) -> Unrefuted {
        Unrefuted::Memory
    }
}

impl<T: Drop> From<AllocFailed<T>> for Unrefuted {
    fn from(_: AllocFailed<T>) -> Unrefuted {
        Unrefuted::Memory
    }
}

impl From<RowError> for Unrefuted {
    fn from(error: RowError) -> Unrefuted {
        match error {
            RowError::Memory => Unrefuted::Memory,
            RowError::Budget => Unrefuted::Budget,
        }
    }
}

impl From<Unshown> for Unrefuted {
    fn from(unshown: Unshown) -> Unrefuted {
        match unshown {
            Unshown::Memory => Unrefuted::Memory,
            Unshown::Budget => Unrefuted::Budget,
            Unshown::TooLarge => Unrefuted::Levels,
        }
    }
}
