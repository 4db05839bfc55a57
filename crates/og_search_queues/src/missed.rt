//! Why no queue is seen.

use std::alloc::{AllocError, AllocFailed};

/// Why no queue is seen.
#[derive(Clone, Copy)]
pub(crate) enum Missed {
    /// An allocation was refused.
    Memory,
    /// A fact is missing that says what it is.
    Fact,
}

impl From<AllocError> for Missed {
    fn from(_: AllocError) -> Missed {
        Missed::Memory
    }
}

impl<T: Drop> From<AllocFailed<T>> for Missed {
    fn from(_: AllocFailed<T>) -> Missed {
        Missed::Memory
    }
}
