//! Why a row is not made.

ghost use Rattle.std.specs.Prelude.{◌≡◌};
ghost use Rattle.og_search_rows.specs.declared.error.AddError.TheVariants as adding;
ghost use Rattle.og_search_rows.specs.Errors.{as_add_error};

use std::alloc::{AllocError, AllocFailed};

/// Why a row is not made.
#[derive(Clone, Copy)]
pub enum RowError {
    /// An allocation was refused.
    Memory,
    /// The budget is spent.
    Budget,
}

/// What ends the work on rows.
#[derive(Clone, Copy)]
pub enum AddError {
    /// This row is a constant above 0, so the facts contradict each other.
    Contradiction(usize),
    /// An allocation was refused.
    Memory,
    /// The budget is spent.
    Budget,
}

impl From<AllocError> for RowError {
    fn from(_: AllocError) -> RowError {
        RowError::Memory
    }
}

impl<T: Drop> From<AllocFailed<T>> for RowError {
    fn from(_: AllocFailed<T>) -> RowError {
        RowError::Memory
    }
}

impl From<RowError> for AddError {
    ghost from_gives = { λ x e. e ≡ as_add_error x };

    fn from(error: RowError) -> AddError {
        match error {
            RowError::Memory => AddError::Memory,
            RowError::Budget => AddError::Budget,
        }
    }
}

impl From<AllocError> for AddError {
    ghost from_gives = { λ _ e. e ≡ adding.Memory };

    fn from(_: AllocError) -> AddError {
        AddError::Memory
    }
}

impl<T: Drop> From<AllocFailed<T>> for AddError {
    ghost from_gives = { λ _ e. e ≡ adding.Memory };

    fn from(_: AllocFailed<T>) -> AddError {
        AddError::Memory
    }
}
