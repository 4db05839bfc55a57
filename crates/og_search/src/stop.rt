//! Why a search ends without a certificate, and what ends the work on its rows.

use og_search_pigeons::Unrefuted;
use og_search_refutation::{Unshown, Unwritten};
use og_search_rows::{AddError, RowError};
use std::alloc::{AllocError, AllocFailed};

/// Why a search ends.
#[derive(Clone, Copy)]
pub(crate) enum Stop {
    /// An allocation was refused.
    Memory,
    /// The budget is spent.
    Budget,
    /// The values that the search holds make all facts true.
    Model,
    /// The refutation is too large.
    Size,
    /// There is nothing left to try.
    Stuck,
}

impl From<AllocError> for Stop {
    fn from(_: AllocError) -> Stop {
        Stop::Memory
    }
}

impl<T: Drop> From<AllocFailed<T>> for Stop {
    fn from(_: AllocFailed<T>) -> Stop {
        Stop::Memory
    }
}

impl From<RowError> for Stop {
    fn from(error: RowError) -> Stop {
        match error {
            RowError::Memory => Stop::Memory,
            RowError::Budget => Stop::Budget,
        }
    }
}

impl From<Unwritten> for Stop {
    fn from(unwritten: Unwritten) -> Stop {
        match unwritten {
            Unwritten::Memory => Stop::Memory,
            Unwritten::TooLarge => Stop::Stuck,
        }
    }
}

impl From<Unshown> for Stop {
    fn from(unshown: Unshown) -> Stop {
        match unshown {
            Unshown::Memory => Stop::Memory,
            Unshown::Budget => Stop::Budget,
            Unshown::TooLarge => Stop::Stuck,
        }
    }
}

impl From<Unrefuted> for Stop {
    fn from(unrefuted: Unrefuted) -> Stop {
        match unrefuted {
            Unrefuted::Memory => Stop::Memory,
            Unrefuted::Budget => Stop::Budget,
            Unrefuted::Size => Stop::Size,
            Unrefuted::Levels => Stop::Stuck,
        }
    }
}

/// What ends the work on the rows of a level.
#[derive(Clone, Copy)]
pub(crate) enum Halt {
    /// This row is a constant above 0, so the facts contradict each other.
    Contradiction(usize),
    /// The search ends.
    Stop(Stop),
}

impl From<Stop> for Halt {
    fn from(stop: Stop) -> Halt {
        Halt::Stop(stop)
    }
}

impl From<AllocError> for Halt {
    fn from(_: AllocError) -> Halt {
        Halt::Stop(Stop::Memory)
    }
}

impl<T: Drop> From<AllocFailed<T>> for Halt {
    fn from(_: AllocFailed<T>) -> Halt {
        Halt::Stop(Stop::Memory)
    }
}

impl From<RowError> for Halt {
    fn from(error: RowError) -> Halt {
        Halt::Stop(Stop::from(error))
    }
}

impl From<AddError> for Halt {
    fn from(error: AddError) -> Halt {
        match error {
            AddError::Contradiction(row) => Halt::Contradiction(row),
            AddError::Memory => Halt::Stop(Stop::Memory),
            AddError::Budget => Halt::Stop(Stop::Budget),
        }
    }
}
