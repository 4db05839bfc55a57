//! Why there is no explanation.

ghost use Rattle.std.specs.Prelude.{◌≡◌};
ghost use Rattle.og_report_explain.specs.declared.unexplained.Unexplained.TheVariants.{Memory};

use std::alloc::{AllocError, AllocFailed};
use thiserror::Error;

/// Why there is no explanation.
#[derive(Clone, Copy, Debug, Drop, PartialEq, Eq, Error)]
pub enum Unexplained {
    /// A value leaves 128 bits, or what stands at a place is not as the condition needs it.
    #[error("open")]
    Open,
    /// An allocation was refused.
    #[error("out of memory")]
    Memory,
}

impl From<AllocError> for Unexplained {
    ghost from_gives = { λ _ e. e ≡ Memory };

    fn from(_: AllocError) -> Unexplained {
        Unexplained::Memory
    }
}

impl<T: Drop> From<AllocFailed<T>> for Unexplained {
    ghost from_gives = { λ _ e. e ≡ Memory };

    fn from(_: AllocFailed<T>) -> Unexplained {
        Unexplained::Memory
    }
}
