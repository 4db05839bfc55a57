//! Why a part was not read.

ghost use Rattle.std.specs.Prelude.{◌≡◌};
ghost use Rattle.og_parse.specs.declared.refusal.Refusal.TheVariants.{Memory};

use std::alloc::{AllocError, AllocFailed};

/// The fault at a token.
#[derive(Clone, Copy, Drop, PartialEq, Eq)]
pub enum FaultKind {
    /// No list of the grammar goes on with the token.
    Expected,
    /// The token opens one level too many.
    TooDeep,
}

/// Why a part was not read.
#[derive(Clone, Copy, Drop, PartialEq, Eq)]
pub enum Refusal {
    /// Memory ran out.
    Memory,
    /// A fault at the token where the cursor was left, or at the tokens' end.
    Fault(FaultKind),
}

impl From<AllocError> for Refusal {
    ghost from_gives = { λ _ e. e ≡ Memory };

    fn from(_e: AllocError) -> Refusal {
        Refusal::Memory
    }
}

impl<T: Drop> From<AllocFailed<T>> for Refusal {
    ghost from_gives = { λ _ e. e ≡ Memory };

    fn from(_e: AllocFailed<T>) -> Refusal {
        Refusal::Memory
    }
}
