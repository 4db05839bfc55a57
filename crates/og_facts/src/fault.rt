//! Why the facts are not listed.

ghost use Rattle.std.specs.Prelude.{◌≡◌};
ghost use Rattle.og_facts.specs.declared.fault.FactsError.TheVariants.{Memory};
ghost use Rattle.og_facts.specs.Names.{number_of_fault, name_of_fault};

use std::alloc::{AllocError, AllocFailed};
use thiserror::Error;

/// Why a condition has no list of facts.
#[derive(Clone, Copy, Debug, PartialEq, Eq, Error)]
pub enum FactsFault {
    /// The condition has more than 10,000 facts.
    #[error("there are more than 10000 facts")]
    TooManyFacts,
    /// A product, a partial sum or a negation leaves the range of `i128`.
    #[error("a coefficient or a constant is too large")]
    TooLarge,
}

impl FactsFault {
    /// The number of the refusal: 35 TooManyFacts, 5 TooLarge.
    pub fn number(&self) -> u8
        ensures { result ≡ number_of_fault self.now }
    {
        match self {
            FactsFault::TooManyFacts => 35,
            FactsFault::TooLarge => 5,
        }
    }

    /// The name of the refusal, in ASCII.
    pub fn name(&self) -> &'static str
        ensures { result.now ≡ name_of_fault self.now }
    {
        match self {
            FactsFault::TooManyFacts => "TooManyFacts",
            FactsFault::TooLarge => "TooLarge",
        }
    }
}

/// Why a call gave no list of facts.
#[derive(Clone, Copy, Debug, PartialEq, Eq, Error)]
pub enum FactsError {
    /// An allocation was refused.
    #[error("out of memory")]
    Memory,
    /// The condition has no list of facts.
    #[error(transparent)]
    Fault(FactsFault),
}

impl From<AllocError> for FactsError {
    ghost from_gives = { λ _ e. e ≡ Memory };

    fn from(_: AllocError) -> FactsError {
        FactsError::Memory
    }
}

impl<T: Drop> From<AllocFailed<T>> for FactsError {
    ghost from_gives = { λ _ e. e ≡ Memory };

    fn from(_: AllocFailed<T>) -> FactsError {
        FactsError::Memory
    }
}
