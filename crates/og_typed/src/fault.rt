//! Why a tree is no outline.

ghost use Rattle.std.specs.Prelude.{◌≡◌};
ghost use Rattle.og_typed.specs.declared.fault.TypeError.TheVariants.{Memory};
ghost use Rattle.og_typed.specs.Faults.{number_of_fault, name_of_fault, place_of_fault};

use std::alloc::{AllocError, AllocFailed};
use thiserror::Error;

/// The fault of a tree, and the byte offset in the source, counted from 0.
#[derive(Clone, Copy, Debug, PartialEq, Eq, Error)]
pub enum TypeFault {
    /// The name that is used here is not declared.
    #[error("the name at byte {0} is not declared")]
    Undeclared(u32),
    /// The name that is declared here was declared before.
    #[error("the name at byte {0} is declared twice")]
    DeclaredTwice(u32),
    /// An auxiliary stands in a test, a guard, or the right side of an assignment to a variable
    /// that is no auxiliary.
    #[error("the auxiliary at byte {0} is used outside assignments to auxiliaries")]
    AuxUsed(u32),
    /// An auxiliary stands in the precondition or the postcondition.
    #[error("the auxiliary at byte {0} is used in the precondition or the postcondition")]
    AuxInPrePost(u32),
    /// The form that begins here has a coefficient or a constant beyond the limits, or the initial
    /// value here is no `i64`.
    #[error("the numbers at byte {0} are too large")]
    CoefficientTooLarge(u32),
    /// The 257th variable is declared here.
    #[error("the variable at byte {0} is one too many")]
    TooManyVariables(u32),
    /// The 257th process begins here.
    #[error("the process at byte {0} is one too many")]
    TooManyProcesses(u32),
    /// The 65th element of the body of an await begins here.
    #[error("the body of the await is too long at byte {0}")]
    AwaitTooLong(u32),
}

impl TypeFault {
    /// The number under which the refusal is printed, from 10 to 17.
    pub fn number(&self) -> u8
        ensures { result ≡ number_of_fault self.now }
    {
        match self {
            TypeFault::Undeclared(_) => 10,
            TypeFault::DeclaredTwice(_) => 11,
            TypeFault::AuxUsed(_) => 12,
            TypeFault::AuxInPrePost(_) => 13,
            TypeFault::CoefficientTooLarge(_) => 14,
            TypeFault::TooManyVariables(_) => 15,
            TypeFault::TooManyProcesses(_) => 16,
            TypeFault::AwaitTooLong(_) => 17,
        }
    }

    /// The name under which the refusal is printed, in ASCII.
    pub fn name(&self) -> &'static str
        ensures { result.now ≡ name_of_fault self.now }
    {
        match self {
            TypeFault::Undeclared(_) => "Undeclared",
            TypeFault::DeclaredTwice(_) => "DeclaredTwice",
            TypeFault::AuxUsed(_) => "AuxUsed",
            TypeFault::AuxInPrePost(_) => "AuxInPrePost",
            TypeFault::CoefficientTooLarge(_) => "CoefficientTooLarge",
            TypeFault::TooManyVariables(_) => "TooManyVariables",
            TypeFault::TooManyProcesses(_) => "TooManyProcesses",
            TypeFault::AwaitTooLong(_) => "AwaitTooLong",
        }
    }

    /// The byte offset at which the refusal stands.
    pub fn place(&self) -> u32
        ensures { result ≡ place_of_fault self.now }
    {
        match self {
            TypeFault::Undeclared(at)
            | TypeFault::DeclaredTwice(at)
            | TypeFault::AuxUsed(at)
            | TypeFault::AuxInPrePost(at)
            | TypeFault::CoefficientTooLarge(at)
            | TypeFault::TooManyVariables(at)
            | TypeFault::TooManyProcesses(at)
            | TypeFault::AwaitTooLong(at) => *at,
        }
    }
}

/// Why a tree was not resolved.
#[derive(Clone, Copy, Debug, PartialEq, Eq, Error)]
pub enum TypeError {
    /// An allocation was refused.
    #[error("out of memory")]
    Memory,
    /// The tree has this fault.
    #[error(transparent)]
    Fault(TypeFault),
}

impl From<AllocError> for TypeError {
    ghost from_gives = { λ _ e. e ≡ Memory };

    fn from(_: AllocError) -> TypeError {
        TypeError::Memory
    }
}

impl<T: Drop> From<AllocFailed<T>> for TypeError {
    ghost from_gives = { λ _ e. e ≡ Memory };

    fn from(_: AllocFailed<T>) -> TypeError {
        TypeError::Memory
    }
}
