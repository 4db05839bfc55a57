//! The fault of a template.

ghost use Rattle.std.specs.Prelude.{◌≡◌};
ghost use Rattle.og_template.specs.Faults.{number_of_kind, name_of_kind};
ghost use Rattle.og_template.specs.declared.fault.TemplateError.TheVariants.{Memory};

use std::alloc::{AllocError, AllocFailed};
use thiserror::Error;

/// What may be wrong with a template at a place.
#[derive(Clone, Copy, Debug, Drop, PartialEq, Eq)]
pub enum FaultKind {
    /// An element's name has more than 64 bytes.
    NameTooLong,
    /// No template goes on with this word.
    Expected,
    /// This word opens the 101st level.
    TooDeep,
    /// This is the 4,097th statement.
    TooManyStatements,
    /// The name is not in scope.
    Undeclared,
    /// The name is in scope already.
    DeclaredTwice,
    /// The name ends in `_` and digits, as the names of elements do.
    ReservedName,
    /// The name stands in a place for another kind of names.
    WrongKind,
    /// The named assertion has another number of parameters.
    WrongCount,
    /// The index is not in the family's range.
    OutOfRange,
    /// The value leaves 64 bits.
    ValueTooLarge,
    /// The modulus is below 1.
    BadModulus,
    /// The range begins below 0, or has more than 256 values.
    BadRange,
    /// The expansion takes more than 2,097,152 steps.
    TooManySteps,
    /// No step, element or process is left.
    NothingLeft,
}

impl FaultKind {
    /// The number under which the refusal is printed.
    pub fn number(&self) -> u8
        ensures { result ≡ number_of_kind self.now }
    {
        match self {
            FaultKind::NameTooLong => 3,
            FaultKind::Expected => 7,
            FaultKind::TooDeep => 8,
            FaultKind::TooManyStatements => 9,
            FaultKind::Undeclared => 10,
            FaultKind::DeclaredTwice => 11,
            FaultKind::ReservedName => 70,
            FaultKind::WrongKind => 71,
            FaultKind::WrongCount => 72,
            FaultKind::OutOfRange => 73,
            FaultKind::ValueTooLarge => 74,
            FaultKind::BadModulus => 75,
            FaultKind::BadRange => 76,
            FaultKind::TooManySteps => 77,
            FaultKind::NothingLeft => 79,
        }
    }

    /// The name under which the refusal is printed, in ASCII.
    pub fn name(&self) -> &'static str
        ensures { result.now ≡ name_of_kind self.now }
    {
        match self {
            FaultKind::NameTooLong => "NameTooLong",
            FaultKind::Expected => "Expected",
            FaultKind::TooDeep => "TooDeep",
            FaultKind::TooManyStatements => "TooManyStatements",
            FaultKind::Undeclared => "Undeclared",
            FaultKind::DeclaredTwice => "DeclaredTwice",
            FaultKind::ReservedName => "ReservedName",
            FaultKind::WrongKind => "WrongKind",
            FaultKind::WrongCount => "WrongCount",
            FaultKind::OutOfRange => "OutOfRange",
            FaultKind::ValueTooLarge => "ValueTooLarge",
            FaultKind::BadModulus => "BadModulus",
            FaultKind::BadRange => "BadRange",
            FaultKind::TooManySteps => "TooManySteps",
            FaultKind::NothingLeft => "NothingLeft",
        }
    }
}

/// The fault of a template, and the byte offset at which, from 0.
#[derive(Clone, Copy, Debug, Drop, PartialEq, Eq, Error)]
#[error("{} at byte {at}", self.kind.name())]
pub struct TemplateFault {
    pub kind: FaultKind,
    pub at: u32,
}

/// Why a template was not read or expanded.
#[derive(Clone, Copy, Debug, Drop, PartialEq, Eq, Error)]
pub enum TemplateError {
    /// An allocation was refused.
    #[error("out of memory")]
    Memory,
    /// The template has this fault.
    #[error(transparent)]
    Fault(TemplateFault),
}

impl TemplateError {
    /// The error of a fault of a kind at a byte offset.
    pub fn at(kind: FaultKind, at: u32) -> TemplateError {
        TemplateError::Fault(TemplateFault { kind, at })
    }
}

impl From<AllocError> for TemplateError {
    ghost from_gives = { λ _ e. e ≡ Memory };

    fn from(_e: AllocError) -> TemplateError {
        TemplateError::Memory
    }
}

impl<T: Drop> From<AllocFailed<T>> for TemplateError {
    ghost from_gives = { λ _ e. e ≡ Memory };

    fn from(_e: AllocFailed<T>) -> TemplateError {
        TemplateError::Memory
    }
}
