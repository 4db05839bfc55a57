//! Why nothing is printed of a template.

ghost use Rattle.std.specs.Prelude.{◌≡◌};
ghost use Rattle.og_template_outline.specs.Faults.{number_of_fault, name_of_fault, place_of_fault};

use og_template::{TemplateError, TemplateFault};
use og_text::{LexError, LexFault};
use og_typed::{SourceError, SourceFault, TypeError, TypeFault};
use std::alloc::{AllocError, AllocFailed};

/// The fault of a template or its outline.
#[derive(Clone, Copy, Drop, PartialEq, Eq)]
pub enum ExpandFault {
    /// The text is not cut into words.
    Words(LexFault),
    /// The template is not as it must be, or has no outline under these values.
    Template(TemplateFault),
    /// The outline breaks a rule, at a place of the template.
    Outline(TypeFault),
    /// What would be printed has more than 1,048,576 bytes.
    ExpansionTooLong,
    /// What would be printed was not read back as it is meant.
    NotReadBack,
}

impl ExpandFault {
    /// The number under which the refusal is printed.
    pub fn number(&self) -> u8
        ensures { result ≡ number_of_fault self.now }
    {
        match self {
            ExpandFault::Words(fault) => SourceFault::Lex(*fault).number(),
            ExpandFault::Template(fault) => fault.kind.number(),
            ExpandFault::Outline(fault) => SourceFault::Resolve(*fault).number(),
            ExpandFault::ExpansionTooLong => 78,
            ExpandFault::NotReadBack => 80,
        }
    }

    /// The name under which the refusal is printed, in ASCII.
    pub fn name(&self) -> &'static str
        ensures { result.now ≡ name_of_fault self.now }
    {
        match self {
            ExpandFault::Words(fault) => SourceFault::Lex(*fault).name(),
            ExpandFault::Template(fault) => fault.kind.name(),
            ExpandFault::Outline(fault) => SourceFault::Resolve(*fault).name(),
            ExpandFault::ExpansionTooLong => "ExpansionTooLong",
            ExpandFault::NotReadBack => "NotReadBack",
        }
    }

    /// The byte offset in the template, from 0, where the fault has one.
    pub fn place(&self) -> Option<u32>
        ensures { result ≡ place_of_fault self.now }
    {
        match self {
            ExpandFault::Words(fault) => SourceFault::Lex(*fault).place(),
            ExpandFault::Template(fault) => Some(fault.at),
            ExpandFault::Outline(fault) => SourceFault::Resolve(*fault).place(),
            ExpandFault::ExpansionTooLong => None,
            ExpandFault::NotReadBack => None,
        }
    }
}

/// Why nothing is printed of a template.
#[derive(Clone, Copy, Drop)]
pub(crate) enum ExpandError {
    /// An allocation was refused.
    Memory,
    /// This is wrong.
    Fault(ExpandFault),
}

/// Why a text means no outline, with the words behind it.
#[derive(Clone, Copy, Drop, PartialEq, Eq)]
pub enum MeaningError<'a> {
    /// An allocation was refused.
    Memory,
    /// The first fault of a text that is read as an outline.
    Source(SourceFault),
    /// A fault of a template.
    Template(ExpandFault),
    /// The first word that gives no constant a value.
    BadValue(&'a str),
}

/// Why a text is not read again.
#[derive(Clone, Copy, Drop)]
pub(crate) enum Unread {
    /// An allocation was refused.
    Memory,
    /// The text has more than 1,048,576 bytes.
    TooLong,
    /// It is no outline, or another one.
    Other,
}

impl From<AllocError> for ExpandError {
    fn from(_: AllocError) -> ExpandError {
        ExpandError::Memory
    }
}

impl From<LexError> for ExpandError {
    fn from(error: LexError) -> ExpandError {
        match error {
            LexError::Memory => ExpandError::Memory,
            LexError::Fault(fault) => ExpandError::Fault(ExpandFault::Words(fault)),
        }
    }
}

impl From<TemplateError> for ExpandError {
    fn from(error: TemplateError) -> ExpandError {
        match error {
            TemplateError::Memory => ExpandError::Memory,
            TemplateError::Fault(fault) => ExpandError::Fault(ExpandFault::Template(fault)),
        }
    }
}

impl From<TypeError> for ExpandError {
    fn from(error: TypeError) -> ExpandError {
        match error {
            TypeError::Memory => ExpandError::Memory,
            TypeError::Fault(fault) => ExpandError::Fault(ExpandFault::Outline(fault)),
        }
    }
}

impl From<Unread> for ExpandError {
    fn from(unread: Unread) -> ExpandError {
        match unread {
            Unread::Memory => ExpandError::Memory,
            Unread::TooLong => ExpandError::Fault(ExpandFault::ExpansionTooLong),
            Unread::Other => ExpandError::Fault(ExpandFault::NotReadBack),
        }
    }
}

impl<'a> From<ExpandError> for MeaningError<'a> {
    ghost use Rattle.og_template_outline.specs.Errors.{of_template};

    ghost from_gives = { λ error e. e ≡ of_template error };

    fn from(error: ExpandError) -> MeaningError<'a> {
        match error {
            ExpandError::Memory => MeaningError::Memory,
            ExpandError::Fault(fault) => MeaningError::Template(fault),
        }
    }
}

impl<'a> From<SourceError> for MeaningError<'a> {
    ghost use Rattle.og_template_outline.specs.Errors.{of_source};

    ghost from_gives = { λ error e. e ≡ of_source error };

    fn from(error: SourceError) -> MeaningError<'a> {
        match error {
            SourceError::Memory => MeaningError::Memory,
            SourceError::Fault(fault) => MeaningError::Source(fault),
        }
    }
}

impl<'a> From<AllocError> for MeaningError<'a> {
    ghost use Rattle.og_template_outline.specs.declared.fault.MeaningError.TheVariants.{Memory};

    ghost from_gives = { λ _ e. e ≡ Memory };

    fn from(_: AllocError) -> MeaningError<'a> {
        MeaningError::Memory
    }
}

impl<'a, T: Drop> From<AllocFailed<T>> for MeaningError<'a> {
    ghost use Rattle.og_template_outline.specs.declared.fault.MeaningError.TheVariants.{Memory};

    ghost from_gives = { λ _ e. e ≡ Memory };

    fn from(_: AllocFailed<T>) -> MeaningError<'a> {
        MeaningError::Memory
    }
}

impl From<AllocError> for Unread {
    fn from(_: AllocError) -> Unread {
        Unread::Memory
    }
}
