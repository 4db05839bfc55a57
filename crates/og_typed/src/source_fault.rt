//! Why a source has no outline.

ghost use Rattle.std.specs.Prelude.{◌≡◌};
ghost use Rattle.og_typed.specs.SourceFaults.{number_of_source, name_of_source, place_of_source};
ghost use Rattle.og_typed.specs.Errors.{of_lex, of_parse, of_type};

use crate::{TypeError, TypeFault};
use og_parse::{ParseError, ParseFault};
use og_text::{LexError, LexFault};
use thiserror::Error;

/// The fault of a source: the first of these that applies, in this order.
#[derive(Clone, Copy, Debug, PartialEq, Eq, Error)]
pub enum SourceFault {
    /// It is not cut into tokens.
    #[error(transparent)]
    Lex(LexFault),
    /// Its tokens stand for no outline.
    #[error(transparent)]
    Parse(ParseFault),
    /// Its names or numbers are not as they must be.
    #[error(transparent)]
    Resolve(TypeFault),
}

impl SourceFault {
    /// The number under which the refusal is printed, from 1 to 17.
    pub fn number(&self) -> u8
        ensures { result ≡ number_of_source self.now }
    {
        match self {
            SourceFault::Lex(fault) => fault.number(),
            SourceFault::Parse(fault) => fault.number(),
            SourceFault::Resolve(fault) => fault.number(),
        }
    }

    /// The name under which the refusal is printed, in ASCII.
    pub fn name(&self) -> &'static str
        ensures { result.now ≡ name_of_source self.now }
    {
        match self {
            SourceFault::Lex(fault) => fault.name(),
            SourceFault::Parse(fault) => fault.name(),
            SourceFault::Resolve(fault) => fault.name(),
        }
    }

    /// The byte offset at which the fault stands, from 0; `None` where the source is too long.
    pub fn place(&self) -> Option<u32>
        ensures { result ≡ place_of_source self.now }
    {
        match self {
            SourceFault::Lex(fault) => fault.place(),
            SourceFault::Parse(fault) => Some(fault.span().start),
            SourceFault::Resolve(fault) => Some(fault.place()),
        }
    }
}

/// Why a source was not read.
#[derive(Clone, Copy, Debug, PartialEq, Eq, Error)]
pub enum SourceError {
    /// An allocation was refused.
    #[error("out of memory")]
    Memory,
    /// The source has this fault.
    #[error(transparent)]
    Fault(SourceFault),
}

impl From<LexError> for SourceError {
    ghost from_gives = { λ error e. e ≡ of_lex error };

    fn from(error: LexError) -> SourceError {
        match error {
            LexError::Fault(fault) => SourceError::Fault(SourceFault::Lex(fault)),
            LexError::Memory => SourceError::Memory,
        }
    }
}

impl From<ParseError> for SourceError {
    ghost from_gives = { λ error e. e ≡ of_parse error };

    fn from(error: ParseError) -> SourceError {
        match error {
            ParseError::Fault(fault) => SourceError::Fault(SourceFault::Parse(fault)),
            ParseError::Memory => SourceError::Memory,
        }
    }
}

impl From<TypeError> for SourceError {
    ghost from_gives = { λ error e. e ≡ of_type error };

    fn from(error: TypeError) -> SourceError {
        match error {
            TypeError::Fault(fault) => SourceError::Fault(SourceFault::Resolve(fault)),
            TypeError::Memory => SourceError::Memory,
        }
    }
}
