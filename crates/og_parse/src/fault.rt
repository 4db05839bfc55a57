//! Why tokens have no tree.

ghost use Rattle.std.specs.Prelude.{◌≡◌};
ghost use Rattle.og_parse.specs.declared.fault.ParseError.TheVariants.{Memory};

use og_text::Span;
use std::alloc::{AllocError, AllocFailed};
use thiserror::Error;

/// The fault of a list of tokens, and the place of the token at which it is found.
#[derive(Clone, Copy, Debug, Drop, PartialEq, Eq, Error)]
pub enum ParseFault {
    /// No outline goes on with this token. Where the tokens end too early, the place is the empty
    /// one at the last token's end, or `0..0` without tokens.
    #[error("another token is expected")]
    Expected(Span),
    /// This token opens the 101st level of assertions, or of statements.
    #[error("the nesting is too deep")]
    TooDeep(Span),
    /// The 4,097th statement outside the bodies of awaits begins here.
    #[error("there are too many statements")]
    TooManyStatements(Span),
}

/// Why tokens were not parsed.
#[derive(Clone, Copy, Debug, Drop, PartialEq, Eq, Error)]
pub enum ParseError {
    /// Memory ran out.
    #[error("out of memory")]
    Memory,
    /// The tokens stand for no outline.
    #[error(transparent)]
    Fault(ParseFault),
}

impl ParseFault {
    ghost use Rattle.og_parse.specs.Faults.{fault_number, fault_name, fault_span};

    /// The number of the refusal.
    pub fn number(&self) -> u8
        ensures { result ≡ fault_number self.now }
    {
        match self {
            ParseFault::Expected(_) => 7,
            ParseFault::TooDeep(_) => 8,
            ParseFault::TooManyStatements(_) => 9,
        }
    }

    /// The name of the refusal.
    pub fn name(&self) -> &'static str
        ensures { result.now ≡ fault_name self.now }
    {
        match self {
            ParseFault::Expected(_) => "Expected",
            ParseFault::TooDeep(_) => "TooDeep",
            ParseFault::TooManyStatements(_) => "TooManyStatements",
        }
    }

    /// The place of the fault.
    pub fn span(&self) -> Span
        ensures { result ≡ fault_span self.now }
    {
        match self {
            ParseFault::Expected(span)
            | ParseFault::TooDeep(span)
            | ParseFault::TooManyStatements(span) => *span,
        }
    }
}

impl From<AllocError> for ParseError {
    ghost from_gives = { λ _ e. e ≡ Memory };

    fn from(_e: AllocError) -> ParseError {
        ParseError::Memory
    }
}

impl<T: Drop> From<AllocFailed<T>> for ParseError {
    ghost from_gives = { λ _ e. e ≡ Memory };

    fn from(_e: AllocFailed<T>) -> ParseError {
        ParseError::Memory
    }
}
