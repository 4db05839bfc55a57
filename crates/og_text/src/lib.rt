//! The lexemes of a source text, and where they stand.
//!
//! [`lex`] cuts a text into tokens, or returns its fault and the byte of it. [`line_col`] and
//! [`LineIndex`] turn a byte offset into a line and a column for a reader.
#![tactic(auto)]

mod bytes;
mod fault;
mod front;
mod laws;
mod lexer;
mod limits;
mod lines;
mod name;
mod place;
mod symbol;
mod token;
mod word;

pub use fault::{LexError, LexFault};
pub use laws::{one_cut, places_within};
pub use lexer::lex;
pub use limits::{NAME_LIMIT, NUMBER_LIMIT, SOURCE_LIMIT};
pub use lines::LineIndex;
pub use name::Name;
pub use place::{Span, line_col};
pub use token::{Token, TokenKind};
