//! The grammar: from tokens to the tree of an outline.
//!
//! [`parse`] returns the tree that the tokens stand for, or the first fault in token order. The
//! grammar itself is in specs/Grammar.antt, as relations between trees and lists of tokens, and the
//! faults are in specs/Faults.antt; both are apart from the reading, which goes from left to right
//! with one token of look-ahead ([`Cursor`]). [`one_tree`], [`one_answer`] and [`one_count`] are
//! laws about them, with nothing to run.
//!
//! [`expected`] finds which symbols may stand at a place by asking the parser itself: it puts a
//! token of each kind behind the tokens before the place, and sees whether some outline within the
//! limits begins so. [`alike`] is a law: another name, number or place of a token makes no
//! difference.
#![tactic(auto)]

mod asking;
mod assertions;
mod basic;
mod cursor;
mod fault;
mod kinds;
mod laws;
mod outline;
mod raw;
mod refusal;
mod statements;
mod sum;
mod whole;
mod word;

pub use asking::{expected, is_whole};
pub use cursor::Cursor;
pub use fault::{ParseError, ParseFault};
pub use laws::alike;
pub use raw::{
    Raw, RawAssert, RawAux, RawBasic, RawElement, RawFactor, RawInt, RawItem, RawName, RawNote,
    RawProcesses, RawSeq, RawStmt, RawSum, RawTerm, Relation, Sign,
};
pub use refusal::{FaultKind, Refusal};
pub use statements::begins_statement;
pub use whole::{one_answer, one_count, one_tree, parse};
pub use word::relation_of;
