//! The names of a text, an outline or a template: where they are declared and stand, which may be
//! given in place of one, and which words may be written at a place.
#![tactic(auto)]

mod choosing;
mod declaring;
mod front;
mod keyword;
mod meaning;
mod names;
mod using;

pub use choosing::{Choice, ChoiceKind, choices_at};
pub use declaring::{Symbol, SymbolKind, symbols};
pub use meaning::{Meaning, meaning_of};
pub use names::{NameFault, name_at, name_fault, spans_of, words_or_none};
