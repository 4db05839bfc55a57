//! The facts of a search, its rows by their terms, and its open choices.
//!
//! No contract promises anything of them: they guide a search.
#![tactic(auto)]

mod chains;
mod conflict;
mod denial;
mod index;
mod likeness;
mod open;
mod part;

pub use chains::Chains;
pub use conflict::{Cause, Conflict, Facts, Reach};
pub use denial::{Denials, denied_choice, is_denied, refuted_by};
pub use index::Index;
pub use likeness::mark_of_atom;
pub use open::{
    Candidate, Common, News, Open, View, common_to_choice, failing, forced, forced_among, untaken,
    weight,
};
pub use part::{Atom, Choice, Part};
