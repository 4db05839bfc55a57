//! The literals of an outline: sums of its variables that are compared with numbers, of which
//! candidates for its assertions are made, from its text and from the states that were seen.
//!
//! [`Literals`] has them by number. An [`Atom`] is one in a normal form. [`Room`] says how many of
//! them, and of equations, there is room for. No contract promises anything of them: what is inferred
//! by them is judged by its conditions.
#![tactic(auto)]

mod atom;
mod clauses;
mod comparison;
mod domains;
mod gathering;
mod links;
mod literals;
mod room;
mod study;
mod sums;
mod table;
mod text;

pub use atom::Atom;
pub use comparison::{Comparison, Relation};
pub use literals::Literals;
pub use room::{Room, count};
pub use sums::{exchanged, form_of, is_turned, mentions, sum_at, turn};
pub use table::Sum;
