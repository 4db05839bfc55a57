//! The text of a tree, and two trees compared.
//!
//! [`print_outline`] and [`print_program`] return the text of a tree, as specs/Print.antt has it.
//! What is printed of a parsed tree has the same tree again, apart from its places; [`same_tree`]
//! compares two trees so.
#![tactic(auto)]

mod assertions;
mod outline;
mod same_assertions;
mod same_outlines;
mod same_statements;
mod same_sums;
mod statements;
mod terms;

pub use outline::{print_outline, print_program};
pub use same_outlines::same_tree;
