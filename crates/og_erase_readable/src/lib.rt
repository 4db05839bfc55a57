//! Relations with terms on both sides, as people write them.
//!
//! The tree of a program has its relations in collected form, all terms on the left and 0 on the
//! right. [`readable`] makes the tree of specs/Readable.antt, and [`print_readable`] prints it.
#![tactic(auto)]

mod assertions;
mod copies;
mod outlines;
mod sides;
mod statements;

pub use outlines::{print_readable, readable};
