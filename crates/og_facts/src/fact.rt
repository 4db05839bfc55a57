//! Facts: linear inequalities, and choices between lists of facts.

use crate::atom::Atom;

/// The known facts of a state.
#[derive(Debug, Drop)]
pub enum Fact<'a> {
    /// The form is at most 0.
    Atom(Atom<'a>),
    /// All facts of one of the parts.
    Split(Vec<Vec<Fact<'a>>>),
}
