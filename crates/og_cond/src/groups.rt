//! Where the listing of an outline's conditions in groups has come to.

use crate::watched::Side;
use og_typed::Outline;

/// Which group comes next.
#[derive(Clone, Copy)]
pub(crate) enum Next {
    /// The conditions before interference.
    First,
    /// An action of a process against the others, both counted from 0.
    Action { process: usize, action: usize },
    /// None.
    Nothing,
}

/// The conditions of an outline in the order of their numbers, in groups that are made one after
/// the other: so no more than one group is in memory.
#[derive(Drop)]
pub struct Groups<'a> {
    pub(crate) outline: &'a Outline,
    pub(crate) sides: Vec<Side<'a>>,
    pub(crate) next: Next,
}
