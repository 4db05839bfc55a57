//! Questions to the finder, and its answers.

use crate::obligation::Obligation;
use og_typed::Assert;

/// What is taken at a place besides the author's assertion.
#[derive(Clone, Copy)]
pub struct Taken<'q> {
    pub place: u32,
    pub assertion: &'q Assert,
}

/// What is asked of an obligation.
#[derive(Clone, Copy)]
pub enum Goal<'q> {
    /// This assertion, after the action if there is one.
    Holds(&'q Assert),
    /// What the obligation claims: of a place the author's assertion.
    Claimed,
}

/// Whether an obligation gives a goal with what is taken.
#[derive(Clone, Copy)]
pub struct Question<'q, 'a> {
    pub obligation: &'q Obligation<'a>,
    /// What is taken at the places of the obligation; of other places it is left out.
    pub taken: &'q [Taken<'q>],
    pub goal: Goal<'q>,
}

/// The answer to a question.
#[derive(Drop)]
pub enum Answer {
    /// It does.
    True,
    /// In this state, before the action, what is taken is true, and the goal is false.
    False(Vec<i64>),
    /// The search found nothing.
    Open,
}
