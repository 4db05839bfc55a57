//! Conditions: claims over all states, which borrow their assertions from the outline.

use crate::kind::Kind;
use og_subst::Action;
use og_typed::Assert;

/// An assertion that is true, or false.
#[derive(Clone, Copy)]
pub enum Part<'a> {
    Yes(&'a Assert),
    No(&'a Assert),
}

/// What a condition starts from.
#[derive(Drop)]
pub enum Hypothesis<'a> {
    /// This part.
    Is(Part<'a>),
    /// The variable has this value.
    Starts(u32, i64),
    /// All parts of one of these lists.
    OneOf(Vec<Vec<Part<'a>>>),
}

/// What a condition claims.
#[derive(Clone, Copy)]
pub enum Goal<'a> {
    /// The assertion, after the action if there is one.
    Holds(&'a Assert),
    /// Each value that the action assigns, in order, is an `i64`.
    Fits,
    /// Nothing can: the hypotheses are never true together.
    Never,
}

/// In each state of `i64` values in which the hypotheses are true, the goal is true.
#[derive(Drop)]
pub struct Condition<'a> {
    pub kind: Kind,
    /// The byte offset of the part asked about.
    pub at: u32,
    /// The byte offset of the action, of `Interfere` alone.
    pub action_at: Option<u32>,
    /// How many variables the outline has.
    pub variables: u32,
    pub hypotheses: Vec<Hypothesis<'a>>,
    pub goal: Goal<'a>,
    pub action: Option<Action<'a>>,
}
