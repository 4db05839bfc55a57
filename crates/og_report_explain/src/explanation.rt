//! What explains that a condition is false in a state.

use og_subst::Values;
use og_typed::{Assert, Note, NoteSite, StatementSite};

/// A test or a guard with its truth.
#[derive(Clone, Copy)]
pub struct Test<'a> {
    pub site: StatementSite<'a>,
    pub holds: bool,
}

/// Where a process stands that has no step. The assertion there is true, but perhaps not where a
/// run gets stuck.
#[derive(Clone, Copy)]
pub enum Stand<'a> {
    /// Before an await whose guard is false.
    Waits(StatementSite<'a>),
    /// At its last assertion.
    Ended(NoteSite<'a>),
}

/// What makes the condition false.
#[derive(Drop)]
pub enum Fault<'a> {
    /// These conjuncts of an assertion are false, after the action if there is one.
    False(&'a Note, Vec<&'a Assert>),
    /// The variable is assigned this value, which is no `i64`.
    TooLarge(u32, i128),
    /// All processes have ended or wait.
    Blocked(Vec<Stand<'a>>),
}

/// Why a condition is false in a state.
#[derive(Drop)]
pub struct Explanation<'a> {
    /// The assertions among the hypotheses, which are true.
    pub known: Vec<&'a Note>,
    /// Whether the auxiliaries have their initial values, as the condition says.
    pub starts: bool,
    /// The test that the condition speaks of.
    pub test: Option<Test<'a>>,
    /// The condition's action.
    pub action: Option<StatementSite<'a>>,
    /// The state after the action; the state itself where there is none.
    pub after: Values,
    pub fault: Fault<'a>,
}
