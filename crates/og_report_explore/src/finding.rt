//! The finding at the end of a run, with the run.

use og_cond::Kind;
use og_subst::Values;
use og_typed::{Assert, Item, Note};

/// What a step did.
#[derive(Drop)]
pub enum Effect {
    /// Its test came out so.
    Tested(bool),
    /// It assigned these variables, in their order, each of which has this value then.
    Assigned(Vec<(u32, i64)>),
}

/// A step of a run.
#[derive(Drop)]
pub struct Row<'a> {
    /// The number of the process.
    pub process: u32,
    /// The statement, and the assertion before it.
    pub item: &'a Item,
    /// What it did.
    pub effect: Effect,
}

/// The violation at the end of a run. Processes have their numbers from 0; the main process has the
/// number after the last.
#[derive(Drop)]
pub enum Fault<'a> {
    /// The assertion at which this process stands is false: these conjuncts of it are.
    Assertion(u32, &'a Note, Vec<&'a Assert>),
    /// This process overflows at this statement: the variable would get this value, which is no
    /// `i64`.
    Overflow(u32, &'a Item, u32, i128),
    /// All have ended, and these conjuncts of the postcondition are false.
    Post(&'a Note, Vec<&'a Assert>),
    /// No process can step: each waits at a statement, or it has ended.
    Stuck(Vec<Option<&'a Item>>),
}

/// A condition of the outline that is false.
#[derive(Clone, Copy)]
pub struct Blame {
    /// Its number, counted from 1.
    pub number: usize,
    /// Its kind.
    pub kind: Kind,
    /// The byte offset of its action, of interference alone.
    pub action_at: Option<u32>,
    /// It is false before the last step of the run, and else at its end.
    pub before: bool,
}

/// The finding at the end of a run.
#[derive(Drop)]
pub struct Finding<'a> {
    /// The state at the start.
    pub start: Values,
    /// The steps.
    pub rows: Vec<Row<'a>>,
    /// The state at the end.
    pub state: Values,
    /// The violation there.
    pub fault: Fault<'a>,
    /// A condition that is false there, or before the last step.
    pub blame: Option<Blame>,
}
