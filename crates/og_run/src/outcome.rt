//! How a run ends.

use og_linear::State;

/// How a run ends: the first that is true of its last moment, in this order.
#[derive(Clone, Copy, Drop, PartialEq, Eq)]
pub enum Finish {
    /// No process has anything left to do.
    Finished,
    /// The program is stuck: it has not finished, and no process can step.
    Stuck,
    /// The history is as long as the limit.
    Limit,
    /// The process of this number, from 0, overflows: a value of its next action is outside the
    /// range of `i64`.
    Overflow(u32),
}

/// What a run came to.
#[derive(Drop)]
pub struct Outcome {
    /// How it ended.
    pub finish: Finish,
    /// The values of the variables at the end.
    pub state: State,
    /// The numbers of the processes that moved, from 0, in order; the main process has the number
    /// after the last.
    pub history: Vec<u32>,
}
