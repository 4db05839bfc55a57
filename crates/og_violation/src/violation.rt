//! The violation, and the run that leads there.

use og_linear::State;

/// The violation at a moment. Processes have their numbers from 0, in the order of the text; the
/// main process has the number after the last.
#[derive(Clone, Copy, Drop, PartialEq, Eq)]
pub enum Wrong {
    /// The current assertion of this process, which is active, is false.
    Assertion(u32),
    /// A value of the next action of this process, which is active, is outside the range of `i64`.
    Overflow(u32),
    /// All have ended, and the postcondition is false.
    Post,
    /// Not all have ended, and no process can step.
    Stuck,
}

/// A run, and the violation at its end. The values are those of the variables that are no
/// auxiliaries, at the start.
#[derive(Drop)]
pub struct Violation {
    /// The values at the start.
    pub values: State,
    /// The numbers of the processes that moved, in order.
    pub history: Vec<u32>,
    /// The violation at the end.
    pub wrong: Wrong,
}
