//! What comes of an act.

/// What came of an act of a process: the first that applies, in this order. `Waits` and `Moved`
/// come last in the order of the checks, and only `Moved` changes the history.
#[derive(Clone, Copy, Drop, PartialEq, Eq)]
pub enum RunTurn {
    /// A process overflows: a value of its next action is outside the range of `i64`. From then on
    /// every turn is this one.
    Overflow,
    /// The process has nothing left to do.
    Done,
    /// The program is stuck: no process can step any more.
    Stuck,
    /// The history is as long as the limit.
    Limit,
    /// The process has something left to do, but its part of the program has not begun.
    Early,
    /// The guard of the await that comes next is false.
    Waits,
    /// The process made its step.
    Moved,
}
