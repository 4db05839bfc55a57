//! Why a step of a schedule cannot be made.

/// Why a process has no step.
#[derive(Clone, Copy, PartialEq, Eq)]
pub(crate) enum Hindrance {
    /// There is no such process.
    NoProcess,
    /// It has nothing left to do.
    Ended,
    /// The program is stuck.
    Stuck,
    /// Its part of the program has not begun.
    Early,
    /// The guard of its next statement is false.
    Waits,
    /// A value of its next action is outside the range of `i64`.
    Overflow,
}
