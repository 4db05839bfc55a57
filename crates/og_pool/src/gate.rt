//! Gates, which hear of the workers' progress.

/// Hears of each condition before and after it. It has no part in the answers.
pub trait Gate: Sync {
    /// The workers are about to look at this many conditions.
    fn begin(&self, _count: u32) {}

    /// A worker is about to look at the condition of this number, counted from 1.
    fn before(&self, task: u32);

    /// The status of this condition is known.
    fn after(&self, task: u32);

    /// A run begins, which makes at most this many steps; `after` tells of each.
    fn begin_run(&self, _limit: u32) {}

    /// The run has ended.
    fn end_run(&self) {}
}

/// A gate that does nothing.
#[derive(Clone, Copy, Drop)]
pub struct OpenGate;

impl Gate for OpenGate {
    fn before(&self, _task: u32) {}

    fn after(&self, _task: u32) {}
}
