//! A queue, with the facts that say what it is.

use crate::narrowing::{Narrowing, Source};
use og_search_rows::{Levels, Place};

/// A variable.
pub(crate) type Var = u32;

/// The choice of an entry that may be through, which leaves two parts: whether it waits in the
/// first one of these, and the place in the other one of the fact that its flag is at least 1.
#[derive(Drop)]
pub(crate) struct OpenEntry {
    pub narrowing: Narrowing,
    pub is_waiting_first: bool,
    pub flag: usize,
}

/// Whether an entry is known to be through.
#[derive(Drop)]
pub(crate) enum State {
    /// It may be.
    Open(OpenEntry),
    /// It waits.
    Waits,
}

/// An entry of a queue.
#[derive(Drop)]
pub(crate) struct Entry {
    /// Its number.
    pub number: Var,
    pub state: State,
    /// The facts that its flag is at least 0, and at most 0 where it waits.
    pub flag_low: Place,
    pub flag_high: Source,
    /// The choice of which one part is left where it waits, and the place there of the fact that
    /// its number is less than the end.
    pub range: Narrowing,
    pub high: usize,
    /// The choice of which the part is left then that its number is above the counter.
    pub above: Narrowing,
}

/// The choice of which one part is left where two entries wait: the choice of the orders of their
/// numbers. Whether the first one is less in its first part.
#[derive(Drop)]
pub(crate) struct Distinct {
    pub narrowing: Narrowing,
    pub is_less_first: bool,
}

/// Entries of which each is through or waits with a number above the counter, and as many as the
/// counter has values.
#[derive(Drop)]
pub struct Queue {
    pub(crate) level: u32,
    pub(crate) counter: Var,
    /// That the counter is at least the number of entries that are through, and that the flags of
    /// others that are through are at least 1.
    pub(crate) count: Place,
    pub(crate) others: Vec<Place>,
    /// The least value of the counter, and the greatest one. The numbers are less than the end,
    /// which is at most one more.
    pub(crate) least: i128,
    pub(crate) most: i128,
    pub(crate) end: Var,
    pub(crate) entries: Vec<Entry>,
    /// The flags of the entries.
    pub(crate) flags: Vec<Var>,
    /// For each entry those before it.
    pub(crate) pairs: Vec<Vec<Distinct>>,
    pub(crate) used: Levels,
}
