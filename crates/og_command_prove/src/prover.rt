//! What a proof is made with.

use og_io::{Budget, MomentLimit, Workers};
use std::alloc::Global;

/// How the conditions of an outline are searched.
#[derive(Clone, Copy, PartialEq, Eq)]
pub struct Search {
    /// The budget of each search, as in `og_find::examine`.
    pub budget: Budget,
    /// How many workers search.
    pub workers: Workers,
    /// The most moments that are looked at to find runs to false conditions; none where no run is
    /// asked for.
    pub runs: Option<MomentLimit>,
}

/// What a proof is made with: threads, memory, the gate of the searches, and how they are made.
#[derive(Clone, Copy)]
pub struct Prover<'r, G, H> {
    /// Starts threads.
    pub rt: &'r H,
    /// Gives memory.
    pub alloc: Global,
    /// Sees each search begin and end, as in `og_find_all::examine_all`.
    pub gate: &'r G,
    /// How conditions are searched.
    pub search: Search,
}
