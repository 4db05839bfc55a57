//! What the program does its jobs with.

use std::alloc::Global;

/// Threads, memory and files, and who learns of the conditions.
#[derive(Clone, Copy)]
pub struct Program<'r, F, G, H> {
    /// What starts threads.
    pub rt: &'r H,
    /// What memory is taken from.
    pub alloc: Global,
    /// The files, by their names.
    pub files: &'r F,
    /// Is called for each condition that is checked or searched and for each step of a run, and has
    /// no part in the output.
    pub gate: &'r G,
}

/// The standard streams.
#[derive(Drop)]
pub struct Streams<I, O, E> {
    /// Standard input.
    pub input: I,
    /// Standard output.
    pub out: O,
    /// Standard error.
    pub err: E,
}
