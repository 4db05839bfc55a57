//! How a program is explored.

use og_io::Workers;

/// How a program is explored, and how that is reported.
#[derive(Clone, Copy)]
pub struct Request {
    /// How many moments are met at most.
    pub limit: u32,
    /// How many threads work.
    pub workers: Workers,
    /// Whether it is the program without its auxiliary variables.
    pub erased: bool,
    /// Whether it is reported as JSON.
    pub json: bool,
}
