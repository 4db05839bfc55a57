//! How many conditions an outline may have.

/// The greatest number of conditions.
pub const CONDITION_LIMIT: usize = 4_000_000;
