//! How many facts a condition may have.

/// The greatest number of facts.
pub const FACT_LIMIT: usize = 10_000;
