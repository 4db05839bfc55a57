//! How large a source text, its names and its numbers may be.

/// The greatest length of a source text, in bytes.
pub const SOURCE_LIMIT: usize = 1_048_576;

/// The greatest length of a name, in bytes.
pub const NAME_LIMIT: usize = 64;

/// The greatest number in a source text, 2 to the power of 63.
pub const NUMBER_LIMIT: u64 = 9_223_372_036_854_775_808;
