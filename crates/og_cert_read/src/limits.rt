//! The limits of the numbers of a line.

/// The greatest number of a condition, a fact or a variable.
pub(crate) const NUMBER_LIMIT: u32 = 999_999_999;

/// The greatest multiplier and the greatest divisor.
pub(crate) const FACTOR_LIMIT: u64 = 9_223_372_036_854_775_807;

/// The most certificates of a split.
pub(crate) const PARTS_LIMIT: u32 = 10_000;

/// No branch or split has this many of them round it.
pub(crate) const DEPTH_LIMIT: usize = 200;

/// The most bytes of a text.
pub(crate) const TEXT_LIMIT: usize = 67_108_864;
