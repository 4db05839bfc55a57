//! Ranges of whole numbers.

ghost use Rattle.std.specs.Prelude.{◌+◌, ◌≤◌, ◌^◌};

/// `count` numbers from the lowest on.
#[derive(Clone, Copy, Drop)]
pub(crate) struct Range {
    pub(crate) low: u64,
    pub(crate) count: u32,
    ghost few: { low + count ≤ 2 ^ 63 },
}
