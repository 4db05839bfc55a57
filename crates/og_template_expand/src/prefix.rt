//! The beginning of a sequence.

use og_parse::{RawItem, RawNote};

/// Statements with the assertion before each, and the assertion after them.
#[derive(Drop)]
pub(crate) struct Prefix {
    pub(crate) items: Vec<RawItem>,
    pub(crate) last: RawNote,
}
