//! The rows of a template's outline.

use std::collections::BTreeMap;

/// Where a note, a statement or `cobegin` of an expanded outline comes from.
#[derive(Drop)]
pub struct Row {
    /// The byte offset in the template.
    pub from: u32,
    /// ` NAME=INT` for each bound name round it, from the outside.
    pub instance: Vec<u8>,
    /// The byte offset in the template of the first relation of each conjunct of a note, where the
    /// conjunct has one.
    pub conjuncts: Vec<Option<u32>>,
}

/// The rows of an expanded outline, by byte offsets in its text.
pub type Rows = BTreeMap<u32, Row>;
