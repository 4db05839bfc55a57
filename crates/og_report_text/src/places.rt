//! Places in a source.

ghost use Rattle.std.specs.Prelude.{◌≡◌, ◌≤◌, ◌^◌, length, IfOk};
ghost use Rattle.og_report_text.specs.Places.{position_of};

use og_text::LineIndex;
use std::alloc::{AllocError, Global};
use std::marker::Model;

/// A line and a column, both counted from 1. A column counts bytes.
#[derive(Clone, Copy, PartialEq, Eq)]
pub struct Position {
    /// The line.
    pub line: u32,
    /// The column.
    pub column: u32,
}

/// A source, by whose line starts places are found fast. Contracts see it as the source.
#[derive(Drop)]
pub struct Places<'a> {
    source: &'a [u8],
    index: LineIndex<'a>,
}

impl<'a> Model for Places<'a> {
    ghost use Rattle.std.specs.Prelude.{◌≡◌, ◌≤◌, ◌^◌, length, List, ℕ};

    ghost Value = { List ℕ };

    ghost view = { λ p. p.source.now };

    ghost invariant = { λ p. (p.index ≡ p.source.now) × (length p.source.now ≤ 2 ^ 20) };
}

impl<'a> Places<'a> {
    /// The places of a source of at most 1,048,576 bytes.
    ///
    /// # Errors
    ///
    /// An allocation was refused.
    pub fn new(alloc: Global, source: &'a [u8]) -> Result<Places<'a>, AllocError>
        requires { length source.now ≤ 2 ^ 20 }
        ensures { IfOk result (λ p. p ≡ source.now) }
    {
        let index = LineIndex::new(alloc, source)?;
        Ok(Places { source, index })
    }

    /// The line and the column of the byte offset `at`. Beyond the source it is that of its end.
    /// Takes no memory.
    pub fn position(&self, at: u32) -> Position
        ensures { result ≡ position_of self.now at }
    {
        let end = self.source.len() as u32;
        let (line, column) = self.index.line_col(at.min(end));
        Position { line, column }
    }
}
