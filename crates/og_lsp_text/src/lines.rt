//! A text with where its lines begin.

ghost use Rattle.std.specs.Prelude.{◌≡◌, ℕ, ◌+◌, ◌≤◌, ◌<◌, ◌^◌, List, length, IfOk};
ghost use Rattle.og_lsp_text.specs.Positions.{line_of, position_of, range_of, IsPlaceOf};
ghost use Rattle.og_lsp_text.specs.Starts.{IsIndexOf, start_at, last_at, IsLineOf};

use crate::boundary::ends_line;
use crate::encoding::Encoding;
use crate::position::{Position, Range};
use crate::walk::{last_boundary, units_of};
use og_text::Span;
use std::alloc::{AllocError, Global};
use std::marker::Model;

/// The greatest length of a text, in bytes.
pub const TEXT_LIMIT: usize = 16_777_216;

/// A text with where its lines begin. Contracts see it as the text, whose bytes may be any.
#[derive(Drop)]
pub struct Lines<'a> {
    text: &'a [u8],
    // The place behind each byte that ends a line, in order.
    starts: Vec<u32>,
}

impl<'a> Model for Lines<'a> {
    ghost use Rattle.std.specs.Prelude.{List, ℕ};
    ghost use Rattle.og_lsp_text.specs.Starts.{IsIndexOf};

    ghost Value = { List ℕ };

    ghost view = { λ l. l.text.now };

    ghost invariant = { λ l. IsIndexOf l.text.now l.starts.items };
}

impl<'a> Lines<'a> {
    /// The lines of a text of at most 16,777,216 bytes, found in one pass over it.
    ///
    /// # Errors
    ///
    /// An allocation was refused.
    pub fn new(alloc: Global, text: &'a [u8]) -> Result<Lines<'a>, AllocError>
        requires { length text.now ≤ 2 ^ 24 }
        ensures { IfOk result (λ l. l ≡ text.now) }
    {
        let mut starts = Vec::new(alloc);
        for at in 0..text.len() {
            if ends_line(text, at) {
                starts.push(at as u32 + 1)?;
            }
        }
        Ok(Lines { text, starts })
    }

    /// The text.
    pub fn text(&self) -> &'a [u8]
        ensures { result.now ≡ self.now }
    {
        self.text
    }

    /// The position of a place of the text, or of its end: by a binary search among the lines, and
    /// in time linear in what the line has in front of it. It takes no memory.
    pub fn position(&self, encoding: Encoding, at: u32) -> Position
        requires { at ≤ length self.now }
        ensures { result ≡ position_of encoding self.now at }
    {
        let line = starts_up_to(self.starts.as_slice(), at);
        let start = start_of(self.starts.as_slice(), line);
        let character = units_of(encoding, &self.text[start as usize..at as usize]);
        Position {
            line: line as u32,
            character,
        }
    }

    /// The range of some bytes of the text.
    pub fn range(&self, encoding: Encoding, span: Span) -> Range
        requires start { span.start ≤ length self.now }
        requires end { span.end ≤ length self.now }
        ensures { result ≡ range_of encoding self.now span }
    {
        Range {
            start: self.position(encoding, span.start),
            end: self.position(encoding, span.end),
        }
    }

    /// The place that a position names: the last boundary of its line with at most so many units in
    /// front of it; the text's end where the text has no such line. It takes no memory, and time
    /// linear in the line.
    pub fn place(&self, encoding: Encoding, position: Position) -> u32
        ensures within { result ≤ length self.now }
        ensures found { position.line ≤ line_of self.now (length self.now)
            → IsPlaceOf encoding self.now position result }
        ensures behind { line_of self.now (length self.now) < position.line
            → result ≡ length self.now }
    {
        let line = position.line as usize;
        let starts = self.starts.as_slice();
        if line > starts.len() {
            return self.text.len() as u32;
        }
        let first = start_of(starts, line) as usize;
        let last = last_of(starts, line, self.text.len());
        last_boundary(self.text, encoding, first, last, position.character) as u32
    }
}

// How many of the line starts lie up to a place.
fn starts_up_to(starts: &[u32], at: u32) -> usize
    ensures bound { result ≤ length starts.now }
    ensures line { (text : List ℕ) → IsIndexOf text starts.now → at ≤ length text →
        IsLineOf text starts.now at result }
{
    starts.partition_point(|start| *start <= at)
}

// Where a line begins.
fn start_of(starts: &[u32], line: usize) -> u32
    requires { line ≤ length starts.now }
    ensures { result ≡ start_at starts.now line }
{
    if line == 0 { 0 } else { starts[line - 1] }
}

// The last place of a line of a text of this length.
fn last_of(starts: &[u32], line: usize, len: usize) -> usize
    requires { line ≤ length starts.now }
    ensures { result ≡ last_at starts.now line len }
{
    match starts.get(line) {
        Some(next) => (*next as usize).saturating_sub(1),
        None => len,
    }
}
