//! The line starts of a text, by which many offsets of it are placed fast.

ghost use Rattle.std.specs.Prelude.{◌≡◌, ℕ, ◌≤◌, ◌^◌, List, length, IfOk};
ghost use Rattle.og_text.specs.Lines.{IsIndexOf, IsPlacedBy};
ghost use Rattle.og_text.specs.Place.{line_at, column_at};

use std::alloc::{AllocError, Global};
use std::marker::Model;

/// A text with the offsets at which its lines start, by which many offsets of it are placed fast.
/// Contracts see it as the text.
#[derive(Drop)]
pub struct LineIndex<'a> {
    text: &'a [u8],
    // The offset right after each LF, in order.
    starts: Vec<u32>,
}

impl<'a> Model for LineIndex<'a> {
    ghost use Rattle.std.specs.Prelude.{List, ℕ};
    ghost use Rattle.og_text.specs.Lines.{IsIndexOf};

    ghost Value = { List ℕ };

    ghost view = { λ i. i.text.now };

    ghost invariant = { λ i. IsIndexOf i.text.now i.starts.items };
}

impl<'a> LineIndex<'a> {
    /// The index of a text of at most 1,048,576 bytes, made in one pass over it.
    ///
    /// # Errors
    ///
    /// An allocation was refused.
    pub fn new(alloc: Global, text: &'a [u8]) -> Result<LineIndex<'a>, AllocError>
        requires { length text.now ≤ 2 ^ 20 }
        ensures { IfOk result (λ i. i ≡ text.now) }
    {
        let mut starts = Vec::new(alloc);
        for (at, byte) in text.iter().enumerate() {
            if *byte == b'\n' {
                starts.push(at as u32 + 1)?;
            }
        }
        Ok(LineIndex { text, starts })
    }

    /// The line and the column of the byte offset `at`: what the function `line_col` gives, by a
    /// binary search among the lines. It takes no memory.
    pub fn line_col(&self, at: u32) -> (u32, u32)
        requires { at ≤ length self.now }
        ensures line { result.0 ≡ line_at self.now at }
        ensures column { result.1 ≡ column_at self.now at }
    {
        let ends = starts_up_to(self.starts.as_slice(), at);
        let start = if ends == 0 { 0 } else { self.starts[ends - 1] };
        (ends as u32 + 1, at - start + 1)
    }
}

// How many of the line starts lie up to an offset.
fn starts_up_to(starts: &[u32], at: u32) -> usize
    ensures bound { result ≤ length starts.now }
    ensures placed { (text : List ℕ) → IsIndexOf text starts.now → at ≤ length text →
        IsPlacedBy text starts.now at result }
{
    starts.partition_point(|start| *start <= at)
}
