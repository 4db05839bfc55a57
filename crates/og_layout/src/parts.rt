//! Cutting a text into its words and comments.

ghost use Rattle.std.specs.Prelude.{◌≡◌, ◌<◌, ◌≤◌, ◌^◌, ◌++◌, length, false, IfOk, IfErr, OnOk};
ghost use Rattle.std.specs.List.{prefix_len, suffix_len};
ghost use Rattle.og_layout.specs.Pieces.{is_blank, in_line, trimmed_len, comments_from, parts_from, AreParts};
ghost use Rattle.og_layout.specs.Faults.{IsErrorOfWords};

use crate::between::between;
use crate::words::words_of;
use og_template::{Word, WordKind};
use og_text::LexError;
use std::alloc::{AllocError, Global};

/// What a part of a text is.
#[derive(Drop)]
pub enum PartKind {
    /// A comment, without blanks, tabs and carriage returns at its end.
    Comment,
    /// A word.
    Word(WordKind),
}

/// A part of a text, and where it stands. Offsets count bytes from 0.
#[derive(Drop)]
pub struct Part {
    /// What it is.
    pub kind: PartKind,
    /// The offset of the first byte.
    pub start: usize,
    /// The offset after the last byte.
    pub end: usize,
}

fn is_blank(b: u8) -> bool
    ensures { result ≡ is_blank b }
{
    b == b' ' || b == b'\t' || b == b'\r'
}

// How many bytes stand before the first LF.
fn line_len(bytes: &[u8]) -> usize
    ensures { result ≡ prefix_len in_line bytes.now }
{
    bytes.iter().take_while(|b| **b != b'\n').count()
}

// How many blanks stand at the end.
fn blanks_at_end(bytes: &[u8]) -> usize
    ensures { result ≡ suffix_len is_blank bytes.now }
{
    bytes.iter().rev().take_while(|b| is_blank(**b)).count()
}

// How many bytes the first line has without the blanks at its end.
fn trimmed_len(rest: &[u8]) -> usize
    ensures { result ≡ trimmed_len rest.now }
{
    let line = &rest[..line_len(rest)];
    line.len() - blanks_at_end(line)
}

// Adds the comments of a stretch of white space and comments that begins at an offset.
fn put_comments(parts: &mut Vec<Part>, stretch: &[u8], start: usize) -> Result<(), AllocError>
    requires { start < 2 ^ 32 }
    ensures { OnOk result (parts.new.items ≡ parts.old.items
        ++ comments_from false start stretch.now) }
{
    let mut in_comment = false;
    let mut at = start;
    let mut rest = stretch;
    'bytes: while let [byte, more @ ..] = rest {
        if in_comment {
            in_comment = *byte != b'\n';
        } else if *byte == b'#' {
            parts.push(Part {
                kind: PartKind::Comment,
                start: at,
                end: at + trimmed_len(rest),
            })?;
            in_comment = true;
        }
        at += 1;
        rest = more;
    }
    Ok(())
}

// The words with the comments among them.
fn with_comments(alloc: Global, text: &[u8], words: Vec<Word>) -> Result<Vec<Part>, AllocError>
    ensures { IfOk result (λ parts. parts.items ≡ parts_from text.now 0 words.items) }
{
    let mut parts = Vec::new(alloc);
    let mut at: u32 = 0;
    for word in words {
        let Word { kind, span } = word;
        let gap = between(text, at as usize, span.start as usize);
        put_comments(&mut parts, gap, at as usize)?;
        at = span.end;
        parts.push(Part {
            kind: PartKind::Word(kind),
            start: span.start as usize,
            end: span.end as usize,
        })?;
    }
    let gap = between(text, at as usize, text.len());
    put_comments(&mut parts, gap, at as usize)?;
    Ok(parts)
}

/// The words of a text and the comments among them, in order.
///
/// # Errors
///
/// The fault of the text, or `Memory` where an allocation was refused.
#[tactic(auto, using(crate::proofs::Short::memory_words))]
pub(crate) fn parts_of(alloc: Global, text: &[u8]) -> Result<Vec<Part>, LexError>
    ensures parts { IfOk result (λ parts. AreParts text.now parts.items) }
    ensures error { IfErr result (IsErrorOfWords text.now) }
{
    let words = words_of(alloc, text)?;
    Ok(with_comments(alloc, text, words)?)
}
