//! A template without its marks, which is a text of the words of outlines.

ghost use Rattle.std.specs.Prelude.{◌≡◌, ◌≤◌, ◌<◌, ◌^◌, ◌++◌, length, IfOk, OnOk};
ghost use Rattle.og_template.specs.Mask.{mark_at, place_after, masked_byte, masked_from, marks_of, marks_from};
ghost use Rattle.og_template.specs.declared.mask.Place.TheVariants.{Outside};

use crate::special::Special;
use og_text::Span;
use std::alloc::{AllocError, Global};

/// Where a byte stands.
#[derive(Clone, Copy, Drop, PartialEq, Eq)]
pub enum Place {
    /// Outside of comments.
    Outside,
    /// In a comment.
    Comment,
    /// At the second dot of a `..`.
    SecondDot,
}

/// A mark and where it stands.
#[derive(Clone, Copy, Drop, PartialEq, Eq)]
pub struct Mark {
    pub special: Special,
    pub span: Span,
}

/// The text with blanks in place of its marks, and the marks.
#[derive(Drop)]
pub(crate) struct Masked {
    pub(crate) text: Vec<u8>,
    pub(crate) marks: Vec<Mark>,
}

fn begins_with(bytes: &[u8], byte: u8) -> bool
    ensures { result ≡ Rattle.og_template.specs.Mask.begins_with bytes.now byte }
{
    match bytes {
        [first, ..] => *first == byte,
        [] => false,
    }
}

// The mark that begins with a byte, given the bytes after it.
fn mark_at(place: Place, byte: u8, after: &[u8]) -> Option<Special>
    ensures { result ≡ mark_at place byte after.now }
{
    if place != Place::Outside {
        return None;
    }
    if byte == b'[' {
        Some(Special::OpenBracket)
    } else if byte == b']' {
        Some(Special::CloseBracket)
    } else if byte == b':' && !begins_with(after, b'=') {
        Some(Special::Colon)
    } else if byte == b'.' && begins_with(after, b'.') {
        Some(Special::Dots)
    } else {
        None
    }
}

// Where the byte after a byte stands.
fn place_after(place: Place, byte: u8, after: &[u8]) -> Place
    ensures { result ≡ place_after place byte after.now }
{
    match place {
        Place::Comment if byte != b'\n' => Place::Comment,
        Place::Outside if byte == b'#' => Place::Comment,
        Place::Outside if byte == b'.' && begins_with(after, b'.') => Place::SecondDot,
        _ => Place::Outside,
    }
}

// The byte, or a blank in place of one of a mark.
fn masked_byte(place: Place, byte: u8, after: &[u8]) -> u8
    ensures { result ≡ masked_byte place byte after.now }
{
    if place == Place::SecondDot || mark_at(place, byte, after).is_some() {
        b' '
    } else {
        byte
    }
}

// Adds the mark that begins at an offset, where one does.
fn put_mark(marks: &mut Vec<Mark>, mark: Option<Special>, at: u32) -> Result<(), AllocError>
    requires { at < 2 ^ 20 }
    ensures { OnOk result (marks.new.items ≡ marks.old.items ++ marks_of mark at) }
{
    let Some(special) = mark else {
        return Ok(());
    };
    let len = if special == Special::Dots { 2 } else { 1 };
    let span = Span {
        start: at,
        end: at + len,
    };
    marks.push(Mark { special, span })?;
    Ok(())
}

impl Masked {
    /// The parts of a text.
    pub(crate) fn of(alloc: Global, text: &[u8]) -> Result<Masked, AllocError>
        requires { length text.now ≤ 2 ^ 20 }
        ensures text { IfOk result (λ m. m.text.items ≡ masked_from Outside text.now) }
        ensures marks { IfOk result (λ m. m.marks.items ≡ marks_from Outside 0 text.now) }
    {
        let mut masked = Vec::new(alloc);
        let mut marks = Vec::new(alloc);
        let mut place = Place::Outside;
        let mut at = 0;
        let mut rest = text;
        'bytes: while let [byte, after @ ..] = rest {
            masked.push(masked_byte(place, *byte, after))?;
            put_mark(&mut marks, mark_at(place, *byte, after), at)?;
            place = place_after(place, *byte, after);
            at += 1;
            rest = after;
        }
        Ok(Masked {
            text: masked,
            marks,
        })
    }
}
