//! Characters that may hide text from a reader.

ghost use Rattle.std.specs.Prelude.{◌≡◌, ◌++◌, ◌<◌, ◌≤◌, ◌^◌, length, IfOk, OnOk};
ghost use Rattle.og_review_text.specs.Hidden as plain;

use og_report_text::{Places, put_position};
use std::alloc::{AllocError, Global};

/// Where a reader of a text is.
#[derive(Clone, Copy, PartialEq, Eq)]
pub(crate) enum Inside {
    /// In no comment.
    Code,
    /// In a comment that begins at this byte offset.
    Comment(u32),
    /// In a comment of which a line is told.
    Told,
}

// The byte there, 0 beyond the end.
fn byte(bytes: &[u8], index: usize) -> u8
    ensures { result ≡ plain.byte bytes.now index }
{
    bytes.get(index).copied().unwrap_or(0)
}

// Whether it is a control character of ASCII that no text needs.
fn is_control(byte: u8, next: u8) -> bool
    ensures { result ≡ plain.is_control byte next }
{
    (byte < 32 && !(byte == b'\t' || byte == b'\n' || byte == b'\r' && next == b'\n'))
        || byte == 127
}

// Whether it is one from U+0080 on.
fn is_late_control(byte: u8, next: u8) -> bool
    ensures { result ≡ plain.is_late_control byte next }
{
    byte == 194 && 128 <= next && next < 160
}

// Whether it is one of U+202A to U+202E.
fn is_embedding(byte: u8, next: u8, last: u8) -> bool
    ensures { result ≡ plain.is_embedding byte next last }
{
    byte == 226 && next == 128 && 170 <= last && last <= 174
}

// Whether it is one of U+2066 to U+2069.
fn is_isolate(byte: u8, next: u8, last: u8) -> bool
    ensures { result ≡ plain.is_isolate byte next last }
{
    byte == 226 && next == 129 && 166 <= last && last <= 169
}

// The number of the character that the bytes begin with, if it may hide text.
fn hidden_by(byte: u8, next: u8, last: u8) -> Option<u32>
    ensures { result ≡ plain.hidden_by byte next last }
{
    if is_control(byte, next) {
        Some(u32::from(byte))
    } else if is_late_control(byte, next) {
        Some(u32::from(next))
    } else if is_embedding(byte, next, last) {
        Some(8064 + u32::from(last))
    } else if is_isolate(byte, next, last) {
        Some(8128 + u32::from(last))
    } else {
        None
    }
}

// The same of a text.
fn hidden_in(text: &[u8]) -> Option<u32>
    ensures { result ≡ plain.hidden_in text.now }
{
    hidden_by(byte(text, 0), byte(text, 1), byte(text, 2))
}

impl Inside {
    // Where the reader is behind a byte at this offset, and a character that may hide text.
    fn after(self, at: u32, byte: u8, hidden: Option<u32>) -> Inside
        ensures { result ≡ plain.inside_after self at byte hidden }
    {
        match (self, hidden) {
            (Inside::Code, _) if byte == b'#' => Inside::Comment(at),
            (Inside::Code, _) => Inside::Code,
            (Inside::Comment(_), Some(_)) => Inside::Told,
            _ if byte == b'\n' => Inside::Code,
            _ => self,
        }
    }
}

// The hexadecimal digit.
fn digit(value: u32) -> u8
    requires { value < 16 }
    ensures { result ≡ plain.digit value }
{
    if value < 10 {
        b'0' + value as u8
    } else {
        55 + value as u8
    }
}

// The number of a character.
fn put_character(text: &mut Vec<u8>, number: u32) -> Result<(), AllocError>
    ensures { OnOk result (text.new.items ≡ text.old.items ++ plain.character_text number) }
{
    text.extend_from_slice(b"U+")?;
    text.extend_from_slice(&[
        digit(number / 4096 % 16),
        digit(number / 256 % 16),
        digit(number / 16 % 16),
        digit(number % 16),
    ])
}

/// A character that may hide text, and is told: of a comment the first one alone.
#[derive(Clone, Copy)]
pub struct Hidden {
    /// Whether it stands in a comment.
    pub in_comment: bool,
    /// The byte offset of the comment; of a character outside comments that of the character.
    pub at: u32,
    /// Its number in Unicode.
    pub number: u32,
}

impl Hidden {
    // What it stands in.
    fn word(self) -> &'static str
        ensures { result.now ≡ plain.word_of self.in_comment }
    {
        if self.in_comment { "comment" } else { "text" }
    }

    // What is so of it.
    fn put_finding(self, text: &mut Vec<u8>) -> Result<(), AllocError>
        ensures { OnOk result (text.new.items ≡ text.old.items ++ plain.finding_text self.number) }
    {
        text.extend_from_slice(b" holds ")?;
        put_character(text, self.number)?;
        text.extend_from_slice(b", which may hide text")
    }

    /// Adds what is said of it, without its place.
    ///
    /// # Errors
    ///
    /// An allocation was refused; the text has what it had, and perhaps a part of this.
    pub fn put_message(self, text: &mut Vec<u8>) -> Result<(), AllocError>
        ensures { OnOk result (text.new.items ≡ text.old.items ++ plain.message self) }
    {
        text.extend_from_slice(self.word().as_bytes())?;
        self.put_finding(text)
    }

    // Its line.
    fn put_line(self, text: &mut Vec<u8>, places: &Places) -> Result<(), AllocError>
        ensures { OnOk result (text.new.items ≡ text.old.items
            ++ plain.hidden_line places.now self) }
    {
        text.extend_from_slice(self.word().as_bytes())?;
        text.extend_from_slice(b" at ")?;
        put_position(text, places.position(self.at))?;
        self.put_finding(text)?;
        text.extend_from_slice(b"\n")
    }
}

// Adds the character at a place, where it is told.
fn add_told(
    all: &mut Vec<Hidden>,
    inside: Inside,
    at: u32,
    hidden: Option<u32>,
) -> Result<(), AllocError>
    ensures { OnOk result (all.new.items ≡ all.old.items ++ plain.told inside at hidden) }
{
    match (inside, hidden) {
        (Inside::Code, Some(number)) => all.push(Hidden {
            in_comment: false,
            at,
            number,
        })?,
        (Inside::Comment(start), Some(number)) => all.push(Hidden {
            in_comment: true,
            at: start,
            number,
        })?,
        _ => {}
    }
    Ok(())
}

/// The characters of the source that may hide text: in each comment the first one, and each one
/// outside comments. The source has at most 1,048,576 bytes.
///
/// # Errors
///
/// An allocation was refused.
#[tactic(auto, using(crate::proofs::Hiding::hidden_more, crate::proofs::Hiding::hidden_done))]
pub fn hidden_characters(alloc: Global, source: &[u8]) -> Result<Vec<Hidden>, AllocError>
    requires { length source.now ≤ 2 ^ 20 }
    ensures { IfOk result (λ v. v.items ≡ plain.hidden_characters source.now) }
{
    let mut all = Vec::new(alloc);
    let mut inside = Inside::Code;
    for at in 0..source.len() {
        let hidden = hidden_in(&source[at..]);
        add_told(&mut all, inside, at as u32, hidden)?;
        inside = inside.after(at as u32, source[at], hidden);
    }
    Ok(all)
}

/// Adds a line to the text for each comment of the source that has a character which may hide text,
/// and for each such character outside comments. The source has at most 1,048,576 bytes, and the
/// places are its own.
///
/// # Errors
///
/// An allocation was refused; the text has what it had, and perhaps some of these lines.
pub fn put_hidden_lines(
    text: &mut Vec<u8>,
    places: &Places,
    source: &[u8],
) -> Result<(), AllocError>
    requires short { length source.now ≤ 2 ^ 20 }
    requires places { places.now ≡ source.now }
    ensures { OnOk result (text.new.items ≡ text.old.items ++ plain.hidden_lines source.now) }
{
    let all = hidden_characters(*text.allocator(), source)?;
    for hidden in &all {
        hidden.put_line(text, places)?;
    }
    Ok(())
}
