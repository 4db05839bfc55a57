//! The text that the advice on a refusal names.

use og_text::Span;
use std::alloc::{AllocError, Global};

/// A text in the place of some bytes.
#[derive(Drop)]
pub struct Repair {
    /// The bytes that are replaced.
    pub span: Span,
    /// The text that the advice names.
    pub named: Vec<u8>,
    /// What stands there afterwards: the same, with a blank where it would join a word.
    pub text: Vec<u8>,
}

// What is replaced by the text that advice names.
#[derive(Clone, Copy)]
enum Named<'m> {
    // The word at the place, by a name.
    Name(&'m [u8]),
    // The symbol at the place, by a symbol or a keyword.
    Symbol(&'m [u8]),
    // Nothing: it stands in front of the text.
    Front(&'m [u8]),
}

// The bytes up to the next quote, where one comes.
fn up_to_quote(bytes: &[u8]) -> Option<&[u8]> {
    let len = bytes.iter().position(|b| *b == b'\'')?;
    bytes.get(..len)
}

// Whether advice to write it means that it stands in the place of the symbol there.
fn is_symbol(word: &[u8]) -> bool {
    matches!(
        word,
        b"and" | b"or" | b"not" | b"<>" | b"<=" | b">=" | b"//"
    )
}

// The text that a line of advice names.
fn named_by(line: &[u8]) -> Option<Named<'_>> {
    let advice = line.strip_prefix(b"help: ")?;
    if let Some(rest) = advice.strip_prefix(b"did you mean '") {
        return Some(Named::Name(up_to_quote(rest)?));
    }
    if let Some(rest) = advice.strip_prefix(b"this is a form of templates: put '") {
        return Some(Named::Front(up_to_quote(rest)?));
    }
    let word = up_to_quote(advice.strip_prefix(b"write '")?)?;
    if is_symbol(word) {
        Some(Named::Symbol(word))
    } else {
        None
    }
}

// How many bytes the symbol at the front has, of those in whose place advice names another one.
fn symbol_len(bytes: &[u8]) -> u32 {
    match bytes {
        [b'&', b'&', ..] | [b'|', b'|', ..] | [b'!', b'=', ..] | [0xC2..=0xDF, ..] => 2,
        [0xE0..=0xEF, ..] => 3,
        _ => 1,
    }
}

// Whether a letter, a digit or an underscore stands there.
fn is_word_byte(byte: Option<&u8>) -> bool {
    match byte {
        Some(byte) => byte.is_ascii_alphanumeric() || *byte == b'_',
        None => false,
    }
}

// The byte in front of a place.
fn byte_before(text: &[u8], at: u32) -> Option<&u8> {
    text.get((at as usize).checked_sub(1)?)
}

// A word between two other bytes of a text, with blanks where it would join them.
fn with_blanks(alloc: Global, text: &[u8], span: Span, word: &[u8]) -> Result<Vec<u8>, AllocError> {
    let mut written = Vec::new(alloc);
    if is_word_byte(byte_before(text, span.start)) && is_word_byte(word.first()) {
        written.push(b' ')?;
    }
    written.extend_from_slice(word)?;
    if is_word_byte(text.get(span.end as usize)) && is_word_byte(word.last()) {
        written.push(b' ')?;
    }
    Ok(written)
}

// The bytes of the symbol at a place in whose place advice names another one.
fn symbol_at(text: &[u8], at: u32) -> Option<Span> {
    let rest = text.get(at as usize..)?;
    match rest.first()? {
        b'&' | b'|' | b'!' | 0x80..=0xFF => {
            let end = at.saturating_add(symbol_len(rest));
            Some(Span { start: at, end })
        }
        _ => None,
    }
}

// A word in the place of some bytes.
fn in_place(alloc: Global, text: &[u8], span: Span, word: &[u8]) -> Result<Repair, AllocError> {
    let written = with_blanks(alloc, text, span, word)?;
    Ok(Repair {
        span,
        named: Vec::from_slice(alloc, word)?,
        text: written,
    })
}

// A word in a line of its own in front of a text.
fn in_front(alloc: Global, word: &[u8]) -> Result<Repair, AllocError> {
    let mut written = Vec::from_slice(alloc, word)?;
    written.push(b'\n')?;
    Ok(Repair {
        span: Span { start: 0, end: 0 },
        named: Vec::from_slice(alloc, word)?,
        text: written,
    })
}

// The last line.
fn last_line(message: &[u8]) -> &[u8] {
    match message.rsplit(|b| *b == b'\n').next() {
        Some(line) => line,
        None => message,
    }
}

/// The edit that a refusal with this message offers, which stands at some bytes of the text: the text
/// that its advice names in the place of what stands there, or in front of all. Nothing where the
/// advice names none.
///
/// # Errors
///
/// An allocation was refused.
pub fn repair_of(
    alloc: Global,
    text: &[u8],
    span: Span,
    message: &[u8],
) -> Result<Option<Repair>, AllocError> {
    let Some(named) = named_by(last_line(message)) else {
        return Ok(None);
    };
    match named {
        Named::Front(word) => Ok(Some(in_front(alloc, word)?)),
        Named::Name(word) => Ok(Some(in_place(alloc, text, span, word)?)),
        Named::Symbol(word) => match symbol_at(text, span.start) {
            Some(span) => Ok(Some(in_place(alloc, text, span, word)?)),
            None => Ok(None),
        },
    }
}
