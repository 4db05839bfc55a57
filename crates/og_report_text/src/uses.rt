//! Notes of a template that are one use of a named assertion.

ghost use Rattle.std.specs.Prelude.{◌≡◌, ◌++◌, ◌≤◌, length, OnOk};
ghost use Rattle.og_text.specs.Lexemes.{is_letter, is_word_byte};
ghost use Rattle.og_report_text.specs.Uses.{up_to_brace, after_blanks, note_text, after_word, word_of, is_keyword, is_closed, are_arguments, begins_name, is_use, use_text};

use crate::quotes::{is_blank, trimmed};
use std::alloc::AllocError;

fn is_letter(byte: u8) -> bool
    ensures { result ≡ is_letter byte }
{
    (b'a' <= byte && byte <= b'z') || (b'A' <= byte && byte <= b'Z') || byte == b'_'
}

fn is_word_byte(byte: u8) -> bool
    ensures { result ≡ is_word_byte byte }
{
    is_letter(byte) || (b'0' <= byte && byte <= b'9')
}

// The bytes up to a `}`.
fn up_to_brace(bytes: &[u8]) -> &[u8]
    ensures { result.now ≡ up_to_brace bytes.now }
{
    for i in 0..bytes.len() {
        if bytes[i] == b'}' {
            return &bytes[..i];
        }
    }
    bytes
}

// The bytes without the blanks at their front.
fn after_blanks(bytes: &[u8]) -> &[u8]
    ensures { result.now ≡ after_blanks bytes.now }
{
    let mut rest = bytes;
    while let [first, others @ ..] = rest {
        if !is_blank(*first) {
            return rest;
        }
        rest = others;
    }
    rest
}

// The bytes without the word at their front.
fn after_word(bytes: &[u8]) -> &[u8]
    ensures result { result.now ≡ after_word bytes.now }
    ensures few { length result.now ≤ length bytes.now }
{
    let mut rest = bytes;
    while let [first, others @ ..] = rest {
        if !is_word_byte(*first) {
            return rest;
        }
        rest = others;
    }
    rest
}

// What stands between the braces of the note at a byte offset.
fn note_text(source: &[u8], at: u32) -> &[u8]
    ensures { result.now ≡ note_text source.now at }
{
    let start = source.len().min(at as usize + 1);
    trimmed(up_to_brace(after_blanks(&source[start..])))
}

fn is_keyword(word: &[u8]) -> bool
    ensures { result ≡ is_keyword word.now }
{
    word == b"true".as_slice() || word == b"false".as_slice() || word == b"not".as_slice()
}

// Whether there is one `)`, at the end, and no `(` before it.
fn is_closed(bytes: &[u8]) -> bool
    ensures { result ≡ is_closed bytes.now }
{
    let mut rest = bytes;
    while let [first, others @ ..] = rest {
        if others.is_empty() {
            return *first == b')';
        }
        if *first == b'(' || *first == b')' {
            return false;
        }
        rest = others;
    }
    false
}

// Whether there is nothing, or arguments.
fn are_arguments(bytes: &[u8]) -> bool
    ensures { result ≡ are_arguments bytes.now }
{
    match bytes {
        [] => true,
        [first, others @ ..] => *first == b'(' && is_closed(others),
    }
}

fn begins_name(text: &[u8]) -> bool
    ensures { result ≡ begins_name text.now }
{
    match text {
        [] => false,
        [first, ..] => is_letter(*first),
    }
}

// Whether the text is a name, perhaps with arguments.
fn is_use(text: &[u8]) -> bool
    ensures { result ≡ is_use text.now }
{
    let rest = after_word(text);
    let word = &text[..text.len() - rest.len()];
    begins_name(text) && !is_keyword(word) && are_arguments(rest)
}

/// Adds the text of the note at a byte offset of a template and a colon, where it is one use of a
/// named assertion; nothing else.
///
/// # Errors
///
/// An allocation was refused; the text has what it had, and perhaps a part of this.
pub(crate) fn put_use(text: &mut Vec<u8>, source: &[u8], at: u32) -> Result<(), AllocError>
    ensures { OnOk result (text.new.items ≡ text.old.items ++ use_text (note_text source.now at)) }
{
    let note = note_text(source, at);
    if !is_use(note) {
        return Ok(());
    }
    text.extend_from_slice(note)?;
    text.extend_from_slice(b": ")
}
