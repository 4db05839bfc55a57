//! Bytes and words of a source, as they are written in messages.

ghost use Rattle.std.specs.Prelude.{◌≡◌, ◌<◌, ◌++◌, OnOk, drop, take};
ghost use Rattle.std.specs.List.{prefix_len};
ghost use Rattle.og_text.specs.Lexemes.{is_word_byte};
ghost use Rattle.og_report_refusal.specs.Reasons.{hex_digit, byte_text, bad_byte_text, word_at};

use crate::quotes::is_printable;
use std::alloc::AllocError;

const HEX_DIGITS: &[u8; 16] = b"0123456789ABCDEF";

// The digit for a number below 16.
fn hex_digit(number: u8) -> u8
    requires { number < 16 }
    ensures { result ≡ hex_digit number }
{
    HEX_DIGITS[number as usize]
}

// Adds a byte with which nothing begins.
fn put_byte(text: &mut Vec<u8>, byte: u8) -> Result<(), AllocError>
    ensures { OnOk result (text.new.items ≡ text.old.items ++ byte_text byte) }
{
    if is_printable(byte) {
        text.extend_from_slice(b"'")?;
        text.push(byte)?;
        return text.extend_from_slice(b"' begins no symbol");
    }
    text.extend_from_slice(b"byte 0x")?;
    text.push(hex_digit(byte / 16))?;
    text.push(hex_digit(byte % 16))?;
    text.extend_from_slice(b" begins no symbol")
}

/// Adds that nothing begins with the first of these bytes to the text.
///
/// # Errors
///
/// An allocation was refused; the text has what it had, and perhaps a part of this.
pub(crate) fn put_bad_byte(text: &mut Vec<u8>, bytes: &[u8]) -> Result<(), AllocError>
    ensures { OnOk result (text.new.items ≡ text.old.items ++ bad_byte_text bytes.now) }
{
    match bytes {
        [] => text.extend_from_slice(b"a byte begins no symbol"),
        [byte, ..] => put_byte(text, *byte),
    }
}

// Whether the byte is a letter, an underscore or a digit.
fn is_word_byte(byte: u8) -> bool
    ensures { result ≡ is_word_byte byte }
{
    byte.is_ascii_alphanumeric() || byte == b'_'
}

// How many bytes at the front are letters, digits or underscores.
fn word_len(bytes: &[u8]) -> usize
    ensures { result ≡ prefix_len is_word_byte bytes.now }
{
    bytes.iter().take_while(|b| is_word_byte(**b)).count()
}

/// The bytes before a place.
#[tactic(auto, using(std::proofs::lemmas::List::take_min))]
pub(crate) fn front_of(source: &[u8], at: usize) -> &[u8]
    ensures { result.now ≡ take at source.now }
{
    &source[..at.min(source.len())]
}

/// The bytes from a place on; none where the source ends before.
#[tactic(auto, using(std::proofs::lemmas::List::drop_min))]
pub(crate) fn rest_of(source: &[u8], at: usize) -> &[u8]
    ensures { result.now ≡ drop at source.now }
{
    &source[at.min(source.len())..]
}

/// The letters, digits and underscores from a place on; none where the source ends before.
pub(crate) fn word_at(source: &[u8], at: usize) -> &[u8]
    ensures { result.now ≡ word_at source.now at }
{
    let rest = rest_of(source, at);
    &rest[..word_len(rest)]
}
