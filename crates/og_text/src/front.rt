//! The piece at the front of a text.

ghost use Rattle.std.specs.Prelude.{◌≡◌, ◌<◌, length, IfOk, slice_index, true};
ghost use Rattle.og_text.specs.Lexemes.{is_letter, is_digit};
ghost use Rattle.og_text.specs.Fronts.{IsFront, IsOther};

use crate::bytes::{
    digits_len, is_digit, is_letter, is_white, line_len, number, white_len, word_len,
};
use crate::limits::NAME_LIMIT;
use crate::name::Name;
use crate::symbol::{pair, single};
use crate::token::TokenKind;
use crate::word::keyword;
use std::alloc::{AllocError, Global};

/// What stands at the front of a text.
#[derive(Drop)]
pub enum Front {
    /// White space or a comment of this many bytes.
    Gap(usize),
    /// A lexeme of this many bytes.
    Lexeme(TokenKind, usize),
    /// No piece.
    BadByte,
    /// A number above the limit.
    NumberTooLarge,
    /// A word above the limit.
    NameTooLong,
}

// The longest piece at the front. It looks at the bytes of that piece and at one after it.
pub(crate) fn front_of(alloc: Global, text: &[u8]) -> Result<Front, AllocError>
    requires { 0 < length text.now }
    ensures { IfOk result (λ f. IsFront text.now f) }
{
    let first = text[0];
    if is_white(first) {
        return Ok(Front::Gap(white_len(text)));
    }
    if first == b'#' {
        return Ok(Front::Gap(line_len(text)));
    }
    if is_letter(first) {
        return word(alloc, text);
    }
    if is_digit(first) {
        return Ok(digits(text));
    }
    Ok(symbol(text))
}

// The piece of a text that begins with a letter.
fn word(alloc: Global, text: &[u8]) -> Result<Front, AllocError>
    requires some { 0 < length text.now }
    requires first { is_letter (slice_index text.now 0) ≡ true }
    ensures { IfOk result (λ f. IsFront text.now f) }
{
    let len = word_len(text);
    let word = &text[..len];
    if len > NAME_LIMIT {
        return Ok(Front::NameTooLong);
    }
    if let Some(kind) = keyword(word) {
        return Ok(Front::Lexeme(kind, len));
    }
    let name = Name::from_slice(alloc, word)?;
    Ok(Front::Lexeme(TokenKind::Name(name), len))
}

// The piece of a text that begins with a digit.
fn digits(text: &[u8]) -> Front
    requires some { 0 < length text.now }
    requires first { is_digit (slice_index text.now 0) ≡ true }
    ensures { IsFront text.now result }
{
    let len = digits_len(text);
    match number(&text[..len]) {
        Some(value) => Front::Lexeme(TokenKind::Number(value), len),
        None => Front::NumberTooLarge,
    }
}

// The piece of a text that begins with no white space, comment, word or number.
fn symbol(text: &[u8]) -> Front
    requires some { 0 < length text.now }
    requires other { IsOther (slice_index text.now 0) }
    ensures { IsFront text.now result }
{
    if let [b, c, ..] = text {
        if let Some(kind) = pair(*b, *c) {
            return Front::Lexeme(kind, 2);
        }
    }
    if let [b, ..] = text {
        if let Some(kind) = single(*b) {
            return Front::Lexeme(kind, 1);
        }
    }
    Front::BadByte
}
