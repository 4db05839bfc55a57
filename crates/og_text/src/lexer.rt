//! Cutting a text into its lexemes.

ghost use Rattle.std.specs.Prelude.{IfOk, IfErr};
ghost use Rattle.og_text.specs.Cut.{AreTokensOf};
ghost use Rattle.og_text.specs.Lexed.{IsErrorOf};

use crate::fault::{LexError, LexFault};
use crate::front::{Front, front_of};
use crate::limits::SOURCE_LIMIT;
use crate::place::Span;
use crate::token::Token;
use std::alloc::Global;

/// The tokens of a text, in order: its one cut into white space, comments and lexemes, each the
/// longest at its place, gives them.
///
/// White space is space, tab, CR and LF. A comment runs from `#` up to the next LF or the end of
/// the text, and may hold any bytes. A word is an ASCII letter or `_`, and then letters, digits and
/// `_`; a number is a row of digits.
///
/// # Errors
///
/// `SourceTooLong` where the text has more than 1,048,576 bytes, else the first in the text of
/// - `BadByte`, where no white space, comment or lexeme begins,
/// - `NumberTooLarge`, at the first digit of a number above 9223372036854775808,
/// - `NameTooLong`, at the first byte of a word of more than 64 bytes.
///
/// `Memory` may stand in the place of any other answer where an allocation was refused.
pub fn lex(alloc: Global, text: &[u8]) -> Result<Vec<Token>, LexError>
    ensures tokens { IfOk result (λ tokens. AreTokensOf text.now tokens.items) }
    ensures error { IfErr result (IsErrorOf text.now) }
{
    if text.len() > SOURCE_LIMIT {
        return Err(LexError::Fault(LexFault::SourceTooLong));
    }
    let mut tokens = Vec::new(alloc);
    let mut at = 0;
    'cut: while at < text.len() {
        match front_of(alloc, &text[at..])? {
            Front::Gap(len) => at += len,
            Front::Lexeme(kind, len) => {
                let span = Span {
                    start: at as u32,
                    end: (at + len) as u32,
                };
                tokens.push(Token { kind, span })?;
                at += len;
            }
            Front::BadByte => return Err(LexError::Fault(LexFault::BadByte(at as u32))),
            Front::NumberTooLarge => {
                return Err(LexError::Fault(LexFault::NumberTooLarge(at as u32)));
            }
            Front::NameTooLong => return Err(LexError::Fault(LexFault::NameTooLong(at as u32))),
        }
    }
    Ok(tokens)
}
