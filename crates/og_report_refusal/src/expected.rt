//! The symbol found at a place, and those that may stand there.

ghost use Rattle.std.specs.Prelude.{◌≡◌, ◌≤◌, ◌++◌, OnOk, IfOk, length, drop, map};
ghost use Rattle.og_text.specs.Cut.{AreTokensOf};
ghost use Rattle.og_report_refusal.specs.Reasons.{count_before, cut_at, cut_text, found_at, first_span, found_line, found_text, expected_text, IsExpectedText, HasTokens};

use crate::bytes::{front_of, rest_of};
use crate::words::{put_listed, words_of};
use og_parse::{expected, is_whole};
use og_text::{LexError, Span, Token, TokenKind, lex};
use std::alloc::{AllocError, Global};

/// The tokens of a source that has some.
///
/// # Errors
///
/// An allocation was refused.
pub(crate) fn tokens_of(alloc: Global, source: &[u8]) -> Result<Vec<Token>, AllocError>
    requires { HasTokens source.now }
    ensures { IfOk result (λ tokens. AreTokensOf source.now tokens.items) }
{
    match lex(alloc, source) {
        Ok(tokens) => Ok(tokens),
        Err(LexError::Memory) => Err(AllocError),
        Err(LexError::Fault(_)) => unreachable!(),
    }
}

// How many tokens end before a place or at it.
fn count_before(tokens: &[Token], at: u32) -> usize
    ensures count { result ≡ count_before tokens.now at }
    ensures within { result ≤ length tokens.now }
{
    tokens.iter().take_while(|t| t.span.end <= at).count()
}

// At most 64 bytes of the source from one place to another.
fn cut_at(source: &[u8], start: u32, end: u32) -> &[u8]
    ensures { result.now ≡ cut_at source.now start end }
{
    let front = front_of(source, end as usize);
    front_of(rest_of(front, start as usize), 64)
}

// Adds what is written from one place to another.
fn put_cut(text: &mut Vec<u8>, source: &[u8], span: Span) -> Result<(), AllocError>
    ensures { OnOk result (text.new.items ≡ text.old.items ++ cut_text source.now span) }
{
    text.extend_from_slice(b"'")?;
    text.extend_from_slice(cut_at(source, span.start, span.end))?;
    text.extend_from_slice(b"'")
}

/// Adds what is found: what is written there, or that nothing is.
///
/// # Errors
///
/// An allocation was refused; the text has what it had, and perhaps a part of this.
pub(crate) fn put_found(
    text: &mut Vec<u8>,
    source: &[u8],
    span: Option<Span>,
) -> Result<(), AllocError>
    ensures { OnOk result (text.new.items ≡ text.old.items ++ found_at source.now span) }
{
    match span {
        None => text.extend_from_slice(b"the end of the file"),
        Some(span) => put_cut(text, source, span),
    }
}

// Where the first token stands.
fn first_span(tokens: &[Token]) -> Option<Span>
    ensures { result ≡ first_span tokens.now }
{
    match tokens {
        [] => None,
        [token, ..] => Some(token.span),
    }
}

/// The tokens from one on.
#[tactic(auto, using(std::proofs::lemmas::List::drop_min))]
pub(crate) fn tokens_from(tokens: &[Token], index: usize) -> &[Token]
    ensures { result.now ≡ drop index tokens.now }
{
    &tokens[index.min(tokens.len())..]
}

// The symbol found.
fn found(alloc: Global, source: &[u8], rest: &[Token]) -> Result<Vec<u8>, AllocError>
    ensures { IfOk result (λ found. found.items ≡ found_text source.now rest.now) }
{
    let mut text = Vec::new(alloc);
    put_found(&mut text, source, first_span(rest))?;
    Ok(text)
}

/// What is found, and the words for what may stand there.
///
/// # Errors
///
/// An allocation was refused.
pub(crate) fn found_line(alloc: Global, found: &[u8], words: &[&str]) -> Result<Vec<u8>, AllocError>
    ensures { IfOk result (λ text. text.items ≡ found_line found.now (map (λ w. w.now) words.now)) }
{
    let mut text = Vec::from_slice(alloc, b"found ")?;
    text.extend_from_slice(found)?;
    text.extend_from_slice(b", expected ")?;
    put_listed(&mut text, words)?;
    Ok(text)
}

// The symbol found, and those that may stand there.
fn line_of(
    alloc: Global,
    found: &[u8],
    symbols: &[TokenKind],
    may_end: bool,
) -> Result<Vec<u8>, AllocError>
    ensures { IfOk result (λ text. text.items ≡ expected_text found.now symbols.now may_end) }
{
    found_line(alloc, found, &words_of(alloc, symbols, may_end)?)
}

/// The symbol found at a place, and those that may stand there, as a text; and these symbols.
///
/// # Errors
///
/// An allocation was refused.
pub(crate) fn expected_reason(
    alloc: Global,
    source: &[u8],
    at: u32,
) -> Result<(Vec<u8>, Vec<TokenKind>), AllocError>
    requires { HasTokens source.now }
    ensures { IfOk result (λ r. IsExpectedText source.now at r.0.items) }
{
    let mut tokens = tokens_of(alloc, source)?;
    let count = count_before(&tokens, at);
    let found = found(alloc, source, tokens_from(&tokens, count))?;
    tokens.truncate(count);
    let may_end = is_whole(alloc, &tokens)?;
    let symbols = expected(alloc, tokens)?;
    let text = line_of(alloc, &found, &symbols, may_end)?;
    Ok((text, symbols))
}
