//! Parsing a list of tokens, with the limit on statements.

ghost use Rattle.std.specs.Prelude.{◌≡◌, ℕ, ◌<◌, ◌≤◌, ◌&&◌, List, Result, Ok, Err, MatchOption, length};
ghost use Rattle.og_text.specs.declared.token.Token.{Token};
ghost use Rattle.og_parse.specs.declared.fault.ParseFault.{ParseFault};
ghost use Rattle.og_parse.specs.Trees.{Outline};
ghost use Rattle.og_parse.specs.Counts.{outline_count};
ghost use Rattle.og_parse.specs.Grammar.{IsOutline};
ghost use Rattle.og_parse.specs.Faults.{IsAnyOutline, place_of, IsFault};
ghost use Rattle.og_parse.specs.Parsed.{IsParsed};
ghost use Rattle.og_parse.specs.Limits.{level_limit, statement_limit, begins_statement, closes_note, statement_count};
ghost use Rattle.og_parse.specs.Answers.{IsExcess, error_of, excess_error};

use crate::fault::{ParseError, ParseFault};
use crate::outline::whole;
use crate::raw::Raw;
use crate::statements::begins_statement;
use crate::{Cursor, FaultKind, Refusal};
use og_text::{Span, Token, TokenKind};
use std::alloc::Global;

const LEVELS: u32 = 100;

const STATEMENTS: usize = 4096;

// Whether a statement begins with this token, after a `}` or not.
fn is_counted(closed: bool, kind: &TokenKind) -> bool
    ensures { result ≡ (closed && begins_statement kind.now) }
{
    closed && begins_statement(kind)
}

// Whether an assertion in braces ends so.
fn closes_note(kind: &TokenKind) -> bool
    ensures { result ≡ closes_note kind.now }
{
    matches!(kind, TokenKind::CloseBrace)
}

// The tokens up to the first statement above the limit, and the place of its first token.
fn excess(tokens: &[Token], limit: usize) -> Option<(&[Token], Span)>
    ensures { MatchOption result (statement_count tokens.now ≤ limit)
        (λ x. IsExcess limit tokens.now x.0.now x.1) }
{
    let mut count = 0;
    let mut closed = false;
    for (i, token) in tokens.iter().enumerate() {
        if is_counted(closed, &token.kind) {
            if count == limit {
                return Some((&tokens[..=i], token.span));
            }
            count += 1;
        }
        closed = closes_note(&token.kind);
    }
    None
}

// The place of the first token that is left, or the empty one at the last token's end.
fn place(tokens: &[Token], rest: &[Token]) -> Span
    ensures { result ≡ place_of tokens.now rest.now }
{
    match rest {
        [token, ..] => token.span,
        [] => {
            let end = match tokens {
                [] => 0,
                [.., last] => last.span.end,
            };
            Span { start: end, end }
        }
    }
}

// The error, where there are not too many statements and these tokens are left.
fn error(tokens: &[Token], refusal: Refusal, rest: &[Token]) -> ParseError
    ensures { result ≡ error_of tokens.now refusal rest.now }
{
    match refusal {
        Refusal::Memory => ParseError::Memory,
        Refusal::Fault(FaultKind::Expected) => {
            ParseError::Fault(ParseFault::Expected(place(tokens, rest)))
        }
        Refusal::Fault(FaultKind::TooDeep) => {
            ParseError::Fault(ParseFault::TooDeep(place(tokens, rest)))
        }
    }
}

// The error, where these tokens are left and the last one begins a statement too many, at `span`.
fn excess_error(refusal: Refusal, rest: &[Token], span: Span) -> ParseError
    ensures { result ≡ excess_error refusal rest.now span }
{
    match (refusal, rest) {
        (Refusal::Memory, _) => ParseError::Memory,
        (Refusal::Fault(FaultKind::Expected), [token, ..]) => {
            ParseError::Fault(ParseFault::Expected(token.span))
        }
        (Refusal::Fault(FaultKind::TooDeep), [token, _, ..]) => {
            ParseError::Fault(ParseFault::TooDeep(token.span))
        }
        _ => ParseError::Fault(ParseFault::TooManyStatements(span)),
    }
}

// Parses tokens whose last one begins a statement too many, at `span`.
fn parse_excess(alloc: Global, front: &[Token], span: Span) -> ParseError
    ensures { (tokens : List Token) → IsExcess statement_limit tokens front.now span
        → IsParsed level_limit statement_limit tokens (Err result) }
{
    let mut cursor = Cursor::new(front);
    match whole(alloc, LEVELS, &mut cursor) {
        Ok(raw) => {
            drop(raw);
            ParseError::Fault(ParseFault::TooManyStatements(span))
        }
        Err(refusal) => excess_error(refusal, cursor.rest(), span),
    }
}

/// The outline that the tokens stand for.
///
/// An error is the first fault in token order, or `Memory`: `Expected` at the first token with
/// which no outline goes on, `TooManyStatements` at the 4,097th statement outside the bodies of
/// awaits, `TooDeep` at the token that opens the 101st level; at one token in this order. The time
/// and the memory are in proportion to the number of tokens.
pub fn parse(alloc: Global, tokens: &[Token]) -> Result<Raw, ParseError>
    ensures { IsParsed level_limit statement_limit tokens.now result }
{
    if let Some((front, span)) = excess(tokens, STATEMENTS) {
        return Err(parse_excess(alloc, front, span));
    }
    let mut cursor = Cursor::new(tokens);
    match whole(alloc, LEVELS, &mut cursor) {
        Ok(raw) => Ok(raw),
        Err(refusal) => Err(error(tokens, refusal, cursor.rest())),
    }
}

/// A list of tokens stands for at most one outline.
pub fn one_tree()
    ensures { (one other : Outline) (tokens : List Token) → IsAnyOutline one tokens
        → IsAnyOutline other tokens → one ≡ other }
{}

/// Tokens have one answer: those of an outline within limits have no fault, and no tokens have two.
pub fn one_answer()
    ensures outline { (levels statements : ℕ) (tokens : List Token) (outline : Outline)
        (fault : ParseFault) → IsOutline levels outline tokens → statement_count tokens ≤ statements
        → IsFault levels statements tokens fault → ⊥ }
    ensures fault { (levels statements : ℕ) (tokens : List Token) (one other : ParseFault) → IsFault
        levels statements tokens one → IsFault levels statements tokens other → one ≡ other }
{}

/// The statements of an outline, outside the bodies of awaits, are as many as its tokens begin.
pub fn one_count()
    ensures { (outline : Outline) (tokens : List Token) → IsAnyOutline outline tokens
        → statement_count tokens ≡ outline_count outline }
{}
