//! The symbols with which outlines go on.

ghost use Rattle.std.specs.Prelude.{◌≡◌, IfOk, OnOk, MatchOption, All};
ghost use Rattle.std.specs.Bool.{MatchBool};
ghost use Rattle.og_parse.specs.Expected.{IsFront, IsWhole, GoesOn, HoldsBytes, AreThose, all_kinds, is_at_end};

use crate::kinds::all_kinds;
use crate::{ParseError, ParseFault, parse};
use og_text::{Span, Token, TokenKind};
use std::alloc::{AllocError, Global};

// The place of a token that is tried.
const TRIED: Span = Span { start: 0, end: 1 };

// Whether the fault is that the tokens end too early: that place alone is empty.
fn is_at_end(fault: &ParseFault) -> bool
    ensures { result ≡ is_at_end fault.now }
{
    match fault {
        ParseFault::Expected(span) => span.start == span.end,
        ParseFault::TooDeep(_) | ParseFault::TooManyStatements(_) => false,
    }
}

// Whether an outline within the limits begins with the tokens.
fn is_front(alloc: Global, tokens: &[Token]) -> Result<bool, AllocError>
    requires { All HoldsBytes tokens.now }
    ensures { IfOk result (λ is. MatchBool is (IsFront tokens.now) (IsFront tokens.now → ⊥)) }
{
    match parse(alloc, tokens) {
        Ok(raw) => {
            drop(raw);
            Ok(true)
        }
        Err(ParseError::Memory) => Err(AllocError),
        Err(ParseError::Fault(fault)) => Ok(is_at_end(&fault)),
    }
}

// The kind, if an outline goes on with a token of it. The tokens stay as they are.
fn admitted(
    alloc: Global,
    before: &mut Vec<Token>,
    kind: TokenKind,
) -> Result<Option<TokenKind>, AllocError>
    requires { All HoldsBytes before.old.items }
    ensures kept { OnOk result (before.new.items ≡ before.old.items) }
    ensures kind { IfOk result (λ admitted. MatchOption admitted (GoesOn before.old.items kind → ⊥)
        (λ k. (k ≡ kind) × GoesOn before.old.items kind)) }
{
    before.push(Token { kind, span: TRIED })?;
    let goes_on = is_front(alloc, before.as_slice())?;
    let Some(Token { kind, span: _ }) = before.pop() else {
        return Ok(None);
    };
    Ok(if goes_on { Some(kind) } else { None })
}

/// What may stand behind the tokens `before`, each of which holds some bytes: the kinds of the
/// symbols with which an outline within the limits goes on, in the order of [`TokenKind`]. A name
/// and a number are there for all of them. Parses 38 times as many tokens.
///
/// # Errors
///
/// An allocation was refused.
pub fn expected(alloc: Global, mut before: Vec<Token>) -> Result<Vec<TokenKind>, AllocError>
    requires { All HoldsBytes before.items }
    ensures { IfOk result (λ all. AreThose (GoesOn before.items) all_kinds all.items) }
{
    let mut all = Vec::new(alloc);
    'kinds: for kind in all_kinds(alloc)? {
        if let Some(kind) = admitted(alloc, &mut before, kind)? {
            all.push(kind)?;
        }
    }
    Ok(all)
}

/// Whether the tokens are those of an outline within the limits, so that it may end behind them.
///
/// # Errors
///
/// An allocation was refused.
pub fn is_whole(alloc: Global, tokens: &[Token]) -> Result<bool, AllocError>
    ensures { IfOk result (λ is. MatchBool is (IsWhole tokens.now) (IsWhole tokens.now → ⊥)) }
{
    match parse(alloc, tokens) {
        Ok(raw) => {
            drop(raw);
            Ok(true)
        }
        Err(ParseError::Memory) => Err(AllocError),
        Err(ParseError::Fault(_)) => Ok(false),
    }
}
