//! Reading sums.

ghost use Rattle.std.specs.Prelude.{◌≤◌, length};

use crate::Special;
use crate::binders::binder_to_colon;
use crate::cursor::Cursor;
use crate::exprs::{arguments, bracketed};
use crate::limits::deeper;
use crate::lists::{followed, put};
use crate::tree::{Binder, Expr, Factor, Sum, Term, TermKind};
use og_parse::{RawName, Refusal, Sign};
use og_text::TokenKind;

// The element of a family whose index was read.
fn element(name: RawName, index: Result<Expr, Refusal>) -> Result<Factor, Refusal> {
    Ok(Factor::Element(name, index?))
}

// The use of a named assertion whose arguments were read.
fn usage(name: RawName, arguments: Result<Vec<Expr>, Refusal>) -> Result<Factor, Refusal> {
    Ok(Factor::Use(name, arguments?))
}

// What begins with a name.
fn named_factor(depth: u32, cursor: &mut Cursor) -> Result<Factor, Refusal>
    ensures { length cursor.new ≤ length cursor.old }
{
    let name = cursor.name()?;
    if cursor.eat_special(Special::OpenBracket) {
        return element(name, bracketed(depth, cursor));
    }
    if cursor.eat(&TokenKind::OpenParen) {
        return usage(name, arguments(depth, cursor));
    }
    Ok(Factor::Name(name))
}

fn factor(depth: u32, cursor: &mut Cursor) -> Result<Factor, Refusal>
    ensures { length cursor.new ≤ length cursor.old }
{
    if let Some(n) = cursor.number() {
        return Ok(Factor::Number(n));
    }
    if cursor.eat_special(Special::OpenBracket) {
        return Ok(Factor::Value(bracketed(depth, cursor)?));
    }
    named_factor(depth, cursor)
}

// The product of a factor and another one that was read.
fn multiplied(first: Factor, second: Result<Factor, Refusal>) -> Result<TermKind, Refusal> {
    Ok(TermKind::Product(first, second?))
}

// One factor, or two with a `*` between them.
fn product(depth: u32, cursor: &mut Cursor) -> Result<TermKind, Refusal>
    ensures { length cursor.new ≤ length cursor.old }
{
    let first = factor(depth, cursor)?;
    if cursor.eat(&TokenKind::Star) {
        return multiplied(first, factor(depth, cursor));
    }
    Ok(TermKind::Factor(first))
}

// The terms that are added up by `sum`: one, or a sum in parentheses.
#[cycle(sums)]
fn summands(depth: u32, cursor: &mut Cursor) -> Result<Vec<Term>, Refusal>
    ensures { length cursor.new ≤ length cursor.old }
{
    if cursor.eat(&TokenKind::OpenParen) {
        return followed(terms(depth, cursor), &TokenKind::CloseParen, cursor);
    }
    let mut all = Vec::new(cursor.alloc());
    put(&mut all, term(depth, Sign::Plus, cursor))?;
    Ok(all)
}

// The sum over a binder whose terms were read.
fn total_of(binder: Binder, terms: Result<Vec<Term>, Refusal>) -> Result<TermKind, Refusal> {
    Ok(TermKind::Total(binder, terms?))
}

// What `sum` opens, where `depth` levels are left.
#[cycle(sums)]
fn total(depth: u32, cursor: &mut Cursor) -> Result<TermKind, Refusal>
    ensures { length cursor.new ≤ length cursor.old }
{
    let depth = deeper(depth)?;
    cursor.expect_special(Special::Sum)?;
    let binder = binder_to_colon(depth, cursor)?;
    total_of(binder, summands(depth, cursor))
}

#[cycle(sums)]
fn term(depth: u32, sign: Sign, cursor: &mut Cursor) -> Result<Term, Refusal>
    ensures { length cursor.new ≤ length cursor.old }
{
    let span = cursor.span();
    let kind = if cursor.is_at_special(Special::Sum) {
        total(depth, cursor)?
    } else {
        product(depth, cursor)?
    };
    Ok(Term { sign, kind, span })
}

// The terms of a sum.
#[cycle(sums)]
fn terms(depth: u32, cursor: &mut Cursor) -> Result<Vec<Term>, Refusal>
    ensures { length cursor.new ≤ length cursor.old }
{
    let sign = if cursor.eat(&TokenKind::Minus) {
        Sign::Minus
    } else {
        Sign::Plus
    };
    let mut all = Vec::new(cursor.alloc());
    put(&mut all, term(depth, sign, cursor))?;
    'more: while let Some(sign) = cursor.sign() {
        put(&mut all, term(depth, sign, cursor))?;
    }
    Ok(all)
}

/// Reads a sum with at most `depth` levels.
pub(crate) fn sum(depth: u32, cursor: &mut Cursor) -> Result<Sum, Refusal>
    ensures { length cursor.new ≤ length cursor.old }
{
    let span = cursor.span();
    let terms = terms(depth, cursor)?;
    Ok(Sum { terms, span })
}
