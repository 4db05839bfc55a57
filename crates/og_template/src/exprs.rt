//! Reading constant expressions.

ghost use Rattle.std.specs.Prelude.{◌<◌, ◌≤◌, length, IfSome};

use crate::Special;
use crate::cursor::Cursor;
use crate::limits::deeper;
use crate::lists::{Listed, followed, followed_by_special, list, put};
use crate::tree::{Expr, Link, Operator};
use og_parse::Refusal;
use og_text::{Span, TokenKind};
use std::alloc::{AllocError, Global};

// The operator `+` or `-`, if one stands here. Goes past it.
fn additive(cursor: &mut Cursor) -> Option<Operator>
    ensures some { IfSome result (λ _. length cursor.new < length cursor.old) }
    ensures less { length cursor.new ≤ length cursor.old }
{
    if cursor.eat(&TokenKind::Plus) {
        return Some(Operator::Plus);
    }
    if cursor.eat(&TokenKind::Minus) {
        return Some(Operator::Minus);
    }
    None
}

// The operator `*` or `mod`, if one stands here. Goes past it.
fn multiplicative(cursor: &mut Cursor) -> Option<Operator>
    ensures some { IfSome result (λ _. length cursor.new < length cursor.old) }
    ensures less { length cursor.new ≤ length cursor.old }
{
    if cursor.eat(&TokenKind::Star) {
        return Some(Operator::Times);
    }
    if cursor.eat_special(Special::Mod) {
        return Some(Operator::Mod);
    }
    None
}

// An operator with the operand that was read behind it.
fn link(operator: Operator, span: Span, read: Result<Expr, Refusal>) -> Result<Link, Refusal> {
    Ok(Link {
        operator,
        span,
        operand: read?,
    })
}

// The operators that were read from the left; an operand alone is itself.
fn chain(alloc: Global, first: Expr, read: Result<Vec<Link>, Refusal>) -> Result<Expr, Refusal> {
    let links = read?;
    if links.is_empty() {
        return Ok(first);
    }
    Ok(Expr::Chain(Box::new(alloc, first)?, links))
}

// The expression after the `-` at a place.
fn negated(alloc: Global, operand: Expr, span: Span) -> Result<Expr, AllocError> {
    match operand {
        Expr::Number(n, _) => Ok(Expr::Negative(n, span)),
        operand => Ok(Expr::Minus(Box::new(alloc, operand)?, span)),
    }
}

// A number or a name.
fn atom(cursor: &mut Cursor) -> Result<Expr, Refusal>
    ensures { length cursor.new ≤ length cursor.old }
{
    let span = cursor.span();
    if let Some(n) = cursor.number() {
        return Ok(Expr::Number(n, span));
    }
    Ok(Expr::Name(cursor.name()?))
}

// What `(` opens, where `depth` levels are left.
#[cycle(expressions)]
fn group(depth: u32, cursor: &mut Cursor) -> Result<Expr, Refusal>
    ensures { length cursor.new ≤ length cursor.old }
{
    let depth = deeper(depth)?;
    cursor.expect(&TokenKind::OpenParen)?;
    followed(expr(depth, cursor), &TokenKind::CloseParen, cursor)
}

#[cycle(expressions)]
fn operand(depth: u32, cursor: &mut Cursor) -> Result<Expr, Refusal>
    ensures { length cursor.new ≤ length cursor.old }
{
    if cursor.is_at(&TokenKind::OpenParen) {
        return group(depth, cursor);
    }
    atom(cursor)
}

// The operators `*` and `mod` with their operands, as many as stand here.
#[cycle(expressions)]
fn factors(depth: u32, cursor: &mut Cursor) -> Result<Vec<Link>, Refusal>
    ensures { length cursor.new ≤ length cursor.old }
{
    let mut links = Vec::new(cursor.alloc());
    let mut span = cursor.span();
    'more: while let Some(operator) = multiplicative(cursor) {
        put(&mut links, link(operator, span, operand(depth, cursor)))?;
        span = cursor.span();
    }
    Ok(links)
}

#[cycle(expressions)]
fn product(depth: u32, cursor: &mut Cursor) -> Result<Expr, Refusal>
    ensures { length cursor.new ≤ length cursor.old }
{
    let first = operand(depth, cursor)?;
    chain(cursor.alloc(), first, factors(depth, cursor))
}

// A product, with a `-` before it or without.
#[cycle(expressions)]
fn signed(depth: u32, cursor: &mut Cursor) -> Result<Expr, Refusal>
    ensures { length cursor.new ≤ length cursor.old }
{
    let span = cursor.span();
    if !cursor.eat(&TokenKind::Minus) {
        return product(depth, cursor);
    }
    let operand = product(depth, cursor)?;
    Ok(negated(cursor.alloc(), operand, span)?)
}

// The operators `+` and `-` with their operands, as many as stand here.
#[cycle(expressions)]
fn terms(depth: u32, cursor: &mut Cursor) -> Result<Vec<Link>, Refusal>
    ensures { length cursor.new ≤ length cursor.old }
{
    let mut links = Vec::new(cursor.alloc());
    let mut span = cursor.span();
    'more: while let Some(operator) = additive(cursor) {
        put(&mut links, link(operator, span, product(depth, cursor)))?;
        span = cursor.span();
    }
    Ok(links)
}

/// Reads an expression with at most `depth` levels.
#[cycle(expressions)]
pub(crate) fn expr(depth: u32, cursor: &mut Cursor) -> Result<Expr, Refusal>
    ensures { length cursor.new ≤ length cursor.old }
{
    let first = signed(depth, cursor)?;
    chain(cursor.alloc(), first, terms(depth, cursor))
}

impl Listed for Expr {
    fn read(depth: u32, cursor: &mut Cursor) -> Result<Expr, Refusal> {
        expr(depth, cursor)
    }
}

/// Reads expressions with `,` between them, up to the `)`.
pub(crate) fn arguments(depth: u32, cursor: &mut Cursor) -> Result<Vec<Expr>, Refusal>
    ensures { length cursor.new ≤ length cursor.old }
{
    let all = list(depth, &TokenKind::Comma, cursor);
    followed(all, &TokenKind::CloseParen, cursor)
}

/// Reads an expression and the `]` after it.
pub(crate) fn bracketed(depth: u32, cursor: &mut Cursor) -> Result<Expr, Refusal>
    ensures { length cursor.new ≤ length cursor.old }
{
    followed_by_special(expr(depth, cursor), Special::CloseBracket, cursor)
}
