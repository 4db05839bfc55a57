//! Reading assertions.

ghost use Rattle.std.specs.Prelude.{◌≡◌, ◌<◌, ◌≤◌, length, true, OnOk};

use crate::Special;
use crate::binders::binder_to_colon;
use crate::cursor::Cursor;
use crate::limits::deeper;
use crate::lists::{boxed, followed, put};
use crate::sums::sum;
use crate::tree::{Assertion, Binder, Conjunction, Disjunction, Factor, Note, Sum, TermKind, Unit};
use og_parse::{FaultKind, Refusal, Sign};
use og_text::{Span, TokenKind};
use std::alloc::Global;

// Whether a quantifier stands among the parts, outside of parentheses.
fn has_quantifier(left: &Disjunction) -> bool {
    for conjunction in &left.parts {
        for unit in &conjunction.parts {
            if matches!(unit, Unit::All(_, _, _) | Unit::Any(_, _, _)) {
                return true;
            }
        }
    }
    false
}

// Whether the sum is one term without a sign of its own.
fn is_one_term(sum: &Sum) -> bool
    ensures { result ≡ true → length sum.now.terms.items ≡ 1 }
{
    match sum.terms.as_slice() {
        [term] => term.sign == Sign::Plus && term.span.start == sum.span.start,
        _ => false,
    }
}

// The use of a named assertion that a factor is.
fn use_in(alloc: Global, factor: Factor) -> Option<Unit> {
    match factor {
        Factor::Name(name) => Some(Unit::Use(name, Vec::new(alloc))),
        Factor::Use(name, arguments) => Some(Unit::Use(name, arguments)),
        other => {
            drop(other);
            None
        }
    }
}

// The use of a named assertion that a sum without a relation is, if it is one factor without a
// sign.
fn use_of(alloc: Global, sum: Sum) -> Option<Unit> {
    if !is_one_term(&sum) {
        drop(sum);
        return None;
    }
    let mut terms = sum.terms;
    match terms.remove(0).kind {
        TermKind::Factor(factor) => use_in(alloc, factor),
        other => {
            drop(other);
            None
        }
    }
}

// What begins as a sum: a comparison, or the use of a named assertion.
fn comparison(depth: u32, cursor: &mut Cursor) -> Result<Unit, Refusal>
    ensures { length cursor.new ≤ length cursor.old }
{
    let left = sum(depth, cursor)?;
    match cursor.relation() {
        Some(relation) => Ok(Unit::Compare(left, relation, sum(depth, cursor)?)),
        None => match use_of(cursor.alloc(), left) {
            Some(unit) => Ok(unit),
            None => Err(Refusal::Fault(FaultKind::Expected)),
        },
    }
}

// What follows `not`.
#[cycle(assertions)]
fn closed(depth: u32, cursor: &mut Cursor) -> Result<Unit, Refusal>
    ensures { length cursor.new ≤ length cursor.old }
{
    if cursor.is_at_special(Special::All) || cursor.is_at_special(Special::Any) {
        return Err(Refusal::Fault(FaultKind::Expected));
    }
    unit(depth, cursor)
}

#[cycle(assertions)]
fn negation(depth: u32, cursor: &mut Cursor) -> Result<Unit, Refusal>
    ensures { length cursor.new ≤ length cursor.old }
{
    let span = cursor.expect(&TokenKind::Not)?;
    let inner = boxed(cursor.alloc(), closed(depth, cursor))?;
    Ok(Unit::Not(span, inner))
}

#[cycle(assertions)]
fn group(depth: u32, cursor: &mut Cursor) -> Result<Unit, Refusal>
    ensures { length cursor.new ≤ length cursor.old }
{
    let span = cursor.expect(&TokenKind::OpenParen)?;
    let inner = followed(assertion(depth, cursor), &TokenKind::CloseParen, cursor);
    Ok(Unit::Group(span, boxed(cursor.alloc(), inner)?))
}

// The quantifier over what was read.
fn quantifier(
    all: bool,
    span: Span,
    binder: Binder,
    read: Result<Box<Unit>, Refusal>,
) -> Result<Unit, Refusal> {
    let inner = read?;
    if all {
        return Ok(Unit::All(span, binder, inner));
    }
    Ok(Unit::Any(span, binder, inner))
}

// What follows `all` or `some`.
#[cycle(assertions)]
fn quantified(depth: u32, all: bool, cursor: &mut Cursor) -> Result<Unit, Refusal>
    ensures { length cursor.new ≤ length cursor.old }
{
    let span = cursor.span();
    cursor.advance();
    let binder = binder_to_colon(depth, cursor)?;
    let inner = boxed(cursor.alloc(), unit(depth, cursor));
    quantifier(all, span, binder, inner)
}

// What `not`, `(`, `all` or `some` opens, where `depth` levels are left.
#[cycle(assertions)]
fn opened(depth: u32, cursor: &mut Cursor) -> Result<Unit, Refusal>
    ensures { length cursor.new ≤ length cursor.old }
{
    let depth = deeper(depth)?;
    if cursor.is_at(&TokenKind::Not) {
        return negation(depth, cursor);
    }
    if cursor.is_at(&TokenKind::OpenParen) {
        return group(depth, cursor);
    }
    quantified(depth, cursor.is_at_special(Special::All), cursor)
}

// Whether the next word opens a level in front of an assertion.
fn is_at_opening(cursor: &Cursor) -> bool {
    cursor.is_at(&TokenKind::Not)
        || cursor.is_at(&TokenKind::OpenParen)
        || cursor.is_at_special(Special::All)
        || cursor.is_at_special(Special::Any)
}

#[cycle(assertions)]
fn unit(depth: u32, cursor: &mut Cursor) -> Result<Unit, Refusal>
    ensures { length cursor.new ≤ length cursor.old }
{
    if is_at_opening(cursor) {
        return opened(depth, cursor);
    }
    let span = cursor.span();
    if cursor.eat(&TokenKind::True) {
        return Ok(Unit::True(span));
    }
    if cursor.eat(&TokenKind::False) {
        return Ok(Unit::False(span));
    }
    comparison(depth, cursor)
}

#[cycle(assertions)]
fn conjunction(depth: u32, cursor: &mut Cursor) -> Result<Conjunction, Refusal>
    ensures { length cursor.new ≤ length cursor.old }
{
    let mut parts = Vec::new(cursor.alloc());
    put(&mut parts, unit(depth, cursor))?;
    'more: while cursor.eat(&TokenKind::And) {
        put(&mut parts, unit(depth, cursor))?;
    }
    Ok(Conjunction { parts })
}

#[cycle(assertions)]
fn disjunction(depth: u32, cursor: &mut Cursor) -> Result<Disjunction, Refusal>
    ensures { length cursor.new ≤ length cursor.old }
{
    let mut parts = Vec::new(cursor.alloc());
    put(&mut parts, conjunction(depth, cursor))?;
    'more: while cursor.eat(&TokenKind::Or) {
        put(&mut parts, conjunction(depth, cursor))?;
    }
    Ok(Disjunction { parts })
}

// What `->` opens behind what has a quantifier or not, where `depth` levels are left.
#[cycle(assertions)]
fn implied(depth: u32, quantified: bool, cursor: &mut Cursor) -> Result<Assertion, Refusal>
    ensures { length cursor.new ≤ length cursor.old }
{
    if quantified {
        return Err(Refusal::Fault(FaultKind::Expected));
    }
    let depth = deeper(depth)?;
    cursor.expect(&TokenKind::Arrow)?;
    assertion(depth, cursor)
}

/// Reads an assertion with at most `depth` levels.
#[cycle(assertions)]
pub(crate) fn assertion(depth: u32, cursor: &mut Cursor) -> Result<Assertion, Refusal>
    ensures { length cursor.new ≤ length cursor.old }
{
    let left = disjunction(depth, cursor)?;
    let span = cursor.span();
    if !cursor.is_at(&TokenKind::Arrow) {
        return Ok(Assertion {
            left,
            implied: None,
        });
    }
    let quantified = has_quantifier(&left);
    let right = boxed(cursor.alloc(), implied(depth, quantified, cursor))?;
    Ok(Assertion {
        left,
        implied: Some((span, right)),
    })
}

/// Reads an assertion and the word after it.
pub(crate) fn test(depth: u32, word: &TokenKind, cursor: &mut Cursor) -> Result<Assertion, Refusal>
    ensures { length cursor.new ≤ length cursor.old }
{
    followed(assertion(depth, cursor), word, cursor)
}

/// Reads an assertion in braces.
pub(crate) fn note(depth: u32, cursor: &mut Cursor) -> Result<Note, Refusal>
    ensures ok { OnOk result (length cursor.new < length cursor.old) }
    ensures less { length cursor.new ≤ length cursor.old }
{
    let span = cursor.expect(&TokenKind::OpenBrace)?;
    let assertion = test(depth, &TokenKind::CloseBrace, cursor)?;
    Ok(Note { assertion, span })
}
