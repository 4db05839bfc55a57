//! Reading assertions.

ghost use Rattle.std.specs.Prelude.{◌≡◌, map, IfOk};
ghost use Rattle.og_text.specs.declared.token.TokenKind.TheVariants.{Arrow};
ghost use Rattle.og_parse.specs.Gives.{IsRead};
ghost use Rattle.og_parse.specs.Reading.{after_at};
ghost use Rattle.og_parse.specs.Trees.{Implication, conjunction, disjunction};
ghost use Rattle.og_parse.specs.TreeOf.{assertion_of, note_of};
ghost use Rattle.og_parse.specs.Reads.{opens, negation_by, in_parens_by, unit_by, units_by, conjunction_by, conjunctions_by, disjunction_by, assertion_at, test_at, note_at};

use crate::raw::{RawAssert, RawNote};
use crate::sum::comparison;
use crate::{Cursor, FaultKind, Refusal};
use og_text::TokenKind;
use std::alloc::{AllocError, Global};

// The conjunction of them all; one alone is itself.
fn and_of(mut all: Vec<RawAssert>) -> RawAssert
    ensures { assertion_of result ≡ conjunction (map assertion_of all.items) }
{
    if all.len() == 1 {
        return all.remove(0);
    }
    RawAssert::And(all)
}

// The disjunction of them all; one alone is itself.
fn or_of(mut all: Vec<RawAssert>) -> RawAssert
    ensures { assertion_of result ≡ disjunction (map assertion_of all.items) }
{
    if all.len() == 1 {
        return all.remove(0);
    }
    RawAssert::Or(all)
}

// What `not` or `(` opens, where `depth` levels are left.
#[cycle(assertions)]
#[tactic(auto, unfolding(crate::specs::Reads::prefix_by))]
fn prefix(alloc: Global, depth: u32, cursor: &mut Cursor) -> Result<RawAssert, Refusal>
    ensures { IsRead assertion_of result cursor.new ((opens depth).prefix cursor.old) }
{
    if depth == 0 {
        return Err(Refusal::Fault(FaultKind::TooDeep));
    }
    if cursor.is_at(&TokenKind::Not) {
        return negation(alloc, depth - 1, cursor);
    }
    in_parens(alloc, depth - 1, cursor)
}

#[cycle(assertions)]
#[tactic(auto, unfolding(crate::specs::Reads::negation_by))]
fn negation(alloc: Global, depth: u32, cursor: &mut Cursor) -> Result<RawAssert, Refusal>
    ensures { IsRead assertion_of result cursor.new (negation_by (unit_by (opens depth)) cursor.old) }
{
    cursor.expect(&TokenKind::Not)?;
    let a = unit(alloc, depth, cursor)?;
    Ok(RawAssert::Not(Box::new(alloc, a)?))
}

#[cycle(assertions)]
#[tactic(auto, unfolding(crate::specs::Reads::in_parens_by))]
fn in_parens(alloc: Global, depth: u32, cursor: &mut Cursor) -> Result<RawAssert, Refusal>
    ensures { IsRead assertion_of result cursor.new (in_parens_by (assertion_at depth) cursor.old) }
{
    cursor.expect(&TokenKind::OpenParen)?;
    let a = assertion(alloc, depth, cursor)?;
    cursor.expect(&TokenKind::CloseParen)?;
    Ok(a)
}

fn implication(alloc: Global, left: RawAssert, right: RawAssert) -> Result<RawAssert, AllocError>
    ensures { IfOk result (λ a.
        assertion_of a ≡ Implication (assertion_of left) (assertion_of right)) }
{
    let left = Box::new(alloc, left)?;
    Ok(RawAssert::Implies(left, Box::new(alloc, right)?))
}

// The assertion after a `->`.
#[cycle(assertions)]
fn consequence(alloc: Global, depth: u32, cursor: &mut Cursor) -> Result<RawAssert, Refusal>
    ensures { IsRead assertion_of result cursor.new (after_at Arrow (assertion_at depth) cursor.old) }
{
    cursor.expect(&TokenKind::Arrow)?;
    assertion(alloc, depth, cursor)
}

// What `->` opens after `left`, where `depth` levels are left.
#[cycle(assertions)]
#[tactic(auto, unfolding(crate::specs::Reads::implied_by))]
fn implied(
    alloc: Global,
    depth: u32,
    left: RawAssert,
    cursor: &mut Cursor,
) -> Result<RawAssert, Refusal>
    ensures { IsRead assertion_of result cursor.new
        ((opens depth).implied (assertion_of left) cursor.old) }
{
    if depth == 0 {
        return Err(Refusal::Fault(FaultKind::TooDeep));
    }
    let right = consequence(alloc, depth - 1, cursor)?;
    Ok(implication(alloc, left, right)?)
}

#[cycle(assertions)]
#[tactic(auto, unfolding(crate::specs::Reads::unit_by, crate::specs::Reads::truth_at, crate::specs::Reads::falsity_at))]
fn unit(alloc: Global, depth: u32, cursor: &mut Cursor) -> Result<RawAssert, Refusal>
    ensures { IsRead assertion_of result cursor.new (unit_by (opens depth) cursor.old) }
{
    if cursor.is_at(&TokenKind::Not) || cursor.is_at(&TokenKind::OpenParen) {
        return prefix(alloc, depth, cursor);
    }
    if cursor.eat(&TokenKind::True) {
        return Ok(RawAssert::True);
    }
    if cursor.eat(&TokenKind::False) {
        return Ok(RawAssert::False);
    }
    comparison(alloc, cursor)
}

#[cycle(assertions)]
#[tactic(auto, unfolding(crate::specs::Reads::units_by))]
fn units(alloc: Global, depth: u32, cursor: &mut Cursor) -> Result<Vec<RawAssert>, Refusal>
    ensures { IsRead (λ all. map assertion_of all.items) result cursor.new
        (units_by (opens depth) cursor.old) }
{
    let mut all = Vec::new(alloc);
    all.push(unit(alloc, depth, cursor)?)?;
    'more: while cursor.eat(&TokenKind::And) {
        all.push(unit(alloc, depth, cursor)?)?;
    }
    Ok(all)
}

#[cycle(assertions)]
#[tactic(auto, unfolding(crate::specs::Reads::conjunction_by))]
fn conjunction(alloc: Global, depth: u32, cursor: &mut Cursor) -> Result<RawAssert, Refusal>
    ensures { IsRead assertion_of result cursor.new (conjunction_by (opens depth) cursor.old) }
{
    Ok(and_of(units(alloc, depth, cursor)?))
}

#[cycle(assertions)]
#[tactic(auto, unfolding(crate::specs::Reads::conjunctions_by))]
fn conjunctions(alloc: Global, depth: u32, cursor: &mut Cursor) -> Result<Vec<RawAssert>, Refusal>
    ensures { IsRead (λ all. map assertion_of all.items) result cursor.new
        (conjunctions_by (opens depth) cursor.old) }
{
    let mut all = Vec::new(alloc);
    all.push(conjunction(alloc, depth, cursor)?)?;
    'more: while cursor.eat(&TokenKind::Or) {
        all.push(conjunction(alloc, depth, cursor)?)?;
    }
    Ok(all)
}

#[cycle(assertions)]
#[tactic(auto, unfolding(crate::specs::Reads::disjunction_by))]
fn disjunction(alloc: Global, depth: u32, cursor: &mut Cursor) -> Result<RawAssert, Refusal>
    ensures { IsRead assertion_of result cursor.new (disjunction_by (opens depth) cursor.old) }
{
    Ok(or_of(conjunctions(alloc, depth, cursor)?))
}

/// Reads an assertion with at most `depth` levels.
#[cycle(assertions)]
#[tactic(auto, unfolding(crate::specs::Reads::assertion_by))]
pub(crate) fn assertion(
    alloc: Global,
    depth: u32,
    cursor: &mut Cursor,
) -> Result<RawAssert, Refusal>
    ensures { IsRead assertion_of result cursor.new (assertion_at depth cursor.old) }
{
    let left = disjunction(alloc, depth, cursor)?;
    if cursor.is_at(&TokenKind::Arrow) {
        return implied(alloc, depth, left, cursor);
    }
    Ok(left)
}

/// Reads an assertion and the symbol after it.
#[tactic(auto, unfolding(crate::specs::Reads::test_at))]
pub(crate) fn test(
    alloc: Global,
    depth: u32,
    symbol: &TokenKind,
    cursor: &mut Cursor,
) -> Result<RawAssert, Refusal>
    ensures { IsRead assertion_of result cursor.new (test_at symbol.now depth cursor.old) }
{
    let a = assertion(alloc, depth, cursor)?;
    cursor.expect(symbol)?;
    Ok(a)
}

/// Reads an assertion in braces.
#[tactic(auto, unfolding(crate::specs::Reads::note_at, crate::specs::Reads::braced_at))]
pub(crate) fn note(alloc: Global, depth: u32, cursor: &mut Cursor) -> Result<RawNote, Refusal>
    ensures { IsRead note_of result cursor.new (note_at depth cursor.old) }
{
    let span = cursor.span();
    cursor.expect(&TokenKind::OpenBrace)?;
    let assertion = test(alloc, depth, &TokenKind::CloseBrace, cursor)?;
    Ok(RawNote { assertion, span })
}
