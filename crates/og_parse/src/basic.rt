//! Reading statements without parts: `skip`, assignments, and the bodies of awaits.

ghost use Rattle.std.specs.Prelude.{◌≡◌, map};
ghost use Rattle.og_parse.specs.Gives.{IsRead};
ghost use Rattle.og_parse.specs.TreeOf.{basic_of, element_of};
ghost use Rattle.og_parse.specs.Reads.{basic_at, element_at, separated_elements_at, body_at};

use crate::raw::{RawBasic, RawElement};
use crate::sum::sum;
use crate::word::name;
use crate::{Cursor, Refusal};
use og_text::TokenKind;
use std::alloc::Global;

/// Reads a `skip` or an assignment.
#[tactic(auto, unfolding(crate::specs::Reads::basic_at, crate::specs::Reads::skip_at, crate::specs::Reads::assignment_at))]
pub(crate) fn basic(alloc: Global, cursor: &mut Cursor) -> Result<RawBasic, Refusal>
    ensures { IsRead basic_of result cursor.new (basic_at cursor.old) }
{
    if cursor.eat(&TokenKind::Skip) {
        return Ok(RawBasic::Skip);
    }
    let variable = name(alloc, cursor)?;
    cursor.expect(&TokenKind::Assign)?;
    Ok(RawBasic::Assign(variable, sum(alloc, cursor)?))
}

#[tactic(auto, unfolding(crate::specs::Reads::element_at))]
fn element(alloc: Global, cursor: &mut Cursor) -> Result<RawElement, Refusal>
    ensures { IsRead element_of result cursor.new (element_at cursor.old) }
{
    let span = cursor.span();
    let basic = basic(alloc, cursor)?;
    Ok(RawElement { basic, span })
}

#[tactic(auto, unfolding(crate::specs::Reads::separated_elements_at))]
fn elements(alloc: Global, cursor: &mut Cursor) -> Result<Vec<RawElement>, Refusal>
    ensures { IsRead (λ all. map element_of all.items) result cursor.new
        (separated_elements_at cursor.old) }
{
    let mut all = Vec::new(alloc);
    all.push(element(alloc, cursor)?)?;
    'more: while cursor.eat(&TokenKind::Semicolon) {
        all.push(element(alloc, cursor)?)?;
    }
    Ok(all)
}

/// Reads the body of an await: one statement, or several between `begin` and `end`.
#[tactic(auto, unfolding(crate::specs::Reads::body_at, crate::specs::Reads::elements_at))]
pub(crate) fn body(alloc: Global, cursor: &mut Cursor) -> Result<Vec<RawElement>, Refusal>
    ensures { IsRead (λ all. map element_of all.items) result cursor.new (body_at cursor.old) }
{
    if cursor.eat(&TokenKind::Begin) {
        let all = elements(alloc, cursor)?;
        cursor.expect(&TokenKind::End)?;
        return Ok(all);
    }
    let mut all = Vec::new(alloc);
    all.push(element(alloc, cursor)?)?;
    Ok(all)
}
