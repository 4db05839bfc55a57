//! Reading sums, initial values and comparisons.

ghost use Rattle.std.specs.Prelude.{◌≡◌, Ok};
ghost use Rattle.og_parse.specs.Gives.{IsRead, OnMemory};
ghost use Rattle.og_parse.specs.TreeOf.{sum_of, assertion_of};
ghost use Rattle.og_parse.specs.Reads.{leading_at, product_at, factor_at, term_after_at, terms_at, sum_at, int_at, comparison_at};

use crate::raw::{RawAssert, RawFactor, RawInt, RawSum, RawTerm, Sign};
use crate::word::{is_at_name, is_at_sign, name, number, relation, sign};
use crate::{Cursor, Refusal};
use og_text::TokenKind;
use std::alloc::Global;

// The sign in front of a sum: a `-`, or no token.
#[tactic(auto, unfolding(crate::specs::Reads::leading_at))]
fn leading(cursor: &mut Cursor) -> Sign
    ensures { leading_at cursor.old ≡ Ok (result, cursor.new) }
{
    if cursor.eat(&TokenKind::Minus) {
        Sign::Minus
    } else {
        Sign::Plus
    }
}

#[tactic(auto, unfolding(crate::specs::Reads::product_at))]
fn product(alloc: Global, cursor: &mut Cursor) -> Result<RawFactor, Refusal>
    ensures { IsRead (λ factor. factor) result cursor.new (product_at cursor.old) }
{
    let n = number(cursor)?;
    if cursor.eat(&TokenKind::Star) {
        return Ok(RawFactor::Product(n, name(alloc, cursor)?));
    }
    Ok(RawFactor::Number(n))
}

#[tactic(auto, unfolding(crate::specs::Reads::factor_at))]
fn factor(alloc: Global, cursor: &mut Cursor) -> Result<RawFactor, Refusal>
    ensures { IsRead (λ factor. factor) result cursor.new (factor_at cursor.old) }
{
    if is_at_name(cursor) {
        return Ok(RawFactor::Variable(name(alloc, cursor)?));
    }
    product(alloc, cursor)
}

#[tactic(auto, unfolding(crate::specs::Reads::term_after_at))]
fn term_after(alloc: Global, cursor: &mut Cursor) -> Result<RawTerm, Refusal>
    ensures { IsRead (λ term. term) result cursor.new (term_after_at cursor.old) }
{
    let sign = sign(cursor)?;
    let factor = factor(alloc, cursor)?;
    Ok(RawTerm { sign, factor })
}

#[tactic(auto, unfolding(crate::specs::Reads::terms_at))]
fn terms(alloc: Global, cursor: &mut Cursor) -> Result<Vec<RawTerm>, Refusal>
    ensures { IsRead (λ terms. terms.items) result cursor.new (terms_at cursor.old) }
{
    let sign = leading(cursor);
    let factor = factor(alloc, cursor)?;
    let mut all = Vec::with_capacity(alloc, 1)?;
    all.push(RawTerm { sign, factor })?;
    'more: while is_at_sign(cursor) {
        all.push(term_after(alloc, cursor)?)?;
    }
    Ok(all)
}

/// Reads a sum.
#[tactic(auto, unfolding(crate::specs::Reads::sum_at))]
pub(crate) fn sum(alloc: Global, cursor: &mut Cursor) -> Result<RawSum, Refusal>
    ensures { IsRead sum_of result cursor.new (sum_at cursor.old) }
{
    let span = cursor.span();
    let terms = terms(alloc, cursor)?;
    Ok(RawSum { terms, span })
}

/// Reads an initial value. Takes no memory.
#[tactic(auto, unfolding(crate::specs::Reads::int_at, crate::specs::Reads::signed_at))]
pub(crate) fn int(cursor: &mut Cursor) -> Result<RawInt, Refusal>
    ensures read { IsRead (λ int. int) result cursor.new (int_at cursor.old) }
    ensures memory { OnMemory result ⊥ }
{
    let span = cursor.span();
    let sign = leading(cursor);
    let number = number(cursor)?;
    Ok(RawInt { sign, number, span })
}

/// Reads two sums with a relation between them.
#[tactic(auto, unfolding(crate::specs::Reads::comparison_at))]
pub(crate) fn comparison(alloc: Global, cursor: &mut Cursor) -> Result<RawAssert, Refusal>
    ensures { IsRead assertion_of result cursor.new (comparison_at cursor.old) }
{
    let left = sum(alloc, cursor)?;
    let by = relation(cursor)?;
    let right = sum(alloc, cursor)?;
    Ok(RawAssert::Compare(left, by, right))
}
