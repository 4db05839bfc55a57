//! The two sides of a relation.

ghost use Rattle.std.specs.Prelude.{◌≡◌, ◌<◌, ◌-◌, IfOk, length, take, slice_get, not, filter, map};
ghost use Rattle.std.specs.List.{list_any};
ghost use Rattle.og_erase_readable.specs.Readable as wanted;
ghost use Rattle.og_parse.specs.TreeOf.{assertion_of, sum_of};

use crate::copies::{copy_factor, copy_sum, copy_term};
use og_parse::{RawAssert, RawFactor, RawSum, RawTerm, Relation, Sign};
use std::alloc::{AllocError, Global};

fn is_number(factor: &RawFactor) -> bool
    ensures { result ≡ wanted.is_number factor.now }
{
    matches!(factor, RawFactor::Number(_))
}

fn is_this(number: u64, factor: &RawFactor) -> bool
    ensures { result ≡ wanted.is_this number factor.now }
{
    match factor {
        RawFactor::Number(n) => *n == number,
        _ => false,
    }
}

fn is_plus(sign: Sign) -> bool
    ensures { result ≡ wanted.is_plus sign }
{
    match sign {
        Sign::Plus => true,
        Sign::Minus => false,
    }
}

fn other_sign(sign: Sign) -> Sign
    ensures { result ≡ wanted.other_sign sign }
{
    match sign {
        Sign::Plus => Sign::Minus,
        Sign::Minus => Sign::Plus,
    }
}

// A variable that is added.
fn is_added(term: &RawTerm) -> bool
    ensures { result ≡ wanted.is_added term.now }
{
    !is_number(&term.factor) && is_plus(term.sign)
}

// A variable that is taken away.
fn is_taken(term: &RawTerm) -> bool
    ensures { result ≡ wanted.is_taken term.now }
{
    !is_number(&term.factor) && !is_plus(term.sign)
}

fn some_added(terms: &[RawTerm]) -> bool
    ensures { result ≡ list_any wanted.is_added terms.now }
{
    terms.iter().any(is_added)
}

fn some_taken(terms: &[RawTerm]) -> bool
    ensures { result ≡ list_any wanted.is_taken terms.now }
{
    terms.iter().any(is_taken)
}

fn is_zero(terms: &[RawTerm]) -> bool
    ensures { result ≡ wanted.is_zero terms.now }
{
    match terms {
        [term] => is_this(0, &term.factor),
        _ => false,
    }
}

// The number 0, where there are no terms.
fn or_zero(terms: Vec<RawTerm>) -> Result<Vec<RawTerm>, AllocError>
    ensures { IfOk result (λ v. v.items ≡ wanted.or_zero terms.items) }
{
    let mut terms = terms;
    if terms.is_empty() {
        terms.push(RawTerm {
            sign: Sign::Plus,
            factor: RawFactor::Number(0),
        })?;
    }
    Ok(terms)
}

fn stays(some: bool, term: &RawTerm) -> bool
    ensures { result ≡ wanted.stays some term.now }
{
    if some {
        is_added(term)
    } else {
        is_number(&term.factor)
    }
}

// The term with the other sign.
fn turned(alloc: Global, term: &RawTerm) -> Result<RawTerm, AllocError>
    ensures { IfOk result (λ t. t ≡ wanted.turned term.now) }
{
    Ok(RawTerm {
        sign: other_sign(term.sign),
        factor: copy_factor(alloc, &term.factor)?,
    })
}

// The terms that stay.
fn staying(alloc: Global, some: bool, terms: &[RawTerm]) -> Result<Vec<RawTerm>, AllocError>
    ensures { IfOk result (λ v. v.items ≡ filter (wanted.stays some) terms.now) }
{
    let mut out = Vec::new(alloc);
    for term in terms {
        if stays(some, term) {
            out.push(copy_term(alloc, term)?)?;
        }
    }
    Ok(out)
}

// The terms that do not stay, turned.
fn moving(alloc: Global, some: bool, terms: &[RawTerm]) -> Result<Vec<RawTerm>, AllocError>
    ensures { IfOk result (λ v.
        v.items ≡ map wanted.turned (filter (λ t. not (wanted.stays some t)) terms.now)) }
{
    let mut out = Vec::new(alloc);
    for term in terms {
        if !stays(some, term) {
            out.push(turned(alloc, term)?)?;
        }
    }
    Ok(out)
}

fn left_side(alloc: Global, terms: &[RawTerm]) -> Result<Vec<RawTerm>, AllocError>
    ensures { IfOk result (λ v. v.items ≡ wanted.left_side terms.now) }
{
    or_zero(staying(alloc, some_added(terms), terms)?)
}

fn right_side(alloc: Global, terms: &[RawTerm]) -> Result<Vec<RawTerm>, AllocError>
    ensures { IfOk result (λ v. v.items ≡ wanted.right_side terms.now) }
{
    or_zero(moving(alloc, some_added(terms), terms)?)
}

// Whether the last term is `+ 1`.
fn ends_in_one(terms: &[RawTerm]) -> bool
    ensures { result ≡ wanted.is_one (slice_get terms.now (length terms.now - 1)) }
{
    match terms {
        [.., term] => is_this(1, &term.factor) && is_plus(term.sign),
        [] => false,
    }
}

fn is_at_most(relation: Relation) -> bool
    ensures { result ≡ wanted.is_at_most relation }
{
    match relation {
        Relation::LessEqual => true,
        _ => false,
    }
}

// Whether `<` expresses it, without a last `+ 1`.
fn is_strict(relation: Relation, terms: &[RawTerm]) -> bool
    ensures { result ≡ wanted.is_strict relation terms.now }
{
    is_at_most(relation) && ends_in_one(terms) && some_added(terms) && some_taken(terms)
}

fn stated_relation(strict: bool, relation: Relation) -> Relation
    ensures { result ≡ wanted.stated_relation strict relation }
{
    if strict { Relation::Less } else { relation }
}

fn stated_terms(strict: bool, terms: &[RawTerm]) -> &[RawTerm]
    ensures { result.now ≡ wanted.stated_terms strict terms.now }
{
    if strict {
        &terms[..terms.len().saturating_sub(1)]
    } else {
        terms
    }
}

// Terms that are compared with 0. The sums give the places of the sides.
fn parted(
    alloc: Global,
    left: &RawSum,
    relation: Relation,
    terms: &[RawTerm],
    right: &RawSum,
) -> Result<RawAssert, AllocError>
    ensures { IfOk result (λ a.
        assertion_of a ≡ wanted.parted (sum_of left.now) relation terms.now (sum_of right.now)) }
{
    let added = RawSum {
        terms: left_side(alloc, terms)?,
        span: left.span,
    };
    let taken = RawSum {
        terms: right_side(alloc, terms)?,
        span: right.span,
    };
    Ok(RawAssert::Compare(added, relation, taken))
}

pub(crate) fn comparison(
    alloc: Global,
    left: &RawSum,
    relation: Relation,
    right: &RawSum,
) -> Result<RawAssert, AllocError>
    ensures { IfOk result (λ a.
        assertion_of a ≡ wanted.readable_comparison (sum_of left.now) relation (sum_of right.now)) }
{
    if !is_zero(&right.terms) {
        let left = copy_sum(alloc, left)?;
        return Ok(RawAssert::Compare(left, relation, copy_sum(alloc, right)?));
    }
    let strict = is_strict(relation, &left.terms);
    let stated = stated_terms(strict, &left.terms);
    parted(
        alloc,
        left,
        stated_relation(strict, relation),
        stated,
        right,
    )
}
