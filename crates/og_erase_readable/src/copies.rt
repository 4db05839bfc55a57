//! Copies of the parts of a tree that stay.

ghost use Rattle.std.specs.Prelude.{◌≡◌, IfOk, map};
ghost use Rattle.og_parse.specs.TreeOf.{basic_of, element_of, sum_of};

use og_parse::{RawBasic, RawElement, RawFactor, RawName, RawSum, RawTerm};
use og_text::Name;
use std::alloc::{AllocError, Global};

fn copy_name(alloc: Global, name: &RawName) -> Result<RawName, AllocError>
    ensures { IfOk result (λ copy. copy ≡ name.now) }
{
    Ok(RawName {
        name: Name::new(Vec::from_slice(alloc, name.name.as_slice())?),
        span: name.span,
    })
}

pub(crate) fn copy_factor(alloc: Global, factor: &RawFactor) -> Result<RawFactor, AllocError>
    ensures { IfOk result (λ copy. copy ≡ factor.now) }
{
    match factor {
        RawFactor::Number(number) => Ok(RawFactor::Number(*number)),
        RawFactor::Variable(name) => Ok(RawFactor::Variable(copy_name(alloc, name)?)),
        RawFactor::Product(number, name) => {
            Ok(RawFactor::Product(*number, copy_name(alloc, name)?))
        }
    }
}

pub(crate) fn copy_term(alloc: Global, term: &RawTerm) -> Result<RawTerm, AllocError>
    ensures { IfOk result (λ copy. copy ≡ term.now) }
{
    Ok(RawTerm {
        sign: term.sign,
        factor: copy_factor(alloc, &term.factor)?,
    })
}

fn copy_terms(alloc: Global, terms: &[RawTerm]) -> Result<Vec<RawTerm>, AllocError>
    ensures { IfOk result (λ copies. copies.items ≡ terms.now) }
{
    let mut copies = Vec::new(alloc);
    for term in terms {
        copies.push(copy_term(alloc, term)?)?;
    }
    Ok(copies)
}

pub(crate) fn copy_sum(alloc: Global, sum: &RawSum) -> Result<RawSum, AllocError>
    ensures { IfOk result (λ copy. sum_of copy ≡ sum_of sum.now) }
{
    Ok(RawSum {
        terms: copy_terms(alloc, &sum.terms)?,
        span: sum.span,
    })
}

pub(crate) fn copy_basic(alloc: Global, basic: &RawBasic) -> Result<RawBasic, AllocError>
    ensures { IfOk result (λ copy. basic_of copy ≡ basic_of basic.now) }
{
    match basic {
        RawBasic::Skip => Ok(RawBasic::Skip),
        RawBasic::Assign(name, sum) => {
            let name = copy_name(alloc, name)?;
            Ok(RawBasic::Assign(name, copy_sum(alloc, sum)?))
        }
    }
}

pub(crate) fn copy_elements(
    alloc: Global,
    elements: &[RawElement],
) -> Result<Vec<RawElement>, AllocError>
    ensures { IfOk result (λ copies. map element_of copies.items ≡ map element_of elements.now) }
{
    let mut copies = Vec::new(alloc);
    for element in elements {
        let basic = copy_basic(alloc, &element.basic)?;
        copies.push(RawElement {
            basic,
            span: element.span,
        })?;
    }
    Ok(copies)
}
