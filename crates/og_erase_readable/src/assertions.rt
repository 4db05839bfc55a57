//! Assertions with readable relations.

ghost use Rattle.std.specs.Prelude.{◌≡◌, IfOk, map};
ghost use Rattle.og_parse.specs.Trees.{listed};
ghost use Rattle.og_parse.specs.TreeOf.{assertion_of, note_of};
ghost use Rattle.og_erase_readable.specs.Readable as wanted;

use crate::sides::comparison;
use og_parse::{RawAssert, RawNote};
use std::alloc::{AllocError, Global};

#[cycle(assertions)]
pub(crate) fn assertion(alloc: Global, a: &RawAssert) -> Result<RawAssert, AllocError>
    ensures { IfOk result (λ r. assertion_of r ≡ wanted.readable_assertion (assertion_of a.now)) }
{
    match a {
        RawAssert::True => Ok(RawAssert::True),
        RawAssert::False => Ok(RawAssert::False),
        RawAssert::Compare(left, relation, right) => comparison(alloc, left, *relation, right),
        RawAssert::Not(a) => Ok(RawAssert::Not(boxed(alloc, a)?)),
        RawAssert::And(all) => Ok(RawAssert::And(assertions(alloc, all)?)),
        RawAssert::Or(all) => Ok(RawAssert::Or(assertions(alloc, all)?)),
        RawAssert::Implies(a, b) => {
            let a = boxed(alloc, a)?;
            let b = boxed(alloc, b)?;
            Ok(RawAssert::Implies(a, b))
        }
    }
}

// An assertion, in a box.
#[cycle(assertions)]
fn boxed(alloc: Global, a: &RawAssert) -> Result<Box<RawAssert>, AllocError>
    ensures { IfOk result (λ b.
        assertion_of b.value ≡ wanted.readable_assertion (assertion_of a.now)) }
{
    let a = assertion(alloc, a)?;
    Ok(Box::new(alloc, a)?)
}

#[cycle(assertions)]
fn assertions(alloc: Global, all: &[RawAssert]) -> Result<Vec<RawAssert>, AllocError>
    ensures { IfOk result (λ v. listed (map assertion_of v.items)
        ≡ wanted.readable_assertions (listed (map assertion_of all.now))) }
{
    let mut out = Vec::new(alloc);
    for a in all {
        out.push(assertion(alloc, a)?)?;
    }
    Ok(out)
}

pub(crate) fn note(alloc: Global, note: &RawNote) -> Result<RawNote, AllocError>
    ensures { IfOk result (λ n. note_of n ≡ wanted.readable_note (note_of note.now)) }
{
    Ok(RawNote {
        assertion: assertion(alloc, &note.assertion)?,
        span: note.span,
    })
}
