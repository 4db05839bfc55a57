//! Resolving assertions.

ghost use Rattle.std.specs.Prelude.{◌≡◌, map};
ghost use Rattle.og_parse.specs.Trees.{listed};
ghost use Rattle.og_parse.specs.TreeOf.{assertion_of, note_of};
ghost use Rattle.og_typed.specs.Answer.{IsResolved};
ghost use Rattle.og_typed.specs.Plain.{formula, noted};
ghost use Rattle.og_typed.specs.Lists.{formula_list};
ghost use Rattle.og_typed.specs.Resolved as meaning;
ghost use Rattle.og_typed.specs.Scoped.{scope_of, use_of};

use crate::assertion::Assert;
use crate::fault::TypeError;
use crate::scope::{Scope, Use};
use crate::statement::Note;
use crate::sums::comparison;
use og_parse::{RawAssert, RawNote};

// The assertion that a tree stands for.
#[cycle(assertions)]
#[tactic(auto, using(crate::proofs::Lists::formula_and, crate::proofs::Lists::formula_or))]
pub(crate) fn assertion(scope: &Scope<'_>, usage: Use, raw: &RawAssert) -> Result<Assert, TypeError>
    ensures { IsResolved formula result
        (meaning.assertion (scope_of scope.now) (use_of usage) (assertion_of raw.now)) }
{
    match raw {
        RawAssert::True => Ok(Assert::True),
        RawAssert::False => Ok(Assert::False),
        RawAssert::Compare(left, relation, right) => {
            comparison(scope, usage, left, *relation, right)
        }
        RawAssert::Not(a) => {
            let a = boxed(scope, usage, a)?;
            Ok(Assert::Not(a))
        }
        RawAssert::And(all) => Ok(Assert::And(assertions(scope, usage, all)?)),
        RawAssert::Or(all) => Ok(Assert::Or(assertions(scope, usage, all)?)),
        RawAssert::Implies(a, b) => {
            let a = boxed(scope, usage, a)?;
            let b = boxed(scope, usage, b)?;
            Ok(Assert::Imp(a, b))
        }
    }
}

// The assertion that a tree stands for, in a box.
#[cycle(assertions)]
fn boxed(scope: &Scope<'_>, usage: Use, raw: &RawAssert) -> Result<Box<Assert>, TypeError>
    ensures { IsResolved (λ b. formula b.value) result
        (meaning.assertion (scope_of scope.now) (use_of usage) (assertion_of raw.now)) }
{
    let a = assertion(scope, usage, raw)?;
    Ok(Box::new(scope.alloc, a)?)
}

// The assertions of a list.
#[cycle(assertions)]
fn assertions(scope: &Scope<'_>, usage: Use, all: &[RawAssert]) -> Result<Vec<Assert>, TypeError>
    ensures { IsResolved (λ v. formula_list (map formula v.items)) result (meaning.assertions
        (scope_of scope.now) (use_of usage) (listed (map assertion_of all.now))) }
{
    let mut resolved = Vec::new(scope.alloc);
    for a in all {
        resolved.push(assertion(scope, usage, a)?)?;
    }
    Ok(resolved)
}

// An assertion with its place.
pub(crate) fn note(scope: &Scope<'_>, usage: Use, raw: &RawNote) -> Result<Note, TypeError>
    ensures { IsResolved noted result
        (meaning.note (scope_of scope.now) (use_of usage) (note_of raw.now)) }
{
    Ok(Note {
        assertion: assertion(scope, usage, &raw.assertion)?,
        at: raw.span.start,
    })
}
