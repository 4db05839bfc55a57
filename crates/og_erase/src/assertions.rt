//! Assertions as trees.

ghost use Rattle.std.specs.Prelude.{◌≡◌, true, IfOk, length, map};
ghost use Rattle.og_erase.specs.Collected as collected;
ghost use Rattle.og_parse.specs.Trees.{listed};
ghost use Rattle.og_parse.specs.TreeOf.{assertion_of, note_of};
ghost use Rattle.og_typed.specs.Plain.{formula, noted};
ghost use Rattle.og_typed.specs.Rule.{is_usable_form, IsUsable};
ghost use Rattle.og_typed.specs.Lists.{formula_list};
ghost use Rattle.og_typed.specs.Forms.{each_form_in};

use crate::forms::{NOWHERE, sum, zero};
use og_linear::Form;
use og_parse::{RawAssert, RawNote, Relation};
use og_text::Name;
use og_typed::{Assert, Note};
use std::alloc::{AllocError, Global};

// A form compared with 0.
fn comparison(
    alloc: Global,
    names: &[Name],
    form: &Form,
    relation: Relation,
) -> Result<RawAssert, AllocError>
    requires { is_usable_form (length names.now) form.now ≡ true }
    ensures { IfOk result (λ a. assertion_of a ≡ collected.comparison names.now form.now relation) }
{
    let left = sum(alloc, names, form)?;
    Ok(RawAssert::Compare(left, relation, zero(alloc)?))
}

#[cycle(assertions)]
pub(crate) fn assertion(alloc: Global, names: &[Name], a: &Assert) -> Result<RawAssert, AllocError>
    requires { IsUsable (length names.now) (formula a.now) }
    ensures { IfOk result (λ r. assertion_of r ≡ collected.assertion names.now (formula a.now)) }
{
    match a {
        Assert::True => Ok(RawAssert::True),
        Assert::False => Ok(RawAssert::False),
        Assert::Le(f) => comparison(alloc, names, f, Relation::LessEqual),
        Assert::Eq(f) => comparison(alloc, names, f, Relation::Equal),
        Assert::Ne(f) => comparison(alloc, names, f, Relation::NotEqual),
        Assert::Not(a) => Ok(RawAssert::Not(boxed(alloc, names, a)?)),
        Assert::And(all) => Ok(RawAssert::And(assertions(alloc, names, all)?)),
        Assert::Or(all) => Ok(RawAssert::Or(assertions(alloc, names, all)?)),
        Assert::Imp(a, b) => {
            let a = boxed(alloc, names, a)?;
            let b = boxed(alloc, names, b)?;
            Ok(RawAssert::Implies(a, b))
        }
    }
}

// An assertion, in a box.
#[cycle(assertions)]
fn boxed(alloc: Global, names: &[Name], a: &Assert) -> Result<Box<RawAssert>, AllocError>
    requires { IsUsable (length names.now) (formula a.now) }
    ensures { IfOk result (λ b.
        assertion_of b.value ≡ collected.assertion names.now (formula a.now)) }
{
    let a = assertion(alloc, names, a)?;
    Ok(Box::new(alloc, a)?)
}

#[cycle(assertions)]
fn assertions(alloc: Global, names: &[Name], all: &[Assert]) -> Result<Vec<RawAssert>, AllocError>
    requires { each_form_in (is_usable_form (length names.now)) (formula_list (map formula all.now))
        ≡ true }
    ensures { IfOk result (λ v. listed (map assertion_of v.items)
        ≡ collected.assertions names.now (formula_list (map formula all.now))) }
{
    let mut out = Vec::new(alloc);
    for a in all {
        out.push(assertion(alloc, names, a)?)?;
    }
    Ok(out)
}

pub(crate) fn note(alloc: Global, names: &[Name], note: &Note) -> Result<RawNote, AllocError>
    requires { IsUsable (length names.now) (formula note.now.assertion) }
    ensures { IfOk result (λ n. note_of n ≡ collected.note names.now (noted note.now)) }
{
    Ok(RawNote {
        assertion: assertion(alloc, names, &note.assertion)?,
        span: NOWHERE,
    })
}
