//! The facts of one relation of a form.

ghost use Rattle.std.specs.Prelude.{◌≡◌, [], ◌∷◌, IfOk};
ghost use Rattle.og_linear.specs.Linear.{form_value};
ghost use Rattle.og_linear.specs.Bounded.{add_scaled};
ghost use Rattle.og_linear.specs.Answer.{IsAnswer, checked};
ghost use Rattle.og_linear.specs.declared.fault.FormFault.TheVariants as faults;
ghost use Rattle.og_facts.specs.Answer.{shown, added_to};
ghost use Rattle.og_facts.specs.Subjects.{form_in};
ghost use Rattle.og_facts.specs.Facts as plain;
ghost use Rattle.og_facts.specs.Plain.{plain_fact};
ghost use Rattle.og_facts.specs.Walk.{relation_facts};

use crate::atom::Atom;
use crate::fact::Fact;
use og_linear::{Form, FormError};
use std::alloc::{AllocError, Global};

/// The claim about a form.
#[derive(Clone, Copy)]
pub(crate) enum Relation {
    /// It is at most 0.
    AtMost,
    /// It is above 0.
    Above,
    /// It is 0.
    Equal,
    /// It is not 0.
    Apart,
}

/// A form of which something is said.
#[derive(Clone, Copy)]
pub(crate) enum Subject<'f, 'a> {
    /// The facts may borrow it.
    Lent(&'a Form),
    /// The facts get their own.
    Made(&'f Form),
}

// k times the form, and c.
fn multiple<'a>(alloc: Global, k: i128, form: &Form, c: i128) -> Result<Atom<'a>, FormError>
    ensures { IsAnswer (λ a. a) faults.TooLarge result (add_scaled (form_value [] c) k form.now) }
{
    let mut sum = Form::constant(alloc, c);
    sum.add_scaled(k, form)?;
    Ok(Atom::own(alloc, sum)?)
}

// An equal form.
fn own_same<'a>(alloc: Global, form: &Form) -> Result<Atom<'a>, FormError>
    ensures { IsAnswer (λ a. a) faults.TooLarge result (checked form.now) }
{
    let _tidy = form.term(0);
    multiple(alloc, 1, form, 0)
}

fn same<'a>(alloc: Global, subject: Subject<'_, 'a>) -> Result<Atom<'a>, FormError>
    ensures { IsAnswer (λ a. a) faults.TooLarge result (checked (form_in subject.entry)) }
{
    match subject {
        Subject::Lent(form) => {
            form.numbers_fit();
            Ok(Atom::same(form))
        }
        Subject::Made(form) => own_same(alloc, form),
    }
}

// The form with the other sign.
fn negated<'a>(alloc: Global, subject: Subject<'_, 'a>) -> Result<Atom<'a>, FormError>
    ensures { IsAnswer (λ a. a) faults.TooLarge result
        (checked (plain.negated (form_in subject.entry))) }
{
    match subject {
        Subject::Lent(form) => Atom::negated(form),
        Subject::Made(form) => multiple(alloc, -1, form, 0),
    }
}

// The form and 1: at most 0 where the form is below 0.
fn own_next<'a>(alloc: Global, form: &Form) -> Result<Atom<'a>, FormError>
    ensures { IsAnswer (λ a. a) faults.TooLarge result (checked (plain.plus_one form.now)) }
{
    let _tidy = form.term(0);
    let _range = form.offset();
    multiple(alloc, 1, form, 1)
}

fn next<'a>(alloc: Global, subject: Subject<'_, 'a>) -> Result<Atom<'a>, FormError>
    ensures { IsAnswer (λ a. a) faults.TooLarge result
        (checked (plain.plus_one (form_in subject.entry))) }
{
    match subject {
        Subject::Lent(form) => Atom::next(form),
        Subject::Made(form) => own_next(alloc, form),
    }
}

// 1 less the form: at most 0 where the form is above 0.
fn own_beyond<'a>(alloc: Global, form: &Form) -> Result<Atom<'a>, FormError>
    ensures { IsAnswer (λ a. a) faults.TooLarge result
        (checked (plain.plus_one (plain.negated form.now))) }
{
    let _range = form.offset();
    multiple(alloc, -1, form, 1)
}

fn beyond<'a>(alloc: Global, subject: Subject<'_, 'a>) -> Result<Atom<'a>, FormError>
    ensures { IsAnswer (λ a. a) faults.TooLarge result
        (checked (plain.plus_one (plain.negated (form_in subject.entry)))) }
{
    match subject {
        Subject::Lent(form) => Atom::beyond(form),
        Subject::Made(form) => own_beyond(alloc, form),
    }
}

// A part of one inequality.
fn part_of<'a>(alloc: Global, atom: Atom<'a>) -> Result<Vec<Fact<'a>>, AllocError>
    ensures { IfOk result (λ part. shown part ≡ plain.Atom atom.entry ∷ []) }
{
    let mut part = Vec::with_capacity(alloc, 1)?;
    part.push(Fact::Atom(atom))?;
    Ok(part)
}

// The form is below 0, or it is above 0.
fn apart<'a>(alloc: Global, subject: Subject<'_, 'a>) -> Result<Fact<'a>, FormError>
    ensures { IsAnswer (λ f. plain_fact f ∷ []) faults.TooLarge result
        (plain.checked_facts (plain.apart (form_in subject.entry))) }
{
    let mut parts = Vec::with_capacity(alloc, 2)?;
    parts.push(part_of(alloc, next(alloc, subject)?)?)?;
    parts.push(part_of(alloc, beyond(alloc, subject)?)?)?;
    Ok(Fact::Split(parts))
}

/// Adds the facts of the relation.
///
/// `TooLarge` where a number of these facts leaves `i128`.
pub(crate) fn add_relation<'a>(
    facts: &mut Vec<Fact<'a>>,
    relation: Relation,
    subject: Subject<'_, 'a>,
) -> Result<(), FormError>
    ensures { IsAnswer (λ _. shown facts.new) faults.TooLarge result
        (added_to (shown facts.old) (plain.checked_facts (relation_facts relation (form_in subject.entry)))) }
{
    let alloc = *facts.allocator();
    match relation {
        Relation::AtMost => facts.push(Fact::Atom(same(alloc, subject)?))?,
        Relation::Above => facts.push(Fact::Atom(beyond(alloc, subject)?))?,
        Relation::Equal => {
            facts.push(Fact::Atom(same(alloc, subject)?))?;
            facts.push(Fact::Atom(negated(alloc, subject)?))?;
        }
        Relation::Apart => facts.push(apart(alloc, subject)?)?,
    }
    Ok(())
}
