//! The facts that say that an assertion is true, or that it is false.

ghost use Rattle.std.specs.Prelude.{◌≡◌, [], ◌∷◌, ◌++◌, Some, map, option_map, OnOk};
ghost use Rattle.og_linear.specs.Answer.{IsAnswer};
ghost use Rattle.og_linear.specs.declared.fault.FormFault.TheVariants as faults;
ghost use Rattle.og_typed.specs.Plain.{formula};
ghost use Rattle.og_typed.specs.Lists.{formula_list};
ghost use Rattle.og_facts.specs.Answer.{shown, added_to};
ghost use Rattle.og_facts.specs.Facts.{impossible, split};
ghost use Rattle.og_facts.specs.Walk.{walk_relation, walk, walk_all, walk_each};

use crate::atom::Atom;
use crate::fact::Fact;
use crate::moves::Moves;
use crate::relations::{Relation, Subject, add_relation};
use og_linear::{Form, FormError};
use og_typed::Assert;
use std::alloc::AllocError;

/// Adds the fact that is never true, `1 <= 0`.
pub(crate) fn add_impossible(facts: &mut Vec<Fact>) -> Result<(), AllocError>
    ensures { OnOk result (shown facts.new ≡ shown facts.old ++ impossible ∷ []) }
{
    let alloc = *facts.allocator();
    let one = Atom::own(alloc, Form::constant(alloc, 1))?;
    facts.push(Fact::Atom(one))?;
    Ok(())
}

// The facts of one of the two parts.
fn add_split<'a>(
    facts: &mut Vec<Fact<'a>>,
    first: Vec<Fact<'a>>,
    second: Vec<Fact<'a>>,
) -> Result<(), FormError>
    ensures { IsAnswer (λ _. shown facts.new) faults.TooLarge result
        (Some (shown facts.old ++ split (shown first.entry ∷ shown second.entry ∷ []))) }
{
    let mut parts = Vec::with_capacity(*facts.allocator(), 2)?;
    parts.push(first)?;
    parts.push(second)?;
    facts.push(Fact::Split(parts))?;
    Ok(())
}

// The relation of the form under the map, if there is one.
fn add_moved<'a>(
    facts: &mut Vec<Fact<'a>>,
    forms: Option<&Moves>,
    relation: Relation,
    form: &'a Form,
) -> Result<(), FormError>
    ensures { IsAnswer (λ _. shown facts.new) faults.TooLarge result
        (added_to (shown facts.old) (walk_relation (option_map (λ m. m.now) forms.entry) relation form.now)) }
{
    match forms {
        Some(moves) if !moves.keeps(form) => {
            let moved = form.apply(moves.map())?;
            add_relation(facts, relation, Subject::Made(&moved))
        }
        _ => add_relation(facts, relation, Subject::Lent(form)),
    }
}

/// Adds the facts that say that the assertion is true, or false. Each form is taken under the map,
/// if there is one.
///
/// `TooLarge` where a form under the map, or a number of these facts, leaves `i128`.
#[cycle(walking)]
#[tactic(auto, using(crate::proofs::Items::walk_and_true, crate::proofs::Items::walk_and_false, crate::proofs::Items::walk_or_true, crate::proofs::Items::walk_or_false))]
pub(crate) fn add_assertion<'a>(
    a: &'a Assert,
    is_true: bool,
    forms: Option<&Moves>,
    facts: &mut Vec<Fact<'a>>,
) -> Result<(), FormError>
    ensures { IsAnswer (λ _. shown facts.new) faults.TooLarge result
        (added_to (shown facts.old) (walk (option_map (λ m. m.now) forms.entry) is_true (formula a.now))) }
{
    match (a, is_true) {
        (Assert::True, true) | (Assert::False, false) => Ok(()),
        (Assert::True, false) | (Assert::False, true) => Ok(add_impossible(facts)?),
        (Assert::Le(form), true) => add_moved(facts, forms, Relation::AtMost, form),
        (Assert::Le(form), false) => add_moved(facts, forms, Relation::Above, form),
        (Assert::Eq(form), true) => add_moved(facts, forms, Relation::Equal, form),
        (Assert::Eq(form), false) => add_moved(facts, forms, Relation::Apart, form),
        (Assert::Ne(form), true) => add_moved(facts, forms, Relation::Apart, form),
        (Assert::Ne(form), false) => add_moved(facts, forms, Relation::Equal, form),
        (Assert::Not(a), _) => add_assertion(a, !is_true, forms, facts),
        (Assert::And(all), true) => add_all(all, true, forms, facts),
        (Assert::And(all), false) => add_some(all, false, forms, facts),
        (Assert::Or(all), true) => add_some(all, true, forms, facts),
        (Assert::Or(all), false) => add_all(all, false, forms, facts),
        (Assert::Imp(a, b), true) => {
            let alloc = *facts.allocator();
            let mut first = Vec::new(alloc);
            add_assertion(a, false, forms, &mut first)?;
            let mut second = Vec::new(alloc);
            add_assertion(b, true, forms, &mut second)?;
            add_split(facts, first, second)
        }
        (Assert::Imp(a, b), false) => {
            add_assertion(a, true, forms, facts)?;
            add_assertion(b, false, forms, facts)
        }
    }
}

// The facts of all.
#[cycle(walking)]
fn add_all<'a>(
    all: &'a [Assert],
    is_true: bool,
    forms: Option<&Moves>,
    facts: &mut Vec<Fact<'a>>,
) -> Result<(), FormError>
    ensures { IsAnswer (λ _. shown facts.new) faults.TooLarge result
        (added_to (shown facts.old)
        (walk_all (option_map (λ m. m.now) forms.entry) is_true (formula_list (map formula all.now)))) }
{
    for a in all {
        add_assertion(a, is_true, forms, facts)?;
    }
    Ok(())
}

// The facts of one of them.
#[cycle(walking)]
fn add_some<'a>(
    all: &'a [Assert],
    is_true: bool,
    forms: Option<&Moves>,
    facts: &mut Vec<Fact<'a>>,
) -> Result<(), FormError>
    ensures { IsAnswer (λ _. shown facts.new) faults.TooLarge result
        (added_to (shown facts.old)
        (option_map split (walk_each (option_map (λ m. m.now) forms.entry) is_true (formula_list (map formula all.now))))) }
{
    if all.len() == 0 {
        return Ok(add_impossible(facts)?);
    }
    if all.len() == 1 {
        return add_assertion(&all[0], is_true, forms, facts);
    }
    let alloc = *facts.allocator();
    let mut parts = Vec::with_capacity(alloc, all.len())?;
    for a in all {
        let mut part = Vec::new(alloc);
        add_assertion(a, is_true, forms, &mut part)?;
        parts.push(part)?;
    }
    facts.push(Fact::Split(parts))?;
    Ok(())
}
