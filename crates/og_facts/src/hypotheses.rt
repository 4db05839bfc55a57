//! The facts that say that the hypotheses are true.

ghost use Rattle.std.specs.Prelude.{pos, neg_ℤ, [], ◌∷◌, map, option_map};
ghost use Rattle.og_linear.specs.Linear.{form_value};
ghost use Rattle.og_linear.specs.Answer.{IsAnswer, checked};
ghost use Rattle.og_linear.specs.declared.fault.FormFault.TheVariants as faults;
ghost use Rattle.og_cond.specs.Seen.{part_of, parts_of, hypothesis_of};
ghost use Rattle.og_facts.specs.Answer.{shown, added_to};
ghost use Rattle.og_facts.specs.Facts.{split};
ghost use Rattle.og_facts.specs.Walk.{walk_part, walk_parts, walk_lists, walk_hypothesis, walk_hypotheses};

use crate::fact::Fact;
use crate::relations::{Relation, Subject, add_relation};
use crate::walking::{add_assertion, add_impossible};
use og_cond::{Hypothesis, Part};
use og_linear::{Form, FormError};
use std::alloc::Global;

fn add_part<'a>(facts: &mut Vec<Fact<'a>>, part: &Part<'a>) -> Result<(), FormError>
    ensures { IsAnswer (λ _. shown facts.new) faults.TooLarge result
        (added_to (shown facts.old) (walk_part (part_of part.now))) }
{
    match part {
        Part::Yes(a) => add_assertion(a, true, None, facts),
        Part::No(a) => add_assertion(a, false, None, facts),
    }
}

fn add_parts<'a>(facts: &mut Vec<Fact<'a>>, parts: &[Part<'a>]) -> Result<(), FormError>
    ensures { IsAnswer (λ _. shown facts.new) faults.TooLarge result
        (added_to (shown facts.old) (walk_parts (map part_of parts.now))) }
{
    for part in parts {
        add_part(facts, part)?;
    }
    Ok(())
}

// The facts of one of the lists.
fn add_lists<'a>(facts: &mut Vec<Fact<'a>>, lists: &[Vec<Part<'a>>]) -> Result<(), FormError>
    ensures { IsAnswer (λ _. shown facts.new) faults.TooLarge result
        (added_to (shown facts.old) (option_map split (walk_lists (map parts_of lists.now)))) }
{
    if lists.len() == 0 {
        return Ok(add_impossible(facts)?);
    }
    if lists.len() == 1 {
        return add_parts(facts, &lists[0]);
    }
    let alloc = *facts.allocator();
    let mut all = Vec::with_capacity(alloc, lists.len())?;
    for parts in lists {
        let mut part = Vec::new(alloc);
        add_parts(&mut part, parts)?;
        all.push(part)?;
    }
    facts.push(Fact::Split(all))?;
    Ok(())
}

// The variable less the value.
fn difference(alloc: Global, var: u32, value: i64) -> Result<Form, FormError>
    ensures { IsAnswer (λ f. f) faults.TooLarge result
        (checked (form_value ((var, pos 1) ∷ []) (neg_ℤ value))) }
{
    let mut form = Form::constant(alloc, -i128::from(value));
    form.add_scaled(1, &Form::variable(alloc, var)?)?;
    Ok(form)
}

fn add_hypothesis<'a>(
    facts: &mut Vec<Fact<'a>>,
    hypothesis: &Hypothesis<'a>,
) -> Result<(), FormError>
    ensures { IsAnswer (λ _. shown facts.new) faults.TooLarge result
        (added_to (shown facts.old) (walk_hypothesis (hypothesis_of hypothesis.now))) }
{
    match hypothesis {
        Hypothesis::Is(part) => add_part(facts, part),
        Hypothesis::Starts(var, value) => {
            let form = difference(*facts.allocator(), *var, *value)?;
            add_relation(facts, Relation::Equal, Subject::Made(&form))
        }
        Hypothesis::OneOf(lists) => add_lists(facts, lists),
    }
}

/// Adds the facts of the hypotheses, in order.
pub(crate) fn add_hypotheses<'a>(
    facts: &mut Vec<Fact<'a>>,
    hypotheses: &[Hypothesis<'a>],
) -> Result<(), FormError>
    ensures { IsAnswer (λ _. shown facts.new) faults.TooLarge result
        (added_to (shown facts.old) (walk_hypotheses (map hypothesis_of hypotheses.now))) }
{
    for hypothesis in hypotheses {
        add_hypothesis(facts, hypothesis)?;
    }
    Ok(())
}
