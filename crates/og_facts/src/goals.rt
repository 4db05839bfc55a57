//! The facts that say that the goal is false.

ghost use Rattle.std.specs.Prelude.{map, option_map, Some};
ghost use Rattle.og_linear.specs.Answer.{IsAnswer};
ghost use Rattle.og_linear.specs.declared.fault.FormFault.TheVariants as faults;
ghost use Rattle.og_subst.specs.Subst.{low, high};
ghost use Rattle.og_cond.specs.Seen.{goal_of};
ghost use Rattle.og_facts.specs.Answer.{shown, added_to};
ghost use Rattle.og_facts.specs.Facts.{split};
ghost use Rattle.og_facts.specs.Walk.{beyond, walk_values, walk_goal};

use crate::fact::Fact;
use crate::moves::Moves;
use crate::relations::{Relation, Subject, add_relation};
use crate::walking::{add_assertion, add_impossible};
use og_cond::Goal;
use og_linear::{Form, FormError};
use std::alloc::Global;

// -v - 2^63, above 0 where the value v is below the least i64.
fn low(alloc: Global, value: &Form) -> Result<Form, FormError>
    ensures { IsAnswer (λ f. f) faults.TooLarge result (low value.now) }
{
    let mut low = Form::constant(alloc, -9_223_372_036_854_775_808);
    low.add_scaled(-1, value)?;
    Ok(low)
}

// v - (2^63 - 1), above 0 where the value v is above the greatest i64.
fn high(alloc: Global, value: &Form) -> Result<Form, FormError>
    ensures { IsAnswer (λ f. f) faults.TooLarge result (high value.now) }
{
    let mut high = Form::constant(alloc, -9_223_372_036_854_775_807);
    high.add_scaled(1, value)?;
    Ok(high)
}

// The part that says that the bound is above 0.
fn part_above<'a>(alloc: Global, bound: &Form) -> Result<Vec<Fact<'a>>, FormError>
    ensures { IsAnswer shown faults.TooLarge result (beyond (Some bound.now)) }
{
    let mut part = Vec::with_capacity(alloc, 1)?;
    add_relation(&mut part, Relation::Above, Subject::Made(bound))?;
    Ok(part)
}

// For each value that it is too low, and that it is too high.
fn parts_of_values<'a>(alloc: Global, values: &[Form]) -> Result<Vec<Vec<Fact<'a>>>, FormError>
    ensures { IsAnswer (λ parts. map shown parts.items) faults.TooLarge result
        (walk_values values.now) }
{
    let mut parts = Vec::new(alloc);
    for value in values {
        let below = low(alloc, value)?;
        parts.push(part_above(alloc, &below)?)?;
        let above = high(alloc, value)?;
        parts.push(part_above(alloc, &above)?)?;
    }
    Ok(parts)
}

// Some value is no i64.
fn add_values(facts: &mut Vec<Fact>, values: &[Form]) -> Result<(), FormError>
    ensures { IsAnswer (λ _. shown facts.new) faults.TooLarge result
        (added_to (shown facts.old) (option_map split (walk_values values.now))) }
{
    if values.len() == 0 {
        return Ok(add_impossible(facts)?);
    }
    let parts = parts_of_values(*facts.allocator(), values)?;
    facts.push(Fact::Split(parts))?;
    Ok(())
}

/// Adds the facts that say that the goal is false after the action with this map and these values.
///
/// `TooLarge` where a form under the map, or a number of these facts, leaves `i128`.
pub(crate) fn add_goal<'a>(
    facts: &mut Vec<Fact<'a>>,
    moves: &Moves,
    values: &[Form],
    goal: &Goal<'a>,
) -> Result<(), FormError>
    ensures { IsAnswer (λ _. shown facts.new) faults.TooLarge result
        (added_to (shown facts.old) (walk_goal moves.now values.now (goal_of goal.now))) }
{
    match goal {
        Goal::Holds(a) => add_assertion(a, false, Some(moves), facts),
        Goal::Fits => add_values(facts, values),
        Goal::Never => Ok(()),
    }
}
