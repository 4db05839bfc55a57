//! The list of the facts of a condition.

ghost use Rattle.std.specs.Prelude.{◌≤◌, ◌↔◌, IsErrOf, IsTrue};
ghost use Rattle.og_linear.specs.Answer.{IsAnswer};
ghost use Rattle.og_linear.specs.declared.fault.FormFault.TheVariants as faults;
ghost use Rattle.og_linear.specs.declared.fault.FormError.TheVariants as form_errors;
ghost use Rattle.og_facts.specs.declared.fault.FactsError.TheVariants as errors;
ghost use Rattle.og_cond.specs.Seen.{seen};
ghost use Rattle.og_facts.specs.Answer.{IsFacts, IsPrepared, shown};
ghost use Rattle.og_facts.specs.Counts.{count};
ghost use Rattle.og_facts.specs.Facts.{exact_facts, most_facts};
ghost use Rattle.og_facts.specs.Rooms.{IsSize};
ghost use Rattle.og_facts.specs.Walk.{joined, walk_hypotheses, walk_goal};

use crate::counting::room_after_facts;
use crate::fact::Fact;
use crate::fault::{FactsError, FactsFault};
use crate::goals::add_goal;
use crate::hypotheses::add_hypotheses;
use crate::limits::FACT_LIMIT;
use crate::list::FactList;
use crate::moves::Moves;
use og_cond::Condition;
use og_linear::{Form, FormError, Map};
use og_subst::ActionMap;
use std::alloc::Global;

// How many facts the condition has, within the limit.
fn size_of(condition: &Condition) -> Option<usize>
    ensures { IsSize (count (seen condition.now)) result }
{
    let left = room_after_facts(FACT_LIMIT, condition)?;
    Some(FACT_LIMIT - left)
}

// The facts, where the action has this map and these values.
fn all_facts<'a>(
    alloc: Global,
    size: usize,
    condition: &Condition<'a>,
    moves: &Moves,
    values: &[Form],
) -> Result<Vec<Fact<'a>>, FormError>
    ensures { IsAnswer shown faults.TooLarge result
        (joined (walk_hypotheses (seen condition.now).hypotheses) (walk_goal moves.now values.now (seen condition.now).goal)) }
{
    let mut facts = Vec::with_capacity(alloc, size)?;
    add_hypotheses(&mut facts, &condition.hypotheses)?;
    add_goal(&mut facts, moves, values, &condition.goal)?;
    Ok(facts)
}

// The facts, where the map of the action is still to be made.
fn facts_of_own<'a>(
    alloc: Global,
    size: usize,
    condition: &Condition<'a>,
) -> Result<Vec<Fact<'a>>, FormError>
    ensures { IsAnswer shown faults.TooLarge result (exact_facts (seen condition.now)) }
{
    match &condition.action {
        Some(action) => {
            let prepared = action.prepare(alloc)?;
            let moves = Moves::new(prepared.map(), condition.action);
            all_facts(alloc, size, condition, &moves, prepared.values())
        }
        None => {
            let values: Vec<Form> = Vec::new(alloc);
            let map = Map::new(alloc);
            let moves = Moves::new(&map, condition.action);
            all_facts(alloc, size, condition, &moves, &values)
        }
    }
}

// The list with these facts, or what kept them from being made.
fn listed<'a>(
    facts: Result<Vec<Fact<'a>>, FormError>,
    condition: &Condition<'a>,
) -> Result<FactList<'a>, FactsError>
    requires few { count (seen condition.now) ≤ most_facts }
    requires facts { IsAnswer shown faults.TooLarge facts (exact_facts (seen condition.now)) }
    ensures facts { IsFacts (seen condition.now) result }
    ensures memory { IsErrOf result errors.Memory → IsErrOf facts.entry form_errors.Memory }
{
    match facts {
        Ok(facts) => Ok(FactList::new(facts, condition.variables)),
        Err(FormError::Memory) => Err(FactsError::Memory),
        Err(FormError::Fault(_)) => Err(FactsError::Fault(FactsFault::TooLarge)),
    }
}

/// Whether a condition has at most `FACT_LIMIT` facts, whatever their numbers. Takes no memory.
pub fn has_few_facts(condition: &Condition) -> bool
    ensures { IsTrue result ↔ (count (seen condition.now) ≤ most_facts) }
{
    size_of(condition).is_some()
}

/// The facts of a condition: those of its hypotheses in order, and then those that say that its
/// goal is false, after the action if there is one.
///
/// # Errors
///
/// `TooManyFacts` exactly where there are more than `FACT_LIMIT` facts, whatever their numbers,
/// found before any memory is asked for. Else `TooLarge` exactly where the map of the action, a
/// form under it, or a form of these facts has a product, a partial sum or a negation that leaves
/// `i128`. `Memory` where an allocation was refused.
pub fn facts<'a>(alloc: Global, condition: &Condition<'a>) -> Result<FactList<'a>, FactsError>
    ensures { IsFacts (seen condition.now) result }
{
    match size_of(condition) {
        Some(size) => listed(facts_of_own(alloc, size, condition), condition),
        None => Err(FactsError::Fault(FactsFault::TooManyFacts)),
    }
}

/// The facts of a condition, by the map that was prepared from its action or from an equal one.
///
/// # Errors
///
/// As `facts`.
pub fn facts_with<'a>(
    alloc: Global,
    condition: &Condition<'a>,
    action: &ActionMap,
) -> Result<FactList<'a>, FactsError>
    requires { IsPrepared condition.now.action action.now }
    ensures { IsFacts (seen condition.now) result }
{
    let size = match size_of(condition) {
        Some(size) => size,
        None => return Err(FactsError::Fault(FactsFault::TooManyFacts)),
    };
    let moves = Moves::new(action.map(), condition.action);
    let facts = all_facts(alloc, size, condition, &moves, action.values());
    listed(facts, condition)
}
