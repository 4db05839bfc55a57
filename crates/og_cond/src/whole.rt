//! All conditions of an outline.

ghost use Rattle.std.specs.Prelude.{◌≡◌, ◌++◌, ◌∷◌, [], ◌≤◌, map, flat_map, length, OnOk, IfOk};
ghost use Rattle.og_typed.specs.Plain.{sequence};
ghost use Rattle.og_cond.specs.Answer.{IsListed};
ghost use Rattle.og_cond.specs.Conditions as plain;
ghost use Rattle.og_cond.specs.Groups.{first_conditions, last_conditions};
ghost use Rattle.og_cond.specs.Limits.{condition_limit};
ghost use Rattle.og_cond.specs.Seen.{Adds, hypothesis_of};

use crate::blocking::blocked_hypotheses;
use crate::condition::{Condition, Goal, Hypothesis, Part};
use crate::count::room_after_conditions;
use crate::fault::{ConditionsError, TooMany};
use crate::interference::add_crossings;
use crate::kind::Kind;
use crate::limits::CONDITION_LIMIT;
use crate::local::{add_gives, add_seq};
use crate::sides::sides_of;
use og_typed::{Note, Outline, Seq};
use std::alloc::{AllocError, Global};

// The precondition is true, and each auxiliary has its initial value.
fn pre_hypotheses<'a>(
    alloc: Global,
    outline: &'a Outline,
) -> Result<Vec<Hypothesis<'a>>, AllocError>
    ensures { IfOk result (λ hs. map hypothesis_of hs.items ≡ plain.pre_hypotheses outline.now) }
{
    outline.follows_rule();
    let values = outline.aux_values();
    let mut hypotheses = Vec::with_capacity(alloc, values.len() + 1)?;
    hypotheses.push(Hypothesis::Is(Part::Yes(&outline.pre().assertion)))?;
    let mut var = outline.vars();
    for value in values {
        hypotheses.push(Hypothesis::Starts(var, *value))?;
        var += 1;
    }
    Ok(hypotheses)
}

// What the processes start from.
fn start_hypotheses<'a>(
    alloc: Global,
    outline: &'a Outline,
) -> Result<Vec<Hypothesis<'a>>, AllocError>
    ensures { IfOk result (λ hs.
        map hypothesis_of hs.items ≡ plain.start_hypotheses outline.now outline.now.prologue) }
{
    match outline.prologue() {
        Some(part) => {
            let mut hypotheses = Vec::with_capacity(alloc, 1)?;
            hypotheses.push(Hypothesis::Is(Part::Yes(&part.last().assertion)))?;
            Ok(hypotheses)
        }
        None => pre_hypotheses(alloc, outline),
    }
}

// The conditions of the prologue, if there is one.
fn add_prologue<'a>(
    conditions: &mut Vec<Condition<'a>>,
    variables: u32,
    outline: &'a Outline,
) -> Result<(), AllocError>
    requires { variables ≡ length outline.now.names }
    ensures { OnOk result (Adds conditions.old conditions.new
        (plain.prologue_conditions outline.now outline.now.prologue)) }
{
    match outline.prologue() {
        None => Ok(()),
        Some(part) => {
            let first: &Note = part.first();
            let hypotheses = pre_hypotheses(*conditions.allocator(), outline)?;
            let goal = Goal::Holds(&first.assertion);
            conditions.push(Condition::of_states(
                Kind::Prologue,
                first.at,
                variables,
                hypotheses,
                goal,
            ))?;
            add_seq(conditions, variables, part)
        }
    }
}

// Each process may start.
fn add_starts<'a>(
    conditions: &mut Vec<Condition<'a>>,
    variables: u32,
    outline: &'a Outline,
) -> Result<(), AllocError>
    requires { variables ≡ length outline.now.names }
    ensures { OnOk result (Adds conditions.old conditions.new
        (map (plain.start_condition outline.now) outline.now.processes)) }
{
    let alloc = *conditions.allocator();
    for process in outline.processes() {
        let first: &Note = process.first();
        let hypotheses = start_hypotheses(alloc, outline)?;
        let goal = Goal::Holds(&first.assertion);
        conditions.push(Condition::of_states(Kind::Start, first.at, variables, hypotheses, goal))?;
    }
    Ok(())
}

// The conditions of the statements of the processes.
fn add_local<'a>(
    conditions: &mut Vec<Condition<'a>>,
    variables: u32,
    processes: &'a [Seq],
) -> Result<(), AllocError>
    ensures { OnOk result (Adds conditions.old conditions.new
        (flat_map (plain.seq_conditions variables) (map sequence processes.now))) }
{
    for process in processes {
        add_seq(conditions, variables, process)?;
    }
    Ok(())
}

// The last assertion of each process is true.
fn last_hypotheses<'a>(
    alloc: Global,
    processes: &'a [Seq],
) -> Result<Vec<Hypothesis<'a>>, AllocError>
    ensures { IfOk result (λ hs.
        map hypothesis_of hs.items ≡ plain.last_hypotheses (map sequence processes.now)) }
{
    let mut hypotheses = Vec::with_capacity(alloc, processes.len())?;
    for process in processes {
        hypotheses.push(Hypothesis::Is(Part::Yes(&process.last().assertion)))?;
    }
    Ok(hypotheses)
}

// The last assertions together give the epilogue's first one, or the postcondition.
fn add_end<'a>(
    conditions: &mut Vec<Condition<'a>>,
    variables: u32,
    outline: &'a Outline,
) -> Result<(), AllocError>
    requires { variables ≡ length outline.now.names }
    ensures { OnOk result (Adds conditions.old conditions.new
        (plain.end_condition outline.now ∷ [])) }
{
    let note: &Note = match outline.epilogue() {
        Some(part) => part.first(),
        None => outline.post(),
    };
    let hypotheses = last_hypotheses(*conditions.allocator(), outline.processes())?;
    let goal = Goal::Holds(&note.assertion);
    conditions.push(Condition::of_states(Kind::End, note.at, variables, hypotheses, goal))?;
    Ok(())
}

// The conditions of the epilogue, if there is one.
fn add_epilogue<'a>(
    conditions: &mut Vec<Condition<'a>>,
    variables: u32,
    outline: &'a Outline,
) -> Result<(), AllocError>
    requires { variables ≡ length outline.now.names }
    ensures { OnOk result (Adds conditions.old conditions.new
        (plain.epilogue_conditions outline.now outline.now.epilogue)) }
{
    match outline.epilogue() {
        None => Ok(()),
        Some(part) => {
            add_seq(conditions, variables, part)?;
            let post: &Note = outline.post();
            let end = Part::Yes(&part.last().assertion);
            let goal = &post.assertion;
            add_gives(
                conditions,
                variables,
                Kind::Epilogue,
                post.at,
                end,
                None,
                goal,
            )
        }
    }
}

// The processes never all wait.
fn add_blocking<'a>(
    conditions: &mut Vec<Condition<'a>>,
    variables: u32,
    outline: &'a Outline,
) -> Result<(), AllocError>
    requires { variables ≡ length outline.now.names }
    ensures { OnOk result (Adds conditions.old conditions.new
        (plain.blocking_condition outline.now ∷ [])) }
{
    let hypotheses = blocked_hypotheses(*conditions.allocator(), outline.processes())?;
    let at = outline.cobegin_at();
    let goal = Goal::Never;
    conditions.push(Condition::of_states(Kind::Blocking, at, variables, hypotheses, goal))?;
    Ok(())
}

/// The conditions before interference.
pub(crate) fn add_first<'a>(
    conditions: &mut Vec<Condition<'a>>,
    outline: &'a Outline,
) -> Result<(), AllocError>
    ensures { OnOk result (Adds conditions.old conditions.new (first_conditions outline.now)) }
{
    outline.follows_rule();
    let n = outline.names().len() as u32;
    add_prologue(conditions, n, outline)?;
    add_starts(conditions, n, outline)?;
    add_local(conditions, n, outline.processes())
}

/// The conditions after it.
pub(crate) fn add_last<'a>(
    conditions: &mut Vec<Condition<'a>>,
    outline: &'a Outline,
) -> Result<(), AllocError>
    ensures { OnOk result (Adds conditions.old conditions.new (last_conditions outline.now)) }
{
    outline.follows_rule();
    let n = outline.names().len() as u32;
    add_end(conditions, n, outline)?;
    add_epilogue(conditions, n, outline)?;
    add_blocking(conditions, n, outline)
}

// All conditions, in order.
fn add_all<'a>(conditions: &mut Vec<Condition<'a>>, outline: &'a Outline) -> Result<(), AllocError>
    ensures { OnOk result (Adds conditions.old conditions.new (plain.conditions outline.now)) }
{
    outline.follows_rule();
    add_first(conditions, outline)?;
    let sides = sides_of(*conditions.allocator(), outline.processes())?;
    add_crossings(conditions, outline.names().len() as u32, &sides)?;
    add_last(conditions, outline)
}

/// The conditions of an outline, in the order of their numbers, which count from 1. They borrow
/// their assertions from the outline.
///
/// # Errors
///
/// `TooMany` exactly where there are more than `CONDITION_LIMIT` conditions, found before any
/// memory is asked for. `Memory` where an allocation was refused.
pub fn conditions<'a>(
    alloc: Global,
    outline: &'a Outline,
) -> Result<Vec<Condition<'a>>, ConditionsError>
    ensures { IsListed condition_limit (plain.conditions outline.now) result }
{
    outline.follows_rule();
    let left = match room_after_conditions(CONDITION_LIMIT, outline) {
        Some(left) => left,
        None => return Err(ConditionsError::Fault(TooMany)),
    };
    let mut list = Vec::with_capacity(alloc, CONDITION_LIMIT - left)?;
    add_all(&mut list, outline)?;
    Ok(list)
}
