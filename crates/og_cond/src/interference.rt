//! The conditions of interference.

ghost use Rattle.std.specs.Prelude.{◌≡◌, ◌++◌, ◌∷◌, [], map, OnOk, IfOk};
ghost use Rattle.og_typed.specs.Plain.{formula};
ghost use Rattle.og_subst.specs.Actions.{action_body};
ghost use Rattle.og_cond.specs.Condition.{Is, Yes as Yes'};
ghost use Rattle.og_cond.specs.Crossing.{crosses, pair_if, pairs_of, action_crossings, side_crossings, crossings};
ghost use Rattle.og_cond.specs.Seen.{Adds, hypothesis_of, guarded};
ghost use Rattle.og_cond.specs.Sides.{action_of, note_of, side_seen};

use crate::condition::{Condition, Goal, Hypothesis, Part};
use crate::kind::Kind;
use crate::watched::{Move, Side, Watched};
use std::alloc::{AllocError, Global};

// Whether the action assigns a variable that occurs in the assertion.
fn may_break(action: &Move, watched: &Watched) -> bool
    ensures { result ≡ crosses (action_body action.now.action)
        (formula watched.now.note.now.assertion) }
{
    action.assigned.meets(&watched.variables)
}

// The assertion that is kept, the one before the action, and the guard of an await.
fn hypotheses<'a>(
    alloc: Global,
    action: &Move<'a>,
    watched: &Watched<'a>,
) -> Result<Vec<Hypothesis<'a>>, AllocError>
    ensures { IfOk result (λ hs. map hypothesis_of hs.items ≡
        Is (Yes' (formula watched.now.note.now.assertion)) ∷ guarded action.now.before action.now.guard) }
{
    let count = if action.guard.is_some() { 3 } else { 2 };
    let mut all = Vec::with_capacity(alloc, count)?;
    all.push(Hypothesis::Is(Part::Yes(&watched.note.assertion)))?;
    all.push(Hypothesis::Is(Part::Yes(action.before)))?;
    match action.guard {
        Some(guard) => {
            all.push(Hypothesis::Is(Part::Yes(guard)))?;
            Ok(all)
        }
        None => Ok(all),
    }
}

// The condition that the action keeps the assertion, where it may break it.
fn add_pair<'a>(
    conditions: &mut Vec<Condition<'a>>,
    variables: u32,
    action: &Move<'a>,
    watched: &Watched<'a>,
) -> Result<(), AllocError>
    ensures { OnOk result (Adds conditions.old conditions.new
        (pair_if crosses variables (action_of action.now) (note_of watched.now))) }
{
    if !may_break(action, watched) {
        return Ok(());
    }
    let hypotheses = hypotheses(*conditions.allocator(), action, watched)?;
    conditions.push(Condition {
        kind: Kind::Interfere,
        at: watched.note.at,
        action_at: Some(action.at),
        variables,
        hypotheses,
        goal: Goal::Holds(&watched.note.assertion),
        action: Some(action.action),
    })?;
    Ok(())
}

// One action against the assertions of one process.
fn add_pairs<'a>(
    conditions: &mut Vec<Condition<'a>>,
    variables: u32,
    action: &Move<'a>,
    notes: &[Watched<'a>],
) -> Result<(), AllocError>
    ensures { OnOk result (Adds conditions.old conditions.new
        (pairs_of crosses variables (action_of action.now) (map note_of notes.now))) }
{
    for watched in notes {
        add_pair(conditions, variables, action, watched)?;
    }
    Ok(())
}

/// One action against several processes.
pub(crate) fn add_action<'a>(
    conditions: &mut Vec<Condition<'a>>,
    variables: u32,
    action: &Move<'a>,
    others: &[Side<'a>],
) -> Result<(), AllocError>
    ensures { OnOk result (Adds conditions.old conditions.new
        (action_crossings crosses variables (action_of action.now) (map side_seen others.now))) }
{
    for side in others {
        add_pairs(conditions, variables, action, &side.notes)?;
    }
    Ok(())
}

// The actions of one process against those before it and those after it.
#[tactic(auto, using(crate::proofs::Crossings::action_crossings_append))]
fn add_side<'a>(
    conditions: &mut Vec<Condition<'a>>,
    variables: u32,
    moves: &[Move<'a>],
    earlier: &[Side<'a>],
    later: &[Side<'a>],
) -> Result<(), AllocError>
    ensures { OnOk result (Adds conditions.old conditions.new
        (side_crossings crosses variables (map action_of moves.now)
        (map side_seen earlier.now ++ map side_seen later.now))) }
{
    for action in moves {
        add_action(conditions, variables, action, earlier)?;
        add_action(conditions, variables, action, later)?;
    }
    Ok(())
}

/// Each action against the assertions of the other processes.
pub(crate) fn add_crossings<'a>(
    conditions: &mut Vec<Condition<'a>>,
    variables: u32,
    sides: &[Side<'a>],
) -> Result<(), AllocError>
    ensures { OnOk result (Adds conditions.old conditions.new
        (crossings crosses variables [] (map side_seen sides.now))) }
{
    for index in 0..sides.len() {
        let earlier = &sides[..index];
        let later = &sides[index + 1..];
        add_side(conditions, variables, &sides[index].moves, earlier, later)?;
    }
    Ok(())
}
