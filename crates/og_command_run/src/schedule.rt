//! Schedules, as words and as steps.

ghost use Rattle.std.specs.Prelude.{◌≡◌, ◌<◌, ◌≤◌, ◌++◌, ◌∷◌, [], ℕ, List, true, false, length, map, slice_get, take, if◌then◌else◌, None, Some, IfOk, IfSome, IsNone, IfNone};
ghost use Rattle.og_command_run.specs.Schedules.{IsSchedule, number_of, is_printed, history_of, IsHindered, IsFirstHindered};

use crate::hindrance::Hindrance;
use og_io::numbers;
use og_run::{Board, RunTurn};
use og_typed::Outline;
use std::alloc::{AllocError, Global};

// How many steps a schedule may have.
const STEPS: usize = 1_000_000;

/// The steps that a word names: none by the empty word, else numbers with a comma between two.
/// `None` where it names none, or more than 1,000,000.
pub(crate) fn steps_of(alloc: Global, word: &str) -> Result<Option<Vec<u32>>, AllocError>
    ensures some { IfOk result (λ r. IfSome r (λ steps. IsSchedule word.now steps.items)) }
    ensures few { IfOk result (λ r. IfSome r (λ steps. length steps.items ≤ 1000000)) }
    ensures none { IfOk result (λ r. IsNone r → (steps : List ℕ) → IsSchedule word.now steps → ⊥) }
{
    if word.is_empty() {
        return Ok(Some(Vec::new(alloc)));
    }
    let Some(steps) = numbers(alloc, word)? else {
        return Ok(None);
    };
    if steps.len() > STEPS {
        return Ok(None);
    }
    Ok(Some(steps))
}

/// The number in calls of the process that is printed so, where there is one.
pub(crate) fn process_of(outline: &Outline, step: u32) -> Option<u32>
    ensures some { IfSome result
        (λ p. (is_printed outline.now step ≡ true) × (p ≡ number_of outline.now step)) }
    ensures none { IsNone result → is_printed outline.now step ≡ false }
{
    outline.follows_rule();
    let processes = outline.processes().len();
    if step == 0 {
        if outline.prologue().is_some() || outline.epilogue().is_some() {
            return Some(processes as u32);
        }
        return None;
    }
    if step as usize <= processes {
        Some(step - 1)
    } else {
        None
    }
}

// Makes a step of the process with this printed number, or returns why it has none.
fn make(board: &mut Board<'_>, outline: &Outline, step: u32) -> Option<Hindrance>
    requires outline { board.old.given.outline ≡ outline.now }
    requires free { board.old.halted ≡ None }
    requires room { length board.old.history < board.old.given.limit }
    ensures given { board.new.given ≡ board.old.given }
    ensures made { IfNone result ((board.new.history ≡ board.old.history
        ++ number_of outline.now step ∷ []) × (board.new.halted ≡ None)) }
    ensures history { IfSome result (λ _. board.new.history ≡ board.old.history) }
    ensures hindered { IfSome result (IsHindered board.old.given board.old.history step) }
{
    let Some(p) = process_of(outline, step) else {
        return Some(Hindrance::NoProcess);
    };
    match board.step(p) {
        RunTurn::Moved => None,
        RunTurn::Done => Some(Hindrance::Ended),
        RunTurn::Stuck => Some(Hindrance::Stuck),
        RunTurn::Early => Some(Hindrance::Early),
        RunTurn::Waits => Some(Hindrance::Waits),
        RunTurn::Overflow => Some(Hindrance::Overflow),
        RunTurn::Limit => unreachable!(),
    }
}

/// Makes the steps in their order. After how many of them there is one that cannot be made, and
/// why.
pub(crate) fn follow(
    board: &mut Board<'_>,
    outline: &Outline,
    steps: &[u32],
) -> Option<(usize, u32, Hindrance)>
    requires outline { board.old.given.outline ≡ outline.now }
    requires free { board.old.halted ≡ None }
    requires new { board.old.history ≡ [] }
    requires room { length steps.now ≤ board.old.given.limit }
    ensures given { board.new.given ≡ board.old.given }
    ensures all { IfNone result (board.new.history ≡ history_of outline.now steps.now) }
    ensures first { IfSome result (λ r. IsFirstHindered board.old.given steps.now r.0 r.1 r.2) }
{
    for (k, step) in steps.iter().enumerate() {
        if let Some(why) = make(board, outline, *step) {
            return Some((k, *step, why));
        }
    }
    None
}
