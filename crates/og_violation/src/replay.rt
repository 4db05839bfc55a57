//! Violations, found again by replay.

ghost use Rattle.std.specs.Prelude.{◌≡◌, [], IfOk, IfSome, IfNone};
ghost use Rattle.og_typed.specs.Machine.{IsStart};
ghost use Rattle.og_violation.specs.Violations.{IsWrong, IsViolation};
ghost use Rattle.og_violation.specs.Replays.{IsAfterRun, IsNoRun};

use crate::moments::is_wrong;
use crate::violation::{Violation, Wrong};
use og_linear::State;
use og_step::{Moment, StartError, Turn, start};
use og_typed::Outline;
use std::alloc::{AllocError, Global};

/// An equal state.
///
/// # Errors
///
/// An allocation was refused.
pub fn copy_of(alloc: Global, values: &State) -> Result<State, AllocError>
    ensures { IfOk result (λ copy. copy ≡ values.now) }
{
    Ok(State::new(Vec::from_slice(alloc, values.as_slice())?))
}

/// The first moment, where the values are a start.
pub(crate) fn begun<'a>(
    alloc: Global,
    outline: &'a Outline,
    values: &State,
) -> Result<Option<Moment<'a>>, AllocError>
    ensures some { IfOk result (λ found. IfSome found (IsAfterRun outline.now values.now [])) }
    ensures none { IfOk result (λ found. IfNone found (IsStart outline.now values.now → ⊥)) }
{
    let copy = copy_of(alloc, values)?;
    match start(alloc, outline, copy) {
        Ok(moment) => Ok(Some(moment)),
        Err(StartError::Memory) => Err(AllocError),
        Err(StartError::Fault(_)) => Ok(None),
    }
}

/// The moment to which the history leads, where the values are a start and each of its numbers is a
/// step.
///
/// # Errors
///
/// An allocation was refused.
pub fn moment_after<'a>(
    alloc: Global,
    outline: &'a Outline,
    values: &State,
    history: &[u32],
) -> Result<Option<Moment<'a>>, AllocError>
    ensures some { IfOk result (λ found.
        IfSome found (IsAfterRun outline.now values.now history.now)) }
    ensures none { IfOk result (λ found. IfNone found (IsNoRun outline.now values.now history.now)) }
{
    let Some(mut moment) = begun(alloc, outline, values)? else {
        return Ok(None);
    };
    for p in history {
        let Turn::Moved = moment.step(*p) else {
            return Ok(None);
        };
    }
    Ok(Some(moment))
}

/// The run with these values, this history and this violation, where it is one: the values
/// are a start, each number of the history is a step, and this is wrong at the end.
///
/// # Errors
///
/// An allocation was refused.
pub fn replayed(
    alloc: Global,
    outline: &Outline,
    values: State,
    history: Vec<u32>,
    wrong: Wrong,
) -> Result<Option<Violation>, AllocError>
    ensures some { IfOk result (λ found. IfSome found (IsViolation outline.now)) }
    ensures same { IfOk result (λ found.
        IfSome found (λ v. v ≡ record { values = values; history = history; wrong = wrong })) }
    ensures none { IfOk result (λ found.
        IfNone found (IsWrong outline.now values history.items wrong → ⊥)) }
{
    let Some(mut moment) = moment_after(alloc, outline, &values, &history)? else {
        return Ok(None);
    };
    if is_wrong(outline, &mut moment, wrong) {
        Ok(Some(Violation {
            values,
            history,
            wrong,
        }))
    } else {
        Ok(None)
    }
}
