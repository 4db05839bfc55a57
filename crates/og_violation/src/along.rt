//! The first false assertion along a history.

ghost use Rattle.std.specs.Prelude.{◌≡◌, true, option_map, IfOk, IfSome, IfNone};
ghost use Rattle.og_typed.specs.Machine.{is_finished};
ghost use Rattle.og_violation.specs.Along.{IsFirst, IsTrueAlong};
ghost use Rattle.og_violation.specs.Replays.{of_main, IsOf, IsFindingAt, IsFindingIfMoves, IsFirstWrong};

use crate::moments::{first_false, is_post_false};
use crate::replay::{begun, copy_of};
use crate::violation::{Violation, Wrong};
use og_linear::State;
use og_step::{Moment, Turn};
use og_typed::Outline;
use std::alloc::{AllocError, Global};

// Of the main process its assertion, where it is false.
fn of_main(outline: &Outline, moment: &Moment) -> Option<Wrong>
    requires { IsOf outline.now moment.now }
    ensures { result ≡ of_main outline.now moment.now.moment }
{
    let main = moment.processes();
    if moment.is_true(main) {
        None
    } else {
        Some(Wrong::Assertion(main))
    }
}

// Of a process its assertion.
fn of_process(found: Option<u32>) -> Option<Wrong>
    ensures { result ≡ option_map (λ p. Wrong.Assertion p) found }
{
    Some(Wrong::Assertion(found?))
}

// The false assertion where process p steps next: of the main process, or of the others.
fn before_step(outline: &Outline, moment: &Moment, p: u32) -> Option<Wrong>
    requires { IsOf outline.now moment.now }
    ensures { IsFindingIfMoves outline.now moment.now.moment p result }
{
    if p == moment.processes() {
        of_main(outline, moment)
    } else {
        of_process(first_false(outline, moment))
    }
}

// The false assertion where all have ended.
fn at_end(outline: &Outline, moment: &Moment) -> Option<Wrong>
    requires of { IsOf outline.now moment.now }
    requires ended { is_finished moment.now.moment ≡ true }
    ensures { IsFindingAt outline.now moment.now.moment result }
{
    if outline.epilogue().is_none() {
        if let Some(p) = first_false(outline, moment) {
            return Some(Wrong::Assertion(p));
        }
    }
    if is_post_false(outline, moment) {
        Some(Wrong::Post)
    } else {
        None
    }
}

// The false assertion, whoever steps next.
fn at_last(outline: &Outline, moment: &Moment) -> Option<Wrong>
    requires { IsOf outline.now moment.now }
    ensures { IsFindingAt outline.now moment.now.moment result }
{
    if moment.is_finished() {
        return at_end(outline, moment);
    }
    if moment.is_active(moment.processes()) {
        of_main(outline, moment)
    } else {
        of_process(first_false(outline, moment))
    }
}

// After how many steps of the history an assertion is false, and which one.
fn first_wrong(
    alloc: Global,
    outline: &Outline,
    values: &State,
    history: &[u32],
) -> Result<Option<(usize, Wrong)>, AllocError>
    ensures some { IfOk result (λ found.
        IfSome found (IsFirstWrong outline.now values.now history.now)) }
    ensures none { IfOk result (λ found.
        IfNone found (IsTrueAlong outline.now values.now history.now)) }
{
    let Some(mut moment) = begun(alloc, outline, values)? else {
        return Ok(None);
    };
    for (k, p) in history.iter().enumerate() {
        let found = before_step(outline, &moment, *p);
        let Turn::Moved = moment.step(*p) else {
            return Ok(with_steps(k, at_last(outline, &moment)));
        };
        if let Some(wrong) = found {
            return Ok(Some((k, wrong)));
        }
    }
    Ok(with_steps(history.len(), at_last(outline, &moment)))
}

// With this many steps.
fn with_steps(steps: usize, found: Option<Wrong>) -> Option<(usize, Wrong)>
    ensures { result ≡ option_map (λ wrong. (steps, wrong)) found }
{
    Some((steps, found?))
}

/// The first moment along a history, the start included, at which the current assertion of an
/// active process is false, or the postcondition where all have ended; with the least process, and
/// with the postcondition only where no process's assertion is false. A history that is no run
/// from the values is followed as far as it is one.
///
/// # Errors
///
/// An allocation was refused.
pub fn first_along(
    alloc: Global,
    outline: &Outline,
    values: &State,
    history: &[u32],
) -> Result<Option<Violation>, AllocError>
    ensures some { IfOk result (λ found. IfSome found (IsFirst outline.now values.now history.now)) }
    ensures none { IfOk result (λ found.
        IfNone found (IsTrueAlong outline.now values.now history.now)) }
{
    let Some((steps, wrong)) = first_wrong(alloc, outline, values, history)? else {
        return Ok(None);
    };
    Ok(Some(Violation {
        values: copy_of(alloc, values)?,
        history: Vec::from_slice(alloc, &history[..steps])?,
        wrong,
    }))
}
