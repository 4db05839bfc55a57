//! Which assertion is false in a run, and where it stands.

ghost use Rattle.std.specs.Prelude.{◌≡◌, IfOk, IfErr, IfSome, Some, None, length, option_map};
ghost use Rattle.og_command_run.specs.Asked.{is_of, IsAssertionPlace, IsPlaceOf, IsNote};
ghost use Rattle.og_command_run.specs.Scheduled.{IsStatementPlace};

use crate::lines::note_line;
use og_linear::State;
use og_run::{Outcome, RunError};
use og_step::{Moment, StartError, start};
use og_typed::{Index, Outline, Part, Source};
use og_violation::{Violation, Wrong, first_along};
use std::alloc::{AllocError, Global};

/// An equal state.
pub(crate) fn copy_of(alloc: Global, values: &State) -> Result<State, AllocError>
    ensures { IfOk result (λ copy. copy ≡ values.now) }
{
    Ok(State::new(Vec::from_slice(alloc, values.as_slice())?))
}

// Whether the part is one of process p's.
fn is_of(main: usize, p: u32, part: Part) -> bool
    ensures { result ≡ is_of main p part }
{
    match part {
        Part::Process(q) => p == q,
        Part::Prologue | Part::Epilogue => p as usize == main,
    }
}

// How many processes there are, the main process left out.
fn main_number(outline: &Outline) -> usize
    ensures { result ≡ length outline.now.processes }
{
    outline.processes().len()
}

// Where an assertion of process p stands: at this place, if one does.
fn assertion_place(
    alloc: Global,
    outline: &Outline,
    p: u32,
    at: u32,
) -> Result<Option<u32>, AllocError>
    ensures { IfOk result (λ place. IfSome place (IsAssertionPlace outline.now p)) }
{
    let index = Index::new(alloc, outline)?;
    let Some(site) = index.note(at) else {
        return Ok(None);
    };
    if is_of(main_number(outline), p, site.part) {
        Ok(Some(at))
    } else {
        Ok(None)
    }
}

/// Where a statement of process p stands: at this place, if one does.
pub(crate) fn statement_place(
    alloc: Global,
    outline: &Outline,
    p: u32,
    at: u32,
) -> Result<Option<u32>, AllocError>
    ensures { IfOk result (λ place. IfSome place (IsStatementPlace outline.now p)) }
{
    let index = Index::new(alloc, outline)?;
    let Some(site) = index.statement(at) else {
        return Ok(None);
    };
    if is_of(main_number(outline), p, site.part) {
        Ok(Some(at))
    } else {
        Ok(None)
    }
}

// The place of the current assertion of process p.
fn current_at(outline: &Outline, moment: &Moment, p: u32) -> u32 {
    match moment.head(p) {
        Some(item) => item.before.at,
        None => match outline.processes().get(p as usize) {
            Some(seq) => seq.last().at,
            None => outline.post().at,
        },
    }
}

// The place of the current assertion of process p after a history, or that of the postcondition
// where there is no such run.
fn current_after(
    alloc: Global,
    outline: &Outline,
    values: &State,
    history: &[u32],
    p: u32,
) -> Result<u32, AllocError> {
    let values = copy_of(alloc, values)?;
    let mut moment = match start(alloc, outline, values) {
        Ok(moment) => moment,
        Err(StartError::Memory) => return Err(AllocError),
        Err(StartError::Fault(_)) => return Ok(outline.post().at),
    };
    for q in history {
        moment.step(*q);
    }
    Ok(current_at(outline, &moment, p))
}

// The place reported for a false assertion.
fn place_of(alloc: Global, outline: &Outline, found: &Violation) -> Result<Option<u32>, AllocError>
    ensures { IfOk result (IsPlaceOf outline.now found.now.wrong) }
{
    match found.wrong {
        Wrong::Assertion(p) => {
            let at = current_after(alloc, outline, &found.values, &found.history, p)?;
            assertion_place(alloc, outline, p, at)
        }
        Wrong::Post => Ok(Some(outline.post().at)),
        Wrong::Overflow(_) | Wrong::Stuck => Ok(None),
    }
}

/// The line of the first false assertion along a history, if there is one.
pub(crate) fn first_false(
    alloc: Global,
    source: &Source,
    outline: &Outline,
    values: &State,
    history: &[u32],
) -> Result<Option<Vec<u8>>, AllocError>
    ensures { IfOk result (λ note. IsNote source.now.bytes outline.now values.now history.now
        (option_map (λ line. line.items) note)) }
{
    let Some(found) = first_along(alloc, outline, values, history)? else {
        return Ok(None);
    };
    let place = place_of(alloc, outline, &found)?;
    let main = main_number(outline);
    let steps = found.history.len();
    let line = note_line(alloc, source.bytes(), main, found.wrong, place, steps)?;
    Ok(Some(line))
}

/// The report of a run.
pub(crate) fn note_on(
    alloc: Global,
    source: &Source,
    outline: &Outline,
    values: &State,
    ended: &Result<Outcome, RunError>,
) -> Result<Option<Vec<u8>>, AllocError>
    ensures note { IfOk ended.now (λ r. IfOk result (λ note. IsNote source.now.bytes outline.now
        values.now r.history.items (option_map (λ line. line.items) note))) }
    ensures none { IfErr ended.now
        (λ _. IfOk result (λ note. option_map (λ line. line.items) note ≡ None)) }
{
    match ended {
        Ok(outcome) => first_false(alloc, source, outline, values, &outcome.history),
        Err(_) => Ok(None),
    }
}
