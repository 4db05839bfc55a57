//! Runs by a schedule.

ghost use Rattle.std.specs.Prelude.{◌≡◌, ◌≤◌, None, length, map, IfOk, IfErr, IfSome};
ghost use Rattle.og_step.specs.Answered.{FailsAs};
ghost use Rattle.og_step.specs.Starts.{start_fault};
ghost use Rattle.og_command_run.specs.Schedules.{number_of, history_of, IsFirstHindered};
ghost use Rattle.og_command_run.specs.Scheduled.{IsStatementPlace};
ghost use Rattle.og_command_run.specs.Lines.{not_made_line};
ghost use Rattle.og_command_run.specs.Scheduled.{SaysHindrance, IsStepped, IsScheduled, Follows};
ghost use Rattle.og_command_run.specs.Running.{given, program_of, IsQuiet, StartsNot, EndsAsked};

use crate::asking::{copy_of, first_false, statement_place};
use crate::hindrance::Hindrance;
use crate::lines::not_made_line;
use crate::outcome::{finish_status, outcome_text};
use crate::reply::{Ran, Reply};
use crate::running::of_run;
use crate::schedule::{follow, process_of, steps_of};
use crate::words::{WordsError, values};
use og_erase::erase;
use og_linear::State;
use og_report_text::Answer;
use og_run::{Board, RunError};
use og_step::{Moment, StartError};
use og_typed::{Outline, Source};
use std::alloc::{AllocError, Global};

// The report of values that are no start.
fn not_started(
    alloc: Global,
    outline: &Outline,
    error: StartError,
    values: &State,
    steps: usize,
) -> Result<Ran, AllocError>
    requires { FailsAs error (start_fault outline.now values.now) }
    ensures { IfOk result (IsQuiet (StartsNot (given outline.now values.now steps))) }
{
    match of_run(alloc, outline, Err(RunError::from(error))) {
        Ok(answer) => Ok(Ran { answer, note: None }),
        Err(_) => Err(AllocError),
    }
}

// The report of a run whose steps were all made.
fn all_made(
    alloc: Global,
    source: &Source,
    outline: &Outline,
    values: &State,
    board: Board<'_>,
) -> Result<Ran, AllocError>
    requires outline { board.given.outline ≡ outline.now }
    requires values { board.given.values ≡ values.now }
    requires full { board.given.limit ≤ length board.history }
    ensures { IfOk result (EndsAsked (λ outcome. outcome.history.items ≡ board.entry.history)
        source.now.bytes board.entry.given) }
{
    board.history();
    let outcome = board.outcome(alloc)?;
    let note = first_false(alloc, source, outline, values, &outcome.history)?;
    let text = outcome_text(alloc, outline, &outcome)?;
    let status = finish_status(outcome.finish);
    let answer = Answer { text, status };
    Ok(Ran { answer, note })
}

// Where the next statement of process p stands.
fn next_place(
    alloc: Global,
    outline: &Outline,
    moment: &Moment,
    p: u32,
) -> Result<Option<u32>, AllocError>
    ensures { IfOk result (λ place. IfSome place (IsStatementPlace outline.now p)) }
{
    match moment.head(p) {
        Some(item) => statement_place(alloc, outline, p, item.at),
        None => Ok(None),
    }
}

// A step of the process with this printed number.
fn step_place(
    alloc: Global,
    outline: &Outline,
    moment: &Moment,
    process: u32,
) -> Result<Option<u32>, AllocError>
    ensures { IfOk result (λ place.
        IfSome place (IsStatementPlace outline.now (number_of outline.now process))) }
{
    match process_of(outline, process) {
        Some(p) => next_place(alloc, outline, moment, p),
        None => Ok(None),
    }
}

// The line of a step that cannot be made.
fn not_made(
    alloc: Global,
    source: &Source,
    outline: &Outline,
    moment: &Moment,
    made: usize,
    process: u32,
    why: Hindrance,
) -> Result<Vec<u8>, AllocError>
    ensures { IfOk result (λ line.
        SaysHindrance source.now.bytes outline.now made process why line.items) }
{
    let place = step_place(alloc, outline, moment, process)?;
    let line = not_made_line(alloc, source.bytes(), made, process, why, place)?;
    Ok(line)
}

// Makes the steps from these values.
fn stepped<'a>(
    alloc: Global,
    source: &Source,
    outline: &Outline,
    steps: &[u32],
    values: State,
) -> Result<Reply<'a>, AllocError>
    requires { length steps.now ≤ 1000000 }
    ensures { IfOk result (IsStepped source.now.bytes (given outline.now values (length steps.now))
        steps.now) }
{
    let kept = copy_of(alloc, &values)?;
    let mut board = match Board::begin(alloc, outline, values, steps.len() as u32) {
        Ok(board) => board,
        Err(error) => {
            let ran = not_started(alloc, outline, error, &kept, steps.len())?;
            return Ok(Reply::Ran(ran));
        }
    };
    match follow(&mut board, outline, steps) {
        None => {
            let ran = all_made(alloc, source, outline, &kept, board)?;
            Ok(Reply::Ran(ran))
        }
        Some((made, process, why)) => {
            let line = not_made(alloc, source, outline, board.moment(), made, process, why)?;
            Ok(Reply::NotMade(line))
        }
    }
}

// Of an outline, or of its program without auxiliaries.
fn stepped_program<'a>(
    alloc: Global,
    source: &Source,
    steps: &[u32],
    erased: bool,
    values: State,
) -> Result<Reply<'a>, AllocError>
    requires { length steps.now ≤ 1000000 }
    ensures { IfOk result (IsStepped source.now.bytes
        (given (program_of erased source.now.outline) values (length steps.now)) steps.now) }
{
    let outline = source.outline();
    if !erased {
        return stepped(alloc, source, outline, steps, values);
    }
    let program = erase(alloc, outline)?;
    stepped(alloc, source, program.outline(), steps, values)
}

// Follows the schedule of a word from these values.
fn followed<'a>(
    alloc: Global,
    source: &Source,
    schedule: &'a str,
    erased: bool,
    values: State,
) -> Result<Reply<'a>, AllocError>
    ensures { IfOk result (Follows source.now.bytes schedule.now
        (program_of erased source.now.outline) values) }
{
    let Some(steps) = steps_of(alloc, schedule)? else {
        return Ok(Reply::BadValue(schedule));
    };
    stepped_program(alloc, source, &steps, erased, values)
}

/// Runs the program of a source as `ran`, in one thread: the processes step in the order of the
/// schedule, a word that names them by the numbers under which they are printed, with a comma
/// between two. The history is exactly the schedule.
///
/// `BadValue` holds the first word that gives no value, or else the schedule where it is no list of
/// numbers of 32 bits, or has more than 1,000,000. The empty word is the schedule of no step.
/// `NotMade` holds the line that says which step is the first that cannot be made.
///
/// # Errors
///
/// An allocation was refused.
pub fn ran_by_schedule<'a>(
    alloc: Global,
    source: &Source,
    words: &[&'a str],
    schedule: &'a str,
    erased: bool,
) -> Result<Reply<'a>, AllocError>
    ensures { IfOk result (IsScheduled erased source.now.outline source.now.bytes
        (map (λ w. w.now) words.now) schedule.now) }
{
    match values(alloc, source.outline(), words) {
        Ok(values) => followed(alloc, source, schedule, erased, values),
        Err(WordsError::Bad(word)) => Ok(Reply::BadValue(word)),
        Err(WordsError::Memory) => Err(AllocError),
    }
}
