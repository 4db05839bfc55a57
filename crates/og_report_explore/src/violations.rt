//! The report of a violation.

ghost use Rattle.std.specs.Prelude.{◌≡◌, map, IfOk, IfSome};
ghost use Rattle.og_typed.specs.Machine.{start_of};
ghost use Rattle.og_cond.specs.Seen.{seen};
ghost use Rattle.og_violation.specs.Violations.{IsViolation};
ghost use Rattle.og_report_explore.specs.Findings.{AreRows, AreRowsOf, IsBefore, IsFinding};

use crate::blaming::{Failure, blame};
use crate::faults::fault_of;
use crate::finding::{Effect, Finding, Row};
use crate::rows::row;
use og_cond::Condition;
use og_linear::State;
use og_report_explain::{Unexplained, first_at};
use og_step::{Moment, StartError, start};
use og_subst::Values;
use og_typed::{Index, Outline};
use og_violation::Violation;
use std::alloc::{AllocError, Global};

// An equal state.
fn copy_of(alloc: Global, state: &State) -> Result<State, AllocError>
    ensures { IfOk result (λ copy. copy ≡ state.now) }
{
    Ok(State::new(Vec::from_slice(alloc, state.as_slice())?))
}

// The first moment, where the values are a start.
fn begun<'a>(
    alloc: Global,
    outline: &'a Outline,
    values: &State,
) -> Result<Option<Moment<'a>>, AllocError>
    ensures { IfOk result (λ found. IfSome found
        (λ m. m ≡ record { outline = outline.now; moment = start_of outline.now values.now })) }
{
    let copy = copy_of(alloc, values)?;
    match start(alloc, outline, copy) {
        Ok(moment) => Ok(Some(moment)),
        Err(StartError::Memory) => Err(AllocError),
        Err(StartError::Fault(_)) => Ok(None),
    }
}

// A run as it is reported, with the state before its last step.
#[derive(Drop)]
struct Steps<'a> {
    rows: Vec<Row<'a>>,
    before: State,
}

// The steps of the history from the moment, which is then the last one.
fn steps_of<'a>(
    alloc: Global,
    outline: &Outline,
    moment: &mut Moment<'a>,
    history: &[u32],
) -> Result<Option<Steps<'a>>, AllocError>
    ensures outline { IfOk result (λ found.
        IfSome found (λ steps. moment.new.outline ≡ moment.old.outline)) }
    ensures rows { IfOk result (λ found. IfSome found (λ steps.
        AreRows outline.now moment.old.moment history.now steps.rows.items moment.new.moment)) }
    ensures before { IfOk result (λ found.
        IfSome found (λ steps. IsBefore moment.old.moment history.now steps.before)) }
{
    let mut before = copy_of(alloc, moment.state())?;
    let mut rows = Vec::new(alloc);
    for p in history {
        before = copy_of(alloc, moment.state())?;
        let Some(row) = row(alloc, outline, moment, *p)? else {
            return Ok(None);
        };
        rows.push(row)?;
    }
    Ok(Some(Steps { rows, before }))
}

/// The steps of the run from the start at which the variables that are no auxiliaries have these
/// values, by the processes of the history; none where one of them cannot step, or a number on the
/// way leaves 128 bits.
///
/// # Errors
///
/// An allocation was refused.
pub fn rows_of<'a>(
    alloc: Global,
    outline: &'a Outline,
    values: &State,
    history: &[u32],
) -> Result<Option<Vec<Row<'a>>>, AllocError>
    ensures { IfOk result (λ found.
        IfSome found (λ rows. AreRowsOf outline.now values.now history.now rows.items)) }
{
    let Some(mut moment) = begun(alloc, outline, values)? else {
        return Ok(None);
    };
    match steps_of(alloc, outline, &mut moment, history)? {
        Some(steps) => Ok(Some(steps.rows)),
        None => Ok(None),
    }
}

// The last row's place.
fn last_at(rows: &[Row]) -> Option<u32> {
    Some(rows.last()?.item.at)
}

// The byte offset of the assertion to which the last row's statement led first.
fn led_to(index: &Index, rows: &[Row]) -> Option<u32> {
    let row = rows.last()?;
    let holds = matches!(row.effect, Effect::Tested(true));
    Some(first_at(&index.statement(row.item.at)?, holds))
}

/// The report of a violation of the outline, as `IsFinding` says; none where a value leaves 128
/// bits, which no clause excludes. `conditions` are the outline's, or none.
///
/// # Errors
///
/// An allocation was refused.
pub fn finding_of<'a>(
    alloc: Global,
    outline: &'a Outline,
    index: &Index<'a>,
    conditions: &[Condition],
    violation: &Violation,
) -> Result<Option<Finding<'a>>, AllocError>
    requires { IsViolation outline.now violation.now }
    ensures { IfOk result (λ found.
        IfSome found (IsFinding outline.now (map seen conditions.now) violation.now)) }
{
    let Some(mut moment) = begun(alloc, outline, &violation.values)? else {
        return Ok(None);
    };
    let start = Values::of(alloc, moment.state())?;
    let Some(steps) = steps_of(alloc, outline, &mut moment, &violation.history)? else {
        return Ok(None);
    };
    let state = Values::of(alloc, moment.state())?;
    let fault = match fault_of(alloc, outline, &moment, &state, violation.wrong) {
        Ok(fault) => fault,
        Err(Unexplained::Open) => return Ok(None),
        Err(Unexplained::Memory) => return Err(AllocError),
    };
    let failure = Failure {
        index,
        step_at: last_at(&steps.rows),
        first_at: led_to(index, &steps.rows),
        fault: &fault,
    };
    let blame = blame(alloc, failure, conditions, &steps.before, moment.state())?;
    Ok(Some(Finding {
        start,
        rows: steps.rows,
        state,
        fault,
        blame,
    }))
}
