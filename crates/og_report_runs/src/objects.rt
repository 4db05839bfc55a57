//! The same as JSON.

ghost use Rattle.std.specs.Prelude.{◌≡◌, ◌++◌, map, IfOk};
ghost use Rattle.serde_json.specs.View.{view};
ghost use Rattle.og_report_runs.specs.Json.{with_member, history_items, start_data, witness_data, run_data, with_run, explored_data};

use crate::lines::Explored;
use crate::totals::count_reached;
use crate::witness::{Run, Witness};
use og_linear::State;
use og_report_prove::{Diagnosis, put_values};
use og_report_text::{list_value, numbers, printed_number, set_number, set_text};
use og_subst::Values;
use og_typed::Outline;
use serde_json::{Map, Value, put};
use std::alloc::{AllocError, Global};

/// The object with one member more; a value that is no object as it is.
///
/// # Errors
///
/// An allocation was refused.
pub fn with_member(
    alloc: Global,
    key: &str,
    member: Value,
    value: Value,
) -> Result<Value, AllocError>
    ensures { IfOk result (λ v. view v ≡ with_member key.now (view member) (view value)) }
{
    match value {
        Value::Object(mut members) => {
            put(&mut members, alloc, key, member)?;
            Ok(Value::Object(members))
        }
        other => Ok(other),
    }
}

// The processes that stepped.
fn history_values(alloc: Global, main: u32, history: &[u32]) -> Result<Vec<Value>, AllocError>
    ensures { IfOk result (λ values. map view values.items ≡ history_items main history.now) }
{
    let mut values = Vec::new(alloc);
    for p in history {
        values.push(Value::from(printed_number(main, *p)))?;
    }
    Ok(values)
}

// The values of all variables at the start at which those that are no auxiliaries have these.
fn start_values(alloc: Global, outline: &Outline, values: &State) -> Result<Values, AllocError>
    ensures { IfOk result (λ v. v ≡ values.now ++ outline.now.aux_values) }
{
    let mut all = Vec::from_slice(alloc, values.as_slice())?;
    all.extend_from_slice(outline.aux_values())?;
    let state = State::new(all);
    Values::of(alloc, &state)
}

// The values at the start.
fn start_value(alloc: Global, outline: &Outline, witness: &Witness) -> Result<Value, AllocError>
    ensures { IfOk result (λ v. view v ≡ start_data outline.now witness.now.values) }
{
    outline.follows_rule();
    let names = outline.names();
    let all = start_values(alloc, outline, &witness.values)?;
    let vars = numbers(alloc, names.len() as u32)?;
    let mut members = Map::new(alloc);
    put_values(&mut members, alloc, names, true, &all, &vars)?;
    Ok(Value::Object(members))
}

// A run that gets there.
fn witness_value(alloc: Global, outline: &Outline, witness: &Witness) -> Result<Value, AllocError>
    ensures { IfOk result (λ v. view v ≡ witness_data outline.now witness.now) }
{
    outline.follows_rule();
    let main = outline.processes().len() as u32;
    let history = list_value(history_values(alloc, main, &witness.history)?);
    let start = start_value(alloc, outline, witness)?;
    let mut members = Map::new(alloc);
    put(&mut members, alloc, "start", start)?;
    put(&mut members, alloc, "history", history)?;
    set_text(&mut members, alloc, "found", "reached")?;
    Ok(Value::Object(members))
}

// The result of the search for runs.
fn run_value(alloc: Global, outline: &Outline, run: &Run) -> Result<Value, AllocError>
    ensures { IfOk result (λ v. view v ≡ run_data outline.now run.now) }
{
    let word = match run {
        Run::Reached(witness) => return witness_value(alloc, outline, witness),
        Run::Never => "no",
        Run::Open => "open",
    };
    let mut members = Map::new(alloc);
    set_text(&mut members, alloc, "found", word)?;
    Ok(Value::Object(members))
}

/// The value of the finding on a condition with the result of the search for runs, where the
/// condition is false.
///
/// # Errors
///
/// An allocation was refused.
pub fn with_run(
    alloc: Global,
    outline: &Outline,
    diagnosis: &Diagnosis,
    run: &Run,
    value: Value,
) -> Result<Value, AllocError>
    ensures { IfOk result (λ v. view v ≡ with_run outline.now diagnosis.now run.now (view value)) }
{
    match diagnosis {
        Diagnosis::False(_) => with_member(alloc, "run", run_value(alloc, outline, run)?, value),
        Diagnosis::Proved | Diagnosis::Open => Ok(value),
    }
}

/// How far the exploration went, and how many of these runs get there.
///
/// # Errors
///
/// An allocation was refused.
pub fn explored_value(alloc: Global, explored: Explored, runs: &[Run]) -> Result<Value, AllocError>
    ensures { IfOk result (λ v. view v ≡ explored_data explored runs.now) }
{
    let complete = Value::Bool(explored.complete);
    let mut members = Map::new(alloc);
    set_number(&mut members, alloc, "starts", u64::from(explored.starts))?;
    set_number(&mut members, alloc, "reached", count_reached(runs) as u64)?;
    set_number(&mut members, alloc, "moments", u64::from(explored.moments))?;
    put(&mut members, alloc, "complete", complete)?;
    Ok(Value::Object(members))
}
