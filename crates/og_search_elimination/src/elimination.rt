//! Fourier-Motzkin elimination over rows: it finds a contradiction, or ends with whole numbers for
//! the variables.

ghost use Rattle.std.specs.Prelude.{IfOk, IfErr};
ghost use Rattle.og_search_rows.specs.Rows.{Extends, ShowsContradiction};
ghost use Rattle.og_search_elimination.specs.Outcome.{IsTrueOutcome};

use crate::counts::Counts;
use crate::disturbed::disturbed;
use crate::plan::next_plan;
use crate::values::{Gap, Misfit, set_values};
use crate::working::{Eliminated, Working};
use og_search_rows::{AddError, Bounds, Model, RowError, Rows, Side};
use std::alloc::AllocError;

/// Whether the range of `i64` bounds each variable.
#[derive(Clone, Copy)]
pub enum Ranges {
    Ignored,
    Counted,
}

/// What an elimination is given.
#[derive(Clone, Copy)]
pub struct Problem<'a> {
    /// The rows that have to hold.
    pub base: &'a [usize],
    /// The bounds of the variables.
    pub bounds: &'a Bounds,
    /// Values that the variables keep where they can.
    pub kept: &'a Model,
    /// How many variables there are.
    pub variables: u32,
    pub ranges: Ranges,
}

/// How an elimination ends that finds no contradiction.
#[derive(Drop)]
pub enum Outcome {
    /// All rows hold of these values.
    Model(Model),
    /// No whole number fits a variable.
    Gap(Gap),
    /// The values leave the range of `i64`.
    OutOfRange,
    /// The numbers are too large, or the rows too many.
    Unknown,
}

// How far the variables were eliminated.
#[derive(Drop)]
enum Progress {
    // No variable is left; these were eliminated, in this order.
    Complete(Vec<Eliminated>),
    // There were too many rows.
    TooManyRows,
}

// Takes in the rows of the bounds of the variables that occur.
fn put_bounds(working: &mut Working, rows: &mut Rows, problem: &Problem) -> Result<(), RowError>
    ensures { Extends rows.old.rows rows.new.rows }
{
    let counts = Counts::of(rows, problem.base, problem.variables)?;
    for var in 0..problem.variables {
        if counts.get(var).both() > 0 {
            put_bound(working, rows, problem, var, Side::Lower)?;
            put_bound(working, rows, problem, var, Side::Upper)?;
        }
    }
    Ok(())
}

// Takes in the row of a bound, if a row says it or ranges count.
fn put_bound(
    working: &mut Working,
    rows: &mut Rows,
    problem: &Problem,
    var: u32,
    side: Side,
) -> Result<(), RowError>
    ensures { Extends rows.old.rows rows.new.rows }
{
    let counts = match problem.ranges {
        Ranges::Counted => true,
        Ranges::Ignored => problem.bounds.get(var, side).row.is_some(),
    };
    if counts {
        working.put_bound(rows, problem.bounds, var, side)?;
    }
    Ok(())
}

// Eliminates one variable after the other.
fn eliminate_all(
    working: &mut Working,
    rows: &mut Rows,
    problem: &Problem,
) -> Result<Progress, AddError>
    ensures extends { Extends rows.old.rows rows.new.rows }
    ensures contradiction { IfErr result (ShowsContradiction rows.new.rows) }
{
    let mut gone = Vec::new(rows.alloc());
    for _ in 0..problem.variables {
        let Some(plan) = next_plan(rows, working.left(), problem.variables)? else {
            break;
        };
        gone.push(working.take_out(rows, plan.var)?)?;
        working.follow(rows, problem.bounds, &plan)?;
        if working.is_full() {
            return Ok(Progress::TooManyRows);
        }
    }
    Ok(Progress::Complete(gone))
}

// The values for the variables that were eliminated, where all rows hold of them.
fn model_of(rows: &Rows, problem: &Problem, gone: &[Eliminated]) -> Result<Outcome, AllocError>
    ensures { IfOk result (IsTrueOutcome rows.now.rows problem.now.base.now) }
{
    let mut model = problem.kept.copy()?;
    let outcome = match (set_values(rows, gone, &mut model), problem.ranges) {
        (Ok(()), _) if rows.all_hold(problem.base, &model) => Outcome::Model(model),
        (Err(Misfit::Gap(gap)), _) => Outcome::Gap(gap),
        (Err(Misfit::OutOfRange), Ranges::Ignored) => Outcome::OutOfRange,
        _ => Outcome::Unknown,
    };
    Ok(outcome)
}

// What it costs to compare this many rows with each other: a step for each 10,000 pairs or so.
fn steps_for(count: usize) -> u64 {
    let hundreds = (count / 100) as u64;
    hundreds.saturating_mul(hundreds)
}

// Eliminates all variables from the rows of the problem.
fn run(rows: &mut Rows, problem: &Problem) -> Result<Progress, AddError>
    ensures extends { Extends rows.old.rows rows.new.rows }
    ensures contradiction { IfErr result (ShowsContradiction rows.new.rows) }
{
    let mut working = Working::new(rows.alloc());
    working.put_several(rows, problem.bounds, problem.base)?;
    put_bounds(&mut working, rows, problem)?;
    eliminate_all(&mut working, rows, problem)
}

// The kept values, each of them within the bounds of its variable.
fn values_within(problem: &Problem) -> Result<Model, AllocError> {
    let mut values = problem.kept.copy()?;
    for var in 0..problem.variables {
        let low = problem.bounds.get(var, Side::Lower).value;
        let high = problem.bounds.get(var, Side::Upper).value;
        values.set(var, values.value(var).max(low).min(high));
    }
    Ok(values)
}

/// Eliminates the variables of the rows that have to do with one that is false of the kept values.
/// Where all rows hold of these, or of the nearest ones within the bounds, they are the answer.
///
/// # Errors
///
/// `Contradiction` with a row that shows that no state of `i64` values makes the facts true;
/// `Budget` and `Memory`. The earlier rows stay.
pub fn eliminate(rows: &mut Rows, problem: &Problem) -> Result<Outcome, AddError>
    ensures extends { Extends rows.old.rows rows.new.rows }
    ensures outcome { IfOk result (IsTrueOutcome rows.new.rows problem.now.base.now) }
    ensures contradiction { IfErr result (ShowsContradiction rows.new.rows) }
{
    if rows.all_hold(problem.base, problem.kept) {
        return Ok(Outcome::Model(problem.kept.copy()?));
    }
    let values = values_within(problem)?;
    if rows.all_hold(problem.base, &values) {
        return Ok(Outcome::Model(values));
    }
    let base = disturbed(rows, problem.base, problem.kept, problem.variables)?;
    rows.spend(steps_for(base.len()))?;
    let disturbed = Problem {
        base: &base,
        bounds: problem.bounds,
        kept: problem.kept,
        variables: problem.variables,
        ranges: problem.ranges,
    };
    match run(rows, &disturbed)? {
        Progress::Complete(gone) => Ok(model_of(rows, problem, &gone)?),
        Progress::TooManyRows => Ok(Outcome::Unknown),
    }
}
