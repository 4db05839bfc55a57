//! The line of a false condition about the runs that get there.

ghost use Rattle.std.specs.Prelude.{◌≡◌, ◌++◌, [], nat_lt, IfOk, OnOk};
ghost use Rattle.og_report_runs.specs.Lines.{steps_text, history_text, way_text, nonzero, else_text, begins_text, start_text, from_text, witness_text, run_text, run_line};

use crate::witness::{Run, Witness};
use og_linear::State;
use og_report_text::{printed_number, put_number, put_number_between, put_values};
use og_subst::Values;
use og_text::Name;
use og_typed::Outline;
use og_violation::Wrong;
use std::alloc::{AllocError, Global};

/// The longest history that is printed.
const MOST_STEPS: usize = 40;

/// How far an exploration went.
#[derive(Clone, Copy)]
pub struct Explored {
    /// How many starts there are among the moments.
    pub starts: u32,
    /// How many moments were reached.
    pub moments: u32,
    /// Whether these are all moments of all runs from these starts.
    pub complete: bool,
    /// What is wrong at the end of such a run; where all were looked at, nothing is without it.
    pub wrong: Option<Wrong>,
}

// The processes that stepped, with a blank between two.
fn put_steps(text: &mut Vec<u8>, main: u32, history: &[u32]) -> Result<(), AllocError>
    ensures { OnOk result (text.new.items ≡ text.old.items ++ steps_text main [] history.now) }
{
    let mut between: &[u8] = b"";
    for p in history {
        text.extend_from_slice(between)?;
        put_number(text, u128::from(printed_number(main, *p)))?;
        between = b" ";
    }
    Ok(())
}

// These steps, or how many there are.
fn put_history(text: &mut Vec<u8>, main: u32, history: &[u32]) -> Result<(), AllocError>
    ensures { OnOk result (text.new.items ≡ text.old.items ++ history_text main history.now) }
{
    if history.len() <= MOST_STEPS {
        text.extend_from_slice(b"a run gets there: ")?;
        return put_steps(text, main, history);
    }
    text.extend_from_slice(b"a run gets there in ")?;
    put_number(text, history.len() as u128)?;
    text.extend_from_slice(b" steps")
}

// How a run gets there.
fn put_way(text: &mut Vec<u8>, main: u32, history: &[u32]) -> Result<(), AllocError>
    ensures { OnOk result (text.new.items ≡ text.old.items ++ way_text main history.now) }
{
    if history.is_empty() {
        return text.extend_from_slice(b"a run begins there");
    }
    put_history(text, main, history)
}

// The variables that are not 0.
fn nonzero(alloc: Global, values: &Values, count: u32) -> Result<Vec<u32>, AllocError>
    ensures { IfOk result (λ vars. vars.items ≡ nonzero values.now count) }
{
    let mut vars = Vec::new(alloc);
    for var in 0..count {
        if values.at(var) != 0 {
            vars.push(var)?;
        }
    }
    Ok(vars)
}

// That other variables are 0, unless these are all.
fn put_else(text: &mut Vec<u8>, are_all: bool) -> Result<(), AllocError>
    ensures { OnOk result (text.new.items ≡ text.old.items ++ else_text are_all) }
{
    if are_all {
        return Ok(());
    }
    text.extend_from_slice(b" and else 0")
}

// These variables among the first ones, this many, which are not 0 at a start; the others are.
fn put_begins(
    text: &mut Vec<u8>,
    names: &[Name],
    count: u32,
    values: &Values,
    vars: &[u32],
) -> Result<(), AllocError>
    ensures { OnOk result (text.new.items ≡ text.old.items
        ++ begins_text names.now count values.now vars.now) }
{
    if vars.is_empty() {
        return text.extend_from_slice(b"0");
    }
    put_values(text, names, values.as_slice(), vars)?;
    put_else(text, vars.len() == count as usize)
}

/// Adds the variables that are not 0 at a start, and whether others are 0; the auxiliaries are left
/// out. The values are those of the variables that are no auxiliaries.
///
/// # Errors
///
/// An allocation was refused; the text has what it had, and perhaps a part of this.
pub fn put_start(text: &mut Vec<u8>, outline: &Outline, values: &State) -> Result<(), AllocError>
    ensures { OnOk result (text.new.items ≡ text.old.items ++ start_text outline.now values.now) }
{
    let alloc = *text.allocator();
    let count = outline.vars();
    let values = Values::of(alloc, values)?;
    let vars = nonzero(alloc, &values, count)?;
    put_begins(text, outline.names(), count, &values, &vars)
}

// Where a run begins, if there are several starts.
fn put_from(
    text: &mut Vec<u8>,
    outline: &Outline,
    many: bool,
    values: &State,
) -> Result<(), AllocError>
    ensures { OnOk result (text.new.items ≡ text.old.items ++ from_text outline.now many values.now) }
{
    if !many {
        return Ok(());
    }
    text.extend_from_slice(b" from ")?;
    put_start(text, outline, values)
}

// An outline, and how far its runs were explored.
#[derive(Clone, Copy)]
struct Search<'s> {
    outline: &'s Outline,
    explored: Explored,
}

impl Search<'_> {
    // The run.
    fn put_witness(&self, text: &mut Vec<u8>, witness: &Witness) -> Result<(), AllocError>
        ensures { OnOk result (text.new.items ≡ text.old.items
            ++ witness_text self.now.outline.now (nat_lt 1 self.now.explored.starts) witness.now) }
    {
        let outline = self.outline;
        outline.follows_rule();
        let main = outline.processes().len() as u32;
        put_way(text, main, &witness.history)?;
        put_from(text, outline, 1 < self.explored.starts, &witness.values)
    }

    // The result of the search for runs.
    fn put_run(&self, text: &mut Vec<u8>, run: &Run) -> Result<(), AllocError>
        ensures { OnOk result (text.new.items ≡ text.old.items ++ run_text self.now.outline.now
            (nat_lt 1 self.now.explored.starts) self.now.explored.moments run.now) }
    {
        match run {
            Run::Reached(witness) => self.put_witness(text, witness),
            Run::Never => text.extend_from_slice(b"no run from these starts gets there"),
            Run::Open => {
                let moments = u128::from(self.explored.moments);
                put_number_between(text, b"no run met it within ", moments, b" moments")
            }
        }
    }
}

/// Adds the result of the search for runs, as a line.
///
/// # Errors
///
/// An allocation was refused; the text has what it had, and perhaps a part of this.
pub fn put_run_line(
    text: &mut Vec<u8>,
    outline: &Outline,
    explored: Explored,
    run: &Run,
) -> Result<(), AllocError>
    ensures { OnOk result (text.new.items ≡ text.old.items
        ++ run_line outline.now (nat_lt 1 explored.starts) explored.moments run.now) }
{
    text.extend_from_slice(b"  ")?;
    let search = Search { outline, explored };
    search.put_run(text, run)?;
    text.extend_from_slice(b"\n")
}
