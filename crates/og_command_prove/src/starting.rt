//! The starts of the runs. Nothing is promised of which values are chosen.

ghost use Rattle.std.specs.Prelude.{map, IfOk, OnOk};
ghost use Rattle.og_explore.specs.From.{HaveLength};

use og_command_explore::{points, ranges};
use og_explore::{Range, is_from};
use og_find::Verdict;
use og_find_all::Findings;
use og_linear::State;
use og_subst::Values;
use og_typed::{Basic, Outline, Seq, Stmt};
use std::alloc::{AllocError, Global};

// How many starts are added where no word gives a range.
const MOST_ADDED: usize = 63;

#[cycle(assigning)]
fn assigns(seq: &Seq, var: u32) -> bool {
    for item in &seq.items {
        if assigns_in(&item.stmt, var) {
            return true;
        }
    }
    false
}

// Whether a statement assigns the variable.
#[cycle(assigning)]
fn assigns_in(stmt: &Stmt, var: u32) -> bool {
    match stmt {
        Stmt::Skip => false,
        Stmt::Assign(assigned, _) => *assigned == var,
        Stmt::While(_, body) => assigns(body, var),
        Stmt::If(_, branch, other) => {
            assigns(branch, var)
                || match other {
                    Some(other) => assigns(other, var),
                    None => false,
                }
        }
        Stmt::Await(_, body) => is_assigned(body, var),
    }
}

fn is_assigned(body: &[Basic], var: u32) -> bool {
    body.iter().any(|basic| match basic {
        Basic::Assign(assigned, _) => *assigned == var,
        Basic::Skip => false,
    })
}

// Whether a statement of the outline assigns the variable.
fn is_changed(outline: &Outline, var: u32) -> bool {
    for process in outline.processes() {
        if assigns(process, var) {
            return true;
        }
    }
    let first = match outline.prologue() {
        Some(seq) => assigns(seq, var),
        None => false,
    };
    let last = match outline.epilogue() {
        Some(seq) => assigns(seq, var),
        None => false,
    };
    first || last
}

// Whether the precondition is true where the variables that are no auxiliaries have these values.
fn is_start(alloc: Global, outline: &Outline, values: &[i64]) -> Result<bool, AllocError> {
    let mut all = Vec::from_slice(alloc, values)?;
    all.extend_from_slice(outline.aux_values())?;
    let state = State::new(all);
    let values = Values::of(alloc, &state)?;
    Ok(values.truth(&outline.pre().assertion) == Some(true))
}

// Adds a start, unless it stands there, lies within one of the lists of ranges, or is none.
fn add_start(
    alloc: Global,
    outline: &Outline,
    lists: &[Vec<Range>],
    starts: &mut Vec<Vec<i64>>,
    values: Vec<i64>,
) -> Result<(), AllocError> {
    if is_from(lists, &values) || starts.iter().any(|start| *start == values) {
        return Ok(());
    }
    if starts.len() < MOST_ADDED && is_start(alloc, outline, &values)? {
        starts.push(values)?;
    }
    Ok(())
}

// The number of a range that is nearest to 0.
fn nearest(range: &Range) -> i64 {
    range.low().max(0).min(range.high())
}

// Adds two starts: with the state's values of the variables that nothing assigns and the values of
// the first list that are nearest to 0, and with the state's values of all.
fn add_two(
    alloc: Global,
    outline: &Outline,
    lists: &[Vec<Range>],
    starts: &mut Vec<Vec<i64>>,
    state: &State,
) -> Result<(), AllocError> {
    let Some(ranges) = lists.first() else {
        return Ok(());
    };
    let state = state.as_slice();
    let mut near = Vec::new(alloc);
    let mut far = Vec::new(alloc);
    for (var, range) in ranges.iter().enumerate() {
        let value = nearest(range);
        let other = state.get(var).copied().unwrap_or(value);
        let changed = is_changed(outline, u32::try_from(var).unwrap_or(u32::MAX));
        near.push(if changed { value } else { other })?;
        far.push(other)?;
    }
    add_start(alloc, outline, lists, starts, near)?;
    add_start(alloc, outline, lists, starts, far)
}

// The starts that are added to those within the ranges: two for each condition that is false in a
// state, while there are few.
fn added(
    alloc: Global,
    outline: &Outline,
    conditions: usize,
    lists: &[Vec<Range>],
    findings: &Findings,
) -> Result<Vec<Vec<i64>>, AllocError> {
    let mut starts = Vec::new(alloc);
    for i in 0..conditions {
        if let Some(Verdict::False(state)) = findings.verdict(i) {
            add_two(alloc, outline, lists, &mut starts, state)?;
        }
    }
    Ok(starts)
}

// Adds a list of ranges, where there is one for each variable that is no auxiliary.
#[tactic(auto, using(crate::proofs::Lists::have_pushed))]
fn add_list(
    lists: &mut Vec<Vec<Range>>,
    outline: &Outline,
    list: Vec<Range>,
) -> Result<(), AllocError>
    requires { HaveLength outline.now.vars (map (λ l. l.items) lists.old.items) }
    ensures { OnOk result (HaveLength outline.now.vars (map (λ l. l.items) lists.new.items)) }
{
    if list.len() != outline.vars() as usize {
        return Ok(());
    }
    lists.push(list)?;
    Ok(())
}

// Adds the lists of ranges of these starts.
fn add_points(
    alloc: Global,
    lists: &mut Vec<Vec<Range>>,
    outline: &Outline,
    starts: &[Vec<i64>],
) -> Result<(), AllocError>
    requires { HaveLength outline.now.vars (map (λ l. l.items) lists.old.items) }
    ensures { OnOk result (HaveLength outline.now.vars (map (λ l. l.items) lists.new.items)) }
{
    for start in starts {
        add_list(lists, outline, points(alloc, start)?)?;
    }
    Ok(())
}

// The one list of ranges.
#[tactic(auto, using(crate::proofs::Lists::have_none))]
fn one_list(
    alloc: Global,
    outline: &Outline,
    list: Vec<Range>,
) -> Result<Vec<Vec<Range>>, AllocError>
    ensures { IfOk result (λ lists. HaveLength outline.now.vars (map (λ l. l.items) lists.items)) }
{
    let mut lists = Vec::new(alloc);
    add_list(&mut lists, outline, list)?;
    Ok(lists)
}

/// The lists of ranges within which runs start: first that of the words, and of variables without one
/// as for an exploration; where no word is given, then a list of one start for each of up to 63 others,
/// two for each of this many conditions that is false in a state.
///
/// # Errors
///
/// An allocation was refused.
pub(crate) fn starts(
    alloc: Global,
    outline: &Outline,
    conditions: usize,
    given: &[Option<Range>],
    findings: &Findings,
) -> Result<Vec<Vec<Range>>, AllocError>
    ensures { IfOk result (λ lists. HaveLength outline.now.vars (map (λ l. l.items) lists.items)) }
{
    let ranges = ranges(alloc, outline, given)?;
    let mut lists = one_list(alloc, outline, ranges)?;
    if given.iter().any(|range| range.is_some()) {
        return Ok(lists);
    }
    let added = added(alloc, outline, conditions, &lists, findings)?;
    add_points(alloc, &mut lists, outline, &added)?;
    Ok(lists)
}
