//! The steps of a run.

ghost use Rattle.std.specs.Prelude.{◌≡◌, ◌≤◌, ◌+◌, length, IfOk, IfSome, IfNone, Some, None, option_map};
ghost use Rattle.og_linear.specs.Linear.{value_at};
ghost use Rattle.og_typed.specs.Plain.{formula, statement};
ghost use Rattle.og_typed.specs.Truth.{truth};
ghost use Rattle.og_subst.specs.Actions.{action_body};
ghost use Rattle.og_report_explore.specs.Findings.{branch_test, assigned_below, assignments_of, IsRow};

use crate::finding::{Effect, Row};
use og_linear::State;
use og_step::{Moment, Turn};
use og_subst::{Action, Values};
use og_typed::{Assert, Outline, Stmt};
use std::alloc::{AllocError, Global};

// The test of an `if` or a `while`.
fn branch_test(stmt: &Stmt) -> Option<&Assert>
    ensures { option_map (λ test. formula test.now) result ≡ branch_test (statement stmt.now) }
{
    match stmt {
        Stmt::Skip => None,
        Stmt::Assign(_, _) => None,
        Stmt::If(test, _, _) => Some(test),
        Stmt::While(test, _) => Some(test),
        Stmt::Await(_, _) => None,
    }
}

// The value of a variable, 0 beyond the end.
fn value_at(state: &State, var: u32) -> i64
    ensures { result ≡ value_at state.now var }
{
    state.as_slice().get(var as usize).copied().unwrap_or(0)
}

// Of the first variables those that the action assigns, with their values.
fn assigned(
    alloc: Global,
    count: u32,
    action: &Action,
    state: &State,
) -> Result<Vec<(u32, i64)>, AllocError>
    ensures { IfOk result (λ v. v.items ≡ assigned_below count (action_body action.now) state.now) }
{
    let mut entries = Vec::new(alloc);
    for var in 0..count {
        if action.assigns(var) {
            entries.push((var, value_at(state, var)))?;
        }
    }
    Ok(entries)
}

// What the statement assigned, by the state after it.
fn assigned_by(
    alloc: Global,
    outline: &Outline,
    stmt: &Stmt,
    state: &State,
) -> Result<Vec<(u32, i64)>, AllocError>
    ensures { IfOk result (λ v. v.items ≡ assigned_below (length outline.now.names)
        (assignments_of (statement stmt.now)) state.now) }
{
    outline.follows_rule();
    match Action::of(stmt) {
        Some(action) => assigned(alloc, outline.names().len() as u32, &action, state),
        None => Ok(Vec::new(alloc)),
    }
}

// Whether the test of the statement is true, where it has one.
fn tested(alloc: Global, test: &Assert, state: &State) -> Result<Option<bool>, AllocError>
    ensures { IfOk result (λ found. IfSome found (λ b. b ≡ truth (formula test.now) state.now)) }
{
    let values = Values::of(alloc, state)?;
    Ok(values.truth(test))
}

/// The step of process p, and the moment after it; none where it has no step, or a number on the
/// way leaves 128 bits.
///
/// # Errors
///
/// An allocation was refused.
pub(crate) fn row<'a>(
    alloc: Global,
    outline: &Outline,
    moment: &mut Moment<'a>,
    p: u32,
) -> Result<Option<Row<'a>>, AllocError>
    ensures { IfOk result (λ found. IfSome found (λ row. (moment.new.outline ≡ moment.old.outline)
        × IsRow outline.now moment.old.moment moment.new.moment p row)) }
{
    let Some(item) = moment.head(p) else {
        return Ok(None);
    };
    match branch_test(&item.stmt) {
        Some(test) => {
            let Some(holds) = tested(alloc, test, moment.state())? else {
                return Ok(None);
            };
            let Turn::Moved = moment.step(p) else {
                return Ok(None);
            };
            let effect = Effect::Tested(holds);
            Ok(Some(Row {
                process: p,
                item,
                effect,
            }))
        }
        None => {
            let Turn::Moved = moment.step(p) else {
                return Ok(None);
            };
            let effect = Effect::Assigned(assigned_by(alloc, outline, &item.stmt, moment.state())?);
            Ok(Some(Row {
                process: p,
                item,
                effect,
            }))
        }
    }
}
