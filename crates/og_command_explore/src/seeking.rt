//! A state that a search finds for the precondition. Nothing is promised of it.

ghost use Rattle.std.specs.Prelude.{◌≡◌, length, IfOk};

use og_cond::{Condition, Goal, Hypothesis, Kind, Part};
use og_explore::Range;
use og_find::{Verdict, examine};
use og_linear::{Form, FormError, State};
use og_typed::{Assert, Outline};
use std::alloc::{AllocError, Global};

/// How many facts the search for a start may add.
const BUDGET: u64 = 100_000;

// The assertion that k times the variable and c are at most 0 together; none where that is too
// large.
fn bound(alloc: Global, var: u32, k: i128, c: i128) -> Result<Option<Assert>, AllocError> {
    let variable = Form::variable(alloc, var)?;
    let mut form = Form::constant(alloc, c);
    match form.add_scaled(k, &variable) {
        Ok(()) => Ok(Some(Assert::Le(form))),
        Err(FormError::Memory) => Err(AllocError),
        Err(FormError::Fault(_)) => Ok(None),
    }
}

// Adds that the variable is within the range.
fn add_bounds(
    alloc: Global,
    bounds: &mut Vec<Assert>,
    var: u32,
    range: &Range,
) -> Result<(), AllocError> {
    if let Some(most) = bound(alloc, var, 1, -i128::from(range.high()))? {
        bounds.push(most)?;
    }
    if let Some(least) = bound(alloc, var, -1, i128::from(range.low()))? {
        bounds.push(least)?;
    }
    Ok(())
}

// That each given variable is within its range.
fn bounds(
    alloc: Global,
    outline: &Outline,
    given: &[Option<Range>],
) -> Result<Vec<Assert>, AllocError> {
    let mut bounds = Vec::new(alloc);
    for var in 0..outline.vars() {
        if let Some(Some(range)) = given.get(var as usize) {
            add_bounds(alloc, &mut bounds, var, range)?;
        }
    }
    Ok(bounds)
}

// What a start is to meet: the precondition, the bounds, and the initial values of the auxiliaries.
fn hypotheses<'a>(
    alloc: Global,
    outline: &'a Outline,
    bounds: &'a [Assert],
) -> Result<Vec<Hypothesis<'a>>, AllocError> {
    outline.follows_rule();
    let mut hypotheses = Vec::new(alloc);
    hypotheses.push(Hypothesis::Is(Part::Yes(&outline.pre().assertion)))?;
    for bound in bounds {
        hypotheses.push(Hypothesis::Is(Part::Yes(bound)))?;
    }
    let initial = outline.aux_values();
    for index in 0..initial.len() {
        let var = outline.vars() + index as u32;
        hypotheses.push(Hypothesis::Starts(var, initial[index]))?;
    }
    Ok(hypotheses)
}

// A state that meets these, where a search finds one.
fn searched(
    alloc: Global,
    outline: &Outline,
    bounds: &[Assert],
) -> Result<Option<State>, AllocError> {
    outline.follows_rule();
    let condition = Condition {
        kind: Kind::Start,
        at: 0,
        action_at: None,
        variables: outline.names().len() as u32,
        hypotheses: hypotheses(alloc, outline, bounds)?,
        goal: Goal::Never,
        action: None,
    };
    match examine(alloc, &condition, BUDGET)? {
        Verdict::False(state) => Ok(Some(state)),
        Verdict::True(_) | Verdict::Open => Ok(None),
    }
}

// The value of the variable in the state, 0 without one.
fn value_of(state: &Option<State>, var: u32) -> i64 {
    match state {
        Some(state) => state.as_slice().get(var as usize).copied().unwrap_or(0),
        None => 0,
    }
}

/// A state in which the precondition is true and each given variable within its range, where a search
/// finds one.
///
/// # Errors
///
/// An allocation was refused.
pub(crate) fn sought(
    alloc: Global,
    outline: &Outline,
    given: &[Option<Range>],
) -> Result<Option<State>, AllocError> {
    let bounds = bounds(alloc, outline, given)?;
    searched(alloc, outline, &bounds)
}

/// The values of the variables that are no auxiliaries in the state, 0 without one.
///
/// # Errors
///
/// An allocation was refused.
pub(crate) fn first_values(
    alloc: Global,
    outline: &Outline,
    state: &Option<State>,
) -> Result<Vec<i64>, AllocError>
    ensures { IfOk result (λ v. length v.items ≡ outline.now.vars) }
{
    let mut values = Vec::new(alloc);
    for var in 0..outline.vars() {
        values.push(value_of(state, var))?;
    }
    Ok(values)
}
