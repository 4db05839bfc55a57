//! Whether a condition may be false in a state. Where a number leaves 128 bits, it may.

ghost use Rattle.std.specs.Prelude.{◌≡◌, true, false, map, IfOk};
ghost use Rattle.og_typed.specs.Plain.{formula, simple};
ghost use Rattle.og_typed.specs.Truth.{truth};
ghost use Rattle.og_typed.specs.Machine.{act, all_fit};
ghost use Rattle.og_subst.specs.Actions.{action_body};
ghost use Rattle.og_cond.specs.Condition.{assignments};
ghost use Rattle.og_cond.specs.Seen.{seen, part_of, parts_of, hypothesis_of};
ghost use Rattle.og_cond.specs.Valid.{part_true, all_parts, some_parts, hypothesis_true, hypotheses_true};
ghost use Rattle.og_find.specs.Found.{IsFalseAt};

use og_cond::{Condition, Goal, Hypothesis, Part};
use og_linear::State;
use og_subst::{Action, Values};
use og_typed::{Assert, Basic};
use std::alloc::{AllocError, Global};

// Whether the assertion may have this truth.
fn may_be(assert: &Assert, values: &Values, holds: bool) -> bool
    ensures { result ≡ false → truth (formula assert.now) values.now ≡ holds → ⊥ }
{
    match values.truth(assert) {
        Some(truth) => truth == holds,
        None => true,
    }
}

fn part_may_hold(part: &Part, values: &Values) -> bool
    ensures { result ≡ false → part_true values.now (part_of part.now) ≡ true → ⊥ }
{
    match part {
        Part::Yes(assert) => may_be(assert, values, true),
        Part::No(assert) => may_be(assert, values, false),
    }
}

fn parts_may_hold(parts: &[Part], values: &Values) -> bool
    ensures { result ≡ false → all_parts values.now (map part_of parts.now) ≡ true → ⊥ }
{
    for part in parts {
        if !part_may_hold(part, values) {
            return false;
        }
    }
    true
}

fn some_may_hold(lists: &[Vec<Part>], values: &Values) -> bool
    ensures { result ≡ false → some_parts values.now (map parts_of lists.now) ≡ true → ⊥ }
{
    for parts in lists {
        if parts_may_hold(parts, values) {
            return true;
        }
    }
    false
}

fn hypothesis_may_hold(hypothesis: &Hypothesis, values: &Values) -> bool
    ensures { result ≡ false → hypothesis_true values.now (hypothesis_of hypothesis.now) ≡ true
        → ⊥ }
{
    match hypothesis {
        Hypothesis::Is(part) => part_may_hold(part, values),
        Hypothesis::Starts(var, value) => values.at(*var) == i128::from(*value),
        Hypothesis::OneOf(lists) => some_may_hold(lists, values),
    }
}

fn hypotheses_may_hold(hypotheses: &[Hypothesis], values: &Values) -> bool
    ensures { result ≡ false → hypotheses_true values.now (map hypothesis_of hypotheses.now) ≡ true
        → ⊥ }
{
    for hypothesis in hypotheses {
        if !hypothesis_may_hold(hypothesis, values) {
            return false;
        }
    }
    true
}

// Whether the assignments, one after another, surely assign `i64`s.
fn body_fits(alloc: Global, body: &[Basic], values: &Values) -> Result<bool, AllocError>
    ensures { IfOk result (λ fits. fits ≡ true → all_fit (map simple body.now) values.now ≡ true) }
{
    let mut values = values.copy(alloc)?;
    for basic in body {
        if let Basic::Assign(var, form) = basic {
            let Some(value) = values.value(form) else {
                return Ok(false);
            };
            if i64::try_from(value).is_err() {
                return Ok(false);
            }
            let Some(after) = values.after(alloc, &Action::Assign(*var, form))? else {
                return Ok(false);
            };
            values = after;
        }
    }
    Ok(true)
}

fn action_fits(alloc: Global, action: &Action, values: &Values) -> Result<bool, AllocError>
    ensures { IfOk result (λ fits. fits ≡ true → all_fit (action_body action.now) values.now ≡ true) }
{
    match action {
        Action::Assign(_, form) => match values.value(form) {
            Some(value) => Ok(i64::try_from(value).is_ok()),
            None => Ok(false),
        },
        Action::Await(body) => body_fits(alloc, body, values),
    }
}

// Whether the assertion may be false after the condition's action.
fn goal_may_fail(
    alloc: Global,
    condition: &Condition,
    assert: &Assert,
    values: &Values,
) -> Result<bool, AllocError>
    ensures { IfOk result (λ may. may ≡ false → truth (formula assert.now)
        (act (assignments (seen condition.now).action) values.now) ≡ false → ⊥) }
{
    let Some(action) = &condition.action else {
        return Ok(may_be(assert, values, false));
    };
    match values.after(alloc, action)? {
        Some(after) => Ok(may_be(assert, &after, false)),
        None => Ok(true),
    }
}

// Whether the condition's action may assign a value that is no `i64`.
fn action_may_fail(
    alloc: Global,
    condition: &Condition,
    values: &Values,
) -> Result<bool, AllocError>
    ensures { IfOk result (λ may.
        may ≡ false → all_fit (assignments (seen condition.now).action) values.now ≡ false → ⊥) }
{
    match &condition.action {
        Some(action) => Ok(!action_fits(alloc, action, values)?),
        None => Ok(false),
    }
}

/// Whether the condition may be false in the state.
///
/// # Errors
///
/// An allocation was refused.
pub(crate) fn may_be_false(
    alloc: Global,
    condition: &Condition,
    state: &State,
) -> Result<bool, AllocError>
    ensures { IfOk result (λ may. may ≡ false → IsFalseAt (seen condition.now) state.now → ⊥) }
{
    let values = Values::of(alloc, state)?;
    if !hypotheses_may_hold(&condition.hypotheses, &values) {
        return Ok(false);
    }
    match condition.goal {
        Goal::Holds(assert) => goal_may_fail(alloc, condition, assert, &values),
        Goal::Fits => action_may_fail(alloc, condition, &values),
        Goal::Never => Ok(true),
    }
}
