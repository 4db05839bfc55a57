//! What a condition claims.

ghost use Rattle.std.specs.Prelude.{◌≡◌, ◌++◌, [], ◌∷◌, map, option_map, OnOk};
ghost use Rattle.og_cond.specs.Condition.{assignments};
ghost use Rattle.og_cond.specs.Seen.{goal_of};
ghost use Rattle.og_subst.specs.Actions.{action_tree};
ghost use Rattle.og_typed.specs.Plain.{formula, simple};
ghost use Rattle.og_typed.specs.Syntax.{Set};
ghost use Rattle.og_report_conditions.specs.Script.{formula_text, range_text, bound_text, ranged_text, after_text, fits_text, goal_text};

use crate::formulas::put_formula;
use crate::terms::{put_form, put_variable};
use og_cond::Goal;
use og_linear::Form;
use og_subst::Action;
use og_text::Name;
use og_typed::{Assert, Basic};
use std::alloc::AllocError;

// That a variable is an `i64`.
fn put_range(text: &mut Vec<u8>, names: &[Name], var: u32) -> Result<(), AllocError>
    ensures { OnOk result (text.new.items ≡ text.old.items ++ range_text names.now var) }
{
    text.extend_from_slice(b"(i64 ")?;
    put_variable(text, names, var)?;
    text.extend_from_slice(b")")
}

/// Adds that a variable is an `i64` to the text, between these words.
pub(crate) fn put_range_between(
    text: &mut Vec<u8>,
    names: &[Name],
    before: &[u8],
    var: u32,
    after: &[u8],
) -> Result<(), AllocError>
    ensures { OnOk result (text.new.items ≡ text.old.items
        ++ (before.now ++ (range_text names.now var ++ after.now))) }
{
    text.extend_from_slice(before)?;
    put_range(text, names, var)?;
    text.extend_from_slice(after)
}

// A variable that is bound to a form.
fn put_bound(text: &mut Vec<u8>, names: &[Name], var: u32, form: &Form) -> Result<(), AllocError>
    ensures { OnOk result (text.new.items ≡ text.old.items ++ bound_text names.now var form.now) }
{
    text.extend_from_slice(b"(let ((")?;
    put_variable(text, names, var)?;
    text.extend_from_slice(b" ")?;
    put_form(text, names, form)?;
    text.extend_from_slice(b")) ")
}

// A variable that is bound to a form, and is in range.
#[tactic(auto, unfolding(crate::specs::Script::ranged_text))]
fn put_ranged(text: &mut Vec<u8>, names: &[Name], var: u32, form: &Form) -> Result<(), AllocError>
    ensures { OnOk result (text.new.items ≡ text.old.items ++ ranged_text names.now var form.now) }
{
    put_bound(text, names, var, form)?;
    put_range_between(text, names, b"(and ", var, b" ")
}

// An assertion after these assignments.
fn put_after(
    text: &mut Vec<u8>,
    names: &[Name],
    body: &[Basic],
    assert: &Assert,
) -> Result<(), AllocError>
    ensures { OnOk result (text.new.items ≡ text.old.items ++ after_text names.now
        (map simple body.now) (formula_text names.now (formula assert.now))) }
{
    match body {
        [] => put_formula(text, names, assert),
        [Basic::Skip, rest @ ..] => put_after(text, names, rest, assert),
        [Basic::Assign(var, form), rest @ ..] => {
            put_bound(text, names, *var, form)?;
            put_after(text, names, rest, assert)?;
            text.extend_from_slice(b")")
        }
    }
}

// That each value of these assignments is an `i64`.
fn put_fits(text: &mut Vec<u8>, names: &[Name], body: &[Basic]) -> Result<(), AllocError>
    ensures { OnOk result (text.new.items ≡ text.old.items
        ++ fits_text names.now (map simple body.now)) }
{
    match body {
        [] => text.extend_from_slice(b"true"),
        [Basic::Skip, rest @ ..] => put_fits(text, names, rest),
        [Basic::Assign(var, form), rest @ ..] => {
            put_ranged(text, names, *var, form)?;
            put_fits(text, names, rest)?;
            text.extend_from_slice(b"))")
        }
    }
}

fn put_assigned(
    text: &mut Vec<u8>,
    names: &[Name],
    var: u32,
    form: &Form,
    goal: &Goal,
) -> Result<(), AllocError>
    ensures { OnOk result (text.new.items ≡ text.old.items
        ++ goal_text names.now (Set var form.now ∷ []) (goal_of goal.now)) }
{
    match goal {
        Goal::Holds(a) => {
            put_bound(text, names, var, form)?;
            put_formula(text, names, a)?;
            text.extend_from_slice(b")")
        }
        Goal::Fits => {
            put_ranged(text, names, var, form)?;
            text.extend_from_slice(b"true))")
        }
        Goal::Never => text.extend_from_slice(b"false"),
    }
}

fn put_awaited(
    text: &mut Vec<u8>,
    names: &[Name],
    body: &[Basic],
    goal: &Goal,
) -> Result<(), AllocError>
    ensures { OnOk result (text.new.items ≡ text.old.items
        ++ goal_text names.now (map simple body.now) (goal_of goal.now)) }
{
    match goal {
        Goal::Holds(a) => put_after(text, names, body, a),
        Goal::Fits => put_fits(text, names, body),
        Goal::Never => text.extend_from_slice(b"false"),
    }
}

/// Adds a goal after an action, if there is one, to the text.
pub(crate) fn put_goal(
    text: &mut Vec<u8>,
    names: &[Name],
    action: &Option<Action>,
    goal: &Goal,
) -> Result<(), AllocError>
    ensures { OnOk result (text.new.items ≡ text.old.items ++ goal_text names.now
        (assignments (option_map action_tree action.now)) (goal_of goal.now)) }
{
    match action {
        None => put_awaited(text, names, &[], goal),
        Some(Action::Assign(var, form)) => put_assigned(text, names, *var, form, goal),
        Some(Action::Await(body)) => put_awaited(text, names, body, goal),
    }
}
