//! The explanation of a condition that is false in a state.

ghost use Rattle.std.specs.Prelude.{◌≡◌, ◌+◌, ◌<◌, ◌≤◌, true, length, IfOk, IfSome, IsTrue, vec_len};
ghost use Rattle.std.specs.List.{All};
ghost use Rattle.og_typed.specs.Plain.{noted, formula};
ghost use Rattle.og_typed.specs.Machine.{act};
ghost use Rattle.og_cond.specs.Seen.{seen};
ghost use Rattle.og_cond.specs.Condition.{assignments};
ghost use Rattle.og_typed.specs.Seen.{statement_of};
ghost use Rattle.og_report_text.specs.Seen.{formulas_of};
ghost use Rattle.og_subst.specs.Actions.{action_tree};
ghost use Rattle.og_report_explain.specs.Explained.{IsNoteOf, IsTrueNote, IsAction, IsOneAction, HaveValues, false_ones};
ghost use Rattle.og_report_explain.specs.Explanations.{IsFault, IsFalseNote, IsTooLarge, AreAllowed, IsExplained, TestIs};

use crate::explanation::{Explanation, Fault, Test};
use crate::frame::{action_at, goal_at, known_at, tested_as};
use crate::lookup::{note_at, tested, true_note};
use crate::stands::stands;
use crate::unexplained::Unexplained;
use og_cond::{Condition, Goal, Kind};
use og_linear::State;
use og_report_text::add_conjuncts;
use og_subst::{Action, Values};
use og_typed::{Assert, Index, Note, Outline, StatementSite};
use std::alloc::{AllocError, Global};

// The state after the condition's action.
fn after_of(alloc: Global, condition: &Condition, values: &Values) -> Result<Values, Unexplained>
    ensures { IfOk result (λ v. v ≡ act (assignments (seen condition.now).action) values.now) }
{
    let Some(action) = &condition.action else {
        return Ok(values.copy(alloc)?);
    };
    match values.after(alloc, action)? {
        Some(after) => Ok(after),
        None => Err(Unexplained::Open),
    }
}

// The assertions at these places, each of which is true.
fn known<'a>(
    alloc: Global,
    outline: &'a Outline,
    index: &Index<'a>,
    places: &[u32],
    values: &Values,
) -> Result<Vec<&'a Note>, Unexplained>
    requires { index.now ≡ outline.now }
    ensures { IfOk result (λ v. All (λ n. IsTrueNote outline.now values.now (noted n.now)) v.items) }
{
    let mut notes = Vec::new(alloc);
    for at in places {
        let Some(note) = true_note(outline, index, *at, values) else {
            return Err(Unexplained::Open);
        };
        notes.push(note)?;
    }
    Ok(notes)
}

// Whether each auxiliary has its initial value.
fn have_values(outline: &Outline, values: &Values) -> bool
    ensures { IsTrue result → HaveValues values.now outline.now.vars outline.now.aux_values }
{
    outline.follows_rule();
    let initial = outline.aux_values();
    for i in 0..initial.len() {
        if values.at(outline.vars() + i as u32) != i128::from(initial[i]) {
            return false;
        }
    }
    true
}

// Whether the condition says that auxiliaries have their initial values, and they have.
fn starts(outline: &Outline, condition: &Condition, values: &Values) -> bool
    ensures { IsTrue result → HaveValues values.now outline.now.vars outline.now.aux_values }
{
    let says = match condition.kind {
        Kind::Prologue => true,
        Kind::Start => outline.prologue().is_none(),
        _ => false,
    };
    says && !outline.aux_values().is_empty() && have_values(outline, values)
}

// The test that the condition speaks of, with its truth.
fn test_of<'a>(
    index: &Index<'a>,
    condition: &Condition,
    values: &Values,
) -> Result<Option<Test<'a>>, Unexplained>
    ensures { IfOk result (λ found. IfSome found (TestIs index.now values.now)) }
{
    let Some(holds) = tested_as(condition.kind) else {
        return Ok(None);
    };
    match tested(index, condition.at, holds, values) {
        Some(test) => Ok(Some(test)),
        None => Err(Unexplained::Open),
    }
}

// The statement there, where it is this action.
fn same_action<'a>(index: &Index<'a>, at: u32, action: &Action) -> Option<StatementSite<'a>>
    ensures { IfSome result
        (λ site. IsOneAction index.now (action_tree action.now) (statement_of site)) }
{
    let site = index.statement(at)?;
    let found = Action::of(&site.item.stmt)?;
    if found.equals(action) {
        Some(site)
    } else {
        None
    }
}

// The statement that is the condition's action.
fn action_of<'a>(
    index: &Index<'a>,
    condition: &Condition,
) -> Result<Option<StatementSite<'a>>, Unexplained>
    ensures { IfOk result (λ found.
        IfSome found (λ site. IsAction index.now (seen condition.now) (statement_of site))) }
{
    let (Some(action), Some(at)) = (&condition.action, action_at(condition)) else {
        return Ok(None);
    };
    match same_action(index, at, action) {
        Some(site) => Ok(Some(site)),
        None => Err(Unexplained::Open),
    }
}

// The false ones among these assertions.
fn false_ones<'a>(
    alloc: Global,
    all: &[&'a Assert],
    values: &Values,
) -> Result<Vec<&'a Assert>, Unexplained>
    ensures { IfOk result (λ v. formulas_of v.items ≡ false_ones values.now (formulas_of all.now)) }
{
    let mut found = Vec::new(alloc);
    for assert in all {
        let Some(holds) = values.truth(assert) else {
            return Err(Unexplained::Open);
        };
        if !holds {
            found.push(*assert)?;
        }
    }
    Ok(found)
}

/// The conjuncts of the assertion that are false, of which there are some.
///
/// # Errors
///
/// `Open` where a value leaves 128 bits, or no conjunct is false. `Memory` where an allocation was
/// refused.
pub fn false_in<'a>(
    alloc: Global,
    note: &'a Note,
    after: &Values,
) -> Result<Vec<&'a Assert>, Unexplained>
    ensures { IfOk result (IsFalseNote after.now (noted note.now)) }
{
    let mut all = Vec::new(alloc);
    add_conjuncts(&mut all, &note.assertion)?;
    let found = false_ones(alloc, &all, after)?;
    if found.is_empty() {
        return Err(Unexplained::Open);
    }
    Ok(found)
}

/// The assertion of the outline to which the condition leads: its goal, by the condition's kind and
/// place. None for a range and for blocking. Takes no memory.
pub fn goal_note<'a>(
    outline: &'a Outline,
    index: &Index<'a>,
    condition: &Condition,
) -> Option<&'a Note>
    requires { index.now ≡ outline.now }
    ensures { IfSome result (λ note. IsNoteOf outline.now (noted note.now)) }
{
    let at = goal_at(index, condition)?;
    note_at(outline, index, at)
}

// The false part of the goal.
fn fault_of<'a>(
    alloc: Global,
    outline: &'a Outline,
    index: &Index<'a>,
    condition: &Condition,
    values: &Values,
    after: &Values,
) -> Result<Fault<'a>, Unexplained>
    requires { index.now ≡ outline.now }
    ensures fault { IfOk result (IsFault outline.now (seen condition.now) values.now after.now) }
    ensures allowed { IfOk result (AreAllowed outline.now values.now) }
{
    match condition.goal {
        Goal::Never => Ok(Fault::Blocked(stands(alloc, outline, index, values)?)),
        Goal::Fits => too_large(alloc, condition, values),
        Goal::Holds(_) => {
            let Some(note) = goal_note(outline, index, condition) else {
                return Err(Unexplained::Open);
            };
            Ok(Fault::False(note, false_in(alloc, note, after)?))
        }
    }
}

// The first value of the action that is no `i64`.
fn too_large<'a>(
    alloc: Global,
    condition: &Condition,
    values: &Values,
) -> Result<Fault<'a>, Unexplained>
    ensures { IfOk result (IsTooLarge (seen condition.now) values.now) }
{
    let Some(action) = &condition.action else {
        return Err(Unexplained::Open);
    };
    match values.first_large(alloc, action)? {
        Some((var, value)) => Ok(Fault::TooLarge(var, value)),
        None => Err(Unexplained::Open),
    }
}

/// A condition, and the outline of which it is one.
#[derive(Clone, Copy)]
pub struct Obligation<'o, 'a, 'c> {
    /// The outline.
    pub outline: &'a Outline,
    /// Its index.
    pub index: &'o Index<'a>,
    /// The condition.
    pub condition: &'o Condition<'c>,
}

/// Why the condition is false in the state: each part of the explanation is right, as
/// `IsExplained` says. Where it says where processes stand, the assertion at each place is true.
///
/// # Errors
///
/// `Open` where a value leaves 128 bits, or what stands at a place of the condition is not as it
/// has to be; no clause says when. `Memory` where an allocation was refused.
pub fn explain<'a>(
    alloc: Global,
    outline: &'a Outline,
    index: &Index<'a>,
    condition: &Condition,
    state: &State,
) -> Result<Explanation<'a>, Unexplained>
    requires { index.now ≡ outline.now }
    ensures explained { IfOk result (IsExplained outline.now (seen condition.now) state.now) }
    ensures allowed { IfOk result (λ e. AreAllowed outline.now state.now e.fault) }
{
    let values = Values::of(alloc, state)?;
    let obligation = Obligation {
        outline,
        index,
        condition,
    };
    obligation.explained(alloc, &values)
}

impl<'o, 'a, 'c> Obligation<'o, 'a, 'c> {
    // Why the condition is false where the variables have these values.
    fn explained(&self, alloc: Global, values: &Values) -> Result<Explanation<'a>, Unexplained>
        requires { self.now.index.now ≡ self.now.outline.now }
        ensures explained { IfOk result (IsExplained self.now.outline.now
            (seen self.now.condition.now) values.now) }
        ensures allowed { IfOk result (λ e. AreAllowed self.now.outline.now values.now e.fault) }
    {
        let (outline, index, condition) = (self.outline, self.index, self.condition);
        let test = test_of(index, condition, values)?;
        let action = action_of(index, condition)?;
        let places = known_at(alloc, outline, index, condition)?;
        let known = known(alloc, outline, index, &places, values)?;
        let after = after_of(alloc, condition, values)?;
        let fault = fault_of(alloc, outline, index, condition, values, &after)?;
        Ok(Explanation {
            known,
            starts: starts(outline, condition, values),
            test,
            action,
            after,
            fault,
        })
    }
}
