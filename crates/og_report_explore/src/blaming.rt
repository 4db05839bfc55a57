//! The condition that is false where a run goes wrong.

ghost use Rattle.std.specs.Prelude.{◌≡◌, if◌then◌else◌, map, IfOk, IfSome, IsTrue};
ghost use Rattle.og_cond.specs.Seen.{seen};
ghost use Rattle.og_find.specs.Found.{IsFalseAt};
ghost use Rattle.og_report_explore.specs.Findings.{IsBlame};

use crate::finding::{Blame, Fault};
use og_cond::{Condition, Kind};
use og_find::{Verdict, is_verdict};
use og_linear::State;
use og_report_explain::goes_through;
use og_typed::Index;
use std::alloc::{AllocError, Global};

/// Where a run goes wrong: where its last step began, and the violation then.
#[derive(Clone, Copy)]
pub(crate) struct Failure<'b, 'a> {
    pub(crate) index: &'b Index<'a>,
    /// The byte offsets of the last statement, and of the assertion to which it led first.
    pub(crate) step_at: Option<u32>,
    pub(crate) first_at: Option<u32>,
    pub(crate) fault: &'b Fault<'a>,
}

impl<'b, 'a> Failure<'b, 'a> {
    // The byte offset of the assertion that is false.
    fn note_at(&self) -> Option<u32> {
        match self.fault {
            Fault::Assertion(_, note, _) => Some(note.at),
            Fault::Post(note, _) => Some(note.at),
            Fault::Overflow(..) | Fault::Stuck(_) => None,
        }
    }

    // The byte offset of the statement that overflows.
    fn next_at(&self) -> Option<u32> {
        match self.fault {
            Fault::Overflow(_, item, _, _) => Some(item.at),
            _ => None,
        }
    }

    // Where the assertion there leads on to.
    fn leads_to(&self, at: u32) -> Option<u32> {
        Some(self.index.note(at)?.leads?.at)
    }

    // Whether the condition is one of this step and place, before the step or after it.
    fn side(&self, condition: &Condition) -> Option<bool> {
        let note_at = self.note_at();
        let at = Some(condition.at);
        let (before, is_here) = match condition.kind {
            Kind::Step | Kind::Then | Kind::Else | Kind::Enter | Kind::Leave => {
                (true, note_at.is_some() && at == self.step_at)
            }
            Kind::Interfere => {
                (
                    true,
                    self.step_at.is_some() && condition.action_at == self.step_at && at == note_at,
                )
            }
            Kind::Join | Kind::Again => {
                (
                    false,
                    note_at.is_some() && self.leads_to(condition.at) == note_at,
                )
            }
            Kind::Prologue | Kind::Start | Kind::End | Kind::Epilogue => (false, at == note_at),
            Kind::Range => (false, at == self.next_at()),
            Kind::Blocking => (false, matches!(self.fault, Fault::Stuck(_))),
        };
        if is_here { Some(before) } else { None }
    }

    // Whether the condition is one of a branch or a body that the step left on its way to a false
    // assertion, after the step.
    fn left(&self, condition: &Condition) -> Option<bool> {
        let is_end = matches!(condition.kind, Kind::Join | Kind::Again);
        if is_end
            && self.note_at().is_some()
            && goes_through(self.index, self.first_at, condition.at)
        {
            Some(false)
        } else {
            None
        }
    }

    // The one or the other.
    fn looks_at(&self, condition: &Condition, belonging: Belonging) -> Option<bool> {
        match belonging {
            Belonging::Place => self.side(condition),
            Belonging::Left => self.left(condition),
        }
    }
}

// By what a condition belongs to a failure.
#[derive(Clone, Copy)]
enum Belonging {
    // They are those of its step and place.
    Place,
    // They are those of branches and bodies that its step left.
    Left,
}

// Whether an evaluation shows that the condition is false in the state.
fn is_false(alloc: Global, condition: &Condition, state: &State) -> Result<bool, AllocError>
    ensures { IfOk result (λ yes. IsTrue yes → IsFalseAt (seen condition.now) state.now) }
{
    let copy = State::new(Vec::from_slice(alloc, state.as_slice())?);
    is_verdict(alloc, condition, &Verdict::False(copy))
}

// The state before the last step, and the last one.
#[derive(Clone, Copy)]
struct Transition<'t> {
    before: &'t State,
    last: &'t State,
}

// Whether the condition is one of the failure, and false there; and if so, whether before the step.
fn is_blamed(
    alloc: Global,
    failure: Failure,
    belonging: Belonging,
    condition: &Condition,
    transition: Transition,
) -> Result<Option<bool>, AllocError>
    ensures { IfOk result (λ found. IfSome found (λ side. IsFalseAt (seen condition.now)
        (if side then transition.entry.before.now else transition.entry.last.now))) }
{
    let Some(side) = failure.looks_at(condition, belonging) else {
        return Ok(None);
    };
    let (before, last) = (transition.before, transition.last);
    let state = if side { before } else { last };
    if is_false(alloc, condition, state)? {
        Ok(Some(side))
    } else {
        Ok(None)
    }
}

// The first condition of the failure that is false in the state before its step or in the last one.
fn first_false(
    alloc: Global,
    failure: Failure,
    belonging: Belonging,
    conditions: &[Condition],
    transition: Transition,
) -> Result<Option<Blame>, AllocError>
    ensures { IfOk result (λ found. IfSome found (IsBlame (map seen conditions.now)
        transition.entry.before.now transition.entry.last.now)) }
{
    for index in 0..conditions.len() {
        let condition = &conditions[index];
        if let Some(side) = is_blamed(alloc, failure, belonging, condition, transition)? {
            return Ok(Some(Blame {
                number: index + 1,
                kind: condition.kind,
                action_at: condition.action_at,
                before: side,
            }));
        }
    }
    Ok(None)
}

/// The first condition of the failure's step and place that is false in the state before the step
/// or in the last one; where there is none, the first one of a branch or a body that the step left.
/// Nothing is promised of which condition that is: it is evaluated.
///
/// # Errors
///
/// An allocation was refused.
pub(crate) fn blame(
    alloc: Global,
    failure: Failure,
    conditions: &[Condition],
    before: &State,
    last: &State,
) -> Result<Option<Blame>, AllocError>
    ensures { IfOk result (λ found.
        IfSome found (IsBlame (map seen conditions.now) before.now last.now)) }
{
    let transition = Transition { before, last };
    let found = first_false(alloc, failure, Belonging::Place, conditions, transition)?;
    if found.is_some() {
        return Ok(found);
    }
    first_false(alloc, failure, Belonging::Left, conditions, transition)
}
