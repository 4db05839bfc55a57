//! The verdict on a condition.

ghost use Rattle.std.specs.Prelude.{◌≡◌, Err, IfOk, IfErr};
ghost use Rattle.og_cond.specs.Seen.{seen};
ghost use Rattle.og_find.specs.Found.{IsVerdict, IsFalseAt};
ghost use Rattle.og_typed.specs.Plain.{noted};
ghost use Rattle.og_report_text.specs.Conjuncts.{conjuncts};
ghost use Rattle.og_report_prove.specs.Numbers.{false_numbers, fault_numbers};
ghost use Rattle.og_report_explain.specs.Explanations.{AreAllowed};
ghost use Rattle.og_report_explain.specs.declared.unexplained.Unexplained.TheVariants as unexplained;
ghost use Rattle.og_report_prove.specs.Diagnosis.{IsBlock, IsDiagnosis, IsOfBlock, IsAllowed, Follows};

use crate::block::{Block, Details};
use crate::focus::Vars;
use og_cond::Condition;
use og_find::Verdict;
use og_linear::State;
use og_report_explain::{Actors, Explanation, Fault, Obligation, Unexplained, explain};
use og_report_text::add_conjuncts;
use og_subst::{Action, Values};
use og_typed::{Index, Note, Outline};
use std::alloc::{AllocError, Global};

/// The finding on a condition.
#[derive(Drop)]
pub enum Diagnosis<'a> {
    /// It is true in every state.
    Proved,
    /// It is false in a state.
    False(Block<'a>),
    /// Nothing is known.
    Open,
}

// The auxiliaries, where their initial values are printed.
fn initial(alloc: Global, outline: &Outline, starts: bool) -> Result<Vec<u32>, AllocError> {
    outline.follows_rule();
    let mut vars = Vec::new(alloc);
    if starts {
        for var in outline.vars()..outline.names().len() as u32 {
            vars.push(var)?;
        }
    }
    Ok(vars)
}

// The variables that the action assigns.
fn assigned(alloc: Global, count: u32, action: &Option<Action>) -> Result<Vec<u32>, AllocError> {
    let mut vars = Vec::new(alloc);
    let Some(action) = action else {
        return Ok(vars);
    };
    for var in 0..count {
        if action.assigns(var) {
            vars.push(var)?;
        }
    }
    Ok(vars)
}

// The numbers, from 0, of the conjuncts of an assertion that are false.
fn false_numbers(alloc: Global, note: &Note, values: &Values) -> Result<Vec<usize>, Unexplained>
    ensures { IfOk result (λ v.
        v.items ≡ false_numbers values.now 0 (conjuncts (noted note.now).assertion)) }
{
    let mut all = Vec::new(alloc);
    add_conjuncts(&mut all, &note.assertion)?;
    let mut numbers = Vec::new(alloc);
    for i in 0..all.len() {
        let Some(holds) = values.truth(all[i]) else {
            return Err(Unexplained::Open);
        };
        if !holds {
            numbers.push(i)?;
        }
    }
    Ok(numbers)
}

// Those of what makes a condition false.
fn fault_numbers(alloc: Global, explanation: &Explanation) -> Result<Vec<usize>, Unexplained>
    ensures { IfOk result (λ v. v.items ≡ fault_numbers explanation.now.after explanation.now.fault) }
{
    match &explanation.fault {
        Fault::False(note, _) => false_numbers(alloc, note, &explanation.after),
        Fault::TooLarge(..) | Fault::Blocked(_) => Ok(Vec::new(alloc)),
    }
}

// The variables whose values are printed.
#[derive(Drop)]
struct Printed {
    focus: Vec<u32>,
    state: Vec<u32>,
    besides: Vec<u32>,
    initial: Vec<u32>,
    assigned: Vec<u32>,
}

// Those whose values are printed first, and then those of the others.
fn state_of(
    alloc: Global,
    condition: &Condition,
    focus: &Vars,
) -> Result<(Vec<u32>, Vec<u32>), AllocError> {
    let all = Vars::of_condition(alloc, condition)?;
    all.shown_first(alloc, focus)
}

// Those of the false conjuncts, and then those of the state.
fn focus_of(
    alloc: Global,
    condition: &Condition,
    explanation: &Explanation,
) -> Result<(Vec<u32>, (Vec<u32>, Vec<u32>)), AllocError> {
    let mut focus = Vars::of_fault(alloc, condition, &explanation.fault)?;
    let vars = focus.list(alloc)?;
    focus.add_tests(explanation);
    let state = state_of(alloc, condition, &focus)?;
    Ok((vars, state))
}

// All of them.
fn printed_of(
    alloc: Global,
    outline: &Outline,
    condition: &Condition,
    explanation: &Explanation,
) -> Result<Printed, AllocError> {
    let initial = initial(alloc, outline, explanation.starts)?;
    let assigned = assigned(alloc, condition.variables, &condition.action)?;
    let (focus, (state, besides)) = focus_of(alloc, condition, explanation)?;
    Ok(Printed {
        focus,
        state,
        besides,
        initial,
        assigned,
    })
}

// The rest of the block of a condition, by what explains that it is false, and the numbers of the
// false conjuncts.
fn details_of<'a>(
    alloc: Global,
    outline: &Outline,
    index: &Index<'a>,
    condition: &Condition,
    explanation: Explanation<'a>,
    conjuncts: Vec<usize>,
) -> Result<Box<Details<'a>>, AllocError>
    ensures { IfOk result (λ d. (d.value.kind ≡ condition.now.kind)
        × (d.value.explanation ≡ explanation.entry)
        × (d.value.conjuncts.items ≡ conjuncts.items)) }
{
    let Printed {
        focus,
        state,
        besides,
        initial,
        assigned,
    } = printed_of(alloc, outline, condition, &explanation)?;
    let details = Details {
        kind: condition.kind,
        actors: Actors::of(outline, index, condition),
        explanation,
        conjuncts,
        focus,
        state,
        besides,
        initial,
        assigned,
    };
    let details = Box::new(alloc, details)?;
    Ok(details)
}

/// The block of a condition that is false in a state, with these values, by what explains that.
///
/// # Errors
///
/// `Open` where a value leaves 128 bits. `Memory` where an allocation was refused.
pub fn block_of<'a>(
    alloc: Global,
    outline: &Outline,
    index: &Index<'a>,
    condition: &Condition,
    values: Values,
    explanation: Explanation<'a>,
) -> Result<Block<'a>, Unexplained>
    ensures { IfOk result (λ b. (b.details.value.kind ≡ condition.now.kind) × (b.values ≡ values) × (b.details.value.explanation ≡ explanation.entry)
        × (b.details.value.conjuncts.items ≡ fault_numbers explanation.entry.after explanation.entry.fault)) }
{
    let numbers = fault_numbers(alloc, &explanation)?;
    let details = details_of(alloc, outline, index, condition, explanation, numbers)?;
    Ok(Block { values, details })
}

// The block of a condition that is false in the state.
fn block_at<'a>(
    alloc: Global,
    obligation: &Obligation<'_, 'a, '_>,
    state: &State,
) -> Result<Block<'a>, Unexplained>
    requires index { obligation.now.index.now ≡ obligation.now.outline.now }
    requires is_false { IsFalseAt (seen obligation.now.condition.now) state.now }
    ensures block { IfOk result (IsBlock obligation.now.outline.now
        (seen obligation.now.condition.now)) }
    ensures state { IfOk result (λ b. b.values ≡ state.now) }
    ensures allowed { IfOk result (λ b.
        AreAllowed obligation.now.outline.now state.now b.details.value.explanation.fault) }
{
    let (outline, index, condition) = (obligation.outline, obligation.index, obligation.condition);
    let explanation = explain(alloc, outline, index, condition, state)?;
    let values = Values::of(alloc, state)?;
    block_of(alloc, outline, index, condition, values, explanation)
}

impl<'a> Diagnosis<'a> {
    /// The finding on a condition that is false, by its block: open where there is none.
    ///
    /// # Errors
    ///
    /// An allocation was refused when the block was made.
    pub fn of_block(block: Result<Block<'a>, Unexplained>) -> Result<Diagnosis<'a>, AllocError>
        ensures finding { IfOk result (IsOfBlock block.entry) }
        ensures refused { IfErr result (λ _. block.entry ≡ Err unexplained.Memory) }
    {
        match block {
            Ok(block) => Ok(Diagnosis::False(block)),
            Err(Unexplained::Open) => Ok(Diagnosis::Open),
            Err(Unexplained::Memory) => Err(AllocError),
        }
    }
}

/// The finding on a condition of the outline by a verdict on it: of one that is true, that it is
/// proved; of one that is false, the state and what explains it, as `IsExplained` says; and that it
/// is open where the verdict is, or where a value leaves 128 bits. Where it says where processes
/// stand, the assertion at each place is true.
///
/// # Errors
///
/// An allocation was refused.
pub fn diagnose<'a>(
    alloc: Global,
    outline: &'a Outline,
    index: &Index<'a>,
    condition: &Condition,
    verdict: &Verdict,
) -> Result<Diagnosis<'a>, AllocError>
    requires index { index.now ≡ outline.now }
    requires verdict { IsVerdict (seen condition.now) verdict.now }
    ensures diagnosis { IfOk result (IsDiagnosis outline.now (seen condition.now)) }
    ensures allowed { IfOk result (IsAllowed outline.now) }
    ensures follows { IfOk result (Follows verdict.now) }
{
    let obligation = Obligation {
        outline,
        index,
        condition,
    };
    match verdict {
        Verdict::True(_) => Ok(Diagnosis::Proved),
        Verdict::False(state) => Diagnosis::of_block(block_at(alloc, &obligation, state)),
        Verdict::Open => Ok(Diagnosis::Open),
    }
}
