//! Questions as conditions, which the finder examines.

use crate::frame::Frame;
use crate::obligation::Claim;
use crate::question::{Answer, Goal, Question, Taken};
use og_cond::{Condition, Hypothesis, Kind, Part};
use og_find::{Verdict, examine};
use og_typed::{Assert, Outline};
use std::alloc::{AllocError, Global};

/// How many variables the outline has, the auxiliaries among them: at most 256.
pub(crate) fn variables_of(outline: &Outline) -> u32 {
    outline.follows_rule();
    outline.names().len() as u32
}

/// Adds that the precondition is true, and that the auxiliaries, from this variable on, have their
/// initial values.
///
/// # Errors
///
/// An allocation was refused.
pub(crate) fn add_begin<'c>(
    hypotheses: &mut Vec<Hypothesis<'c>>,
    pre: &'c Assert,
    first: u32,
    initial: &[i64],
) -> Result<(), AllocError> {
    hypotheses.push(Hypothesis::Is(Part::Yes(pre)))?;
    let mut var = first;
    for value in initial {
        hypotheses.push(Hypothesis::Starts(var, *value))?;
        var = var.saturating_add(1);
    }
    Ok(())
}

// Adds the author's assertion at a place, and what is taken there.
fn add_parts<'c>(
    parts: &mut Vec<Part<'c>>,
    frame: &Frame<'c>,
    taken: &[Taken<'c>],
    number: u32,
) -> Result<(), AllocError> {
    if let Some(author) = frame.author(number) {
        parts.push(Part::Yes(author))?;
    }
    for one in taken {
        if one.place == number {
            parts.push(Part::Yes(one.assertion))?;
        }
    }
    Ok(())
}

// What is true at the places of the obligation, in order.
fn parts_of<'c>(
    alloc: Global,
    frame: &Frame<'c>,
    question: &Question<'c, 'c>,
) -> Result<Vec<Part<'c>>, AllocError> {
    let mut parts = Vec::new(alloc);
    for number in &question.obligation.places {
        add_parts(&mut parts, frame, question.taken, *number)?;
    }
    if let Some((test, truth)) = question.obligation.test {
        parts.push(if truth {
            Part::Yes(test)
        } else {
            Part::No(test)
        })?;
    }
    Ok(parts)
}

// What is true where a process has stopped at a place, with the guard that is false there.
fn stopped<'c>(
    alloc: Global,
    frame: &Frame<'c>,
    taken: &[Taken<'c>],
    number: u32,
    guard: Option<&'c Assert>,
) -> Result<Vec<Part<'c>>, AllocError> {
    let mut parts = Vec::new(alloc);
    add_parts(&mut parts, frame, taken, number)?;
    if let Some(guard) = guard {
        parts.push(Part::No(guard))?;
    }
    Ok(parts)
}

// That one of these alternatives is true.
fn one_of<'c>(
    alloc: Global,
    frame: &Frame<'c>,
    taken: &[Taken<'c>],
    alternatives: &[(u32, Option<&'c Assert>)],
) -> Result<Hypothesis<'c>, AllocError> {
    let mut lists = Vec::with_capacity(alloc, alternatives.len())?;
    for (number, guard) in alternatives {
        lists.push(stopped(alloc, frame, taken, *number, *guard)?)?;
    }
    Ok(Hypothesis::OneOf(lists))
}

// Adds that one of the alternatives of each list is true.
fn add_stuck<'c>(
    hypotheses: &mut Vec<Hypothesis<'c>>,
    frame: &Frame<'c>,
    question: &Question<'c, 'c>,
) -> Result<(), AllocError> {
    let alloc = *hypotheses.allocator();
    for alternatives in &question.obligation.stuck {
        hypotheses.push(one_of(alloc, frame, question.taken, alternatives)?)?;
    }
    Ok(())
}

// All hypotheses.
fn hypotheses_of<'c>(
    alloc: Global,
    frame: &Frame<'c>,
    question: &Question<'c, 'c>,
) -> Result<Vec<Hypothesis<'c>>, AllocError> {
    let mut hypotheses = Vec::new(alloc);
    if question.obligation.is_begin {
        add_begin(&mut hypotheses, frame.pre, frame.vars, frame.initial)?;
    }
    let parts = parts_of(alloc, frame, question)?;
    for part in &parts {
        hypotheses.push(Hypothesis::Is(*part))?;
    }
    add_stuck(&mut hypotheses, frame, question)?;
    Ok(hypotheses)
}

// What the obligation claims, unless it is of a place that is not there.
fn claimed<'c>(frame: &Frame<'c>, claim: Claim) -> Option<og_cond::Goal<'c>> {
    match claim {
        Claim::Holds(number) => { Some(og_cond::Goal::Holds(frame.author(number)?)) }
        Claim::Post => Some(og_cond::Goal::Holds(frame.post())),
        Claim::Fits => Some(og_cond::Goal::Fits),
        Claim::Never => Some(og_cond::Goal::Never),
    }
}

// What is to hold.
fn goal_of<'c>(frame: &Frame<'c>, question: &Question<'c, 'c>) -> Option<og_cond::Goal<'c>> {
    match question.goal {
        Goal::Holds(assertion) => Some(og_cond::Goal::Holds(assertion)),
        Goal::Claimed => claimed(frame, question.obligation.claim),
    }
}

// The question as a condition, unless it is of a place that is not there.
fn condition_of<'c>(
    alloc: Global,
    frame: &Frame<'c>,
    question: &Question<'c, 'c>,
) -> Result<Option<Condition<'c>>, AllocError> {
    let Some(goal) = goal_of(frame, question) else {
        return Ok(None);
    };
    let hypotheses = hypotheses_of(alloc, frame, question)?;
    Ok(Some(Condition {
        kind: Kind::Step,
        at: 0,
        action_at: None,
        variables: frame.variables(),
        hypotheses,
        goal,
        action: question.obligation.action,
    }))
}

/// The answer to a question by a search within the budget, which counts facts added, and branches and
/// parts begun. The author's assertions at the places of the obligation are taken always. The answer
/// is the same each time.
///
/// # Errors
///
/// An allocation was refused.
pub fn ask(
    alloc: Global,
    frame: &Frame,
    question: &Question,
    budget: u64,
) -> Result<Answer, AllocError> {
    let Some(condition) = condition_of(alloc, frame, question)? else {
        return Ok(Answer::Open);
    };
    match examine(alloc, &condition, budget)? {
        Verdict::True(_) => Ok(Answer::True),
        Verdict::False(state) => {
            let values = Vec::from_slice(alloc, state.as_slice())?;
            Ok(Answer::False(values))
        }
        Verdict::Open => Ok(Answer::Open),
    }
}
