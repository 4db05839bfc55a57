//! Where the finding on a condition belongs in the outline.

ghost use Rattle.std.specs.Prelude.{◌≡◌, length, map, IfOk, IfSome};
ghost use Rattle.og_cond.specs.Seen.{seen};
ghost use Rattle.og_typed.specs.declared.sites.Part.TheVariants as parts;
ghost use Rattle.og_report_html.specs.Targets.{IsGoalPlace, IsInterference, IsTarget, AreTargets};

use og_cond::Condition;
use og_report_explain::goal_note;
use og_typed::{Index, Outline, Part};
use std::alloc::{AllocError, Global};

/// Whose step may make whose assertion false. Processes are counted from 0.
#[derive(Clone, Copy, PartialEq, Eq, Drop)]
pub struct Interference {
    /// The process whose step it is.
    pub actor: u32,
    /// The process whose assertion it is.
    pub other: u32,
}

/// Where the finding on a condition belongs.
#[derive(Clone, Copy, PartialEq, Eq, Drop)]
pub struct Target {
    /// The byte offset of the assertion to which the condition leads; of a range and of blocking
    /// the condition's own place.
    pub goal: u32,
    /// Of interference, between which processes.
    pub interference: Option<Interference>,
}

// The process that a part is: none is the main one.
fn process_of(part: Part) -> Option<u32>
    ensures { IfSome result (λ p. part ≡ parts.Process p) }
{
    match part {
        Part::Process(process) => Some(process),
        Part::Prologue | Part::Epilogue => None,
    }
}

// Between which processes the condition speaks of interference.
fn interference_of(index: &Index, condition: &Condition) -> Option<Interference>
    ensures { IfSome result (IsInterference index.now (seen condition.now)) }
{
    let step = index.statement(condition.action_at?)?;
    let note = index.note(condition.at)?;
    Some(Interference {
        actor: process_of(step.part)?,
        other: process_of(note.part)?,
    })
}

// The place of the assertion to which the condition leads.
fn goal_place<'a>(outline: &'a Outline, index: &Index<'a>, condition: &Condition) -> u32
    requires { index.now ≡ outline.now }
    ensures { IsGoalPlace outline.now (seen condition.now) result }
{
    match goal_note(outline, index, condition) {
        Some(note) => note.at,
        None => condition.at,
    }
}

fn target_of<'a>(outline: &'a Outline, index: &Index<'a>, condition: &Condition) -> Target
    requires { index.now ≡ outline.now }
    ensures { IsTarget outline.now (seen condition.now) result }
{
    Target {
        goal: goal_place(outline, index, condition),
        interference: interference_of(index, condition),
    }
}

/// Where the finding on each condition of an outline belongs.
///
/// # Errors
///
/// An allocation was refused.
pub fn targets(
    alloc: Global,
    outline: &Outline,
    conditions: &[Condition],
) -> Result<Vec<Target>, AllocError>
    ensures targets { IfOk result (λ all.
        AreTargets outline.now (map seen conditions.now) all.items) }
    ensures each { IfOk result (λ all. length all.items ≡ length conditions.now) }
{
    let index = Index::new(alloc, outline)?;
    let mut all = Vec::with_capacity(alloc, conditions.len())?;
    for i in 0..conditions.len() {
        all.push(target_of(outline, &index, &conditions[i]))?;
    }
    Ok(all)
}
