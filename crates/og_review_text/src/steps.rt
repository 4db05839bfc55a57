//! The variables of a step that other processes use.

ghost use Rattle.std.specs.Prelude.{◌≡◌, map, IfOk};
ghost use Rattle.std.specs.List.{list_any};
ghost use Rattle.og_typed.specs.Plain.{simple, statement};
ghost use Rattle.og_review_text.specs.Seen.{step_of, steps_of};
ghost use Rattle.og_review_text.specs.Steps as plain;

use crate::walk::Step;
use og_typed::{Basic, Part, Stmt};
use std::alloc::{AllocError, Global};

/// How a step uses a variable that other processes use.
#[derive(Clone, Copy, PartialEq, Eq)]
pub(crate) enum Access {
    ReadsAndWrites,
    Reads,
    Writes,
}

// Whether the assignment reads the variable.
fn is_read_by(var: u32, basic: &Basic) -> bool
    ensures { result ≡ plain.is_read_by var (simple basic.now) }
{
    match basic {
        Basic::Skip => false,
        Basic::Assign(_, form) => form.mentions(var),
    }
}

// Whether the assignment assigns the variable.
fn is_set_by(var: u32, basic: &Basic) -> bool
    ensures { result ≡ plain.is_set_by var (simple basic.now) }
{
    match basic {
        Basic::Skip => false,
        Basic::Assign(target, _) => *target == var,
    }
}

// Whether one of the assignments reads the variable.
fn is_read_in(var: u32, body: &[Basic]) -> bool
    ensures { result ≡ list_any (plain.is_read_by var) (map simple body.now) }
{
    for basic in body {
        if is_read_by(var, basic) {
            return true;
        }
    }
    false
}

// Whether one of the assignments assigns the variable.
fn is_set_in(var: u32, body: &[Basic]) -> bool
    ensures { result ≡ list_any (plain.is_set_by var) (map simple body.now) }
{
    for basic in body {
        if is_set_by(var, basic) {
            return true;
        }
    }
    false
}

/// Whether the step that the statement begins with reads the variable.
pub(crate) fn reads(var: u32, stmt: &Stmt) -> bool
    ensures { result ≡ plain.reads var (statement stmt.now) }
{
    match stmt {
        Stmt::Skip => false,
        Stmt::Assign(_, form) => form.mentions(var),
        Stmt::If(test, _, _) | Stmt::While(test, _) => test.mentions(var),
        Stmt::Await(guard, body) => guard.mentions(var) || is_read_in(var, body),
    }
}

/// Whether that step assigns the variable.
pub(crate) fn assigns(var: u32, stmt: &Stmt) -> bool
    ensures { result ≡ plain.assigns var (statement stmt.now) }
{
    match stmt {
        Stmt::Assign(target, _) => *target == var,
        Stmt::Await(_, body) => is_set_in(var, body),
        Stmt::Skip | Stmt::If(..) | Stmt::While(..) => false,
    }
}

// Whether two parts are different processes.
fn is_beside(part: Part, other: Part) -> bool
    ensures { result ≡ plain.is_beside part other }
{
    match (part, other) {
        (Part::Process(process), Part::Process(other)) => process != other,
        _ => false,
    }
}

// Whether the step is of another process and assigns the variable.
fn is_set_beside(part: Part, step: &Step, var: u32) -> bool
    ensures { result ≡ plain.is_set_beside part var (step_of step.now) }
{
    is_beside(part, step.part) && assigns(var, &step.item.stmt)
}

// Whether the step is of another process and reads or assigns the variable.
fn is_used_beside(part: Part, step: &Step, var: u32) -> bool
    ensures { result ≡ plain.is_used_beside part var (step_of step.now) }
{
    let stmt = &step.item.stmt;
    is_beside(part, step.part) && (reads(var, stmt) || assigns(var, stmt))
}

// Whether some step of another process assigns the variable.
fn some_sets(steps: &[Step], part: Part, var: u32) -> bool
    ensures { result ≡ list_any (plain.is_set_beside part var) (steps_of steps.now) }
{
    for step in steps {
        if is_set_beside(part, step, var) {
            return true;
        }
    }
    false
}

// Whether some step of another process reads or assigns the variable.
fn some_uses(steps: &[Step], part: Part, var: u32) -> bool
    ensures { result ≡ list_any (plain.is_used_beside part var) (steps_of steps.now) }
{
    for step in steps {
        if is_used_beside(part, step, var) {
            return true;
        }
    }
    false
}

// Whether the step reads the variable, and some step of another process assigns it.
fn reads_shared(steps: &[Step], step: &Step, var: u32) -> bool
    ensures { result ≡ plain.reads_shared (steps_of steps.now) (step_of step.now) var }
{
    reads(var, &step.item.stmt) && some_sets(steps, step.part, var)
}

// Whether the step assigns the variable, and some step of another process reads or assigns it.
fn writes_shared(steps: &[Step], step: &Step, var: u32) -> bool
    ensures { result ≡ plain.writes_shared (steps_of steps.now) (step_of step.now) var }
{
    assigns(var, &step.item.stmt) && some_uses(steps, step.part, var)
}

// Whether the step uses the variable in this way.
fn is_accessed(steps: &[Step], step: &Step, access: Access, var: u32) -> bool
    ensures { result ≡ plain.is_accessed (steps_of steps.now) (step_of step.now) access var }
{
    let is_read = reads_shared(steps, step, var);
    let is_written = writes_shared(steps, step, var);
    match access {
        Access::ReadsAndWrites => is_read && is_written,
        Access::Reads => is_read && !is_written,
        Access::Writes => !is_read && is_written,
    }
}

/// The variables below `vars` that the step uses in this way.
///
/// # Errors
///
/// An allocation was refused.
#[tactic(auto, using(crate::proofs::Ranges::filter_next, crate::proofs::Ranges::filter_done))]
pub(crate) fn accessed(
    alloc: Global,
    steps: &[Step],
    step: &Step,
    access: Access,
    vars: u32,
) -> Result<Vec<u32>, AllocError>
    ensures { IfOk result (λ v.
        v.items ≡ plain.accessed (steps_of steps.now) vars (step_of step.now) access) }
{
    let mut accessed = Vec::new(alloc);
    for var in 0..vars {
        if is_accessed(steps, step, access, var) {
            accessed.push(var)?;
        }
    }
    Ok(accessed)
}
