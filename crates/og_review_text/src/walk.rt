//! All places and all steps of an outline, in text order.

ghost use Rattle.std.specs.Prelude.{◌≡◌, ◌≤◌, map, option_map, length, IfOk, OnOk};
ghost use Rattle.og_typed.specs.Plain.{sequence};
ghost use Rattle.og_review_text.specs.Seen.{Adds, AddsItem, AddsMain, AddsProcesses, HasAll};

use og_typed::{Item, Note, Outline, Part, Seq, Stmt};
use std::alloc::{AllocError, Global};

/// A statement of a part of a program, for the step that it begins with: the assignment, the test,
/// or the whole `await`.
#[derive(Clone, Copy)]
pub struct Step<'a> {
    pub part: Part,
    pub item: &'a Item,
}

/// A place of a part of a program: an assertion, and the statement behind it, which the last
/// assertion of a sequence lacks.
#[derive(Clone, Copy)]
pub struct Point<'a> {
    pub part: Part,
    pub note: &'a Note,
    pub item: Option<&'a Item>,
}

/// Places and steps, each in text order.
#[derive(Drop)]
pub struct Walk<'a> {
    pub points: Vec<Point<'a>>,
    pub steps: Vec<Step<'a>>,
}

#[cycle(walking)]
#[tactic(auto, using(crate::proofs::WalkItems::more_points, crate::proofs::WalkItems::whole_points, crate::proofs::WalkItems::last_point, crate::proofs::WalkItems::more_steps, crate::proofs::WalkItems::whole_steps, crate::proofs::WalkItems::no_steps))]
fn add_seq<'a>(walk: &mut Walk<'a>, part: Part, seq: &'a Seq) -> Result<(), AllocError>
    ensures { OnOk result (Adds walk.old walk.new part (sequence seq.now)) }
{
    for item in &seq.items {
        add_item(walk, part, item)?;
    }
    walk.points.push(Point {
        part,
        note: &seq.last,
        item: None,
    })?;
    Ok(())
}

// Adds a statement, the place before it, and what stands in it.
#[cycle(walking)]
fn add_item<'a>(walk: &mut Walk<'a>, part: Part, item: &'a Item) -> Result<(), AllocError>
    ensures { OnOk result (AddsItem walk.old walk.new part item.now) }
{
    walk.points.push(Point {
        part,
        note: &item.before,
        item: Some(item),
    })?;
    walk.steps.push(Step { part, item })?;
    match &item.stmt {
        Stmt::Skip | Stmt::Assign(..) | Stmt::Await(..) => Ok(()),
        Stmt::While(_, body) => add_seq(walk, part, body),
        Stmt::If(_, branch, other) => {
            add_seq(walk, part, branch)?;
            match other {
                Some(other) => add_seq(walk, part, other),
                None => Ok(()),
            }
        }
    }
}

// Adds a part of the main process, if there is one.
fn add_main<'a>(walk: &mut Walk<'a>, part: Part, seq: Option<&'a Seq>) -> Result<(), AllocError>
    ensures { OnOk result (AddsMain walk.old walk.new part
        (option_map (λ q. sequence q.now) seq.entry)) }
{
    match seq {
        Some(seq) => add_seq(walk, part, seq),
        None => Ok(()),
    }
}

// Adds the processes, numbered from 0.
#[tactic(auto, using(og_typed::proofs::SiteItems::more_processes, og_typed::proofs::SiteItems::no_processes))]
fn add_processes<'a>(walk: &mut Walk<'a>, processes: &'a [Seq]) -> Result<(), AllocError>
    requires few { length processes.now ≤ 256 }
    ensures { OnOk result (AddsProcesses walk.old walk.new 0 (map sequence processes.now)) }
{
    for index in 0..processes.len() {
        add_seq(walk, Part::Process(index as u32), &processes[index])?;
    }
    Ok(())
}

/// All places of an outline between the precondition and the postcondition, and all its steps.
///
/// # Errors
///
/// An allocation was refused.
pub fn walk_of<'a>(alloc: Global, outline: &'a Outline) -> Result<Walk<'a>, AllocError>
    ensures { IfOk result (HasAll outline.now) }
{
    let mut walk = Walk {
        points: Vec::new(alloc),
        steps: Vec::new(alloc),
    };
    outline.follows_rule();
    add_main(&mut walk, Part::Prologue, outline.prologue())?;
    add_processes(&mut walk, outline.processes())?;
    add_main(&mut walk, Part::Epilogue, outline.epilogue())?;
    Ok(walk)
}
