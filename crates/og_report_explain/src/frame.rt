//! Where a condition's assertions, its test and its goal stand. Nothing is promised of these
//! places: the parts of an explanation are looked up and evaluated.

use og_cond::{Condition, Kind};
use og_typed::{Index, Outline, Seq, Stmt};
use std::alloc::{AllocError, Global};

/// The byte offset of the condition's action.
pub(crate) fn action_at(condition: &Condition) -> Option<u32> {
    match condition.action {
        Some(_) => Some(condition.action_at.unwrap_or(condition.at)),
        None => None,
    }
}

/// The truth that the test or guard at the condition's place has.
pub(crate) fn tested_as(kind: Kind) -> Option<bool> {
    match kind {
        Kind::Then | Kind::Enter => Some(true),
        Kind::Else | Kind::Leave => Some(false),
        _ => None,
    }
}

// The byte offset of the first assertion of a branch or a body.
fn entered_at(stmt: &Stmt) -> Option<u32> {
    match stmt {
        Stmt::If(_, branch, _) => Some(branch.first().at),
        Stmt::While(_, body) => Some(body.first().at),
        _ => None,
    }
}

// The byte offset of the first assertion of an else branch.
fn other_at(stmt: &Stmt) -> Option<u32> {
    match stmt {
        Stmt::If(_, _, Some(other)) => Some(other.first().at),
        _ => None,
    }
}

/// The byte offset of the assertion that is to be true.
pub(crate) fn goal_at(index: &Index, condition: &Condition) -> Option<u32> {
    let at = condition.at;
    match condition.kind {
        Kind::Step | Kind::Leave => Some(index.statement(at)?.after.at),
        Kind::Then | Kind::Enter => entered_at(&index.statement(at)?.item.stmt),
        Kind::Else => {
            let site = index.statement(at)?;
            Some(other_at(&site.item.stmt).unwrap_or(site.after.at))
        }
        Kind::Join | Kind::Again => Some(index.note(at)?.leads?.at),
        Kind::Prologue | Kind::Start | Kind::Interfere | Kind::End | Kind::Epilogue => Some(at),
        Kind::Range | Kind::Blocking => None,
    }
}

// The byte offset of the last assertion of a part, or of the precondition.
fn last_or_pre(outline: &Outline, part: Option<&Seq>) -> u32 {
    match part {
        Some(seq) => seq.last.at,
        None => outline.pre().at,
    }
}

// The byte offset of the assertion before the statement there; else the same.
fn before_at(index: &Index, at: u32) -> u32 {
    match index.statement(at) {
        Some(site) => site.item.before.at,
        None => at,
    }
}

// The byte offset of the one assertion that the condition starts from, of interference the second.
fn start_at(outline: &Outline, index: &Index, condition: &Condition) -> u32 {
    match condition.kind {
        Kind::Prologue => outline.pre().at,
        Kind::Start => last_or_pre(outline, outline.prologue()),
        Kind::Epilogue => last_or_pre(outline, outline.epilogue()),
        Kind::Join | Kind::Again => condition.at,
        _ => before_at(index, condition.action_at.unwrap_or(condition.at)),
    }
}

/// The byte offsets of the assertions among the condition's hypotheses, in their order.
pub(crate) fn known_at(
    alloc: Global,
    outline: &Outline,
    index: &Index,
    condition: &Condition,
) -> Result<Vec<u32>, AllocError> {
    let mut places = Vec::new(alloc);
    match condition.kind {
        Kind::Blocking => {}
        Kind::End => {
            for process in outline.processes() {
                places.push(process.last.at)?;
            }
        }
        kind => {
            if kind == Kind::Interfere {
                places.push(condition.at)?;
            }
            places.push(start_at(outline, index, condition))?;
        }
    }
    Ok(places)
}
