//! Who makes the step that a condition speaks of. Nothing is promised of it: each process is looked
//! up by the condition's places.

use og_cond::{Condition, Kind};
use og_typed::{Index, Outline, Part, Stmt};

/// Who a condition speaks of.
#[derive(Clone, Copy, PartialEq, Eq)]
pub struct Actors {
    /// Who makes the step.
    pub actor: Option<Part>,
    /// Whose assertion it is, of interference alone.
    pub other: Option<Part>,
    /// Whether an `if` has no else branch, and whether the processes are followed by an epilogue.
    pub plain: bool,
}

fn has_no_else(stmt: &Stmt) -> bool {
    match stmt {
        Stmt::If(_, _, Some(_)) => false,
        _ => true,
    }
}

fn part_of_statement(index: &Index, at: u32) -> Option<Part> {
    Some(index.statement(at)?.part)
}

fn part_of_note(index: &Index, at: u32) -> Option<Part> {
    Some(index.note(at)?.part)
}

fn actor_of(index: &Index, condition: &Condition) -> Option<Part> {
    let at = condition.at;
    match condition.kind {
        Kind::Start | Kind::Join | Kind::Again => part_of_note(index, at),
        Kind::Interfere => part_of_statement(index, condition.action_at?),
        _ => part_of_statement(index, at),
    }
}

fn is_plain(outline: &Outline, index: &Index, condition: &Condition) -> bool {
    match condition.kind {
        Kind::Else => match index.statement(condition.at) {
            Some(site) => has_no_else(&site.item.stmt),
            None => true,
        },
        _ => outline.epilogue().is_none(),
    }
}

impl Actors {
    /// Who the condition speaks of. Takes no memory.
    pub fn of(outline: &Outline, index: &Index, condition: &Condition) -> Actors {
        let other = match condition.kind {
            Kind::Interfere => part_of_note(index, condition.at),
            _ => None,
        };
        Actors {
            actor: actor_of(index, condition),
            other,
            plain: is_plain(outline, index, condition),
        }
    }
}
