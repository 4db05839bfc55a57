//! Through which assertions a step goes. Nothing is promised of these answers: they only choose
//! what is evaluated.

use og_typed::{Index, StatementSite, Stmt};

// The most branches and bodies that end together.
const MOST_ENDS: u32 = 1_000;

/// The byte offset of the assertion to which the statement leads first, by the truth of its test.
/// Takes no memory.
pub fn first_at(site: &StatementSite, holds: bool) -> u32 {
    match &site.item.stmt {
        Stmt::If(_, branch, _) if holds => branch.first().at,
        Stmt::If(_, _, Some(other)) => other.first().at,
        Stmt::While(_, body) if holds => body.first().at,
        _ => site.after.at,
    }
}

/// Whether a step to the assertion of the first byte offset goes through that of the second one,
/// which ends a branch or a body. Takes no memory.
pub fn goes_through(index: &Index, first: Option<u32>, end: u32) -> bool {
    let Some(mut at) = first else {
        return false;
    };
    for _ in 0..MOST_ENDS {
        if at == end {
            return true;
        }
        let Some(note) = index.note(at) else {
            return false;
        };
        let Some(leads) = note.leads else {
            return false;
        };
        at = leads.at;
    }
    false
}
