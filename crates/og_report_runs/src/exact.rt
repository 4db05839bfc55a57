//! Who stands at the places of a condition, by the places of what comes next. Nothing is promised
//! of these answers: they only choose among the moments at which a condition is false.

use crate::place::Place;
use crate::placing::number_of;
use og_cond::Kind;
use og_report_explain::first_at;
use og_step::Moment;
use og_subst::Values;
use og_typed::{Index, Item, Outline, StatementSite, Stmt};
use std::alloc::{AllocError, Global};

// Whether process p stands at the assertion of this byte offset.
fn is_at(outline: &Outline, moment: &Moment, p: u32, at: u32) -> bool {
    match moment.head(p) {
        Some(item) => item.before.at == at,
        None => match outline.processes().get(p as usize) {
            Some(seq) => seq.last.at == at,
            None => false,
        },
    }
}

// Whether process p stands before the statement of this byte offset.
fn is_before(outline: &Outline, moment: &Moment, site: &StatementSite) -> bool {
    match moment.head(number_of(outline, site.part)) {
        Some(item) => item.at == site.item.at,
        None => false,
    }
}

/// Whether the processes stand at the very places.
pub(crate) fn is_exact(outline: &Outline, moment: &Moment, place: &Place) -> bool {
    match place {
        Place::Before(site) => is_before(outline, moment, site),
        Place::Between(site, note) => {
            is_before(outline, moment, site)
                && is_at(outline, moment, number_of(outline, note.part), note.note.at)
        }
        Place::At(note) => is_at(outline, moment, number_of(outline, note.part), note.note.at),
        Place::Exit(..) | Place::Left(_) | Place::Ended | Place::Stuck => true,
    }
}

// The truth of the test of an `if` or a `while`; of nothing else.
fn test_holds(item: &Item, values: &Values) -> bool {
    match &item.stmt {
        Stmt::If(test, ..) => values.truth(test).unwrap_or(false),
        Stmt::While(test, _) => values.truth(test).unwrap_or(false),
        _ => false,
    }
}

/// The byte offset of the assertion to which the next statement of process p leads first.
pub(crate) fn leads_to(
    alloc: Global,
    index: &Index,
    moment: &Moment,
    p: u32,
) -> Result<Option<u32>, AllocError> {
    let Some(item) = moment.head(p) else {
        return Ok(None);
    };
    let values = Values::of(alloc, moment.state())?;
    let holds = test_holds(item, &values);
    match index.statement(item.at) {
        Some(site) => Ok(Some(first_at(&site, holds))),
        None => Ok(None),
    }
}

/// Whether a run with this history is one before which nobody has moved that the condition speaks
/// of.
pub(crate) fn is_early(outline: &Outline, kind: Kind, history: &[u32]) -> bool {
    let main = outline.processes().len();
    match kind {
        Kind::Prologue => history.is_empty(),
        Kind::Start => history.iter().all(|p| *p as usize == main),
        _ => true,
    }
}
