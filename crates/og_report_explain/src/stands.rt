//! Where each process stands that has no step.

ghost use Rattle.std.specs.Prelude.{◌≡◌, IfOk, IfSome, length, vec_len};
ghost use Rattle.std.specs.List.{All};
ghost use Rattle.og_report_explain.specs.Stands.{IsStand};

use crate::explanation::Stand;
use crate::lookup::{true_site, waiting};
use crate::unexplained::Unexplained;
use og_subst::Values;
use og_typed::{Index, Item, Outline, Seq, Stmt};
use std::alloc::Global;

// Whether it is an await before which the process waits.
fn waits(item: &Item, values: &Values) -> bool {
    match &item.stmt {
        Stmt::Await(guard, _) => {
            values.truth(&item.before.assertion) == Some(true) && values.truth(guard) == Some(false)
        }
        _ => false,
    }
}

// The byte offset of the first await in the text before which the process waits.
#[cycle(walking)]
fn waiting_at(seq: &Seq, values: &Values) -> Option<u32> {
    for item in &seq.items {
        if waits(item, values) {
            return Some(item.at);
        }
        let inside = waiting_inside(&item.stmt, values);
        if inside.is_some() {
            return inside;
        }
    }
    None
}

#[cycle(walking)]
fn waiting_inside(stmt: &Stmt, values: &Values) -> Option<u32> {
    match stmt {
        Stmt::While(_, body) => waiting_at(body, values),
        Stmt::If(_, branch, other) => {
            let first = waiting_at(branch, values);
            match (first, other) {
                (None, Some(other)) => waiting_at(other, values),
                _ => first,
            }
        }
        _ => None,
    }
}

// Where a process stands.
fn stand_of<'a>(index: &Index<'a>, process: &Seq, values: &Values) -> Option<Stand<'a>>
    ensures { IfSome result (IsStand index.now values.now) }
{
    match waiting_at(process, values) {
        Some(at) => Some(Stand::Waits(waiting(index, at, values)?)),
        None => Some(Stand::Ended(true_site(index, process.last.at, values)?)),
    }
}

/// Where each process stands.
pub(crate) fn stands<'a>(
    alloc: Global,
    outline: &Outline,
    index: &Index<'a>,
    values: &Values,
) -> Result<Vec<Stand<'a>>, Unexplained>
    ensures { IfOk result (λ v. All (IsStand index.now values.now) v.items) }
{
    let mut stands = Vec::new(alloc);
    for process in outline.processes() {
        let Some(stand) = stand_of(index, process, values) else {
            return Err(Unexplained::Open);
        };
        stands.push(stand)?;
    }
    Ok(stands)
}
