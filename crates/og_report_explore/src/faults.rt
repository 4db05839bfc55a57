//! The violation at the end of a run.

ghost use Rattle.std.specs.Prelude.{◌≡◌, ◌<◌, ◌+◌, length, IfOk, IfSome, slice_get, option_map};
ghost use Rattle.og_typed.specs.Plain.{noted, item_pair, statement};
ghost use Rattle.og_typed.specs.Machine.{current, todo};
ghost use Rattle.og_subst.specs.Large.{first_large};
ghost use Rattle.og_violation.specs.Violations.{IsWrongAt};
ghost use Rattle.og_report_explore.specs.Findings.{assignments_of, AreStands, IsFault};

use crate::finding::Fault;
use og_report_explain::{Unexplained, false_in};
use og_step::Moment;
use og_subst::{Action, Values};
use og_typed::{Item, Note, Outline, Stmt};
use og_violation::Wrong;
use std::alloc::{AllocError, Global};

// The assertion at which a process stands.
fn note_at<'a>(outline: &'a Outline, moment: &Moment<'a>, p: u32) -> &'a Note
    requires { moment.now.outline ≡ outline.now }
    ensures { (noted result.now).assertion ≡ current outline.now moment.now.moment p }
{
    match moment.head(p) {
        Some(item) => &item.before,
        None => match outline.processes().get(p as usize) {
            Some(seq) => seq.last(),
            None => outline.post(),
        },
    }
}

// The first value that the statement assigns and that is no `i64`.
fn too_large(alloc: Global, stmt: &Stmt, values: &Values) -> Result<Option<(u32, i128)>, AllocError>
    ensures { IfOk result (λ found.
        IfSome found (λ p. first_large (assignments_of (statement stmt.now)) values.now ≡ Some p)) }
{
    match Action::of(stmt) {
        Some(action) => values.first_large(alloc, &action),
        None => Ok(None),
    }
}

// Where each process stands.
fn stands<'a>(
    alloc: Global,
    outline: &Outline,
    moment: &Moment<'a>,
) -> Result<Vec<Option<&'a Item>>, AllocError>
    ensures count { IfOk result (λ v. length v.items ≡ length outline.now.processes) }
    ensures stands { IfOk result (λ v. AreStands moment.now.moment 0 v.items) }
{
    outline.follows_rule();
    let mut stands = Vec::new(alloc);
    for p in 0..outline.processes().len() as u32 {
        stands.push(moment.head(p))?;
    }
    Ok(stands)
}

/// The violation at the moment.
///
/// # Errors
///
/// `Open` where a value leaves 128 bits; no clause says when. `Memory` where an allocation was
/// refused.
pub(crate) fn fault_of<'a>(
    alloc: Global,
    outline: &'a Outline,
    moment: &Moment<'a>,
    values: &Values,
    wrong: Wrong,
) -> Result<Fault<'a>, Unexplained>
    requires same { moment.now.outline ≡ outline.now }
    requires values { values.now ≡ moment.now.moment.state }
    ensures { IfOk result (IsFault outline.now moment.now.moment wrong) }
{
    match wrong {
        Wrong::Assertion(p) => {
            let note = note_at(outline, moment, p);
            Ok(Fault::Assertion(p, note, false_in(alloc, note, values)?))
        }
        Wrong::Overflow(p) => {
            let Some(item) = moment.head(p) else {
                return Err(Unexplained::Open);
            };
            let Some((var, value)) = too_large(alloc, &item.stmt, values)? else {
                return Err(Unexplained::Open);
            };
            Ok(Fault::Overflow(p, item, var, value))
        }
        Wrong::Post => {
            let note = outline.post();
            Ok(Fault::Post(note, false_in(alloc, note, values)?))
        }
        Wrong::Stuck => Ok(Fault::Stuck(stands(alloc, outline, moment)?)),
    }
}
