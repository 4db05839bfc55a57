//! Where processes stand for a condition.

ghost use Rattle.std.specs.Prelude.{◌≡◌, IfSome};
ghost use Rattle.og_cond.specs.Seen.{seen};
ghost use Rattle.og_typed.specs.Seen.{statement_of};
ghost use Rattle.og_report_runs.specs.Places.{number_of, IsExit, IsStatementPlace, IsInterferencePlace, IsNotePlace, IsLeavingPlace, IsEndPlace, IsPlaceOf};

use crate::place::Place;
use og_cond::{Condition, Kind};
use og_typed::{Index, Outline, Part, Seq, StatementSite, Stmt};

/// The number of the process of a part.
pub(crate) fn number_of(outline: &Outline, part: Part) -> u32
    ensures { result ≡ number_of outline.now part }
{
    outline.follows_rule();
    match part {
        Part::Process(p) => p,
        Part::Prologue | Part::Epilogue => outline.processes().len() as u32,
    }
}

// The byte offset of the last statement of the branch or body whose last assertion stands at `at`.
#[cycle(ending)]
fn last_of(seq: &Seq, at: u32) -> Option<u32> {
    if seq.last.at == at {
        return Some(seq.items.last()?.at);
    }
    for item in &seq.items {
        let inside = last_inside(&item.stmt, at);
        if inside.is_some() {
            return inside;
        }
    }
    None
}

#[cycle(ending)]
fn last_inside(stmt: &Stmt, at: u32) -> Option<u32> {
    match stmt {
        Stmt::While(_, body) => last_of(body, at),
        Stmt::If(_, branch, other) => {
            let first = last_of(branch, at);
            match (first, other) {
                (None, Some(other)) => last_of(other, at),
                _ => first,
            }
        }
        _ => None,
    }
}

// Of a part of the main process.
fn last_of_main(seq: Option<&Seq>, at: u32) -> Option<u32> {
    last_of(seq?, at)
}

// Of the whole outline.
fn last_in(outline: &Outline, at: u32) -> Option<u32> {
    for process in outline.processes() {
        let found = last_of(process, at);
        if found.is_some() {
            return found;
        }
    }
    match last_of_main(outline.prologue(), at) {
        None => last_of_main(outline.epilogue(), at),
        found => found,
    }
}

// The last statement of the branch or body that ends there, where that is no `if`.
fn exit_at<'a>(outline: &Outline, index: &Index<'a>, at: u32) -> Option<StatementSite<'a>>
    requires { index.now ≡ outline.now }
    ensures { IfSome result (λ site. IsExit outline.now at (statement_of site)) }
{
    let site = index.statement(last_in(outline, at)?)?;
    if site.after.at != at {
        return None;
    }
    match &site.item.stmt {
        Stmt::If(..) => None,
        _ => Some(site),
    }
}

fn statement_place<'a>(index: &Index<'a>, at: u32) -> Option<Place<'a>>
    ensures { IfSome result (IsStatementPlace index.now at) }
{
    Some(Place::Before(index.statement(at)?))
}

fn interference_place<'a>(index: &Index<'a>, action_at: Option<u32>, at: u32) -> Option<Place<'a>>
    ensures { IfSome result (IsInterferencePlace index.now action_at at) }
{
    let actor = index.statement(action_at?)?;
    Some(Place::Between(actor, index.note(at)?))
}

fn note_place<'a>(index: &Index<'a>, at: u32) -> Option<Place<'a>>
    ensures { IfSome result (IsNotePlace index.now at) }
{
    Some(Place::At(index.note(at)?))
}

fn leaving_place<'a>(outline: &Outline, index: &Index<'a>, at: u32) -> Option<Place<'a>>
    requires { index.now ≡ outline.now }
    ensures { IfSome result (IsLeavingPlace outline.now at) }
{
    let note = index.note(at)?;
    match exit_at(outline, index, at) {
        Some(site) => Some(Place::Exit(note, site)),
        None => Some(Place::Left(note)),
    }
}

// The first assertion of the epilogue; without one all have ended.
fn end_place<'a>(index: &Index<'a>, at: u32) -> Option<Place<'a>>
    ensures { IfSome result (IsEndPlace index.now at) }
{
    match index.note(at) {
        Some(site) => Some(Place::At(site)),
        None => Some(Place::Ended),
    }
}

/// Where processes stand when a step breaks the condition; none where nothing stands at its places.
pub(crate) fn place_of<'a>(
    outline: &Outline,
    index: &Index<'a>,
    condition: &Condition,
) -> Option<Place<'a>>
    requires { index.now ≡ outline.now }
    ensures { IfSome result (IsPlaceOf outline.now (seen condition.now)) }
{
    let at = condition.at;
    match condition.kind {
        Kind::Prologue | Kind::Start => note_place(index, at),
        Kind::Step | Kind::Range | Kind::Then | Kind::Else | Kind::Enter | Kind::Leave =>
            statement_place(index, at),
        Kind::Join | Kind::Again => leaving_place(outline, index, at),
        Kind::Interfere => interference_place(index, condition.action_at, at),
        Kind::End => end_place(index, at),
        Kind::Epilogue => Some(Place::Ended),
        Kind::Blocking => Some(Place::Stuck),
    }
}
