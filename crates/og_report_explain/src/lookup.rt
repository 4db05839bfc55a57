//! What stands at a place of the outline.

ghost use Rattle.std.specs.Prelude.{◌≡◌, false, true, IfOk, IfSome, option_map};
ghost use Rattle.og_typed.specs.Plain.{noted, statement};
ghost use Rattle.og_typed.specs.Truth.{truth};
ghost use Rattle.og_typed.specs.Seen.{note_of, statement_of};
ghost use Rattle.og_report_explain.specs.Explained.{IsNoteOf, IsTrueNote, IsTrueSite, IsTested, IsWaiting, test_of};
ghost use Rattle.og_typed.specs.Plain.{formula};

use crate::explanation::Test;
use og_subst::Values;
use og_typed::{Assert, Index, Note, NoteSite, Outline, StatementSite, Stmt};

/// The assertion at the byte offset `at`.
pub(crate) fn note_at<'a>(outline: &'a Outline, index: &Index<'a>, at: u32) -> Option<&'a Note>
    requires { index.now ≡ outline.now }
    ensures { IfSome result (λ n. IsNoteOf outline.now (noted n.now)) }
{
    if let Some(site) = index.note(at) {
        return Some(site.note);
    }
    if outline.pre().at == at {
        return Some(outline.pre());
    }
    if outline.post().at == at {
        return Some(outline.post());
    }
    None
}

/// The assertion at the byte offset `at`, where it is true.
pub(crate) fn true_note<'a>(
    outline: &'a Outline,
    index: &Index<'a>,
    at: u32,
    values: &Values,
) -> Option<&'a Note>
    requires { index.now ≡ outline.now }
    ensures { IfSome result (λ n. IsTrueNote outline.now values.now (noted n.now)) }
{
    let note = note_at(outline, index, at)?;
    if values.truth(&note.assertion)? {
        Some(note)
    } else {
        None
    }
}

/// The test of an `if` or a `while`, or the guard of an `await`. Takes no memory.
pub fn test_of(stmt: &Stmt) -> Option<&Assert>
    ensures { option_map (λ b. formula b.now) result ≡ test_of (statement stmt.now) }
{
    match stmt {
        Stmt::If(test, _, _) => Some(test),
        Stmt::While(test, _) => Some(test),
        Stmt::Await(guard, _) => Some(guard),
        _ => None,
    }
}

/// The statement at the byte offset `at`, where its test or guard has this truth; none also where a
/// value leaves 128 bits. Takes no memory.
pub fn tested<'a>(index: &Index<'a>, at: u32, holds: bool, values: &Values) -> Option<Test<'a>>
    ensures { IfSome result
        (λ t. (t.holds ≡ holds) × IsTested index.now values.now holds (statement_of t.site)) }
{
    let site = index.statement(at)?;
    let test = test_of(&site.item.stmt)?;
    if values.truth(test)? == holds {
        Some(Test { site, holds })
    } else {
        None
    }
}

/// The await at the byte offset `at`, where the assertion before it is true and its guard false.
pub(crate) fn waiting<'a>(index: &Index<'a>, at: u32, values: &Values) -> Option<StatementSite<'a>>
    ensures { IfSome result (λ site. IsWaiting index.now values.now (statement_of site)) }
{
    let site = tested(index, at, false, values)?.site;
    if values.truth(&site.item.before.assertion)? {
        Some(site)
    } else {
        None
    }
}

/// The assertion of a process at the byte offset `at`, where it is true.
pub(crate) fn true_site<'a>(index: &Index<'a>, at: u32, values: &Values) -> Option<NoteSite<'a>>
    ensures { IfSome result (λ site. IsTrueSite index.now values.now (note_of site)) }
{
    let site = index.note(at)?;
    if values.truth(&site.note.assertion)? {
        Some(site)
    } else {
        None
    }
}
