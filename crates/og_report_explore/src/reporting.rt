//! The whole of it.

ghost use Rattle.std.specs.Prelude.{◌≡◌, ◌≤◌, ◌^◌, length, codes, IfOk};
ghost use Rattle.serde_json.specs.Data.{object, member, no_members, boolean, string};
ghost use Rattle.serde_json.specs.View.{view};
ghost use Rattle.og_report_text.specs.Numbers.{natural};
ghost use Rattle.og_report_explore.specs.Totals.{found_word, safe_of, unblocked_of};
ghost use Rattle.og_report_explore.specs.Json.{report_data, json_text};

use crate::finding::Finding;
use crate::objects::{Page, finding_values};
use crate::totals::Totals;
use og_report_text::{Origins, Places, bytes_of, list_value};
use og_typed::Outline;
use serde_json::{Value, json};
use std::alloc::{AllocError, Global};

// The totals, with the findings.
fn totals_value(
    alloc: Global,
    totals: &Totals,
    findings: &[Finding],
    violations: Value,
) -> Result<Value, AllocError>
    ensures { IfOk result (λ v. view v ≡ object
        (member (codes "complete") (boolean totals.now.complete)
        (member (codes "ended") (natural totals.now.ended)
        (member (codes "moments") (natural totals.now.moments)
        (member (codes "safe") (string (found_word (safe_of totals.now.complete findings.now)))
        (member (codes "starts") (natural totals.now.starts)
        (member (codes "unblocked") (string (found_word (unblocked_of totals.now.complete findings.now)))
        (member (codes "violations") (view violations) no_members)))))))) }
{
    let complete = totals.complete;
    let ended = totals.ended;
    let moments = totals.moments;
    let safe = totals.safe(findings).word();
    let starts = totals.starts;
    let unblocked = totals.unblocked(findings).word();
    json!(in alloc; {
        "complete": complete, "ended": ended, "moments": moments, "safe": safe, "starts": starts,
        "unblocked": unblocked, "violations": violations
    })
}

// The whole report.
fn report_value(
    alloc: Global,
    page: Page,
    totals: &Totals,
    findings: &[Finding],
) -> Result<Value, AllocError>
    requires few { length page.names.now ≤ 256 }
    requires places { page.origins.now.places.now ≡ page.origins.now.source.now }
    requires short { length page.origins.now.source.now ≤ 2 ^ 20 }
    ensures { IfOk result (λ v. view v ≡ report_data page.entry.names.now page.entry.origins.now.source.now
        page.entry.main page.entry.cobegin_at totals.now findings.now) }
{
    let values = finding_values(alloc, page, findings)?;
    totals_value(alloc, totals, findings, list_value(values))
}

/// The report of an exploration of an outline, as JSON, in one line without an LF: whether all was
/// explored, how many starts, moments and ends there were, what follows, and of each violation its kind,
/// its place, its process, the run that leads there, and the conjuncts that are false. The members
/// stand in the order of their bytes. The main process is 0. Places are lines and columns of the
/// source, which has at most 1,048,576 bytes, and each has an end, behind the last byte.
///
/// # Errors
///
/// An allocation was refused.
pub fn json(
    alloc: Global,
    outline: &Outline,
    source: &[u8],
    totals: &Totals,
    findings: &[Finding],
) -> Result<Vec<u8>, AllocError>
    requires { length source.now ≤ 2 ^ 20 }
    ensures { IfOk result (λ text. text.items ≡ json_text outline.now.names source.now
        (length outline.now.processes) outline.now.cobegin_at totals.now findings.now) }
{
    outline.follows_rule();
    let places = Places::new(alloc, source)?;
    let origins = Origins::own(source, &places);
    let page = Page {
        names: outline.names(),
        origins: &origins,
        main: outline.processes().len() as u32,
        cobegin_at: outline.cobegin_at(),
    };
    let value = report_value(alloc, page, totals, findings)?;
    bytes_of(alloc, &value)
}
