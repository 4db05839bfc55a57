//! The answer of an exploration of an outline.

ghost use Rattle.std.specs.Prelude.{◌≡◌, ◌↔◌, ◌<◌, ◌≤◌, ◌^◌, length, map, true, None, IfOk, IfErr, IfSome, IfNone, IsTrue};
ghost use Rattle.std.specs.List.{AllByRecursion};
ghost use Rattle.og_cond.specs.Seen.{seen};
ghost use Rattle.og_explore.specs.ViolationStarts.{AreWithin};
ghost use Rattle.og_explore.specs.Within.{HasNoStart};
ghost use Rattle.og_pool.specs.declared.fault.PoolFault.TheVariants.{Spawn};
ghost use Rattle.og_report_text.specs.Subject.{subject_of, IsShort};
ghost use Rattle.og_report_explore.specs.Totals.{safe_of, unblocked_of};
ghost use Rattle.og_command_explore.specs.Reported.{IsOneFinding, AreViolations};
ghost use Rattle.og_command_explore.specs.Explored.{is_yes, status_of, printed, IsExplored};
ghost use Rattle.og_report_explore.specs.declared.totals.Found.TheVariants as yes_or_no;

use crate::reported::{FindingContext, Reported, add};
use crate::request::Request;
use og_cond::Condition;
use og_explore::{Exploration, Range, explore};
use og_pool::PoolFault;
use og_report_explore::{Finding, Found, Totals, json, report};
use og_report_text::{Answer, Subject};
use og_typed::{Index, Outline};
use std::alloc::{AllocError, Global};
use std::sync::Wait;
use std::thread::Threads;

// The ends of the ranges.
fn ends(alloc: Global, ranges: &[Range]) -> Result<Vec<(i64, i64)>, AllocError>
    ensures { IfOk result (λ v. v.items ≡ ranges.now) }
{
    let mut ends = Vec::new(alloc);
    for range in ranges {
        ends.push((range.low(), range.high()))?;
    }
    Ok(ends)
}

// The report of all that was found.
fn reported_of<'a>(
    alloc: Global,
    outline: &'a Outline,
    index: &Index<'a>,
    conditions: &[Condition],
    ranges: &[Range],
    found: &Exploration,
) -> Result<Reported<'a>, AllocError>
    requires found { AreViolations outline.now found.now }
    requires within { AreWithin ranges.now found.now }
    ensures each { IfOk result (λ reported. AllByRecursion
        (IsOneFinding outline.now (map seen conditions.now) ranges.now) reported.findings.items) }
    ensures complete { IfOk result (λ reported. reported.complete ≡ true → found.now.complete ≡ true) }
    ensures safe { IfOk result (λ reported. safe_of reported.complete reported.findings.items ≡ yes_or_no.Yes
        → (found.now.complete ≡ true) × (found.now.assertion ≡ None) × (found.now.overflow ≡ None) × (found.now.post ≡ None)) }
    ensures unblocked { IfOk result (λ reported. unblocked_of reported.complete reported.findings.items ≡ yes_or_no.Yes
        → (found.now.complete ≡ true) × (found.now.stuck ≡ None)) }
{
    let mut reported = Reported {
        findings: Vec::new(alloc),
        complete: found.complete,
    };
    let context = FindingContext {
        outline,
        index,
        conditions,
        ranges,
    };
    add(&mut reported, alloc, context, &found.assertion)?;
    add(&mut reported, alloc, context, &found.overflow)?;
    add(&mut reported, alloc, context, &found.post)?;
    add(&mut reported, alloc, context, &found.stuck)?;
    Ok(reported)
}

// Whether there is no start: all were looked for, and none found.
fn has_no_start(found: &Exploration) -> bool
    ensures { IsTrue result ↔ ((found.now.starts ≡ 0) × (found.now.complete ≡ true)) }
{
    found.starts == 0 && found.complete
}

// Whether the answer is yes.
fn is_yes(found: Found) -> bool
    ensures { result ≡ is_yes found }
{
    match found {
        Found::Yes => true,
        Found::No => false,
        Found::Open => false,
    }
}

// 0 where both answers are yes.
fn status_of(totals: &Totals, findings: &[Finding]) -> u8
    ensures { result ≡ status_of totals.now findings.now }
{
    if is_yes(totals.safe(findings)) && is_yes(totals.unblocked(findings)) {
        0
    } else {
        1
    }
}

// As JSON, in one line.
fn json_line(
    alloc: Global,
    subject: &Subject,
    totals: &Totals,
    findings: &[Finding],
) -> Result<Vec<u8>, AllocError>
    requires { IsShort (subject_of subject.now) }
    ensures { IfOk result (λ text.
        text.items ≡ printed true (subject_of subject.now) totals.now findings.now) }
{
    let mut text = json(alloc, subject.outline, subject.own, totals, findings)?;
    text.push(b'\n')?;
    Ok(text)
}

// The printed text, as JSON or plain.
fn printed(
    alloc: Global,
    subject: &Subject,
    totals: &Totals,
    findings: &[Finding],
    is_json: bool,
) -> Result<Vec<u8>, AllocError>
    requires short { IsShort (subject_of subject.now) }
    requires given { length totals.now.given.items ≤ 256 }
    ensures { IfOk result (λ text.
        text.items ≡ printed is_json (subject_of subject.now) totals.now findings.now) }
{
    if is_json {
        json_line(alloc, subject, totals, findings)
    } else {
        report(alloc, subject, totals, findings)
    }
}

/// The printed text of an exploration of the outline from all starts within the ranges, at most
/// this many moments as asked for, and the status: 0 where all was explored and nothing found, else
/// 1; none only where no start lies within the ranges. `conditions` are the outline's, or none.
///
/// # Errors
///
/// `Spawn`, of two workers or more, where a thread could not be started. `Memory` where an
/// allocation was refused.
pub fn answer<R: Threads + Wait + Sync>(
    rt: &R,
    alloc: Global,
    subject: &Subject,
    conditions: &[Condition],
    ranges: &[Range],
    request: Request,
) -> Result<Option<Answer>, PoolFault>
    requires short { IsShort (subject_of subject.now) }
    requires ranges { length ranges.now ≡ subject.now.outline.now.vars }
    ensures explored { IfOk result (λ found. IfSome found
        (IsExplored request.json (subject_of subject.now) (map seen conditions.now) ranges.now)) }
    ensures none { IfOk result (λ found.
        IfNone found (HasNoStart subject.now.outline.now ranges.now)) }
    ensures spawn { IfErr result (λ e. e ≡ Spawn → 1 < request.workers) }
{
    let outline = subject.outline;
    outline.follows_rule();
    let workers = request.workers.count();
    let found = explore(rt, alloc, outline, ranges, request.limit, workers)?;
    if has_no_start(&found) {
        return Ok(None);
    }
    let index = Index::new(alloc, outline)?;
    let reported = reported_of(alloc, outline, &index, conditions, ranges, &found)?;
    let totals = Totals {
        starts: u64::from(found.starts),
        given: ends(alloc, ranges)?,
        moments: u64::from(found.moments),
        ended: u64::from(found.ended),
        complete: reported.complete,
    };
    Ok(Some(Answer {
        text: printed(alloc, subject, &totals, &reported.findings, request.json)?,
        status: status_of(&totals, &reported.findings),
    }))
}
