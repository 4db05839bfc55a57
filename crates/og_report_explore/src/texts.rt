//! The report of the end of a run, and of all that was explored.

ghost use Rattle.std.specs.Prelude.{◌≡◌, ◌++◌, ◌≤◌, ◌^◌, true, length, IfOk, OnOk};
ghost use Rattle.og_report_prove.specs.Blocks.{false_lines};
ghost use Rattle.og_report_explore.specs.Texts.{when_text, part_of, what_text, place_of, where_text, blame_line, ended_line, waits_line, stand_line, stand_lines, all_values, all_line, overflow_lines, fault_lines, head_line, run_lines, finding_text, findings_text, report_text};

use crate::finding::{Blame, Fault, Finding};
use crate::table::{Page, put_table};
use crate::totals::{Totals, put_totals};
use og_report_prove::{put_false, put_label, put_part, put_quoted, put_too_large};
use og_report_text::{
    Origins, Places, Subject, numbers, put_number, put_number_between, put_values,
};
use og_subst::Values;
use og_text::Name;
use og_typed::{Assert, Item, Part};
use std::alloc::{AllocError, Global};

/// The most bytes of a quote.
const QUOTE_LIMIT: usize = 72;

// After how many steps.
fn put_when(text: &mut Vec<u8>, steps: usize) -> Result<(), AllocError>
    ensures { OnOk result (text.new.items ≡ text.old.items ++ when_text steps) }
{
    if steps == 0 {
        return text.extend_from_slice(b" at the start\n");
    }
    if steps == 1 {
        return text.extend_from_slice(b" after 1 step\n");
    }
    put_number_between(text, b" after ", steps as u128, b" steps\n")
}

// A process by its number.
fn part_of(main: u32, p: u32) -> Part
    ensures { result ≡ part_of main p }
{
    if p == main {
        Part::Prologue
    } else {
        Part::Process(p)
    }
}

// The violation.
fn put_what(text: &mut Vec<u8>, main: u32, fault: &Fault) -> Result<(), AllocError>
    ensures { OnOk result (text.new.items ≡ text.old.items ++ what_text main fault.now) }
{
    match fault {
        Fault::Assertion(p, _, _) => {
            text.extend_from_slice(b"assertion of ")?;
            put_part(text, false, part_of(main, *p))?;
            text.extend_from_slice(b" false")
        }
        Fault::Overflow(p, _, _, _) => {
            text.extend_from_slice(b"overflow of ")?;
            put_part(text, false, part_of(main, *p))
        }
        Fault::Post(_, _) => text.extend_from_slice(b"postcondition false"),
        Fault::Stuck(_) => text.extend_from_slice(b"stuck"),
    }
}

/// The byte offset of the violation; of a stuck program that of `cobegin`. Takes no memory.
pub fn place_of(cobegin_at: u32, fault: &Fault) -> u32
    ensures { result ≡ place_of cobegin_at fault.now }
{
    match fault {
        Fault::Assertion(_, note, _) => note.at,
        Fault::Overflow(_, item, _, _) => item.at,
        Fault::Post(note, _) => note.at,
        Fault::Stuck(_) => cobegin_at,
    }
}

// Before which step the condition is false.
fn put_before(text: &mut Vec<u8>, steps: usize) -> Result<(), AllocError>
    ensures { OnOk result (text.new.items ≡ text.old.items ++ where_text true steps) }
{
    put_number_between(text, b" is false before step ", steps as u128, b"\n")
}

// Where the condition is false.
fn put_where(text: &mut Vec<u8>, before: bool, steps: usize) -> Result<(), AllocError>
    ensures { OnOk result (text.new.items ≡ text.old.items ++ where_text before steps) }
{
    if before {
        put_before(text, steps)
    } else {
        text.extend_from_slice(b" is false in this state\n")
    }
}

// The condition that is false.
fn put_blame(
    text: &mut Vec<u8>,
    origins: &Origins,
    steps: usize,
    blame: Option<Blame>,
) -> Result<(), AllocError>
    requires { origins.now.places.now ≡ origins.now.source.now }
    ensures { OnOk result (text.new.items ≡ text.old.items
        ++ blame_line origins.now.source.now origins.now.rows steps blame) }
{
    let Some(blame) = blame else {
        return Ok(());
    };
    text.extend_from_slice(b"  condition ")?;
    put_number(text, blame.number as u128)?;
    text.extend_from_slice(b" ")?;
    text.extend_from_slice(blame.kind.name().as_bytes())?;
    origins.put_action_place(text, blame.action_at)?;
    put_where(text, blame.before, steps)
}

// That a process has ended.
fn put_ended(text: &mut Vec<u8>, number: u128) -> Result<(), AllocError>
    ensures { OnOk result (text.new.items ≡ text.old.items ++ ended_line number) }
{
    put_number_between(text, b"  process ", number, b" has ended\n")
}

// Where a process waits.
fn put_waits(text: &mut Vec<u8>, origins: &Origins, number: u128, at: u32) -> Result<(), AllocError>
    requires { origins.now.places.now ≡ origins.now.source.now }
    ensures { OnOk result (text.new.items ≡ text.old.items
        ++ waits_line origins.now.source.now origins.now.rows number at) }
{
    text.extend_from_slice(b"  process ")?;
    put_number(text, number)?;
    text.extend_from_slice(b" waits at ")?;
    origins.put_place(text, at)?;
    text.extend_from_slice(b": ")?;
    origins.put_quote(text, QUOTE_LIMIT, at)?;
    text.extend_from_slice(b"\n")
}

// Where a process stands that has no step.
fn put_stand(
    text: &mut Vec<u8>,
    origins: &Origins,
    number: u128,
    stand: Option<&Item>,
) -> Result<(), AllocError>
    requires { origins.now.places.now ≡ origins.now.source.now }
    ensures { OnOk result (text.new.items ≡ text.old.items
        ++ stand_line origins.now.source.now origins.now.rows number stand.entry) }
{
    match stand {
        None => put_ended(text, number),
        Some(item) => put_waits(text, origins, number, item.at),
    }
}

// Where each process stands.
fn put_stands(
    text: &mut Vec<u8>,
    origins: &Origins,
    stands: &[Option<&Item>],
) -> Result<(), AllocError>
    requires { origins.now.places.now ≡ origins.now.source.now }
    ensures { OnOk result (text.new.items ≡ text.old.items
        ++ stand_lines origins.now.source.now origins.now.rows 1 stands.now) }
{
    for index in 0..stands.len() {
        put_stand(text, origins, index as u128 + 1, stands[index])?;
    }
    Ok(())
}

// The values of all variables.
fn put_all_values(text: &mut Vec<u8>, names: &[Name], values: &Values) -> Result<(), AllocError>
    requires { length names.now ≤ 256 }
    ensures { OnOk result (text.new.items ≡ text.old.items ++ all_values names.now values.now) }
{
    if names.is_empty() {
        return text.extend_from_slice(b"nothing");
    }
    let vars = numbers(*text.allocator(), names.len() as u32)?;
    put_values(text, names, values.as_slice(), &vars)
}

// A word and the values of all variables.
fn put_all_line(
    text: &mut Vec<u8>,
    names: &[Name],
    word: &[u8],
    values: &Values,
) -> Result<(), AllocError>
    requires { length names.now ≤ 256 }
    ensures { OnOk result (text.new.items ≡ text.old.items
        ++ all_line names.now word.now values.now) }
{
    put_label(text, word)?;
    put_all_values(text, names, values)?;
    text.extend_from_slice(b"\n")
}

// The statement that overflows, and the value that is too large.
fn put_overflow(
    text: &mut Vec<u8>,
    page: Page,
    at: u32,
    var: u32,
    value: i128,
) -> Result<(), AllocError>
    requires { page.origins.now.places.now ≡ page.origins.now.source.now }
    ensures { OnOk result (text.new.items ≡ text.old.items
        ++ overflow_lines page.entry.names.now page.entry.origins.now.source.now page.entry.origins.now.rows at var value) }
{
    put_quoted(text, b"next", page.origins, at)?;
    put_too_large(text, page.names, var, value)
}

// The conjuncts that are false.
fn put_false_at(
    text: &mut Vec<u8>,
    page: Page,
    at: u32,
    found: &[&Assert],
) -> Result<(), AllocError>
    requires { page.origins.now.places.now ≡ page.origins.now.source.now }
    ensures { OnOk result (text.new.items ≡ text.old.items
        ++ false_lines page.entry.names.now page.entry.origins.now.source.now page.entry.origins.now.rows at found.now) }
{
    put_false(text, page.names, page.origins, at, found)
}

// What makes it wrong.
fn put_fault(text: &mut Vec<u8>, page: Page, fault: &Fault) -> Result<(), AllocError>
    requires { page.origins.now.places.now ≡ page.origins.now.source.now }
    ensures { OnOk result (text.new.items ≡ text.old.items
        ++ fault_lines page.entry.names.now page.entry.origins.now.source.now page.entry.origins.now.rows fault.now) }
{
    match fault {
        Fault::Assertion(_, note, all) => put_false_at(text, page, note.at, all),
        Fault::Overflow(_, item, var, value) => put_overflow(text, page, item.at, *var, *value),
        Fault::Post(note, all) => put_false_at(text, page, note.at, all),
        Fault::Stuck(stands) => put_stands(text, page.origins, stands),
    }
}

// The violation, its place, and after how many steps.
fn put_head(
    text: &mut Vec<u8>,
    page: Page,
    cobegin_at: u32,
    finding: &Finding,
) -> Result<(), AllocError>
    requires { page.origins.now.places.now ≡ page.origins.now.source.now }
    ensures { OnOk result (text.new.items ≡ text.old.items
        ++ head_line page.entry.origins.now.source.now page.entry.origins.now.rows page.entry.main cobegin_at finding.now) }
{
    let at = place_of(cobegin_at, &finding.fault);
    page.origins.put_place(text, at)?;
    text.extend_from_slice(b": ")?;
    put_what(text, page.main, &finding.fault)?;
    put_when(text, finding.rows.len())
}

// The run that leads there.
fn put_run(text: &mut Vec<u8>, page: Page, finding: &Finding) -> Result<(), AllocError>
    requires places { page.origins.now.places.now ≡ page.origins.now.source.now }
    requires few { length page.names.now ≤ 256 }
    ensures { OnOk result (text.new.items ≡ text.old.items
        ++ run_lines page.entry.names.now page.entry.origins.now.source.now page.entry.origins.now.rows page.entry.main finding.now) }
{
    put_all_line(text, page.names, b"start", &finding.start)?;
    put_table(text, page, &finding.rows)?;
    put_all_line(text, page.names, b"state", &finding.state)
}

// The report of a finding.
fn put_finding(
    text: &mut Vec<u8>,
    page: Page,
    cobegin_at: u32,
    finding: &Finding,
) -> Result<(), AllocError>
    requires places { page.origins.now.places.now ≡ page.origins.now.source.now }
    requires few { length page.names.now ≤ 256 }
    ensures { OnOk result (text.new.items ≡ text.old.items ++ finding_text page.entry.names.now
        page.entry.origins.now.source.now page.entry.origins.now.rows page.entry.main cobegin_at finding.now) }
{
    put_head(text, page, cobegin_at, finding)?;
    put_run(text, page, finding)?;
    put_fault(text, page, &finding.fault)?;
    put_blame(text, page.origins, finding.rows.len(), finding.blame)
}

// The report of each finding.
fn put_findings(
    text: &mut Vec<u8>,
    page: Page,
    cobegin_at: u32,
    findings: &[Finding],
) -> Result<(), AllocError>
    requires places { page.origins.now.places.now ≡ page.origins.now.source.now }
    requires few { length page.names.now ≤ 256 }
    ensures { OnOk result (text.new.items ≡ text.old.items ++ findings_text page.entry.names.now
        page.entry.origins.now.source.now page.entry.origins.now.rows page.entry.main cobegin_at findings.now) }
{
    for index in 0..findings.len() {
        put_finding(text, page, cobegin_at, &findings[index])?;
    }
    Ok(())
}

/// The report of an exploration of an outline, as a text: each finding with the run that leads
/// there, in order, and the totals. Places are lines and columns of the text that was given, which
/// has at most 1,048,576 bytes; of a template with the values of the instance.
///
/// # Errors
///
/// An allocation was refused.
pub fn report(
    alloc: Global,
    subject: &Subject,
    totals: &Totals,
    findings: &[Finding],
) -> Result<Vec<u8>, AllocError>
    requires short { length subject.now.given.now ≤ 2 ^ 20 }
    requires given { length totals.now.given.items ≤ 256 }
    ensures { IfOk result (λ text. text.items ≡ report_text subject.now.outline.now.names
        subject.now.given.now subject.now.rows (length subject.now.outline.now.processes)
        subject.now.outline.now.cobegin_at totals.now findings.now) }
{
    let outline = subject.outline;
    outline.follows_rule();
    let places = Places::new(alloc, subject.given)?;
    let origins = Origins {
        source: subject.given,
        places: &places,
        rows: subject.rows,
    };
    let mut text = Vec::new(alloc);
    let page = Page {
        names: outline.names(),
        origins: &origins,
        main: outline.processes().len() as u32,
    };
    put_findings(&mut text, page, outline.cobegin_at(), findings)?;
    put_totals(&mut text, page.names, totals, findings)?;
    Ok(text)
}
