//! The report as text.

ghost use Rattle.std.specs.Prelude.{◌≡◌, ◌++◌, ◌≤◌, ◌^◌, length, count_by, true, false, IfOk, OnOk};
ghost use Rattle.og_judge.specs.Entries.{is_proved, is_unblocked};
ghost use Rattle.og_judge.specs.Shown.{entries_of};
ghost use Rattle.og_report.specs.Report.{status_text, rest_text, numbered_text, line_text, unproved_lines, count_text, answer_text, totals_text, report_text};
ghost use Rattle.og_report_text.specs.Yes.{SaysUnblocked};

use og_judge::{Entry, Judgement};
use og_pool::Status;
use og_report_text::{Places, put_action_place, put_number, put_position};
use std::alloc::{AllocError, Global};

// What was found of a condition.
fn put_status(text: &mut Vec<u8>, status: Status) -> Result<(), AllocError>
    ensures { OnOk result (text.new.items ≡ text.old.items ++ status_text status) }
{
    match status {
        Status::Missing => text.extend_from_slice(b"missing"),
        Status::TooLarge => text.extend_from_slice(b"too large"),
        Status::Proved => text.extend_from_slice(b"proved"),
        Status::Failed(fault) => {
            text.extend_from_slice(b"failed ")?;
            text.extend_from_slice(fault.name().as_bytes())?;
            text.extend_from_slice(b" at step ")?;
            put_number(text, fault.step as u128)
        }
    }
}

// What stands after the number of a condition.
fn put_rest(text: &mut Vec<u8>, places: &Places, entry: &Entry) -> Result<(), AllocError>
    ensures { OnOk result (text.new.items ≡ text.old.items ++ rest_text places.now entry.now) }
{
    text.extend_from_slice(entry.kind.name().as_bytes())?;
    put_action_place(text, places, entry.action_at)?;
    text.extend_from_slice(b": ")?;
    put_status(text, entry.status)?;
    text.extend_from_slice(b"\n")
}

// What stands after the place of a condition.
fn put_numbered(
    text: &mut Vec<u8>,
    places: &Places,
    number: u128,
    entry: &Entry,
) -> Result<(), AllocError>
    ensures { OnOk result (text.new.items ≡ text.old.items
        ++ numbered_text places.now number entry.now) }
{
    text.extend_from_slice(b": condition ")?;
    put_number(text, number)?;
    text.extend_from_slice(b" ")?;
    put_rest(text, places, entry)
}

// The line of a condition.
fn put_line(
    text: &mut Vec<u8>,
    places: &Places,
    number: u128,
    entry: &Entry,
) -> Result<(), AllocError>
    ensures { OnOk result (text.new.items ≡ text.old.items ++ line_text places.now number entry.now) }
{
    put_position(text, places.position(entry.at))?;
    put_numbered(text, places, number, entry)
}

// The lines of the conditions that are not proved, numbered from 1.
fn put_unproved(text: &mut Vec<u8>, places: &Places, entries: &[Entry]) -> Result<(), AllocError>
    ensures { OnOk result (text.new.items ≡ text.old.items
        ++ unproved_lines places.now 1 entries.now) }
{
    let mut number = 1;
    for entry in entries {
        if !entry.is_proved() {
            put_line(text, places, number, entry)?;
        }
        number += 1;
    }
    Ok(())
}

// A line with a name and a number.
fn put_count(text: &mut Vec<u8>, name: &[u8], count: usize) -> Result<(), AllocError>
    ensures { OnOk result (text.new.items ≡ text.old.items ++ count_text name.now count) }
{
    text.extend_from_slice(name)?;
    put_number(text, count as u128)?;
    text.extend_from_slice(b"\n")
}

// A line with a name and `yes` or `no`.
fn put_answer(text: &mut Vec<u8>, name: &[u8], answer: bool) -> Result<(), AllocError>
    ensures { OnOk result (text.new.items ≡ text.old.items ++ answer_text name.now answer) }
{
    text.extend_from_slice(name)?;
    text.extend_from_slice(if answer { b"yes\n" } else { b"no\n" })
}

/// How many of the entries are proved.
pub(crate) fn count_proved(entries: &[Entry]) -> usize
    ensures { result ≡ count_by is_proved entries.now }
{
    entries.iter().filter(|entry| entry.is_proved()).count()
}

// The lines at the end of a report.
fn put_totals(text: &mut Vec<u8>, judgement: &Judgement) -> Result<(), AllocError>
    ensures { OnOk result (text.new.items ≡ text.old.items
        ++ totals_text (entries_of judgement.now)) }
{
    let entries = judgement.entries();
    put_count(text, b"conditions: ", entries.len())?;
    put_count(text, b"proved: ", count_proved(entries))?;
    put_answer(text, b"safe: ", judgement.safe())?;
    put_answer(text, b"unblocked: ", judgement.unblocked())
}

/// The report of a judgement: a line for each condition that is not proved, with its place, its
/// number, its kind and what was found, and then how many conditions there are, how many are
/// proved, and whether the outline is safe and unblocked. Places are lines and columns of the
/// source, which has at most 1,048,576 bytes.
///
/// # Errors
///
/// An allocation was refused.
pub fn text(alloc: Global, judgement: &Judgement, source: &[u8]) -> Result<Vec<u8>, AllocError>
    requires { length source.now ≤ 2 ^ 20 }
    ensures report { IfOk result (λ t. t.items ≡ report_text source.now (entries_of judgement.now)) }
    ensures unblocked { IfOk result (λ t.
        SaysUnblocked false t.items → is_unblocked (entries_of judgement.now) ≡ true) }
{
    let places = Places::new(alloc, source)?;
    let mut text = Vec::new(alloc);
    put_unproved(&mut text, &places, judgement.entries())?;
    put_totals(&mut text, judgement)?;
    Ok(text)
}
