//! The report as JSON.

ghost use Rattle.std.specs.Prelude.{◌≡◌, ◌≤◌, ◌^◌, [], ◌∷◌, ◌++◌, length, map, codes, true, IfOk, OnOk};
ghost use Rattle.serde_json.specs.Data.{object, member, no_members, string, boolean};
ghost use Rattle.serde_json.specs.View.{view, members_view};
ghost use Rattle.og_report_text.specs.Numbers.{natural};
ghost use Rattle.og_cond.specs.Names.{name_of_kind};
ghost use Rattle.og_judge.specs.Entries.{is_unblocked};
ghost use Rattle.og_judge.specs.Shown.{entries_of};
ghost use Rattle.og_report_text.specs.Places.{position_of};
ghost use Rattle.og_report.specs.Json.{status_word, entry_data, unproved_data, report_data, json_text};
ghost use Rattle.og_report_text.specs.Yes.{SaysUnblocked};

use crate::report::count_proved;
use og_judge::{Entry, Judgement};
use og_pool::Status;
use og_report_text::{Places, bytes_of, list_value, set_number, set_text};
use serde_json::{Map, Value, json};
use std::alloc::{AllocError, Global};

// The word for what was found.
fn word_of(status: Status) -> &'static str
    ensures { result.now ≡ status_word status }
{
    match status {
        Status::Missing => "missing",
        Status::TooLarge => "too large",
        Status::Proved => "proved",
        Status::Failed(_) => "failed",
    }
}

// Sets the members that every condition has.
fn put_common(
    members: &mut Map<String, Value>,
    alloc: Global,
    places: &Places,
    number: u64,
    entry: &Entry,
) -> Result<(), AllocError>
    requires { members.old.entries ≡ [] }
    ensures { OnOk result (members_view members.new.entries
        ≡ member (codes "column") (natural (position_of places.now entry.now.at).column)
        (member (codes "condition") (natural number)
        (member (codes "kind") (string (name_of_kind entry.now.kind))
        (member (codes "line") (natural (position_of places.now entry.now.at).line)
        (member (codes "status") (string (status_word entry.now.status)) no_members))))) }
{
    let place = places.position(entry.at);
    set_number(members, alloc, "condition", number)?;
    set_text(members, alloc, "kind", entry.kind.name())?;
    set_number(members, alloc, "line", place.line as u64)?;
    set_number(members, alloc, "column", place.column as u64)?;
    set_text(members, alloc, "status", word_of(entry.status))
}

// Sets the members of a condition: one of interference has its action, a failed one its fault.
fn put_entry(
    members: &mut Map<String, Value>,
    alloc: Global,
    places: &Places,
    number: u64,
    entry: &Entry,
) -> Result<(), AllocError>
    requires { members.old.entries ≡ [] }
    ensures { OnOk result (object (members_view members.new.entries)
        ≡ entry_data places.now number entry.now) }
{
    put_common(members, alloc, places, number, entry)?;
    if let Some(at) = entry.action_at {
        let action = places.position(at);
        set_number(members, alloc, "action_line", action.line as u64)?;
        set_number(members, alloc, "action_column", action.column as u64)?;
    }
    if let Status::Failed(fault) = entry.status {
        set_text(members, alloc, "fault", fault.name())?;
        set_number(members, alloc, "step", fault.step)?;
    }
    Ok(())
}

// The value of a condition.
fn entry_value(
    alloc: Global,
    places: &Places,
    number: u64,
    entry: &Entry,
) -> Result<Value, AllocError>
    ensures { IfOk result (λ v. view v ≡ entry_data places.now number entry.now) }
{
    let mut members = Map::new(alloc);
    put_entry(&mut members, alloc, places, number, entry)?;
    Ok(Value::Object(members))
}

// The values of the conditions that are not proved, numbered from 1.
fn unproved_values(
    alloc: Global,
    places: &Places,
    entries: &[Entry],
) -> Result<Vec<Value>, AllocError>
    ensures { IfOk result (λ values. map view values.items ≡ unproved_data places.now 1 entries.now) }
{
    let mut values = Vec::new(alloc);
    let mut number = 1;
    for entry in entries {
        if !entry.is_proved() {
            values.push(entry_value(alloc, places, number, entry)?)?;
        }
        number += 1;
    }
    Ok(values)
}

// The whole report.
fn report_value(
    alloc: Global,
    conditions: u64,
    proved: u64,
    safe: bool,
    unblocked: bool,
    unproved: Value,
) -> Result<Value, AllocError>
    ensures { IfOk result (λ v. view v ≡ object
        (member (codes "conditions") (natural conditions)
        (member (codes "proved") (natural proved)
        (member (codes "safe") (boolean safe)
        (member (codes "unblocked") (boolean unblocked)
        (member (codes "unproved") (view unproved) no_members)))))) }
{
    json!(in alloc; {
        "conditions": conditions, "proved": proved, "safe": safe, "unblocked": unblocked,
        "unproved": unproved
    })
}

// The report of a judgement as a value.
fn judgement_value(
    alloc: Global,
    judgement: &Judgement,
    places: &Places,
) -> Result<Value, AllocError>
    ensures { IfOk result (λ v. view v ≡ report_data places.now (entries_of judgement.now)) }
{
    let entries = judgement.entries();
    let unproved = list_value(unproved_values(alloc, places, entries)?);
    let conditions = entries.len() as u64;
    let proved = count_proved(entries) as u64;
    report_value(
        alloc,
        conditions,
        proved,
        judgement.safe(),
        judgement.unblocked(),
        unproved,
    )
}

/// The report of a judgement as JSON, in one line without an LF: how many conditions there are and
/// how many are proved, whether the outline is safe and unblocked, and the conditions that are not
/// proved. The members stand in the order of their bytes. Places are lines and columns of the
/// source, which has at most 1,048,576 bytes.
///
/// # Errors
///
/// An allocation was refused.
pub fn json(alloc: Global, judgement: &Judgement, source: &[u8]) -> Result<Vec<u8>, AllocError>
    requires { length source.now ≤ 2 ^ 20 }
    ensures report { IfOk result (λ t. t.items ≡ json_text source.now (entries_of judgement.now)) }
    ensures unblocked { IfOk result (λ t.
        SaysUnblocked true (t.items ++ 10 ∷ []) → is_unblocked (entries_of judgement.now) ≡ true) }
{
    let places = Places::new(alloc, source)?;
    let value = judgement_value(alloc, judgement, &places)?;
    bytes_of(alloc, &value)
}
