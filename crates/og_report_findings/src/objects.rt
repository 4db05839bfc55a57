//! The report of all conditions of an outline, as JSON.

ghost use Rattle.std.specs.Prelude.{◌≡◌, ◌<◌, ◌≤◌, ◌^◌, ◌∷◌, ◌++◌, [], length, map, true, IfOk, OnOk};
ghost use Rattle.serde_json.specs.Data.{array};
ghost use Rattle.serde_json.specs.View.{view, items_of};
ghost use Rattle.og_cond.specs.Seen.{seen};
ghost use Rattle.og_report_prove.specs.Json.{totals_data};
ghost use Rattle.og_report_prove.specs.Report.{is_unblocked};
ghost use Rattle.og_report_findings.specs.Says.{SaysNeverStuck};
ghost use Rattle.og_report_findings.specs.Exact.{IsExactReport};
ghost use Rattle.og_report_findings.specs.Told.{AreCounted};
ghost use Rattle.og_report_findings.specs.Entries.{entry_of, unproved_from};
ghost use Rattle.og_report_findings.specs.Json.{entry_data, with_explored, report_data, json_text};

use crate::entry::{Entry, Findings};
use crate::verdict::Conclusion;
use og_report_prove::{diagnosis_value, totals_value};
use og_report_runs::{Explored, Run, explored_value, with_member, with_run};
use og_report_text::{Origins, Places, bytes_of, list_value};
use og_typed::Outline;
use serde_json::Value;
use std::alloc::{AllocError, Global};

// A condition that is not proved, with what is known of the runs where some were followed.
fn entry_value(
    alloc: Global,
    outline: &Outline,
    origins: &Origins,
    explored: Option<Explored>,
    entry: Entry,
) -> Result<Value, AllocError>
    requires places { origins.now.places.now ≡ origins.now.source.now }
    requires short { length origins.now.source.now ≤ 2 ^ 20 }
    ensures { IfOk result (λ v.
        view v ≡ entry_data outline.now origins.now.source.now explored (entry_of entry.entry)) }
{
    let (condition, diagnosis) = (entry.condition, entry.diagnosis);
    let names = outline.names();
    let value = diagnosis_value(alloc, names, origins, entry.number, condition, diagnosis)?;
    match explored {
        Some(_) => with_run(alloc, outline, diagnosis, entry.run, value),
        None => Ok(value),
    }
}

// Those that are not proved.
fn entry_values(
    alloc: Global,
    outline: &Outline,
    origins: &Origins,
    explored: Option<Explored>,
    entries: &[Entry],
) -> Result<Vec<Value>, AllocError>
    requires places { origins.now.places.now ≡ origins.now.source.now }
    requires short { length origins.now.source.now ≤ 2 ^ 20 }
    ensures { IfOk result (λ values. map view values.items
        ≡ map (entry_data outline.now origins.now.source.now explored) (map entry_of entries.now)) }
{
    let mut values = Vec::with_capacity(alloc, entries.len())?;
    for entry in entries {
        values.push(entry_value(alloc, outline, origins, explored, *entry)?)?;
    }
    Ok(values)
}

// How far runs were followed, where some were.
fn with_explored(
    alloc: Global,
    explored: Option<Explored>,
    runs: &[Run],
    value: Value,
) -> Result<Value, AllocError>
    ensures { IfOk result (λ v. view v ≡ with_explored explored runs.now (view value)) }
{
    match explored {
        Some(explored) => with_member(alloc, "runs", explored_value(alloc, explored, runs)?, value),
        None => Ok(value),
    }
}

// The totals, and those that are not proved.
fn with_totals(
    alloc: Global,
    outline: &Outline,
    origins: &Origins,
    findings: Findings,
) -> Result<Value, AllocError>
    requires places { origins.now.places.now ≡ origins.now.source.now }
    requires short { length origins.now.source.now ≤ 2 ^ 20 }
    requires each { length findings.diagnoses.now ≡ length findings.conditions.now }
    requires run { length findings.runs.now ≡ length findings.conditions.now }
    requires few { length findings.diagnoses.now < 2 ^ 32 }
    ensures { IfOk result (λ v. view v ≡ totals_data findings.entry.diagnoses.now
        (array (items_of (map (entry_data outline.now origins.now.source.now findings.entry.explored)
        (unproved_from 1 (map seen findings.entry.conditions.now) findings.entry.diagnoses.now
        findings.entry.runs.now))))) }
{
    let unproved = findings.unproved(alloc)?;
    let values = entry_values(alloc, outline, origins, findings.explored, &unproved)?;
    let totals = totals_value(alloc, findings.diagnoses, list_value(values))?;
    Ok(totals)
}

// The whole report.
fn report_value(
    alloc: Global,
    outline: &Outline,
    origins: &Origins,
    findings: Findings,
) -> Result<Value, AllocError>
    requires places { origins.now.places.now ≡ origins.now.source.now }
    requires short { length origins.now.source.now ≤ 2 ^ 20 }
    requires each { length findings.diagnoses.now ≡ length findings.conditions.now }
    requires run { length findings.runs.now ≡ length findings.conditions.now }
    requires few { length findings.diagnoses.now < 2 ^ 32 }
    ensures { IfOk result (λ v. view v ≡ report_data outline.now origins.now.source.now
        findings.entry.explored (map seen findings.entry.conditions.now)
        findings.entry.diagnoses.now findings.entry.runs.now) }
{
    let (diagnoses, explored) = (findings.diagnoses, findings.explored);
    let totals = with_totals(alloc, outline, origins, findings)?;
    let with_runs = with_explored(alloc, explored, findings.runs, totals)?;
    let words = Conclusion::of(diagnoses, explored).words();
    let verdict = Value::try_from_str(alloc, words)?;
    with_member(alloc, "verdict", verdict, with_runs)
}

/// The report of all conditions of an outline, as JSON, in one line without an LF: how many
/// conditions there are, how many are proved, false and open, whether the outline is safe and
/// unblocked, the verdict, and where runs were followed how far; and of each condition that is not
/// proved its number from 1, its kind, its place and its action's, whether it is false or open, and
/// of a false one the state, the false conjuncts, and what is known of the runs. The members stand in
/// the order of their bytes. Values after an action are texts of their digits, since they may be no
/// `i64`s. Places are lines and columns of the source, which has at most 1,048,576 bytes, and each
/// has an end, behind the last byte.
///
/// # Errors
///
/// An allocation was refused.
pub fn json(
    alloc: Global,
    outline: &Outline,
    source: &[u8],
    findings: Findings,
) -> Result<Vec<u8>, AllocError>
    requires short { length source.now ≤ 2 ^ 20 }
    requires each { length findings.diagnoses.now ≡ length findings.conditions.now }
    requires run { length findings.runs.now ≡ length findings.conditions.now }
    requires few { length findings.diagnoses.now < 2 ^ 32 }
    ensures report { IfOk result (λ text. text.items ≡ json_text outline.now source.now
        findings.entry.explored (map seen findings.entry.conditions.now)
        findings.entry.diagnoses.now findings.entry.runs.now) }
    ensures counted { OnOk result (AreCounted findings.entry.diagnoses.now (unproved_from 1
        (map seen findings.entry.conditions.now) findings.entry.diagnoses.now
        findings.entry.runs.now)) }
    ensures exact { IfOk result (λ text. IsExactReport true findings.entry.diagnoses.now
        findings.entry.explored (text.items ++ 10 ∷ [])) }
    ensures never_stuck { IfOk result (λ text. SaysNeverStuck true (text.items ++ 10 ∷ [])
        → is_unblocked findings.entry.diagnoses.now ≡ true) }
{
    let places = Places::new(alloc, source)?;
    let origins = Origins::own(source, &places);
    let value = report_value(alloc, outline, &origins, findings)?;
    bytes_of(alloc, &value)
}
