//! A finding, as JSON.

ghost use Rattle.std.specs.Prelude.{◌≡◌, ◌≤◌, ◌^◌, [], length, map, option_map, IfOk, OnOk};
ghost use Rattle.serde_json.specs.Data.{object};
ghost use Rattle.serde_json.specs.View.{view, members_view};
ghost use Rattle.og_report_explore.specs.Json.{kind_word, process_member, history_items, state_data, conjuncts_data, false_member, last_members, finding_data};

use crate::finding::{Fault, Finding, Row};
use crate::texts::place_of;
use og_report_prove::{conjunct_values, end_of, put_optional, put_values};
use og_report_text::{Origins, list_value, numbers, printed_number, set_number, set_text};
use og_subst::Values;
use og_text::Name;
use og_typed::Assert;
use serde_json::{Map, Value, put};
use std::alloc::{AllocError, Global};

/// What all values are made with.
#[derive(Clone, Copy)]
pub(crate) struct Page<'a> {
    pub(crate) names: &'a [Name],
    /// The source and its places.
    pub(crate) origins: &'a Origins<'a>,
    pub(crate) main: u32,
    pub(crate) cobegin_at: u32,
}

// The word for the violation.
fn kind_word(fault: &Fault) -> &'static str
    ensures { result.now ≡ kind_word fault.now }
{
    match fault {
        Fault::Assertion(..) => "assertion",
        Fault::Overflow(..) => "overflow",
        Fault::Post(..) => "postcondition",
        Fault::Stuck(_) => "stuck",
    }
}

// The process reported.
fn process_member(main: u32, fault: &Fault) -> Option<Value>
    ensures { option_map view result ≡ process_member main fault.now }
{
    match fault {
        Fault::Assertion(p, _, _) => Some(Value::from(printed_number(main, *p))),
        Fault::Overflow(p, _, _, _) => Some(Value::from(printed_number(main, *p))),
        Fault::Post(_, _) => None,
        Fault::Stuck(_) => None,
    }
}

// These conjuncts.
fn conjuncts_value(alloc: Global, names: &[Name], all: &[&Assert]) -> Result<Value, AllocError>
    ensures { IfOk result (λ v. view v ≡ conjuncts_data names.now all.now) }
{
    let values = conjunct_values(alloc, names, all)?;
    Ok(list_value(values))
}

// The false conjuncts.
fn false_member(alloc: Global, names: &[Name], fault: &Fault) -> Result<Option<Value>, AllocError>
    ensures { IfOk result (λ v. option_map view v ≡ false_member names.now fault.now) }
{
    match fault {
        Fault::Assertion(_, _, all) => Ok(Some(conjuncts_value(alloc, names, all)?)),
        Fault::Overflow(..) => Ok(None),
        Fault::Post(_, all) => Ok(Some(conjuncts_value(alloc, names, all)?)),
        Fault::Stuck(_) => Ok(None),
    }
}

// The processes that stepped.
fn history_values(alloc: Global, main: u32, rows: &[Row]) -> Result<Vec<Value>, AllocError>
    ensures { IfOk result (λ values. map view values.items ≡ history_items main rows.now) }
{
    let mut values = Vec::new(alloc);
    for row in rows {
        values.push(Value::from(printed_number(main, row.process)))?;
    }
    Ok(values)
}

// A state.
fn state_value(alloc: Global, names: &[Name], values: &Values) -> Result<Value, AllocError>
    requires { length names.now ≤ 256 }
    ensures { IfOk result (λ v. view v ≡ state_data names.now values.now) }
{
    let vars = numbers(alloc, names.len() as u32)?;
    let mut members = Map::new(alloc);
    put_values(&mut members, alloc, names, true, values, &vars)?;
    Ok(Value::Object(members))
}

// Sets the line, the process and the states.
fn put_last(
    members: &mut Map<String, Value>,
    alloc: Global,
    page: Page,
    finding: &Finding,
) -> Result<(), AllocError>
    requires few { length page.names.now ≤ 256 }
    requires places { page.origins.now.places.now ≡ page.origins.now.source.now }
    requires none { members.old.entries ≡ [] }
    ensures { OnOk result (members_view members.new.entries ≡ last_members page.entry.names.now
        page.entry.origins.now.source.now page.entry.main page.entry.cobegin_at finding.now) }
{
    let state = state_value(alloc, page.names, &finding.state)?;
    put(members, alloc, "state", state)?;
    let start = state_value(alloc, page.names, &finding.start)?;
    put(members, alloc, "start", start)?;
    put_optional(
        members,
        alloc,
        "process",
        process_member(page.main, &finding.fault),
    )?;
    let at = place_of(page.cobegin_at, &finding.fault);
    let place = page.origins.places.position(at);
    set_number(members, alloc, "line", place.line as u64)
}

// Sets the column, the false conjuncts, the history and the kind.
fn put_first(
    members: &mut Map<String, Value>,
    alloc: Global,
    page: Page,
    finding: &Finding,
) -> Result<(), AllocError>
    requires places { page.origins.now.places.now ≡ page.origins.now.source.now }
    requires short { length page.origins.now.source.now ≤ 2 ^ 20 }
    requires last { members_view members.old.entries
        ≡ last_members page.names.now page.origins.now.source.now page.main page.cobegin_at finding.now }
    ensures { OnOk result (object (members_view members.new.entries) ≡ finding_data
        page.entry.names.now page.entry.origins.now.source.now page.entry.main page.entry.cobegin_at
        finding.now) }
{
    set_text(members, alloc, "kind", kind_word(&finding.fault))?;
    let history = list_value(history_values(alloc, page.main, &finding.rows)?);
    put(members, alloc, "history", history)?;
    let found = false_member(alloc, page.names, &finding.fault)?;
    put_optional(members, alloc, "false", found)?;
    let at = place_of(page.cobegin_at, &finding.fault);
    let origins = page.origins;
    let end = origins.places.position(end_of(origins.source, at));
    set_number(members, alloc, "end_line", end.line as u64)?;
    set_number(members, alloc, "end_column", end.column as u64)?;
    let place = origins.places.position(at);
    set_number(members, alloc, "column", place.column as u64)
}

// The value of a finding.
fn finding_value(alloc: Global, page: Page, finding: &Finding) -> Result<Value, AllocError>
    requires few { length page.names.now ≤ 256 }
    requires places { page.origins.now.places.now ≡ page.origins.now.source.now }
    requires short { length page.origins.now.source.now ≤ 2 ^ 20 }
    ensures { IfOk result (λ v. view v ≡ finding_data page.entry.names.now page.entry.origins.now.source.now
        page.entry.main page.entry.cobegin_at finding.now) }
{
    let mut members = Map::new(alloc);
    put_last(&mut members, alloc, page, finding)?;
    put_first(&mut members, alloc, page, finding)?;
    Ok(Value::Object(members))
}

/// The values of findings.
pub(crate) fn finding_values(
    alloc: Global,
    page: Page,
    findings: &[Finding],
) -> Result<Vec<Value>, AllocError>
    requires few { length page.names.now ≤ 256 }
    requires places { page.origins.now.places.now ≡ page.origins.now.source.now }
    requires short { length page.origins.now.source.now ≤ 2 ^ 20 }
    ensures { IfOk result (λ values. map view values.items ≡ map (finding_data page.entry.names.now
        page.entry.origins.now.source.now page.entry.main page.entry.cobegin_at) findings.now) }
{
    let mut values = Vec::new(alloc);
    for finding in findings {
        values.push(finding_value(alloc, page, finding)?)?;
    }
    Ok(values)
}
