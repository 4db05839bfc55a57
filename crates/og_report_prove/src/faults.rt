//! The report of a false condition.

ghost use Rattle.std.specs.Prelude.{◌≡◌, ◌≤◌, ◌^◌, length, true, false, map, Some, option_map, IfOk};
ghost use Rattle.serde_json.specs.Data.{object, member, no_members};
ghost use Rattle.serde_json.specs.View.{view};
ghost use Rattle.og_typed.specs.Plain.{formula, noted};
ghost use Rattle.og_report_prove.specs.Members.{digits_data, name_of};
ghost use Rattle.og_report_prove.specs.Json.{state_data, after_data, conjunct_data, conjuncts_data, state_member, after_member, false_member, too_large_member};

use crate::block::Block;
use crate::diagnosis::Diagnosis;
use crate::ends::end_of;
use crate::unproved::Entry;
use crate::values::{digits_value, name_of, put_values, utf8_text};
use og_report_explain::Fault;
use og_report_text::{Origins, list_value, put_assertion, set_number};
use og_text::Name;
use og_typed::{Assert, Note};
use serde_json::{Map, Value, put};
use std::alloc::{AllocError, Global};

// The state.
fn state_value(alloc: Global, names: &[Name], block: &Block) -> Result<Value, AllocError>
    ensures { IfOk result (λ v. view v ≡ state_data names.now block.now) }
{
    let (values, details) = (&block.values, &block.details);
    let mut members = Map::new(alloc);
    put_values(&mut members, alloc, names, true, values, &details.state)?;
    put_values(&mut members, alloc, names, true, values, &details.besides)?;
    Ok(Value::Object(members))
}

// What the action assigns.
fn after_value(alloc: Global, names: &[Name], block: &Block) -> Result<Value, AllocError>
    ensures { IfOk result (λ v. view v ≡ after_data names.now block.now) }
{
    let details = &block.details;
    let values = &details.explanation.after;
    let mut members = Map::new(alloc);
    put_values(&mut members, alloc, names, false, values, &details.assigned)?;
    Ok(Value::Object(members))
}

// A false conjunct.
fn conjunct_value(alloc: Global, names: &[Name], assert: &Assert) -> Result<Value, AllocError>
    ensures { IfOk result (λ v. view v ≡ conjunct_data names.now (formula assert.now)) }
{
    let mut text = Vec::new(alloc);
    put_assertion(&mut text, names, assert)?;
    Value::try_from_str(alloc, utf8_text(&text))
}

/// The texts of assertions.
///
/// # Errors
///
/// An allocation was refused.
pub fn conjunct_values(
    alloc: Global,
    names: &[Name],
    found: &[&Assert],
) -> Result<Vec<Value>, AllocError>
    ensures { IfOk result (λ values.
        map view values.items ≡ map (λ a. conjunct_data names.now (formula a.now)) found.now) }
{
    let mut values = Vec::new(alloc);
    for assert in found {
        values.push(conjunct_value(alloc, names, assert)?)?;
    }
    Ok(values)
}

// The false conjuncts of an assertion, and where it stands.
fn conjuncts_value(
    alloc: Global,
    names: &[Name],
    origins: &Origins,
    note: &Note,
    found: &[&Assert],
) -> Result<Value, AllocError>
    requires places { origins.now.places.now ≡ origins.now.source.now }
    requires short { length origins.now.source.now ≤ 2 ^ 20 }
    ensures { IfOk result (λ v.
        view v ≡ conjuncts_data names.now origins.now.source.now (noted note.now) found.now) }
{
    let place = origins.places.position(note.at);
    let end = origins.places.position(end_of(origins.source, note.at));
    let conjuncts = list_value(conjunct_values(alloc, names, found)?);
    let mut members = Map::new(alloc);
    set_number(&mut members, alloc, "line", place.line as u64)?;
    set_number(&mut members, alloc, "end_line", end.line as u64)?;
    set_number(&mut members, alloc, "end_column", end.column as u64)?;
    put(&mut members, alloc, "conjuncts", conjuncts)?;
    set_number(&mut members, alloc, "column", place.column as u64)?;
    Ok(Value::Object(members))
}

// The value that is too large, with its variable.
fn large_value(alloc: Global, names: &[Name], var: u32, value: i128) -> Result<Value, AllocError>
    ensures { IfOk result (λ v.
        view v ≡ object (member (name_of names.now var) (digits_data value) no_members)) }
{
    let mut members = Map::new(alloc);
    let digits = digits_value(alloc, value)?;
    put(&mut members, alloc, name_of(names, var), digits)?;
    Ok(Value::Object(members))
}

/// The state of a false condition.
pub(crate) fn state_member(alloc: Global, entry: &Entry) -> Result<Option<Value>, AllocError>
    ensures { IfOk result (λ found.
        option_map view found ≡ state_member entry.now.names.now entry.now.diagnosis.now) }
{
    match entry.diagnosis {
        Diagnosis::False(block) => Ok(Some(state_value(alloc, entry.names, block)?)),
        Diagnosis::Proved | Diagnosis::Open => Ok(None),
    }
}

/// What the action of a false condition assigns, where an assertion is false then.
pub(crate) fn after_member(alloc: Global, entry: &Entry) -> Result<Option<Value>, AllocError>
    ensures { IfOk result (λ found.
        option_map view found ≡ after_member entry.now.names.now entry.now.diagnosis.now) }
{
    let Diagnosis::False(block) = entry.diagnosis else {
        return Ok(None);
    };
    let explanation = &block.details.explanation;
    match (&explanation.fault, &explanation.action) {
        (Fault::False(..), Some(_)) => Ok(Some(after_value(alloc, entry.names, block)?)),
        _ => Ok(None),
    }
}

/// The assertion that is false.
pub(crate) fn false_member(alloc: Global, entry: &Entry) -> Result<Option<Value>, AllocError>
    requires places { entry.now.origins.now.places.now ≡ entry.now.origins.now.source.now }
    requires short { length entry.now.origins.now.source.now ≤ 2 ^ 20 }
    ensures { IfOk result (λ v. option_map view v
        ≡ false_member entry.now.names.now entry.now.origins.now.source.now entry.now.diagnosis.now) }
{
    let Diagnosis::False(block) = entry.diagnosis else {
        return Ok(None);
    };
    match &block.details.explanation.fault {
        Fault::False(note, found) => {
            let (names, origins) = (entry.names, entry.origins);
            Ok(Some(conjuncts_value(alloc, names, origins, note, found)?))
        }
        Fault::TooLarge(..) | Fault::Blocked(_) => Ok(None),
    }
}

/// The value that is no `i64`.
pub(crate) fn too_large_member(alloc: Global, entry: &Entry) -> Result<Option<Value>, AllocError>
    ensures { IfOk result (λ found.
        option_map view found ≡ too_large_member entry.now.names.now entry.now.diagnosis.now) }
{
    let Diagnosis::False(block) = entry.diagnosis else {
        return Ok(None);
    };
    match &block.details.explanation.fault {
        Fault::TooLarge(var, value) => Ok(Some(large_value(alloc, entry.names, *var, *value)?)),
        Fault::False(..) | Fault::Blocked(_) => Ok(None),
    }
}
