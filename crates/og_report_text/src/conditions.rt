//! The listing of all conditions.

ghost use Rattle.std.specs.Prelude.{◌≡◌, ◌++◌, ◌≤◌, ◌^◌, length, map, OnOk};
ghost use Rattle.og_cond.specs.Limits.{condition_limit};
ghost use Rattle.og_cond.specs.Seen.{seen};
ghost use Rattle.og_facts.specs.Facts.{facts_of};
ghost use Rattle.og_facts.specs.Plain.{plain_fact};
ghost use Rattle.og_report_text.specs.Listing.{facts_lines, answer_lines, condition_lines, conditions_lines, IsListing};

use crate::facts::put_fact;
use crate::heading::put_heading;
use crate::places::Places;
use crate::words::put_number;
use og_cond::{Condition, ConditionsError, conditions};
use og_facts::{Fact, FactsError, facts};
use og_text::Name;
use og_typed::Outline;
use std::alloc::{AllocError, Global};

// A line for each fact, numbered from 1.
fn put_facts(text: &mut Vec<u8>, names: &[Name], facts: &[Fact]) -> Result<(), AllocError>
    ensures { OnOk result (text.new.items ≡ text.old.items
        ++ facts_lines names.now 1 (map plain_fact facts.now)) }
{
    let mut number = 1;
    for fact in facts {
        text.extend_from_slice(b"  ")?;
        put_number(text, number)?;
        text.extend_from_slice(b": ")?;
        put_fact(text, names, fact)?;
        text.extend_from_slice(b"\n")?;
        number += 1;
    }
    Ok(())
}

// The facts of a condition, or why there are none.
fn put_answer(text: &mut Vec<u8>, names: &[Name], condition: &Condition) -> Result<(), AllocError>
    ensures { OnOk result (text.new.items ≡ text.old.items
        ++ answer_lines names.now (facts_of (seen condition.now))) }
{
    match facts(*text.allocator(), condition) {
        Ok(list) => put_facts(text, names, list.as_slice()),
        Err(FactsError::Fault(_)) => text.extend_from_slice(b"  too large\n"),
        Err(FactsError::Memory) => Err(AllocError),
    }
}

/// Adds a condition with this number to the text: its number, its kind and its places, and then a
/// line for each of its facts, or that they are too large.
///
/// # Errors
///
/// An allocation was refused; the text has what it had, and perhaps a part of this.
pub fn put_condition(
    text: &mut Vec<u8>,
    names: &[Name],
    places: &Places,
    number: u128,
    condition: &Condition,
) -> Result<(), AllocError>
    ensures { OnOk result (text.new.items ≡ text.old.items
        ++ condition_lines names.now places.now number (seen condition.now)) }
{
    put_heading(text, places, number, condition)?;
    put_answer(text, names, condition)
}

// All conditions, numbered from 1.
fn put_conditions(
    text: &mut Vec<u8>,
    names: &[Name],
    places: &Places,
    conditions: &[Condition],
) -> Result<(), AllocError>
    ensures { OnOk result (text.new.items ≡ text.old.items
        ++ conditions_lines names.now places.now 1 (map seen conditions.now)) }
{
    let mut number = 1;
    for condition in conditions {
        put_condition(text, names, places, number, condition)?;
        number += 1;
    }
    Ok(())
}

/// The conditions of an outline in order, each with its facts, as a text. Places are lines and
/// columns of the source, which has at most 1,048,576 bytes; what lies beyond it is placed at its
/// end.
///
/// # Errors
///
/// `TooMany` exactly where there are more than 4,000,000 conditions. `Memory` where an allocation
/// was refused.
pub fn conditions_text(
    alloc: Global,
    outline: &Outline,
    source: &[u8],
) -> Result<Vec<u8>, ConditionsError>
    requires { length source.now ≤ 2 ^ 20 }
    ensures { IsListing condition_limit outline.now source.now result }
{
    let conditions = conditions(alloc, outline)?;
    let places = Places::new(alloc, source)?;
    let mut text = Vec::new(alloc);
    put_conditions(&mut text, outline.names(), &places, &conditions)?;
    Ok(text)
}
