//! A refusal, as JSON.

ghost use Rattle.std.specs.Prelude.{◌≡◌, option_map, IfOk, OnOk};
ghost use Rattle.serde_json.specs.View.{view, members_view};
ghost use Rattle.og_report_findings.specs.Refused.{with_place, with_help, refusal_data, refusal_line};

use og_report_prove::utf8_text;
use og_report_text::{Position, bytes_of, set_number, set_text};
use serde_json::{Map, Value, put};
use std::alloc::{AllocError, Global};

/// Why a text is refused, and where.
#[derive(Clone, Copy)]
pub struct TextRefusal<'r> {
    /// The number of the refusal.
    pub number: u8,
    /// Its name.
    pub name: &'r str,
    /// The place in the text, where there is one.
    pub place: Option<Position>,
    /// Why, in one line or more.
    pub reason: &'r [u8],
    /// A line of advice, where there is some.
    pub help: Option<&'r [u8]>,
}

// Sets the line and the column, where there is a place.
fn put_place(
    members: &mut Map<String, Value>,
    alloc: Global,
    place: Option<Position>,
) -> Result<(), AllocError>
    ensures { OnOk result (members_view members.new.entries
        ≡ with_place place (members_view members.old.entries)) }
{
    let Some(place) = place else {
        return Ok(());
    };
    set_number(members, alloc, "line", u64::from(place.line))?;
    set_number(members, alloc, "column", u64::from(place.column))
}

// Sets the line of advice, where there is some.
fn put_help(
    members: &mut Map<String, Value>,
    alloc: Global,
    help: Option<&[u8]>,
) -> Result<(), AllocError>
    ensures { OnOk result (members_view members.new.entries
        ≡ with_help (option_map (λ h. h.now) help.entry) (members_view members.old.entries)) }
{
    match help {
        Some(help) => set_text(members, alloc, "help", utf8_text(help)),
        None => Ok(()),
    }
}

// The refusal.
fn refusal_value(alloc: Global, refusal: TextRefusal) -> Result<Value, AllocError>
    ensures { IfOk result (λ v. view v ≡ refusal_data refusal.entry.number refusal.entry.name.now
        refusal.entry.place refusal.entry.reason.now (option_map (λ h. h.now) refusal.entry.help)) }
{
    let mut members = Map::new(alloc);
    set_text(&mut members, alloc, "text", utf8_text(refusal.reason))?;
    set_number(&mut members, alloc, "number", u64::from(refusal.number))?;
    set_text(&mut members, alloc, "name", refusal.name)?;
    put_place(&mut members, alloc, refusal.place)?;
    put_help(&mut members, alloc, refusal.help)?;
    Ok(Value::Object(members))
}

/// A refusal as JSON, in one line with its LF: the number, the name, the line and the column where
/// there is a place, why, and a line of advice where there is some.
///
/// # Errors
///
/// An allocation was refused.
pub fn refusal_line(alloc: Global, refusal: TextRefusal) -> Result<Vec<u8>, AllocError>
    ensures { IfOk result (λ text. text.items ≡ refusal_line refusal.entry.number
        refusal.entry.name.now refusal.entry.place refusal.entry.reason.now
        (option_map (λ h. h.now) refusal.entry.help)) }
{
    let mut members = Map::new(alloc);
    put(
        &mut members,
        alloc,
        "refused",
        refusal_value(alloc, refusal)?,
    )?;
    let mut line = bytes_of(alloc, &Value::Object(members))?;
    line.push(b'\n')?;
    Ok(line)
}
