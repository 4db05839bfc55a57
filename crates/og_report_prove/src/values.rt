//! Texts, and variables with their values.

ghost use Rattle.std.specs.Prelude.{◌≡◌, slice_get, option_map, IfOk, OnOk};
ghost use Rattle.serde_json.specs.View.{view, members_view};
ghost use Rattle.og_report_text.specs.Listing.{name_text};
ghost use Rattle.og_report_prove.specs.Members.{utf8_text, digits_data, value_data, with_optional, name_of, with_values};

use og_subst::Values;
use og_text::Name;
use serde_json::{Map, Value, put};
use std::alloc::{AllocError, Global};

/// The text with these bytes; no text where they are not UTF-8. Takes no memory.
pub fn utf8_text(bytes: &[u8]) -> &str
    ensures { result.now ≡ utf8_text bytes.now }
{
    match str::from_utf8(bytes) {
        Ok(text) => text,
        Err(_) => "",
    }
}

/// The name of a variable; no text where there is no such variable.
pub(crate) fn name_of(names: &[Name], var: u32) -> &str
    ensures { result.now ≡ name_of names.now var }
{
    match names.get(var as usize) {
        Some(name) => utf8_text(name.as_slice()),
        None => utf8_text(b""),
    }
}

/// The digits of a number, as a text.
pub(crate) fn digits_value(alloc: Global, number: i128) -> Result<Value, AllocError>
    ensures { IfOk result (λ v. view v ≡ digits_data number) }
{
    Ok(Value::String(number.to_string(alloc)?))
}

// A number, or its digits.
fn number_value(alloc: Global, numbers: bool, number: i128) -> Result<Value, AllocError>
    ensures { IfOk result (λ v. view v ≡ value_data numbers number) }
{
    match i64::try_from(number) {
        Ok(small) if numbers => Ok(Value::from(small)),
        _ => digits_value(alloc, number),
    }
}

/// Sets the members of these variables to their values: to numbers where they are asked for and
/// are `i64`s, else to their digits.
///
/// # Errors
///
/// An allocation was refused; some of the members may be set.
pub fn put_values(
    members: &mut Map<String, Value>,
    alloc: Global,
    names: &[Name],
    numbers: bool,
    values: &Values,
    vars: &[u32],
) -> Result<(), AllocError>
    ensures { OnOk result (members_view members.new.entries
        ≡ with_values names.now numbers values.now vars.now (members_view members.old.entries)) }
{
    for var in vars {
        let value = number_value(alloc, numbers, values.at(*var))?;
        put(members, alloc, name_of(names, *var), value)?;
    }
    Ok(())
}

/// Sets a member to a value, where there is one.
///
/// # Errors
///
/// An allocation was refused; the members are as they were.
pub fn put_optional(
    members: &mut Map<String, Value>,
    alloc: Global,
    key: &str,
    value: Option<Value>,
) -> Result<(), AllocError>
    ensures { OnOk result (members_view members.new.entries
        ≡ with_optional key.now (option_map view value) (members_view members.old.entries)) }
{
    match value {
        Some(value) => put(members, alloc, key, value),
        None => Ok(()),
    }
}
