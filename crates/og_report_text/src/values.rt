//! Variables with their values.

ghost use Rattle.std.specs.Prelude.{◌≡◌, ◌++◌, [], IfOk, OnOk, slice_get};
ghost use Rattle.og_linear.specs.Linear.{value_at};
ghost use Rattle.og_report_text.specs.Values.{value_text, entries_text, values_text, names_text, numbers};

use crate::forms::{put_constant, put_name};
use og_text::Name;
use std::alloc::{AllocError, Global};

/// Adds a variable with a value to the text, as `x = 3`.
///
/// # Errors
///
/// An allocation was refused; the text has what it had, and perhaps a part of this.
pub fn put_value(
    text: &mut Vec<u8>,
    names: &[Name],
    var: u32,
    value: i128,
) -> Result<(), AllocError>
    ensures { OnOk result (text.new.items ≡ text.old.items ++ value_text names.now var value) }
{
    put_name(text, names, var)?;
    text.extend_from_slice(b" = ")?;
    put_constant(text, true, value)
}

/// Adds the variables with their values in a state to the text, or `any` for none.
///
/// # Errors
///
/// An allocation was refused; the text has what it had, and perhaps a part of this.
pub fn put_values(
    text: &mut Vec<u8>,
    names: &[Name],
    values: &[i128],
    vars: &[u32],
) -> Result<(), AllocError>
    ensures { OnOk result (text.new.items ≡ text.old.items
        ++ values_text names.now values.now vars.now) }
{
    if vars.is_empty() {
        return text.extend_from_slice(b"any");
    }
    let mut between: &[u8] = b"";
    for var in vars {
        text.extend_from_slice(between)?;
        put_value(text, names, *var, value_at(values, *var))?;
        between = b", ";
    }
    Ok(())
}

// The value of a variable, 0 beyond the end.
fn value_at(values: &[i128], var: u32) -> i128
    ensures { result ≡ value_at values.now var }
{
    values.get(var as usize).copied().unwrap_or(0)
}

/// Adds the names of the variables to the text, with commas between them.
///
/// # Errors
///
/// An allocation was refused; the text has what it had, and perhaps a part of this.
pub fn put_names(text: &mut Vec<u8>, names: &[Name], vars: &[u32]) -> Result<(), AllocError>
    ensures { OnOk result (text.new.items ≡ text.old.items ++ names_text names.now [] vars.now) }
{
    let mut between: &[u8] = b"";
    for var in vars {
        text.extend_from_slice(between)?;
        put_name(text, names, *var)?;
        between = b", ";
    }
    Ok(())
}

/// The numbers of this many variables.
///
/// # Errors
///
/// An allocation was refused.
pub fn numbers(alloc: Global, count: u32) -> Result<Vec<u32>, AllocError>
    ensures { IfOk result (λ v. v.items ≡ numbers count) }
{
    let mut vars = Vec::new(alloc);
    for var in 0..count {
        vars.push(var)?;
    }
    Ok(vars)
}
