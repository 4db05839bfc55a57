//! Numbers, variables and sums.

ghost use Rattle.std.specs.Prelude.{◌≡◌, ◌++◌, OnOk};
ghost use Rattle.og_report_conditions.specs.Script.{number_text, variable_text, term_text, terms_text, form_text};

use og_linear::Form;
use og_report_text::put_name;
use og_text::Name;
use std::alloc::AllocError;

/// Adds a number to the text.
pub(crate) fn put_number(text: &mut Vec<u8>, number: i128) -> Result<(), AllocError>
    ensures { OnOk result (text.new.items ≡ text.old.items ++ number_text number) }
{
    if number < 0 {
        text.extend_from_slice(b"(- ")?;
        og_report_text::put_number(text, number.unsigned_abs())?;
        text.extend_from_slice(b")")
    } else {
        og_report_text::put_number(text, number.unsigned_abs())
    }
}

/// Adds a variable to the text.
pub(crate) fn put_variable(text: &mut Vec<u8>, names: &[Name], var: u32) -> Result<(), AllocError>
    ensures { OnOk result (text.new.items ≡ text.old.items ++ variable_text names.now var) }
{
    text.extend_from_slice(b"$")?;
    put_name(text, names, var)
}

fn put_term(
    text: &mut Vec<u8>,
    names: &[Name],
    var: u32,
    coefficient: i128,
) -> Result<(), AllocError>
    ensures { OnOk result (text.new.items ≡ text.old.items ++ term_text names.now var coefficient) }
{
    text.extend_from_slice(b" (* ")?;
    put_number(text, coefficient)?;
    text.extend_from_slice(b" ")?;
    put_variable(text, names, var)?;
    text.extend_from_slice(b")")
}

fn put_terms(text: &mut Vec<u8>, names: &[Name], form: &Form) -> Result<(), AllocError>
    ensures { OnOk result (text.new.items ≡ text.old.items ++ terms_text names.now form.now.terms) }
{
    let mut i = 0;
    while let Some((var, coefficient)) = form.term(i) {
        put_term(text, names, var, coefficient)?;
        i += 1;
    }
    Ok(())
}

/// Adds a sum to the text.
pub(crate) fn put_form(text: &mut Vec<u8>, names: &[Name], form: &Form) -> Result<(), AllocError>
    ensures { OnOk result (text.new.items ≡ text.old.items ++ form_text names.now form.now) }
{
    text.extend_from_slice(b"(+ 0 ")?;
    put_number(text, form.offset())?;
    put_terms(text, names, form)?;
    text.extend_from_slice(b")")
}
