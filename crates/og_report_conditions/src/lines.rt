//! A condition that is asked for, as a text.

ghost use Rattle.std.specs.Prelude.{◌≡◌, ◌≤◌, ◌++◌, length, IfOk, OnOk};
ghost use Rattle.og_cond.specs.Seen.{seen};
ghost use Rattle.og_report_conditions.specs.Listings.{numbers_in, opening_text, is_wanted, wanted_text};

use crate::form::Form;
use crate::triples::put_triple;
use og_cond::Condition;
use og_report_text::{Places, put_condition};
use og_text::Name;
use std::alloc::{AllocError, Global};

/// How conditions are printed, and which.
#[derive(Clone, Copy)]
pub(crate) struct Lines<'a> {
    pub(crate) form: Form,
    /// The numbers that are asked for; all, where none are given.
    pub(crate) only: Option<&'a [u32]>,
    /// The names of the variables.
    pub(crate) names: &'a [Name],
    /// The source.
    pub(crate) places: &'a Places<'a>,
}

/// What stands before the conditions.
pub(crate) fn opening(alloc: Global, form: Form, names: &[Name]) -> Result<Vec<u8>, AllocError>
    requires { length names.now ≤ 256 }
    ensures { IfOk result (λ text. text.items ≡ opening_text form names.now) }
{
    match form {
        Form::Script => crate::whole::opening(alloc, names),
        Form::Facts | Form::Triples => Ok(Vec::new(alloc)),
    }
}

// Whether this number is asked for.
fn is_wanted(only: Option<&[u32]>, number: u32) -> bool
    ensures { result ≡ is_wanted (numbers_in only.entry) number }
{
    match only {
        None => true,
        Some(numbers) => numbers.contains(&number),
    }
}

/// A condition, where its number is asked for.
pub(crate) fn put_wanted(
    text: &mut Vec<u8>,
    lines: &Lines<'_>,
    number: u32,
    condition: &Condition,
) -> Result<(), AllocError>
    ensures { OnOk result (text.new.items ≡ text.old.items ++
        wanted_text lines.now.form (numbers_in lines.now.only) lines.now.names.now lines.now.places.now number (seen condition.now)) }
{
    if !is_wanted(lines.only, number) {
        return Ok(());
    }
    let (names, places) = (lines.names, lines.places);
    let wide = u128::from(number);
    match lines.form {
        Form::Facts => put_condition(text, names, places, wide, condition),
        Form::Triples => put_triple(text, names, places, number, condition),
        Form::Script => crate::whole::put_condition(text, names, places, wide, condition),
    }
}
