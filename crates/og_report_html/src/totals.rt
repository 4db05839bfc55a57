//! The totals.

ghost use Rattle.std.specs.Prelude.{◌≡◌, ◌++◌, OnOk};
ghost use Rattle.og_report_html.specs.Totals.{number_item, yes_item, answer_item, totals_items};

use crate::links::put_between;
use og_report_prove::{Diagnosis, Totals, is_safe, is_unblocked};
use og_report_text::put_number;
use std::alloc::AllocError;

fn put_number_item(text: &mut Vec<u8>, word: &[u8], number: usize) -> Result<(), AllocError>
    ensures { OnOk result (text.new.items ≡ text.old.items ++ number_item word.now number) }
{
    put_between(text, b"<li>", word, b" <b>")?;
    put_number(text, number as u128)?;
    text.extend_from_slice(b"</b></li>\n")
}

fn put_yes_item(text: &mut Vec<u8>, yes: bool) -> Result<(), AllocError>
    ensures { OnOk result (text.new.items ≡ text.old.items ++ yes_item yes) }
{
    if yes {
        text.extend_from_slice(b" <b class=yes>yes</b></li>\n")
    } else {
        text.extend_from_slice(b" <b class=no>no</b></li>\n")
    }
}

fn put_answer_item(text: &mut Vec<u8>, word: &[u8], yes: bool) -> Result<(), AllocError>
    ensures { OnOk result (text.new.items ≡ text.old.items ++ answer_item word.now yes) }
{
    text.extend_from_slice(b"<li>")?;
    text.extend_from_slice(word)?;
    put_yes_item(text, yes)
}

/// Adds the totals.
pub(crate) fn put_totals(text: &mut Vec<u8>, diagnoses: &[Diagnosis]) -> Result<(), AllocError>
    ensures { OnOk result (text.new.items ≡ text.old.items ++ totals_items diagnoses.now) }
{
    let totals = Totals::of(diagnoses);
    put_number_item(text, b"conditions", diagnoses.len())?;
    put_number_item(text, b"proved", totals.proved)?;
    put_number_item(text, b"false", totals.refuted)?;
    put_number_item(text, b"open", totals.still_open)?;
    put_answer_item(text, b"safe", is_safe(diagnoses))?;
    put_answer_item(text, b"unblocked", is_unblocked(diagnoses))
}
