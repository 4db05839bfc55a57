//! The heading above the blocks, and the numbers of the conditions that are not proved.

ghost use Rattle.std.specs.Prelude.{◌≡◌, ◌++◌, OnOk};
ghost use Rattle.std.specs.List.{list_any};
ghost use Rattle.og_report_html.specs.Findings.{is_found};
ghost use Rattle.og_report_html.specs.Numbers.{number_link, number_where, number_links, numbers_line, numbers_of, numbers_text, heading_text};

use crate::constants::{ALL_PROVED, BEFORE_BLOCKS};
use crate::finding::Finding;
use crate::links::{put_between, put_twice};
use og_report_prove::{Diagnosis, is_safe, is_unblocked};
use std::alloc::AllocError;

// A link to the block of a condition.
fn put_number_link(text: &mut Vec<u8>, number: u128) -> Result<(), AllocError>
    ensures { OnOk result (text.new.items ≡ text.old.items ++ number_link number) }
{
    put_twice(text, b" <a href=#c", number, b">", b"</a>")
}

// Of a condition with this finding.
fn put_number_where(
    text: &mut Vec<u8>,
    finding: Finding,
    number: u128,
    diagnosis: &Diagnosis,
) -> Result<(), AllocError>
    ensures { OnOk result (text.new.items ≡ text.old.items ++ number_where finding number diagnosis.now) }
{
    if finding.is_of(diagnosis) {
        put_number_link(text, number)
    } else {
        Ok(())
    }
}

// Links to the blocks of all conditions with this finding.
fn put_number_links(
    text: &mut Vec<u8>,
    finding: Finding,
    diagnoses: &[Diagnosis],
) -> Result<(), AllocError>
    ensures { OnOk result (text.new.items ≡ text.old.items ++ number_links finding 1 diagnoses.now) }
{
    for index in 0..diagnoses.len() {
        put_number_where(text, finding, index as u128 + 1, &diagnoses[index])?;
    }
    Ok(())
}

// These, behind the sign and the word.
fn put_numbers_line(
    text: &mut Vec<u8>,
    finding: Finding,
    diagnoses: &[Diagnosis],
) -> Result<(), AllocError>
    ensures { OnOk result (text.new.items ≡ text.old.items ++ numbers_line finding diagnoses.now) }
{
    put_between(text, b"<p>", finding.sign(), b" ")?;
    text.extend_from_slice(finding.word())?;
    text.extend_from_slice(b":")?;
    put_number_links(text, finding, diagnoses)?;
    text.extend_from_slice(b"</p>\n")
}

// Whether this is the finding on some condition.
fn is_of_some(finding: Finding, diagnoses: &[Diagnosis]) -> bool
    ensures { result ≡ list_any (is_found finding) diagnoses.now }
{
    diagnoses.iter().any(|each| finding.is_of(each))
}

// The line, where there is something in it.
fn put_numbers_of(
    text: &mut Vec<u8>,
    finding: Finding,
    diagnoses: &[Diagnosis],
) -> Result<(), AllocError>
    ensures { OnOk result (text.new.items ≡ text.old.items ++ numbers_of finding diagnoses.now) }
{
    if is_of_some(finding, diagnoses) {
        put_numbers_line(text, finding, diagnoses)
    } else {
        Ok(())
    }
}

/// Adds the numbers of the conditions that are false, and of those that are open.
pub(crate) fn put_numbers(text: &mut Vec<u8>, diagnoses: &[Diagnosis]) -> Result<(), AllocError>
    ensures { OnOk result (text.new.items ≡ text.old.items ++ numbers_text diagnoses.now) }
{
    put_numbers_of(text, Finding::False, diagnoses)?;
    put_numbers_of(text, Finding::Open, diagnoses)
}

/// Adds the heading above the blocks, or that there are none.
pub(crate) fn put_heading(text: &mut Vec<u8>, diagnoses: &[Diagnosis]) -> Result<(), AllocError>
    ensures { OnOk result (text.new.items ≡ text.old.items ++ heading_text diagnoses.now) }
{
    if is_safe(diagnoses) && is_unblocked(diagnoses) {
        text.extend_from_slice(ALL_PROVED)
    } else {
        text.extend_from_slice(BEFORE_BLOCKS)
    }
}
