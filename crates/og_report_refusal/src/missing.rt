//! How many conditions have no certificate.

ghost use Rattle.std.specs.Prelude.{◌≡◌, ◌++◌, OnOk, IfOk, codes};
ghost use Rattle.std.specs.Fmt.{decimal};
ghost use Rattle.og_report_refusal.specs.Names.{command_text};
ghost use Rattle.og_report_refusal.specs.Missing.{counts_text, missing_text, length_text, long_text};

use crate::put_command;
use og_find::Missing;
use og_report_text::put_number;
use std::alloc::{AllocError, Global};

const LACKING: &str = " conditions have no certificate; ";

// Adds two numbers with `of` between them.
fn put_counts(text: &mut Vec<u8>, missing: Missing) -> Result<(), AllocError>
    ensures { OnOk result (text.new.items ≡ text.old.items
        ++ counts_text missing.count missing.conditions) }
{
    put_number(text, missing.count as u128)?;
    text.extend_from_slice(b" of ")?;
    put_number(text, missing.conditions as u128)
}

// Adds the command that proves a source of this name, between two texts.
fn put_prove(text: &mut Vec<u8>, before: &str, name: &str, after: &str) -> Result<(), AllocError>
    ensures { OnOk result (text.new.items ≡ text.old.items
        ++ (before.now ++ (command_text (codes "og prove ") name.now ++ after.now))) }
{
    text.extend_from_slice(before.as_bytes())?;
    put_command(text, "og prove ", name)?;
    text.extend_from_slice(after.as_bytes())
}

/// The line that this many conditions of a source of this name have no certificate, and which
/// command says why.
///
/// # Errors
///
/// An allocation was refused.
pub fn missing_line(alloc: Global, name: &str, missing: Missing) -> Result<Vec<u8>, AllocError>
    ensures { IfOk result (λ text.
        text.items ≡ missing_text name.now missing.count missing.conditions) }
{
    let mut text = Vec::from_slice(alloc, b"og: ")?;
    put_counts(&mut text, missing)?;
    put_prove(&mut text, LACKING, name, " says why\n")?;
    Ok(text)
}

// Adds a number between two texts.
fn put_count(text: &mut Vec<u8>, before: &str, count: u128, after: &str) -> Result<(), AllocError>
    ensures { OnOk result (text.new.items ≡ text.old.items
        ++ (before.now ++ (decimal count ++ after.now))) }
{
    text.extend_from_slice(before.as_bytes())?;
    put_number(text, count)?;
    text.extend_from_slice(after.as_bytes())
}

// Adds in which version the text may be written, where there is one, or else what does without.
fn put_length(text: &mut Vec<u8>, name: &str, second: Option<usize>) -> Result<(), AllocError>
    ensures { OnOk result (text.new.items ≡ text.old.items ++ length_text name.now second) }
{
    match second {
        Some(bytes) => put_count(text, ": --version 2 takes ", bytes as u128, "\n"),
        None => put_prove(text, ": ", name, " judges without them\n"),
    }
}

/// The line that the certificates of a source of this name take more bytes than the limit, and how
/// many they take in version 2, where these are no more; or else what does without certificates.
///
/// # Errors
///
/// An allocation was refused.
pub fn long_line(
    alloc: Global,
    name: &str,
    limit: usize,
    second: Option<usize>,
) -> Result<Vec<u8>, AllocError>
    ensures { IfOk result (λ text. text.items ≡ long_text name.now limit second) }
{
    let mut text = Vec::from_slice(alloc, b"og: certificates of more than ")?;
    put_number(&mut text, limit as u128)?;
    text.extend_from_slice(b" bytes")?;
    put_length(&mut text, name, second)?;
    Ok(text)
}
