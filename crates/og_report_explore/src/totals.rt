//! How many starts and moments there were, and what follows.

ghost use Rattle.std.specs.Prelude.{◌≡◌, ◌++◌, ◌≤◌, [], length, OnOk};
ghost use Rattle.std.specs.List.{list_any};
ghost use Rattle.og_report_explore.specs.Totals.{is_stuck, is_unsafe, found_of, safe_of, unblocked_of, found_word, found_line, complete_word, between_text, range_text, ranges_text, given_text, starts_line, moments_line, ended_line, totals_text};

use crate::finding::{Fault, Finding};
use og_report_text::{put_constant, put_name, put_number, put_value};
use og_text::Name;
use std::alloc::AllocError;

/// What an exploration says of the runs from its starts.
#[derive(Clone, Copy, PartialEq, Eq)]
pub enum Found {
    /// All was explored, and nothing was found.
    Yes,
    /// Something was found.
    No,
    /// Nothing was found, and not all was explored.
    Open,
}

/// What was explored.
#[derive(Drop)]
pub struct Totals {
    /// How many starts there were.
    pub starts: u64,
    /// The least and the greatest value of each variable that is no auxiliary.
    pub given: Vec<(i64, i64)>,
    /// How many moments were met.
    pub moments: u64,
    /// At how many of them all have ended.
    pub ended: u64,
    /// Whether all moments were met.
    pub complete: bool,
}

impl Found {
    // No where something is found.
    fn of(complete: bool, is_found: bool) -> Found
        ensures { result ≡ found_of complete is_found }
    {
        if is_found {
            Found::No
        } else if complete {
            Found::Yes
        } else {
            Found::Open
        }
    }

    /// The word for it.
    pub fn word(self) -> &'static str
        ensures { result.now ≡ found_word self }
    {
        match self {
            Found::Yes => "yes",
            Found::No => "no",
            Found::Open => "open",
        }
    }
}

// Whether no process can step there.
fn is_stuck(finding: &Finding) -> bool
    ensures { result ≡ is_stuck finding.now }
{
    match &finding.fault {
        Fault::Assertion(..) => false,
        Fault::Overflow(..) => false,
        Fault::Post(..) => false,
        Fault::Stuck(_) => true,
    }
}

// Whether anything else is wrong there.
fn is_unsafe(finding: &Finding) -> bool
    ensures { result ≡ is_unsafe finding.now }
{
    !is_stuck(finding)
}

// Whether one of them is, in each sense.
fn has_unsafe(findings: &[Finding]) -> bool
    ensures { result ≡ list_any is_unsafe findings.now }
{
    findings.iter().any(|finding| is_unsafe(finding))
}

fn has_stuck(findings: &[Finding]) -> bool
    ensures { result ≡ list_any is_stuck findings.now }
{
    findings.iter().any(|finding| is_stuck(finding))
}

impl Totals {
    /// Whether no current assertion is false, nothing overflows and the postcondition is true at
    /// the end, in all runs from the starts. Takes no memory, like `unblocked`.
    pub fn safe(&self, findings: &[Finding]) -> Found
        ensures { result ≡ safe_of self.now.complete findings.now }
    {
        Found::of(self.complete, has_unsafe(findings))
    }

    /// Whether no run from the starts gets stuck.
    pub fn unblocked(&self, findings: &[Finding]) -> Found
        ensures { result ≡ unblocked_of self.now.complete findings.now }
    {
        Found::of(self.complete, has_stuck(findings))
    }
}

// A word and the finding.
fn put_found(text: &mut Vec<u8>, word: &[u8], found: Found) -> Result<(), AllocError>
    ensures { OnOk result (text.new.items ≡ text.old.items ++ found_line word.now found) }
{
    text.extend_from_slice(word)?;
    text.extend_from_slice(b" from these starts: ")?;
    text.extend_from_slice(found.word().as_bytes())?;
    text.extend_from_slice(b"\n")
}

// Whether all was explored.
fn put_complete(text: &mut Vec<u8>, complete: bool) -> Result<(), AllocError>
    ensures { OnOk result (text.new.items ≡ text.old.items ++ complete_word complete) }
{
    if complete {
        text.extend_from_slice(b"complete: yes\n")
    } else {
        text.extend_from_slice(b"complete: no\n")
    }
}

// The least and the greatest value of a variable.
fn put_between(
    text: &mut Vec<u8>,
    names: &[Name],
    var: u32,
    low: i64,
    high: i64,
) -> Result<(), AllocError>
    ensures { OnOk result (text.new.items ≡ text.old.items ++ between_text names.now var low high) }
{
    put_name(text, names, var)?;
    text.extend_from_slice(b" = ")?;
    put_constant(text, true, i128::from(low))?;
    text.extend_from_slice(b"..")?;
    put_constant(text, true, i128::from(high))
}

// The values of a variable.
fn put_range(
    text: &mut Vec<u8>,
    names: &[Name],
    var: u32,
    range: (i64, i64),
) -> Result<(), AllocError>
    ensures { OnOk result (text.new.items ≡ text.old.items ++ range_text names.now var range) }
{
    if range.0 == range.1 {
        put_value(text, names, var, i128::from(range.0))
    } else {
        put_between(text, names, var, range.0, range.1)
    }
}

// The values of each variable.
fn put_ranges(text: &mut Vec<u8>, names: &[Name], given: &[(i64, i64)]) -> Result<(), AllocError>
    requires { length given.now ≤ 256 }
    ensures { OnOk result (text.new.items ≡ text.old.items ++ ranges_text names.now [] 0 given.now) }
{
    let mut between: &[u8] = b"";
    for index in 0..given.len() {
        text.extend_from_slice(between)?;
        put_range(text, names, index as u32, given[index])?;
        between = b", ";
    }
    Ok(())
}

// The values of each variable, where there are variables.
fn put_given(text: &mut Vec<u8>, names: &[Name], given: &[(i64, i64)]) -> Result<(), AllocError>
    requires { length given.now ≤ 256 }
    ensures { OnOk result (text.new.items ≡ text.old.items ++ given_text names.now given.now) }
{
    if given.is_empty() {
        return text.extend_from_slice(b"nothing");
    }
    put_ranges(text, names, given)
}

// How many starts there were, and which.
fn put_starts(
    text: &mut Vec<u8>,
    names: &[Name],
    starts: u64,
    given: &[(i64, i64)],
) -> Result<(), AllocError>
    requires { length given.now ≤ 256 }
    ensures { OnOk result (text.new.items ≡ text.old.items
        ++ starts_line names.now starts given.now) }
{
    text.extend_from_slice(b"starts: ")?;
    put_number(text, u128::from(starts))?;
    text.extend_from_slice(b" with ")?;
    put_given(text, names, given)?;
    text.extend_from_slice(b"\n")
}

// How many moments were met.
fn put_moments(text: &mut Vec<u8>, moments: u64) -> Result<(), AllocError>
    ensures { OnOk result (text.new.items ≡ text.old.items ++ moments_line moments) }
{
    text.extend_from_slice(b"moments: ")?;
    put_number(text, u128::from(moments))?;
    text.extend_from_slice(b"\n")
}

// At how many of them all have ended.
fn put_ended(text: &mut Vec<u8>, ended: u64) -> Result<(), AllocError>
    ensures { OnOk result (text.new.items ≡ text.old.items ++ ended_line ended) }
{
    text.extend_from_slice(b"ended: ")?;
    put_number(text, u128::from(ended))?;
    text.extend_from_slice(b"\n")
}

/// Adds the totals to the text.
///
/// # Errors
///
/// An allocation was refused; the text has what it had, and perhaps a part of this.
pub(crate) fn put_totals(
    text: &mut Vec<u8>,
    names: &[Name],
    totals: &Totals,
    findings: &[Finding],
) -> Result<(), AllocError>
    requires { length totals.now.given.items ≤ 256 }
    ensures { OnOk result (text.new.items ≡ text.old.items
        ++ totals_text names.now totals.now findings.now) }
{
    put_starts(text, names, totals.starts, &totals.given)?;
    put_moments(text, totals.moments)?;
    put_ended(text, totals.ended)?;
    put_complete(text, totals.complete)?;
    put_found(text, b"safe", totals.safe(findings))?;
    put_found(text, b"unblocked", totals.unblocked(findings))
}
