//! The report of a condition, and the totals.

ghost use Rattle.std.specs.Prelude.{◌≡◌, ◌++◌, count_by, ℕ, List, codes, OnOk};
ghost use Rattle.og_cond.specs.Seen.{seen};
ghost use Rattle.og_cert_read.specs.Firsts.{found as number_of};
ghost use Rattle.og_report_prove.specs.Effects.{effect_of, after_effect, after_diagnosis};
ghost use Rattle.og_report_prove.specs.Together.{shown, more_text};
ghost use Rattle.og_report_prove.specs.Report.{body_text, one_text, head_text, is_proved, is_false, is_open, is_safe, is_unblocked, yes_line, number_line, totals_text, diagnosis_text};

use crate::block::{Block, put_block};
use crate::diagnosis::Diagnosis;
use crate::earlier::{Firsts, effect_of, effect_text, number_or_add, put_alike};
use og_cond::Condition;
use og_report_text::{Origins, put_number, put_number_between};
use og_text::Name;
use std::alloc::AllocError;

// The finding on a condition, and on how many more with it.
fn put_found(text: &mut Vec<u8>, word: &[u8], more: usize) -> Result<(), AllocError>
    ensures { OnOk result (text.new.items ≡ text.old.items
        ++ (word.now ++ (more_text more ++ codes "\n"))) }
{
    text.extend_from_slice(word)?;
    if more == 0 {
        return text.extend_from_slice(b"\n");
    }
    put_number_between(text, b" (and ", more as u128, b" more)\n")
}

/// Adds the place, the number from 1 and the kind of a condition, the finding on it as a word, and
/// how many more are reported with it, as a line.
///
/// # Errors
///
/// An allocation was refused; the text has what it had, and perhaps a part of this.
pub fn put_head(
    text: &mut Vec<u8>,
    origins: &Origins,
    number: u128,
    condition: &Condition,
    word: &[u8],
    more: usize,
) -> Result<(), AllocError>
    requires { origins.now.places.now ≡ origins.now.source.now }
    ensures { OnOk result (text.new.items ≡ text.old.items ++ head_text origins.now.source.now
        origins.now.rows number (seen condition.now) word.now more) }
{
    origins.put_place(text, condition.at)?;
    text.extend_from_slice(b": condition ")?;
    put_number(text, number)?;
    text.extend_from_slice(b" ")?;
    text.extend_from_slice(condition.kind.name().as_bytes())?;
    origins.put_action_place(text, condition.action_at)?;
    text.extend_from_slice(b": ")?;
    put_found(text, word, more)
}

/// What the whole report is printed with.
#[derive(Clone, Copy)]
pub struct Page<'a> {
    /// The names of the variables.
    pub names: &'a [Name],
    /// How places are reported.
    pub origins: &'a Origins<'a>,
}

// The block of a false condition, or that it is as an earlier one.
fn put_body(
    text: &mut Vec<u8>,
    firsts: &mut Firsts,
    page: Page,
    number: u128,
    block: &Block,
) -> Result<(), AllocError>
    requires { page.origins.now.places.now ≡ page.origins.now.source.now }
    ensures text { OnOk result (text.new.items ≡ text.old.items ++ body_text page.entry.names.now
        page.entry.origins.now.source.now page.entry.origins.now.rows (λ t. number_of t firsts.old)
        block.now) }
    ensures firsts { OnOk result ((t : List ℕ) → number_of t firsts.new
        ≡ after_effect page.entry.names.now page.entry.origins.now.source.now page.entry.origins.now.rows (effect_of block.now.details.value.explanation.action block.now.details.value.explanation.fault) t number (number_of t firsts.old)) }
{
    let Some((at, found)) = effect_of(&block.details.explanation) else {
        return put_block(text, page.names, page.origins, block);
    };
    let effect = effect_text(*text.allocator(), page.names, page.origins, at, found)?;
    match number_or_add(firsts, effect, number)? {
        Some(first) => put_alike(text, page.names, first, found),
        None => put_block(text, page.names, page.origins, block),
    }
}

// A condition by its number from 1, and the finding on it.
#[derive(Clone, Copy)]
struct Item<'i, 'c, 'd> {
    number: u128,
    condition: &'i Condition<'c>,
    diagnosis: &'i Diagnosis<'d>,
}

// The report of a condition, and of how many more with it.
fn put_one(
    text: &mut Vec<u8>,
    firsts: &mut Firsts,
    page: Page,
    item: Item,
    more: usize,
) -> Result<(), AllocError>
    requires { page.origins.now.places.now ≡ page.origins.now.source.now }
    ensures text { OnOk result (text.new.items ≡ text.old.items ++ one_text page.entry.names.now
        page.entry.origins.now.source.now page.entry.origins.now.rows (λ t. number_of t firsts.old)
        item.entry.number (seen item.entry.condition.now) more item.entry.diagnosis.now) }
    ensures firsts { OnOk result ((t : List ℕ) → number_of t firsts.new
        ≡ after_diagnosis page.entry.names.now page.entry.origins.now.source.now page.entry.origins.now.rows item.entry.diagnosis.now t item.entry.number (number_of t firsts.old)) }
{
    let (number, condition) = (item.number, item.condition);
    match item.diagnosis {
        Diagnosis::Proved => Ok(()),
        Diagnosis::False(block) => {
            put_head(text, page.origins, number, condition, b"false", more)?;
            put_body(text, firsts, page, number, block)
        }
        Diagnosis::Open => put_head(text, page.origins, number, condition, b"open", more),
    }
}

/// Adds the report of a condition, by its number from 1, and of how many more with it; nothing of
/// one that is reported with an earlier one. `firsts` has the numbers of the conditions before it
/// that had an effect first.
///
/// # Errors
///
/// An allocation was refused; the text has what it had, and perhaps a part of this.
pub fn put_diagnosis(
    text: &mut Vec<u8>,
    firsts: &mut Firsts,
    page: Page,
    number: u128,
    condition: &Condition,
    more: Option<usize>,
    diagnosis: &Diagnosis,
) -> Result<(), AllocError>
    requires { page.origins.now.places.now ≡ page.origins.now.source.now }
    ensures text { OnOk result (text.new.items ≡ text.old.items ++ diagnosis_text page.entry.names.now
        page.entry.origins.now.source.now page.entry.origins.now.rows (λ t. number_of t firsts.old)
        number (seen condition.now) more diagnosis.now) }
    ensures firsts { OnOk result ((t : List ℕ) → number_of t firsts.new
        ≡ after_diagnosis page.entry.names.now page.entry.origins.now.source.now page.entry.origins.now.rows (shown more diagnosis.now) t number (number_of t firsts.old)) }
{
    let item = Item {
        number,
        condition,
        diagnosis,
    };
    match more {
        None => Ok(()),
        Some(more) => put_one(text, firsts, page, item, more),
    }
}

impl<'a> Diagnosis<'a> {
    /// Whether the condition is proved. Takes no memory.
    pub fn is_proved(&self) -> bool
        ensures { result ≡ is_proved self.now }
    {
        match self {
            Diagnosis::Proved => true,
            Diagnosis::False(_) => false,
            Diagnosis::Open => false,
        }
    }

    /// Whether the condition is false. Takes no memory.
    pub fn is_false(&self) -> bool
        ensures { result ≡ is_false self.now }
    {
        matches!(self, Diagnosis::False(_))
    }

    /// Whether it was neither proved nor found false. Takes no memory.
    pub fn is_open(&self) -> bool
        ensures { result ≡ is_open self.now }
    {
        matches!(self, Diagnosis::Open)
    }
}

/// How many conditions are reported as proved, as false and as open.
#[derive(Clone, Copy, PartialEq, Eq)]
pub struct Totals {
    /// How many are proved.
    pub proved: usize,
    /// How many are false.
    pub refuted: usize,
    /// How many are neither.
    pub still_open: usize,
}

impl Totals {
    /// Of all conditions. Takes no memory.
    pub fn of(diagnoses: &[Diagnosis]) -> Totals
        ensures proved { result.proved ≡ count_by is_proved diagnoses.now }
        ensures refuted { result.refuted ≡ count_by is_false diagnoses.now }
        ensures still_open { result.still_open ≡ count_by is_open diagnoses.now }
    {
        Totals {
            proved: diagnoses.iter().filter(|each| each.is_proved()).count(),
            refuted: diagnoses.iter().filter(|each| each.is_false()).count(),
            still_open: diagnoses.iter().filter(|each| each.is_open()).count(),
        }
    }
}

/// Whether every condition but the last is proved. Takes no memory.
pub fn is_safe(diagnoses: &[Diagnosis]) -> bool
    ensures { result ≡ is_safe diagnoses.now }
{
    match diagnoses {
        [] => true,
        [most @ .., _] => most.iter().all(|each| each.is_proved()),
    }
}

/// Whether the last condition is proved. Takes no memory.
pub fn is_unblocked(diagnoses: &[Diagnosis]) -> bool
    ensures { result ≡ is_unblocked diagnoses.now }
{
    match diagnoses {
        [] => false,
        [.., last] => last.is_proved(),
    }
}

/// Adds a word and a number, as a line.
///
/// # Errors
///
/// An allocation was refused; the text has what it had, and perhaps a part of this.
pub fn put_number_line(text: &mut Vec<u8>, word: &[u8], number: usize) -> Result<(), AllocError>
    ensures { OnOk result (text.new.items ≡ text.old.items ++ number_line word.now number) }
{
    text.extend_from_slice(word)?;
    text.extend_from_slice(b": ")?;
    put_number(text, number as u128)?;
    text.extend_from_slice(b"\n")
}

/// Adds a word and an answer, as a line.
///
/// # Errors
///
/// An allocation was refused; the text has what it had, and perhaps a part of this.
pub fn put_yes_line(text: &mut Vec<u8>, word: &[u8], yes: bool) -> Result<(), AllocError>
    ensures { OnOk result (text.new.items ≡ text.old.items ++ yes_line word.now yes) }
{
    text.extend_from_slice(word)?;
    text.extend_from_slice(b": ")?;
    if yes {
        text.extend_from_slice(b"yes\n")
    } else {
        text.extend_from_slice(b"no\n")
    }
}

/// Adds the totals.
///
/// # Errors
///
/// An allocation was refused; the text has what it had, and perhaps a part of this.
pub fn put_totals(text: &mut Vec<u8>, diagnoses: &[Diagnosis]) -> Result<(), AllocError>
    ensures { OnOk result (text.new.items ≡ text.old.items ++ totals_text diagnoses.now) }
{
    let totals = Totals::of(diagnoses);
    put_number_line(text, b"conditions", diagnoses.len())?;
    put_number_line(text, b"proved", totals.proved)?;
    put_number_line(text, b"false", totals.refuted)?;
    put_number_line(text, b"open", totals.still_open)?;
    put_yes_line(text, b"safe", is_safe(diagnoses))?;
    put_yes_line(text, b"unblocked", is_unblocked(diagnoses))
}
