//! What would help where an assertion is too weak: a bound that no assertion gives.

ghost use Rattle.std.specs.Prelude.{◌≡◌, ◌++◌, ◌&&◌, [], nat_lt, not, length, map, option_map, slice_get, IfOk, OnOk};
ghost use Rattle.std.specs.List.{list_any};
ghost use Rattle.std.specs.Ordering.{int_eq};
ghost use Rattle.og_linear.specs.Linear.{value_at};
ghost use Rattle.og_typed.specs.Plain.{noted};
ghost use Rattle.og_report_findings.specs.Bounds.{assigned, numbers_at};
ghost use Rattle.og_report_findings.specs.Hints.{numbers_text, is_outside, is_hint, named_text, hint_text, hint_line, hint_lines, fault_hints, hints_text};

use crate::bounds::{assigned, is_bounded, others};
use og_report_explain::Fault;
use og_report_prove::Block;
use og_report_runs::Run;
use og_report_text::{put_constant, put_name};
use og_review_text::walk_of;
use og_text::Name;
use og_typed::{Note, Outline};
use std::alloc::{AllocError, Global};
use std::marker::Model;

/// The most numbers that are told.
const NUMBER_LIMIT: usize = 8;

// Numbers with `and` between two.
fn put_numbers(text: &mut Vec<u8>, numbers: &[i128]) -> Result<(), AllocError>
    ensures { OnOk result (text.new.items ≡ text.old.items ++ numbers_text [] numbers.now) }
{
    let mut between: &[u8] = b"";
    for number in numbers {
        text.extend_from_slice(between)?;
        put_constant(text, true, *number)?;
        between = b" and ";
    }
    Ok(())
}

// The name of the variable between these words.
fn put_named(
    text: &mut Vec<u8>,
    names: &[Name],
    before: &[u8],
    var: u32,
    after: &[u8],
) -> Result<(), AllocError>
    ensures { OnOk result (text.new.items ≡ text.old.items
        ++ named_text names.now before.now var after.now) }
{
    text.extend_from_slice(before)?;
    put_name(text, names, var)?;
    text.extend_from_slice(after)
}

// That no assertion bounds the variable to these numbers.
fn put_hint(
    text: &mut Vec<u8>,
    names: &[Name],
    var: u32,
    numbers: &[i128],
) -> Result<(), AllocError>
    ensures { OnOk result (text.new.items ≡ text.old.items ++ hint_text names.now var numbers.now) }
{
    put_named(
        text,
        names,
        b"  no assertion here bounds ",
        var,
        b", which is assigned ",
    )?;
    put_numbers(text, numbers)?;
    text.extend_from_slice(b" alone\n")
}

/// The numbers that an outline assigns to each of its variables. Contracts see it as the outline.
#[derive(Drop)]
pub struct Hints<'a> {
    outline: &'a Outline,
    table: Vec<Option<Vec<i128>>>,
}

impl<'a> Model for Hints<'a> {
    ghost use Rattle.std.specs.Prelude.{◌≡◌, map, option_map};
    ghost use Rattle.og_typed.specs.Syntax.{Program};
    ghost use Rattle.og_typed.specs.Codes.{program_code};
    ghost use Rattle.og_report_findings.specs.Bounds.{assigned};

    ghost Value = { Program };

    ghost coded = { program_code };

    ghost view = { λ h. h.outline.now };

    ghost invariant = { λ h. map (option_map (λ l. l.items)) h.table.items ≡ assigned h.outline.now };
}

// Whether this is one of the numbers.
fn has(numbers: &[i128], value: i128) -> bool
    ensures { result ≡ list_any (λ n. int_eq n value) numbers.now }
{
    numbers.iter().any(|number| *number == value)
}

// The state of a block, and the assertions that are true there.
#[derive(Clone, Copy)]
struct Place<'s, 'a> {
    known: &'s [&'a Note],
    values: &'s [i128],
}

impl<'s, 'a> Place<'s, 'a> {
    // The value of a variable, 0 beyond the end.
    fn value(&self, var: u32) -> i128
        ensures { result ≡ value_at self.now.values.now var }
    {
        self.values.get(var as usize).copied().unwrap_or(0)
    }

    // Whether there are a few numbers, and the variable has none of them.
    fn is_outside(&self, var: u32, numbers: &[i128]) -> bool
        ensures { result ≡ is_outside self.now.values.now var numbers.now }
    {
        0 < numbers.len() && numbers.len() <= NUMBER_LIMIT && !has(numbers, self.value(var))
    }
}

impl<'a> Hints<'a> {
    /// What is assigned in the outline.
    ///
    /// # Errors
    ///
    /// An allocation was refused.
    pub fn new(alloc: Global, outline: &'a Outline) -> Result<Hints<'a>, AllocError>
        ensures { IfOk result (λ h. h ≡ outline.now) }
    {
        let walk = walk_of(alloc, outline)?;
        let table = assigned(alloc, outline, &walk.steps)?;
        Ok(Hints { outline, table })
    }

    /// The outline.
    pub(crate) fn outline(&self) -> &'a Outline
        ensures { result.now ≡ self.now }
    {
        self.outline
    }

    // The numbers that a variable is assigned.
    fn numbers(&self, var: u32) -> Option<&[i128]>
        ensures { option_map (λ n. n.now) result ≡ numbers_at (assigned self.now) var }
    {
        match self.table.get(var as usize) {
            Some(Some(numbers)) => Some(numbers.as_slice()),
            Some(None) | None => None,
        }
    }

    // Whether a bound on the variable to these would help.
    fn is_hint(
        &self,
        alloc: Global,
        place: Place,
        var: u32,
        numbers: &[i128],
    ) -> Result<bool, AllocError>
        ensures { IfOk result (λ b. b ≡ is_hint self.now
            (map (λ n. noted n.now) place.entry.known.now) place.entry.values.now var numbers.now) }
    {
        if !place.is_outside(var, numbers) {
            return Ok(false);
        }
        self.outline.follows_rule();
        let others = others(alloc, self.outline.names().len() as u32, var)?;
        Ok(!is_bounded(alloc, place.known, var, &others)?)
    }

    // A line for the variable, where one would help.
    fn put_line(&self, text: &mut Vec<u8>, place: Place, var: u32) -> Result<(), AllocError>
        ensures { OnOk result (text.new.items ≡ text.old.items ++ hint_line self.now
            (map (λ n. noted n.now) place.entry.known.now) place.entry.values.now var
            (numbers_at (assigned self.now) var)) }
    {
        let Some(numbers) = self.numbers(var) else {
            return Ok(());
        };
        if !self.is_hint(*text.allocator(), place, var, numbers)? {
            return Ok(());
        }
        put_hint(text, self.outline.names(), var, numbers)
    }

    fn put_lines(&self, text: &mut Vec<u8>, place: Place, vars: &[u32]) -> Result<(), AllocError>
        ensures { OnOk result (text.new.items ≡ text.old.items ++ hint_lines self.now
            (map (λ n. noted n.now) place.entry.known.now) place.entry.values.now vars.now) }
    {
        for var in vars {
            self.put_line(text, place, *var)?;
        }
        Ok(())
    }

    // Below a false conjunct, for the variables that are printed first.
    fn put_for_fault(&self, text: &mut Vec<u8>, block: &Block) -> Result<(), AllocError>
        ensures { OnOk result (text.new.items ≡ text.old.items ++ fault_hints self.now
            block.now block.now.details.value.explanation.fault) }
    {
        let details = &block.details;
        let place = Place {
            known: &details.explanation.known,
            values: block.values.as_slice(),
        };
        match &details.explanation.fault {
            Fault::False(..) => self.put_lines(text, place, &details.state),
            Fault::TooLarge(..) | Fault::Blocked(_) => Ok(()),
        }
    }

    /// Adds a line for each variable that the block prints first, where no run gets to its state and
    /// a bound would help: the variable is assigned at most eight different numbers and nothing else,
    /// the state has none of these, and no assertion that is true there has a conjunct about it alone.
    ///
    /// # Errors
    ///
    /// An allocation was refused; the text has what it had, and perhaps a part of this.
    pub fn put(&self, text: &mut Vec<u8>, block: &Block, run: &Run) -> Result<(), AllocError>
        ensures { OnOk result (text.new.items ≡ text.old.items
            ++ hints_text self.now block.now run.now) }
    {
        match run {
            Run::Never => self.put_for_fault(text, block),
            Run::Reached(_) | Run::Open => Ok(()),
        }
    }
}
