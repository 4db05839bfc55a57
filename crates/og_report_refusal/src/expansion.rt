//! The message about a template of which nothing is printed.

ghost use Rattle.std.specs.Prelude.{◌≡◌, ◌≤◌, ◌<◌, ◌^◌, ◌++◌, None, Some, IfOk, IfSome, IsTrue, OnOk, length, map, option_map, codes};
ghost use Rattle.og_report_refusal.specs.Advice.{is_one_line, hint_text, place_text, refusal_text};
ghost use Rattle.og_report_refusal.specs.Names.{shown_name};
ghost use Rattle.og_report_refusal.specs.Quotes.{shown_byte};
ghost use Rattle.og_template_outline.specs.Faults.{number_of_fault, name_of_fault, place_of_fault};
ghost use Rattle.og_report_refusal.specs.Expansion.{IsShownReason, IsTold, IsExpansionRemark, IsRemarkAt};

use crate::advice::Advice;
use crate::help::{help_of, put_help};
use crate::quotes::put_shown;
use crate::template_reasons::Told;
use crate::{put_name, put_quote};
use og_report_text::{Position, put_opening, put_position};
use og_template::FaultKind;
use og_template_outline::ExpandFault;
use og_text::{SOURCE_LIMIT, line_col};
use std::alloc::{AllocError, Global};

// Adds the number and the name of a refusal.
fn put_refusal(text: &mut Vec<u8>, number: u8, name: &str) -> Result<(), AllocError>
    ensures { OnOk result (text.new.items ≡ text.old.items ++ refusal_text number name.now) }
{
    text.extend_from_slice(b": ")?;
    put_opening(text, number, name)?;
    text.extend_from_slice(b"\n")
}

// Adds a place of the template.
fn put_place(text: &mut Vec<u8>, source: &[u8], at: u32) -> Result<(), AllocError>
    requires { length source.now ≤ 2 ^ 20 }
    ensures { OnOk result (text.new.items ≡ text.old.items ++ place_text source.now (Some at)) }
{
    let end = source.len() as u32;
    let (line, column) = line_col(source, at.min(end));
    text.extend_from_slice(b":")?;
    put_position(text, Position { line, column })
}

// Adds a reason and the line of advice.
fn put_reason(text: &mut Vec<u8>, reason: &[u8], help: &Option<Vec<u8>>) -> Result<(), AllocError>
    ensures { OnOk result (text.new.items ≡ text.old.items
        ++ (map shown_byte reason.now ++ (codes "\n" ++ hint_text (option_map (λ h. h.items)
        help.now)))) }
{
    put_shown(text, reason)?;
    text.extend_from_slice(b"\n")?;
    put_help(text, help)
}

// Adds why.
fn put_told(text: &mut Vec<u8>, told: &[u8]) -> Result<(), AllocError>
    ensures { OnOk result (text.new.items ≡ text.old.items ++ told.now) }
{
    text.extend_from_slice(told)
}

// Where a name stands that is not declared, if that is the fault.
fn undeclared(fault: &ExpandFault) -> Option<u32> {
    match fault {
        ExpandFault::Template(fault) if fault.kind == FaultKind::Undeclared => Some(fault.at),
        _ => None,
    }
}

/// A template of which nothing is printed.
#[derive(Clone, Copy)]
pub struct Refused<'r> {
    /// The name of the template.
    pub name: &'r str,
    /// Its text.
    pub source: &'r [u8],
    /// The words behind it, some of which give its constants their values.
    pub words: &'r [&'r str],
    /// What is wrong.
    pub fault: &'r ExpandFault,
}

impl Refused<'_> {
    // The file with the place, and the refusal.
    fn placed_head(&self, alloc: Global, at: u32) -> Result<Vec<u8>, AllocError>
        requires { length self.now.source.now ≤ 2 ^ 20 }
        ensures { IfOk result (λ text. text.items
            ≡ (shown_name self.now.name.now ++ place_text self.now.source.now (Some at))
            ++ refusal_text (number_of_fault self.now.fault.now) (name_of_fault self.now.fault.now)) }
    {
        let mut text = Vec::new(alloc);
        put_name(&mut text, self.name)?;
        put_place(&mut text, self.source, at)?;
        put_refusal(&mut text, self.fault.number(), self.fault.name())?;
        Ok(text)
    }

    // The file, and the refusal.
    fn unplaced_head(&self, alloc: Global) -> Result<Vec<u8>, AllocError>
        ensures { IfOk result (λ text. text.items ≡ shown_name self.now.name.now
            ++ refusal_text (number_of_fault self.now.fault.now) (name_of_fault self.now.fault.now)) }
    {
        let mut text = Vec::new(alloc);
        put_name(&mut text, self.name)?;
        put_refusal(&mut text, self.fault.number(), self.fault.name())?;
        Ok(text)
    }

    /// Why, in printable characters, and a line of advice.
    ///
    /// # Errors
    ///
    /// An allocation was refused.
    pub fn why(&self, alloc: Global) -> Result<Advice, AllocError>
        ensures reason { IfOk result (λ w. IsShownReason self.now.source.now self.now.fault.now
            w.reason.items) }
        ensures help { IfOk result (λ w. IfSome w.help (λ h. IsTrue (is_one_line h.items))) }
    {
        if SOURCE_LIMIT < self.source.len() {
            let reason = Vec::from_slice(alloc, b"a template has at most 1048576 bytes")?;
            return Ok(Advice { reason, help: None });
        }
        self.placed_why(alloc)
    }

    // The same, where the template is not too long.
    fn placed_why(&self, alloc: Global) -> Result<Advice, AllocError>
        requires { length self.now.source.now ≤ 2 ^ 20 }
        ensures reason { IfOk result (λ w. IsShownReason self.now.source.now self.now.fault.now
            w.reason.items) }
        ensures help { IfOk result (λ w. IfSome w.help (λ h. IsTrue (is_one_line h.items))) }
    {
        let template = Told {
            source: self.source,
            words: self.words,
        };
        let (reason, hint) = template.reason(alloc, self.fault)?;
        let help = help_of(alloc, hint, self.source, undeclared(self.fault))?;
        let mut shown = Vec::new(alloc);
        put_shown(&mut shown, &reason)?;
        Ok(Advice {
            reason: shown,
            help,
        })
    }

    // Why, and the line of advice, where the template is not too long.
    fn told(&self, alloc: Global) -> Result<Vec<u8>, AllocError>
        requires { length self.now.source.now ≤ 2 ^ 20 }
        ensures { IfOk result (λ text. IsTold self.now.source.now self.now.fault.now text.items) }
    {
        let template = Told {
            source: self.source,
            words: self.words,
        };
        let (reason, hint) = template.reason(alloc, self.fault)?;
        let help = help_of(alloc, hint, self.source, undeclared(self.fault))?;
        let mut text = Vec::new(alloc);
        put_reason(&mut text, &reason, &help)?;
        Ok(text)
    }

    // The message at a place.
    fn placed(&self, alloc: Global, at: u32) -> Result<Vec<u8>, AllocError>
        requires { length self.now.source.now ≤ 2 ^ 20 }
        ensures { IfOk result (λ text. IsRemarkAt self.now.name.now self.now.source.now
            self.now.fault.now (Some at) text.items) }
    {
        let mut text = self.placed_head(alloc, at)?;
        put_quote(&mut text, self.source, at)?;
        let told = self.told(alloc)?;
        put_told(&mut text, &told)?;
        Ok(text)
    }

    // The message without a place.
    fn unplaced(&self, alloc: Global) -> Result<Vec<u8>, AllocError>
        requires { length self.now.source.now ≤ 2 ^ 20 }
        ensures { IfOk result (λ text. IsRemarkAt self.now.name.now self.now.source.now
            self.now.fault.now None text.items) }
    {
        let mut text = self.unplaced_head(alloc)?;
        text.extend_from_slice(b"  ")?;
        let told = self.told(alloc)?;
        put_told(&mut text, &told)?;
        Ok(text)
    }

    // The message where the template is too long.
    fn too_long(&self, alloc: Global) -> Result<Vec<u8>, AllocError>
        requires { 2 ^ 20 < length self.now.source.now }
        ensures { IfOk result (λ text. IsRemarkAt self.now.name.now self.now.source.now
            self.now.fault.now None text.items) }
    {
        let mut text = self.unplaced_head(alloc)?;
        text.extend_from_slice(b"  a template has at most 1048576 bytes\n")?;
        Ok(text)
    }

    /// The message: the file with the place, the fault's number and name, the line of the template
    /// with a mark below it, and why; and a line of advice, where there is some. Without a place
    /// there is no line of the template.
    ///
    /// # Errors
    ///
    /// An allocation was refused.
    pub fn remark(&self, alloc: Global) -> Result<Vec<u8>, AllocError>
        ensures { IfOk result (λ text. IsExpansionRemark self.now.name.now self.now.source.now
            self.now.fault.now text.items) }
    {
        if SOURCE_LIMIT < self.source.len() {
            return self.too_long(alloc);
        }
        match self.fault.place() {
            Some(at) => self.placed(alloc, at),
            None => self.unplaced(alloc),
        }
    }
}
