//! The message about a refusal on standard error.

ghost use Rattle.std.specs.Prelude.{◌≡◌, ◌++◌, OnOk, IfOk, IfSome, IsTrue};
ghost use Rattle.og_report_text.specs.Faults.{place_of_input};
ghost use Rattle.og_report_refusal.specs.Advice.{IsKnown, front_text, is_one_line, IsAdvice};
ghost use Rattle.og_report_refusal.specs.Reasons.{IsReason};

use crate::head::put_head;
use crate::help::{help_of, put_help};
use crate::hint::Hint;
use crate::quotes::put_quote;
use crate::reasons::reason;
use og_report_text::InputFault;
use og_template::is_template;
use og_typed::{SourceFault, TypeFault};
use std::alloc::{AllocError, Global};

/// How a source and its certificates are named.
#[derive(Clone, Copy, PartialEq, Eq)]
pub struct Names<'a> {
    /// The source.
    pub source: &'a str,
    /// The certificates.
    pub certs: &'a str,
}

// The place in the source, where there is one.
fn place_of(fault: &InputFault) -> Option<u32>
    ensures { result ≡ place_of_input fault.now }
{
    match fault {
        InputFault::Source(fault) => fault.place(),
        InputFault::Conditions(_) | InputFault::Certs(_) | InputFault::Stray(_) => None,
    }
}

// Adds the line with a mark, where there is a place.
fn put_front(text: &mut Vec<u8>, source: &[u8], fault: &InputFault) -> Result<(), AllocError>
    requires { IsKnown source.now fault.now }
    ensures { OnOk result (text.new.items ≡ text.old.items
        ++ front_text source.now (place_of_input fault.now)) }
{
    match place_of(fault) {
        None => text.extend_from_slice(b"  "),
        Some(at) => put_quote(text, source, at),
    }
}

// Where a name stands that is not declared, if that is the fault.
fn undeclared(fault: &InputFault) -> Option<u32> {
    match fault {
        InputFault::Source(SourceFault::Resolve(TypeFault::Undeclared(at))) => Some(*at),
        _ => None,
    }
}

// Advice where a template stands in the place of an outline.
fn template_hint(fault: &InputFault, source: &[u8]) -> Option<Hint> {
    match fault {
        InputFault::Source(_) if is_template(source) => Some(Hint::ExpandTemplate),
        _ => None,
    }
}

/// Why a text is refused, and what to write.
#[derive(Drop)]
pub struct Advice {
    /// Why.
    pub reason: Vec<u8>,
    /// A line of advice without its end, where there is some.
    pub help: Option<Vec<u8>>,
}

/// Why an input is refused, as `advise` tells it.
///
/// # Errors
///
/// An allocation was refused.
pub fn why(
    alloc: Global,
    names: Names<'_>,
    fault: &InputFault,
    source: &[u8],
) -> Result<Advice, AllocError>
    requires { IsKnown source.now fault.now }
    ensures reason { IfOk result (λ w. IsReason source.now fault.now w.reason.items) }
    ensures help { IfOk result (λ w. IfSome w.help (λ h. IsTrue (is_one_line h.items))) }
{
    let (reason, hint) = reason(alloc, names, fault, source)?;
    let hint = template_hint(fault, source).or(hint);
    let help = help_of(alloc, hint, source, undeclared(fault))?;
    Ok(Advice { reason, help })
}

/// The message about a refusal: the file with the place, and the refusal's number and name; the
/// line of the source with a mark below it, and why; and a line of advice, where there is some.
/// Where another symbol is expected, all that may stand there are listed, and no other.
///
/// # Errors
///
/// An allocation was refused.
pub fn advise(
    alloc: Global,
    names: Names<'_>,
    fault: &InputFault,
    source: &[u8],
) -> Result<Vec<u8>, AllocError>
    requires { IsKnown source.now fault.now }
    ensures { IfOk result (λ text.
        IsAdvice names.entry.source.now names.entry.certs.now source.now fault.now text.items) }
{
    let mut text = Vec::new(alloc);
    put_head(&mut text, names, fault, source)?;
    put_front(&mut text, source, fault)?;
    let why = why(alloc, names, fault, source)?;
    text.extend_from_slice(&why.reason)?;
    text.extend_from_slice(b"\n")?;
    put_help(&mut text, &why.help)?;
    Ok(text)
}
