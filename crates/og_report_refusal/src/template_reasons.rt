//! Why nothing is printed of a template, in words.

ghost use Rattle.std.specs.Prelude.{◌≡◌, ◌≤◌, ◌^◌, IfOk, length};
ghost use Rattle.og_report_refusal.specs.Reasons.{wrong_text};
ghost use Rattle.og_report_refusal.specs.Templates.{IsOfName, IsKindReason, IsShortReason};

use crate::bytes::word_at;
use crate::hint::Hint;
use crate::reasons::{Reason, lex_reason, plain, put_place, rule_reason, wrong_word};
use crate::template_expected::template_expected;
use og_report_text::{put_constant, put_number};
use og_template::{FaultKind, TemplateFault};
use og_template_expand::{Bound, Outside};
use og_template_outline::{Detail, ExpandFault, Kind, NameDetail, Wanted, fault_detail};
use std::alloc::{AllocError, Global};

// A template, with the words that give its constants their values.
#[derive(Clone, Copy)]
pub(crate) struct Told<'r> {
    pub(crate) source: &'r [u8],
    pub(crate) words: &'r [&'r str],
}

// What a name of a kind is.
fn kind_text(kind: Kind) -> &'static str {
    match kind {
        Kind::Value => "' stands for a number",
        Kind::Variable => "' is a variable",
        Kind::Family => "' is a family of variables",
        Kind::Named(_) => "' is a named assertion",
    }
}

// What a place takes.
fn wanted_text(wanted: Wanted) -> &'static str {
    match wanted {
        Wanted::Value => ", expected a constant, a parameter or a bound name",
        Wanted::Multiplier => ", expected a number",
        Wanted::Factor => ", expected a number or a variable",
        Wanted::Variable => ", expected a variable",
        Wanted::Family => ", expected a family of variables",
        Wanted::Named => ", expected a named assertion",
    }
}

// Advice where a name of a kind stands in a place for another.
fn kind_hint(is: Kind, wanted: Wanted) -> Option<Hint> {
    match (is, wanted) {
        (Kind::Variable | Kind::Family, Wanted::Multiplier) => Some(Hint::Linear),
        (Kind::Variable | Kind::Family, Wanted::Value) => Some(Hint::NumbersAlone),
        (Kind::Family, Wanted::Factor | Wanted::Variable) => Some(Hint::WriteElement),
        (Kind::Variable, Wanted::Family) => Some(Hint::WriteFamily),
        (Kind::Named(_), Wanted::Value | Wanted::Multiplier | Wanted::Factor) => {
            Some(Hint::AssertionInSum)
        }
        (_, Wanted::Named) => Some(Hint::CompareName),
        _ => None,
    }
}

// Adds how many values an assertion takes.
fn put_values(text: &mut Vec<u8>, count: usize) -> Result<(), AllocError> {
    put_number(text, count as u128)?;
    let unit = if count == 1 { " value" } else { " values" };
    text.extend_from_slice(unit.as_bytes())
}

// What is said of a name, and advice where there is some.
fn of_detail(alloc: Global, source: &[u8], known: NameDetail) -> Result<Reason, AllocError>
    requires { length source.now ≤ 2 ^ 20 }
{
    let mut text = Vec::new(alloc);
    match known {
        NameDetail::First(first) => {
            text.extend_from_slice(b"' was declared before, at ")?;
            put_place(&mut text, source, first)?;
            Ok((text, Some(Hint::NamesNotHidden)))
        }
        NameDetail::Kind { is, wanted } => {
            text.extend_from_slice(kind_text(is).as_bytes())?;
            text.extend_from_slice(wanted_text(wanted).as_bytes())?;
            Ok((text, kind_hint(is, wanted)))
        }
        NameDetail::Count { parameters, values } => {
            text.extend_from_slice(b"' takes ")?;
            put_values(&mut text, parameters)?;
            text.extend_from_slice(b", found ")?;
            put_number(&mut text, values as u128)?;
            Ok((text, None))
        }
    }
}

// The name at a place in front of what is said of it.
fn named(alloc: Global, source: &[u8], at: u32, what: &[u8]) -> Result<Vec<u8>, AllocError>
    ensures { IfOk result (λ t. t.items ≡ wrong_text source.now at what.now) }
{
    let mut text = Vec::from_slice(alloc, b"'")?;
    text.extend_from_slice(word_at(source, at as usize))?;
    text.extend_from_slice(what)?;
    Ok(text)
}

// Adds the values of names that are bound round an index.
fn put_bound(text: &mut Vec<u8>, bound: &[Bound]) -> Result<(), AllocError> {
    let mut before: &[u8] = b"for ";
    for one in bound {
        text.extend_from_slice(before)?;
        text.extend_from_slice(&one.name)?;
        text.extend_from_slice(b" = ")?;
        put_constant(text, true, i128::from(one.value))?;
        before = b", ";
    }
    if bound.is_empty() {
        return Ok(());
    }
    text.extend_from_slice(b": ")
}

// Adds an index and the range that it is outside of.
fn put_index(text: &mut Vec<u8>, outside: &Outside) -> Result<(), AllocError> {
    text.extend_from_slice(b"index ")?;
    put_constant(text, true, i128::from(outside.index))?;
    text.extend_from_slice(b" of ")?;
    put_number(text, u128::from(outside.low))?;
    text.extend_from_slice(b"..")?;
    put_constant(
        text,
        true,
        i128::from(outside.low) + i128::from(outside.count) - 1,
    )
}

// Which index is outside of which range, and for which values of the bound names.
fn outside_reason(alloc: Global, outside: &Outside) -> Result<Reason, AllocError> {
    let mut text = Vec::new(alloc);
    put_bound(&mut text, &outside.bound)?;
    put_index(&mut text, outside)?;
    Ok((text, None))
}

impl Told<'_> {
    // Why a name is not as it must be.
    fn name_reason(&self, alloc: Global, fault: &TemplateFault) -> Result<Reason, AllocError>
        requires { length self.now.source.now ≤ 2 ^ 20 }
        ensures { IfOk result (λ r. IsOfName self.now.source.now fault.now.at r.0.items) }
    {
        match fault_detail(alloc, self.source, self.words, fault)? {
            Some(Detail::Name(known)) => {
                let (what, hint) = of_detail(alloc, self.source, known)?;
                Ok((named(alloc, self.source, fault.at, &what)?, hint))
            }
            _ => {
                let what = b"' is not as it must be here";
                Ok((named(alloc, self.source, fault.at, what)?, None))
            }
        }
    }

    // Why an index is not as it must be.
    fn index_reason(&self, alloc: Global, fault: &TemplateFault) -> Result<Reason, AllocError> {
        match fault_detail(alloc, self.source, self.words, fault)? {
            Some(Detail::Outside(outside)) => outside_reason(alloc, &outside),
            _ => plain(alloc, "the index is outside of the family's range", None),
        }
    }

    // Why a text is no template, or has no outline under these values.
    fn kind_reason(&self, alloc: Global, fault: &TemplateFault) -> Result<Reason, AllocError>
        requires { length self.now.source.now ≤ 2 ^ 20 }
        ensures { IfOk result (λ r. IsKindReason self.now.source.now fault.now.kind fault.now.at
            r.0.items) }
    {
        match fault.kind {
            FaultKind::Expected => template_expected(alloc, self.source, fault.at),
            FaultKind::DeclaredTwice | FaultKind::WrongKind | FaultKind::WrongCount => {
                self.name_reason(alloc, fault)
            }
            FaultKind::OutOfRange => self.index_reason(alloc, fault),
            FaultKind::Undeclared => {
                let why = "' is not declared before it is used here";
                wrong_word(alloc, self.source, fault.at, why)
            }
            FaultKind::ReservedName => {
                let why = "' ends in '_' and digits, as names of elements do";
                wrong_word(alloc, self.source, fault.at, why)
            }
            FaultKind::NameTooLong => {
                plain(alloc, "the name of an element has at most 64 bytes", None)
            }
            FaultKind::TooDeep => plain(alloc, "the 101st level opens here", None),
            FaultKind::TooManyStatements => {
                plain(alloc, "the 4097th statement begins here", None)
            }
            FaultKind::ValueTooLarge => {
                plain(
                    alloc,
                    "the value here is no 64-bit number with a sign",
                    None,
                )
            }
            FaultKind::BadModulus => plain(alloc, "the number behind 'mod' is below 1", None),
            FaultKind::BadRange => {
                let why = "a range begins at 0 or above, and has at most 256 values";
                plain(alloc, why, None)
            }
            FaultKind::TooManySteps => {
                plain(alloc, "the expansion takes more than 2097152 steps", None)
            }
            FaultKind::NothingLeft => {
                plain(alloc, "under these values nothing is left here", None)
            }
        }
    }

    /// Why nothing is printed of the template, which is not too long; and advice, where there is
    /// some.
    ///
    /// # Errors
    ///
    /// An allocation was refused.
    pub(crate) fn reason(&self, alloc: Global, fault: &ExpandFault) -> Result<Reason, AllocError>
        requires { length self.now.source.now ≤ 2 ^ 20 }
        ensures { IfOk result (λ r. IsShortReason self.now.source.now fault.now r.0.items) }
    {
        match fault {
            ExpandFault::Words(fault) => lex_reason(alloc, fault, self.source),
            ExpandFault::Template(fault) => self.kind_reason(alloc, fault),
            ExpandFault::Outline(fault) => rule_reason(alloc, fault, self.source),
            ExpandFault::ExpansionTooLong => {
                plain(
                    alloc,
                    "the outline would have more than 1048576 bytes",
                    None,
                )
            }
            ExpandFault::NotReadBack => {
                plain(alloc, "the outline was not read back as it is meant", None)
            }
        }
    }
}
