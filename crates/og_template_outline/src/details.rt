//! What more is known of a fault of a template.

use crate::fault::{ExpandError, MeaningError};
use crate::numbering::name_detail;
use crate::template::template_of;
use crate::words::{given, split_by};
use og_template::{FaultKind, Template, TemplateFault};
use og_template_expand::{Binding, Outside, outside};
use std::alloc::{AllocError, Global};

/// What a name stands for.
#[derive(Clone, Copy, Drop, PartialEq, Eq)]
pub enum Kind {
    /// A number: a constant, a parameter or a bound name.
    Value,
    /// A variable.
    Variable,
    /// A family of variables.
    Family,
    /// An assertion with this many parameters.
    Named(usize),
}

/// What a place takes.
#[derive(Clone, Copy, Drop, PartialEq, Eq)]
pub enum Wanted {
    /// A number, in an expression.
    Value,
    /// A number, left of a `*`.
    Multiplier,
    /// A number or a variable, in a sum.
    Factor,
    /// A variable, left of `:=`.
    Variable,
    /// A family, in front of an index.
    Family,
    /// A named assertion.
    Named,
}

impl Wanted {
    /// Whether a name of a kind may stand there.
    pub(crate) fn takes(self, kind: Kind) -> bool {
        match self {
            Wanted::Value | Wanted::Multiplier => kind == Kind::Value,
            Wanted::Factor => kind == Kind::Value || kind == Kind::Variable,
            Wanted::Variable => kind == Kind::Variable,
            Wanted::Family => kind == Kind::Family,
            Wanted::Named => matches!(kind, Kind::Named(_)),
        }
    }
}

/// What more is known of a fault of a name.
#[derive(Clone, Copy, Drop, PartialEq, Eq)]
pub enum NameDetail {
    /// Where the name was declared or bound before: a byte offset in the template.
    First(u32),
    /// What the name stands for, and what the place takes.
    Kind { is: Kind, wanted: Wanted },
    /// How many parameters the assertion has, and how many values stand here.
    Count { parameters: usize, values: usize },
}

/// What more is known of a fault of a template.
#[derive(Drop)]
pub enum Detail {
    /// Of the fault of a name.
    Name(NameDetail),
    /// Of an index.
    Outside(Outside),
}

// The template of a text, if it is one.
fn read(alloc: Global, text: &[u8]) -> Result<Option<Template>, AllocError> {
    match template_of(alloc, text) {
        Ok(template) => Ok(Some(template)),
        Err(ExpandError::Memory) => Err(AllocError),
        Err(ExpandError::Fault(_)) => Ok(None),
    }
}

// The values that words give to the constants of a template; none where one gives none.
fn values_of<'a>(
    alloc: Global,
    template: &Template,
    words: &[&'a str],
) -> Result<Vec<Binding<'a>>, AllocError> {
    let split = split_by(alloc, &template.constants, words)?;
    match given(alloc, template, &split.constants) {
        Ok(values) => Ok(values),
        Err(MeaningError::Memory) => Err(AllocError),
        Err(_) => Ok(Vec::new(alloc)),
    }
}

// What more is known of this kind of fault of a template.
fn of_template(
    alloc: Global,
    template: &Template,
    words: &[&str],
    kind: FaultKind,
) -> Result<Option<Detail>, AllocError> {
    if kind == FaultKind::OutOfRange {
        let values = values_of(alloc, template, words)?;
        return Ok(outside(alloc, template, &values)?.map(Detail::Outside));
    }
    Ok(name_detail(alloc, template)?.map(Detail::Name))
}

/// What more is known of this fault, which is that of the template of this text, where its constants
/// have the values that the words give.
///
/// # Errors
///
/// An allocation was refused.
pub fn fault_detail(
    alloc: Global,
    text: &[u8],
    words: &[&str],
    fault: &TemplateFault,
) -> Result<Option<Detail>, AllocError> {
    let Some(template) = read(alloc, text)? else {
        return Ok(None);
    };
    let detail = of_template(alloc, &template, words, fault.kind);
    drop(template);
    detail
}
