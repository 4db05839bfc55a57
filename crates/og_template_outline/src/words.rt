//! The values that words give to constants.

ghost use Rattle.std.specs.Prelude.{◌≡◌, map, IfErr, IfOk};
ghost use Rattle.og_template_outline.specs.Words.{IsOneOrOther, is_one, names_one, IsSplitBy};

use crate::fault::MeaningError;
use og_template::{Constant, Template};
use og_template_expand::Binding;
use std::alloc::{AllocError, Global};

// The number that a text writes: one digit or more, with or without one `-` before them.
fn integer(text: &str) -> Option<i64> {
    if text.as_bytes().first() == Some(&b'+') {
        return None;
    }
    text.parse::<i64>().ok()
}

fn is_constant(constants: &[Constant], name: &[u8]) -> bool
    ensures { result ≡ is_one constants.now name.now }
{
    constants
        .iter()
        .any(|constant| constant.name.name.as_slice() == name)
}

fn is_given(given: &[Binding<'_>], name: &[u8]) -> bool {
    given.iter().any(|binding| binding.name == name)
}

// The name and the value that a word gives.
fn said<'a>(word: &'a str) -> Option<Binding<'a>> {
    let (name, text) = word.split_once('=')?;
    Some(Binding {
        name: name.as_bytes(),
        value: integer(text)?,
    })
}

/// The values that the words give, each NAME=INT of a constant that no word before it names.
pub(crate) fn given<'a>(
    alloc: Global,
    template: &Template,
    words: &[&'a str],
) -> Result<Vec<Binding<'a>>, MeaningError<'a>>
    ensures { IfErr result (IsOneOrOther (map (λ w. w.now) words.now)) }
{
    let mut given = Vec::new(alloc);
    for word in words {
        let Some(binding) = said(word) else {
            return Err(MeaningError::BadValue(word));
        };
        if !is_constant(&template.constants, binding.name) || is_given(&given, binding.name) {
            return Err(MeaningError::BadValue(word));
        }
        given.push(binding)?;
    }
    Ok(given)
}

// Whether a word NAME=.. names a constant.
fn names_constant(constants: &[Constant], word: &str) -> bool
    ensures { result ≡ names_one constants.now word.now }
{
    match word.split_once('=') {
        Some((name, _)) => is_constant(constants, name.as_bytes()),
        None => false,
    }
}

/// The words behind a template, in their order.
#[derive(Drop)]
pub(crate) struct SplitWords<'a> {
    /// Those NAME=.. whose NAME is a constant of the template.
    pub(crate) constants: Vec<&'a str>,
    /// The others.
    pub(crate) starts: Vec<&'a str>,
}

/// The words by whether they name one of these constants.
pub(crate) fn split_by<'a>(
    alloc: Global,
    constants: &[Constant],
    words: &[&'a str],
) -> Result<SplitWords<'a>, AllocError>
    ensures { IfOk result (λ s. IsSplitBy constants.now (map (λ w. w.now) words.now)
        (map (λ w. w.now) s.constants.items) (map (λ w. w.now) s.starts.items)) }
{
    let mut naming = Vec::new(alloc);
    let mut starts = Vec::new(alloc);
    for word in words {
        if names_constant(constants, word) {
            naming.push(*word)?;
        } else {
            starts.push(*word)?;
        }
    }
    Ok(SplitWords {
        constants: naming,
        starts,
    })
}
