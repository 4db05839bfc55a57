//! What a text means: an outline, in the texts in which it stands.

ghost use Rattle.std.specs.Prelude.{◌≤◌, ◌^◌, ℕ, List, true, false, length, map, IfOk, IfErr};
ghost use Rattle.og_report_text.specs.Subject.{subject_of, IsShort};
ghost use Rattle.og_template_outline.specs.Meaning.{Means, IsMeaning, IsReadingBy, IsReading, IsRefused, IsNotMeantBy, IsNotMeant};
ghost use Rattle.og_template_outline.specs.Words.{IsTaken};

use crate::fault::{ExpandFault, MeaningError};
use crate::printing::Expansion;
use crate::template::{of_constants, template_of};
use crate::words::{SplitWords, split_by};
use og_report_text::Subject;
use og_template::{Constant, Template, is_template};
use og_text::{LexFault, SOURCE_LIMIT};
use og_typed::{Outline, Source};
use std::alloc::{AllocError, Global};

/// An outline that a text means.
#[derive(Drop)]
pub enum Meaning {
    /// That of a source.
    Source(Outline),
    /// That of a template.
    Template(Expansion),
}

impl Meaning {
    /// The outline in its texts; `text` is the one that means it.
    pub fn subject<'m>(&'m self, text: &'m [u8]) -> Subject<'m>
        requires { IsMeaning text.now self.now }
        ensures means { Means text.now (subject_of result) }
        ensures short { IsShort (subject_of result) }
    {
        match self {
            Meaning::Source(outline) => Subject {
                outline,
                own: text,
                given: text,
                rows: None,
            },
            Meaning::Template(expansion) => Subject {
                outline: &expansion.outline,
                own: &expansion.text,
                given: text,
                rows: Some(&expansion.rows),
            },
        }
    }
}

/// What the words behind a text may give.
#[derive(Clone, Copy, PartialEq, Eq)]
pub enum Takes {
    /// Values of a template's constants.
    Constants,
    /// These, and starts of the outline.
    Starts,
}

/// What a text means, and the words that give starts.
#[derive(Drop)]
pub struct Reading<'a> {
    /// The outline.
    pub meaning: Meaning,
    /// The words that name no constant, in their order.
    pub starts: Vec<&'a str>,
}

// The words by what they may give, behind a text with these constants.
fn taken<'a>(
    alloc: Global,
    takes: Takes,
    constants: &[Constant],
    words: &[&'a str],
) -> Result<SplitWords<'a>, AllocError>
    ensures { IfOk result (λ s. IsTaken takes constants.now (map (λ w. w.now) words.now)
        (map (λ w. w.now) s.constants.items) (map (λ w. w.now) s.starts.items)) }
{
    match takes {
        Takes::Starts => split_by(alloc, constants, words),
        Takes::Constants => Ok(SplitWords {
            constants: Vec::from_slice(alloc, words)?,
            starts: Vec::new(alloc),
        }),
    }
}

// The outline that a template means, and the words that give starts of it.
fn of_template<'a>(
    alloc: Global,
    template: &Template,
    words: &[&'a str],
    takes: Takes,
) -> Result<Reading<'a>, MeaningError<'a>>
    ensures reading { (text : List ℕ) → length text ≤ 2 ^ 20
        → IfOk result (IsReadingBy true takes text (map (λ w. w.now) words.now)) }
    ensures refused { IfErr result (IsRefused takes (map (λ w. w.now) words.now)) }
{
    let split = taken(alloc, takes, &template.constants, words)?;
    let expansion = of_constants(alloc, template, &split.constants)?;
    Ok(Reading {
        meaning: Meaning::Template(expansion),
        starts: split.starts,
    })
}

// The same of its text.
fn read_template<'a>(
    alloc: Global,
    text: &[u8],
    words: &[&'a str],
    takes: Takes,
) -> Result<Reading<'a>, MeaningError<'a>>
    ensures reading { IfOk result (IsReadingBy true takes text.now (map (λ w. w.now) words.now)) }
    ensures refused { IfErr result (IsNotMeantBy true takes text.now (map (λ w. w.now) words.now)) }
{
    if SOURCE_LIMIT < text.len() {
        let fault = ExpandFault::Words(LexFault::SourceTooLong);
        return Err(MeaningError::Template(fault));
    }
    let template = template_of(alloc, text)?;
    let reading = of_template(alloc, &template, words, takes);
    drop(template);
    reading
}

// The outline of a source, and the words that give starts of it. None has a constant to name.
fn read_source<'a>(
    alloc: Global,
    text: &[u8],
    words: &[&'a str],
    takes: Takes,
) -> Result<Reading<'a>, MeaningError<'a>>
    ensures reading { IfOk result (IsReadingBy false takes text.now (map (λ w. w.now) words.now)) }
    ensures refused { IfErr result
        (IsNotMeantBy false takes text.now (map (λ w. w.now) words.now)) }
{
    let split = taken(alloc, takes, &[], words)?;
    let outline = Source::read(alloc, text)?.into_outline();
    match split.constants.as_slice() {
        [word, ..] => {
            drop(outline);
            Err(MeaningError::BadValue(word))
        }
        [] => Ok(Reading {
            meaning: Meaning::Source(outline),
            starts: split.starts,
        }),
    }
}

/// What a text means, and which of the words behind it give starts. A text whose first word is
/// `template` means the outline that it expands to, where its constants have the values that words
/// give, each NAME=INT; any other text is read as an outline, which has no constants.
///
/// # Errors
///
/// `Source`, the first fault of a text that is read as an outline. `Template`, a fault of a
/// template. `BadValue`, the first word that gives its constant no value, or a second one, or that
/// is to name a constant where there is none; the text was read then. `Memory` where an allocation
/// was refused.
pub fn read_text<'a>(
    alloc: Global,
    text: &[u8],
    words: &[&'a str],
    takes: Takes,
) -> Result<Reading<'a>, MeaningError<'a>>
    ensures reading { IfOk result (IsReading takes text.now (map (λ w. w.now) words.now)) }
    ensures refused { IfErr result (IsNotMeant takes text.now (map (λ w. w.now) words.now)) }
{
    if is_template(text) {
        read_template(alloc, text, words, takes)
    } else {
        read_source(alloc, text, words, takes)
    }
}
