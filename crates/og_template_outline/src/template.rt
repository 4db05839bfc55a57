//! The outline of a template.

ghost use Rattle.std.specs.Prelude.{map, IfOk, IfErr};
ghost use Rattle.og_typed.specs.Source.{IsSource};
ghost use Rattle.og_template_outline.specs.Expanded.{IsOutlineText};
ghost use Rattle.og_template_outline.specs.Words.{IsOneOrOther};

use crate::check_names;
use crate::fault::{ExpandError, MeaningError};
use crate::printing::{Expansion, print};
use crate::words::given;
use og_template::{Template, read};
use og_template_expand::{Binding, expand};
use std::alloc::Global;

// The outline of a template whose names are as they must be.
fn of_values(
    alloc: Global,
    template: &Template,
    values: &[Binding<'_>],
) -> Result<Expansion, ExpandError>
    ensures text { IfOk result (λ p. IsOutlineText p.text.items) }
    ensures outline { IfOk result (λ p. IsSource p.text.items p.outline) }
{
    print(alloc, expand(alloc, template, values)?)
}

// Asks the names of a template.
fn name(alloc: Global, template: &Template) -> Result<(), ExpandError> {
    Ok(check_names(alloc, template)?)
}

/// The outline that a template means, where its constants have the values that the words give.
#[tactic(auto, using(crate::proofs::Errors::one_or_other))]
pub(crate) fn of_constants<'a>(
    alloc: Global,
    template: &Template,
    words: &[&'a str],
) -> Result<Expansion, MeaningError<'a>>
    ensures text { IfOk result (λ p. IsOutlineText p.text.items) }
    ensures outline { IfOk result (λ p. IsSource p.text.items p.outline) }
    ensures word { IfErr result (IsOneOrOther (map (λ w. w.now) words.now)) }
{
    name(alloc, template)?;
    let values = given(alloc, template, words)?;
    Ok(of_values(alloc, template, &values)?)
}

/// The template of a text.
pub(crate) fn template_of(alloc: Global, source: &[u8]) -> Result<Template, ExpandError> {
    let words = og_template::words(alloc, source)?;
    Ok(read(alloc, &words)?)
}
