//! The answers of `expand`.

ghost use Rattle.std.specs.Prelude.{◌≡◌, ◌≤◌, ◌^◌, [], length, IfOk, if◌then◌else◌};
ghost use Rattle.og_report_text.specs.Answers.{Says};
ghost use Rattle.og_template_outline.specs.Expanded.{IsOutlineText, IsPrinted, IsExpanded};
ghost use Rattle.og_template_outline.specs.Meaning.{IsMeaning};

use crate::meaning::Meaning;
use crate::printing::Expansion;
use crate::rows::rows_text;
use og_report_text::Answer;
use std::alloc::{AllocError, Global};

// The bytes of an outline, or no row of a map.
fn as_it_is(alloc: Global, text: &[u8], is_map: bool) -> Result<Answer, AllocError>
    ensures { IfOk result (Says (if is_map then [] else text.now) 0) }
{
    let mut shown = Vec::new(alloc);
    if !is_map {
        shown.extend_from_slice(text)?;
    }
    Ok(Answer {
        text: shown,
        status: 0,
    })
}

// The text of the outline of a template, or the map.
#[tactic(auto, using(crate::proofs::ReadAgain::outline_text_short))]
fn printed(
    alloc: Global,
    template: &[u8],
    expansion: Expansion,
    is_map: bool,
) -> Result<Vec<u8>, AllocError>
    requires short { length template.now ≤ 2 ^ 20 }
    requires outline { IsOutlineText expansion.text.items }
    ensures { IfOk result (λ text. IsPrinted is_map text.items) }
{
    let Expansion {
        text,
        outline,
        rows,
    } = expansion;
    drop(outline);
    if is_map {
        return rows_text(alloc, template, &text, &rows);
    }
    Ok(text)
}

/// What is printed of an outline that a text means: of a template the text of the outline, or with
/// `is_map` the places of its notes and statements, each with its place in the template and the
/// values of the bound names round it; of a source its bytes, or with `is_map` nothing. The status
/// is 0.
///
/// # Errors
///
/// An allocation was refused.
pub fn expanded(
    alloc: Global,
    text: &[u8],
    meaning: Meaning,
    is_map: bool,
) -> Result<Answer, AllocError>
    requires { IsMeaning text.now meaning }
    ensures { IfOk result (IsExpanded is_map text.now) }
{
    match meaning {
        Meaning::Source(outline) => {
            drop(outline);
            as_it_is(alloc, text, is_map)
        }
        Meaning::Template(expansion) => {
            let text = printed(alloc, text, expansion, is_map)?;
            Ok(Answer { text, status: 0 })
        }
    }
}
