//! Printing an expanded tree.

ghost use Rattle.std.specs.Prelude.{IfOk};
ghost use Rattle.og_typed.specs.Source.{IsSource};
ghost use Rattle.og_template_outline.specs.Expanded.{IsOutlineText};
ghost use Rattle.og_template_outline.specs.Printing.{IsReadAgain};

use crate::again::{Again, read_again};
use crate::fault::{ExpandError, Unread};
use crate::places::{Part, parts};
use crate::rows::rows;
use og_parse::Raw;
use og_print::print_outline;
use og_report_text::Rows;
use og_template_expand::{Expanded, Origin};
use og_typed::{Outline, resolve};
use std::alloc::Global;

/// The outline that a template means.
#[derive(Drop)]
pub struct Expansion {
    /// The outline's own text.
    pub text: Vec<u8>,
    /// The outline.
    pub outline: Outline,
    /// Where its notes and statements come from.
    pub rows: Rows,
}

// The text of a tree, what it is read as, and the tree's own parts.
#[derive(Drop)]
struct Printed {
    text: Vec<u8>,
    again: Result<Again, Unread>,
    parts: Vec<Part>,
}

// Prints a tree, and reads the text again.
fn print_tree(alloc: Global, raw: &Raw) -> Result<Printed, ExpandError>
    ensures { IfOk result IsReadAgain }
{
    let text = print_outline(alloc, raw)?;
    let again = read_again(alloc, &text, raw);
    let parts = parts(alloc, raw)?;
    Ok(Printed { text, again, parts })
}

// Asks that a tree is that of an outline.
fn check_tree(alloc: Global, raw: Raw) -> Result<(), ExpandError> {
    drop(resolve(alloc, raw)?);
    Ok(())
}

// The expansion of what was printed, where its tree is that of an outline.
fn finish(
    alloc: Global,
    printed: Result<Printed, ExpandError>,
    checked: Result<(), ExpandError>,
    origins: &[Origin<'_>],
) -> Result<Expansion, ExpandError>
    requires { IfOk printed IsReadAgain }
    ensures text { IfOk result (λ p. IsOutlineText p.text.items) }
    ensures outline { IfOk result (λ p. IsSource p.text.items p.outline) }
{
    let Printed {
        text,
        again,
        mut parts,
    } = printed?;
    checked?;
    let again = again?;
    let rows = rows(alloc, &again.parts, &mut parts, origins)?;
    Ok(Expansion {
        text,
        outline: again.outline,
        rows,
    })
}

/// The outline of an expanded tree, which is that of its text.
pub(crate) fn print(alloc: Global, expanded: Expanded<'_>) -> Result<Expansion, ExpandError>
    ensures text { IfOk result (λ p. IsOutlineText p.text.items) }
    ensures outline { IfOk result (λ p. IsSource p.text.items p.outline) }
{
    let Expanded { raw, origins } = expanded;
    let printed = print_tree(alloc, &raw);
    let checked = check_tree(alloc, raw);
    finish(alloc, printed, checked, &origins)
}
