//! Laying a source out.

ghost use Rattle.std.specs.Prelude.{◌≡◌, true, IfOk, IfErr};
ghost use Rattle.og_layout.specs.Pieces.{AreParts, HaveSamePieces};
ghost use Rattle.og_layout.specs.Faults.{IsErrorOf};

use crate::breaking::break_long_lines;
use crate::comments::place_comments;
use crate::fault::LayoutError;
use crate::parts::{Part, parts_of};
use crate::same::same_pieces;
use crate::spacing::spaced;
use crate::writing::written;
use og_text::{LexError, SOURCE_LIMIT};
use std::alloc::{AllocError, Global};

// The parts of a text with white space anew.
fn with_layout(alloc: Global, text: &[u8], parts: &[Part]) -> Result<Vec<u8>, AllocError> {
    let mut all = spaced(alloc, text, parts)?;
    break_long_lines(&mut all);
    place_comments(&mut all);
    written(alloc, text, &all)
}

// Whether the other text has the pieces of the text with these parts.
#[tactic(auto, using(crate::proofs::Short::same_pieces_are))]
fn keeps_pieces(
    alloc: Global,
    text: &[u8],
    parts: &[Part],
    other: &[u8],
) -> Result<bool, AllocError>
    requires { AreParts text.now parts.now }
    ensures { IfOk result (λ same. same ≡ true → HaveSamePieces text.now other.now) }
{
    match parts_of(alloc, other) {
        Ok(others) => Ok(same_pieces(text, parts, other, &others)),
        Err(LexError::Memory) => Err(AllocError),
        Err(LexError::Fault(_)) => Ok(false),
    }
}

// The written text, if its pieces are those of the source with these parts.
fn checked(
    alloc: Global,
    text: &[u8],
    parts: &[Part],
    written: Vec<u8>,
) -> Result<Vec<u8>, LayoutError>
    requires { AreParts text.now parts.now }
    ensures pieces { IfOk result (λ written. HaveSamePieces text.now written.items) }
    ensures error { IfErr result (IsErrorOf text.now) }
{
    if written.len() > SOURCE_LIMIT {
        return Err(LayoutError::TooLong);
    }
    match keeps_pieces(alloc, text, parts, &written) {
        Ok(true) => Ok(written),
        Ok(false) => Err(LayoutError::Differs),
        Err(_) => Err(LayoutError::Memory),
    }
}

/// The source, an outline or a template, laid out: white space alone changes. docs/LANGUAGE.md has
/// the layout of outlines, docs/TEMPLATES.md what templates add.
///
/// # Errors
///
/// `Fault`, the first fault of the source's words; `TooLong`, where the text would be longer than a
/// source may be; `Differs` where it would have other pieces, of which no case is known. `Memory`
/// may stand in the place of any other answer where an allocation was refused.
#[tactic(auto, using(crate::proofs::Short::error_parts))]
pub fn laid_out(alloc: Global, text: &[u8]) -> Result<Vec<u8>, LayoutError>
    ensures pieces { IfOk result (λ written. HaveSamePieces text.now written.items) }
    ensures error { IfErr result (IsErrorOf text.now) }
{
    let parts = parts_of(alloc, text)?;
    let written = with_layout(alloc, text, &parts)?;
    checked(alloc, text, &parts, written)
}
