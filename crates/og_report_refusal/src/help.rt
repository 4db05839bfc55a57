//! The line of advice below a reason.

ghost use Rattle.std.specs.Prelude.{◌≡◌, ◌++◌, OnOk, IfOk, IfSome, IsTrue, option_map};
ghost use Rattle.og_report_refusal.specs.Advice.{is_one_line, hint_text};

use crate::hint::Hint;
use crate::similar::similar_name;
use std::alloc::{AllocError, Global};

// Whether no byte ends a line.
fn is_one_line(text: &[u8]) -> bool
    ensures { result ≡ is_one_line text.now }
{
    text.iter().all(|byte| *byte != b'\n')
}

// The text, where it is one line.
fn kept(text: Vec<u8>) -> Option<Vec<u8>>
    ensures { IfSome result (λ t. IsTrue (is_one_line t.items)) }
{
    if is_one_line(&text) { Some(text) } else { None }
}

// Which name was meant at a place whose name is not declared, where one is like it.
fn meant(alloc: Global, source: &[u8], at: u32) -> Result<Option<Vec<u8>>, AllocError>
    ensures { IfOk result (λ h. IfSome h (λ t. IsTrue (is_one_line t.items))) }
{
    let Some(name) = similar_name(alloc, source, at)? else {
        return Ok(None);
    };
    let mut text = Vec::from_slice(alloc, b"did you mean '")?;
    text.extend_from_slice(&name)?;
    text.extend_from_slice(b"'?")?;
    Ok(kept(text))
}

// The text of a hint.
fn text_of(alloc: Global, hint: Hint) -> Result<Vec<u8>, AllocError>
    ensures { IfOk result (λ t. IsTrue (is_one_line t.items)) }
{
    Vec::from_slice(alloc, hint.text().as_bytes())
}

/// The line of advice, without its end: that of a hint, or else which name was meant at the place
/// of one that is not declared.
///
/// # Errors
///
/// An allocation was refused.
pub(crate) fn help_of(
    alloc: Global,
    hint: Option<Hint>,
    source: &[u8],
    undeclared: Option<u32>,
) -> Result<Option<Vec<u8>>, AllocError>
    ensures { IfOk result (λ h. IfSome h (λ t. IsTrue (is_one_line t.items))) }
{
    match (hint, undeclared) {
        (Some(hint), _) => Ok(Some(text_of(alloc, hint)?)),
        (None, Some(at)) => meant(alloc, source, at),
        (None, None) => Ok(None),
    }
}

/// Adds a line of advice, where there is some.
///
/// # Errors
///
/// An allocation was refused; the text has what it had, and perhaps a part of this.
pub(crate) fn put_help(text: &mut Vec<u8>, help: &Option<Vec<u8>>) -> Result<(), AllocError>
    ensures { OnOk result (text.new.items ≡ text.old.items
        ++ hint_text (option_map (λ h. h.items) help.now)) }
{
    let Some(help) = help else {
        return Ok(());
    };
    text.extend_from_slice(b"help: ")?;
    text.extend_from_slice(help)?;
    text.extend_from_slice(b"\n")
}
