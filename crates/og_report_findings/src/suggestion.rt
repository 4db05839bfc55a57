//! What is suggested below a false condition.

ghost use Rattle.std.specs.Prelude.{◌≡◌, ◌++◌, OnOk};
ghost use Rattle.og_report_findings.specs.Suggested.{suggestion_line, suggestion_lines};

use og_report_prove::put_place;
use og_report_text::{Origins, put_assertion};
use og_text::Name;
use og_typed::Assert;
use std::alloc::AllocError;

/// A conjunct for an assertion of the outline.
#[derive(Clone, Copy)]
pub struct Suggestion<'s> {
    /// The byte offset of the assertion, its `{`, in the outline's own text.
    pub at: u32,
    /// The conjunct.
    pub assertion: &'s Assert,
}

// Its line.
fn put_suggestion(
    text: &mut Vec<u8>,
    names: &[Name],
    origins: &Origins,
    suggestion: &Suggestion,
) -> Result<(), AllocError>
    requires { origins.now.places.now ≡ origins.now.source.now }
    ensures { OnOk result (text.new.items ≡ text.old.items ++ suggestion_line names.now
        origins.now.source.now origins.now.rows suggestion.now) }
{
    put_place(text, b"adding", origins, suggestion.at)?;
    put_assertion(text, names, suggestion.assertion)?;
    text.extend_from_slice(b"\n")
}

/// Adds a line for each.
///
/// # Errors
///
/// An allocation was refused; the text has what it had, and perhaps a part of this.
pub(crate) fn put_suggestions(
    text: &mut Vec<u8>,
    names: &[Name],
    origins: &Origins,
    suggestions: &[Suggestion],
) -> Result<(), AllocError>
    requires { origins.now.places.now ≡ origins.now.source.now }
    ensures { OnOk result (text.new.items ≡ text.old.items ++ suggestion_lines names.now
        origins.now.source.now origins.now.rows suggestions.now) }
{
    for suggestion in suggestions {
        put_suggestion(text, names, origins, suggestion)?;
    }
    Ok(())
}
