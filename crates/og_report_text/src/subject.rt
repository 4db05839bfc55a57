//! An outline, and the texts in which it stands.

ghost use Rattle.std.specs.Prelude.{◌≡◌, ◌≤◌, ◌^◌, length};
ghost use Rattle.og_typed.specs.Source.{IsSource};
ghost use Rattle.og_report_text.specs.Subject.{in_own_text, subject_of, IsShort};

use crate::row::Rows;
use og_typed::{Outline, Source};

/// An outline, and the texts in which it stands.
#[derive(Clone, Copy)]
pub struct Subject<'t> {
    pub outline: &'t Outline,
    /// The outline's own text.
    pub own: &'t [u8],
    /// The text that was given: the same, or a template.
    pub given: &'t [u8],
    /// Of a template, where the parts of the outline come from.
    pub rows: Option<&'t Rows>,
}

impl<'t> Subject<'t> {
    /// The outline of a source, in its text.
    pub fn of_source(source: &'t Source) -> Subject<'t>
        ensures same { subject_of result ≡ in_own_text source.now.outline source.now.bytes }
        ensures short { IsShort (subject_of result) }
    {
        let own = source.bytes();
        Subject {
            outline: source.outline(),
            own,
            given: own,
            rows: None,
        }
    }
}
