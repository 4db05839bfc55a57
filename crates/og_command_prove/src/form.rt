//! The forms in which findings are printed.

/// How the findings on the conditions of an outline are printed.
#[derive(Clone, Copy, PartialEq, Eq)]
pub enum ReportForm<'n> {
    /// A text, with the places of the text that was given: an outline, or a template.
    Text,
    /// The same, with advice below false conditions.
    Advised,
    /// One line of JSON with an LF, with the places of the outline's own text.
    Json,
    /// A page of HTML that shows the text that was given, by this name.
    Page(&'n str),
}
