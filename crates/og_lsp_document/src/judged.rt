//! What is found of a text.

use og_lsp_diagnostics::Diagnostic;
use og_text::Span;

/// What is found of the conditions of an outline.
#[derive(Clone, Copy, Drop, PartialEq, Eq)]
pub struct Summary {
    /// The `cobegin` of the text.
    pub cobegin: Span,
    /// How many conditions there are, how many are false and how many are open.
    pub conditions: usize,
    pub refuted: usize,
    pub still_open: usize,
    /// Whether all but the last are proved, and whether the last is.
    pub safe: bool,
    pub unblocked: bool,
}

/// What is found of the conditions that are asked at a note, a statement or `cobegin`.
#[derive(Clone, Copy, Drop, PartialEq, Eq)]
pub struct PartCount {
    /// The bytes there.
    pub span: Span,
    /// How many conditions there are, and how many of them are not proved.
    pub conditions: usize,
    pub unproved: usize,
}

/// What is found of a statement.
#[derive(Clone, Copy, Drop, PartialEq, Eq)]
pub struct StatementCount {
    /// Its bytes, as far as the next note.
    pub span: Span,
    /// The note before it, and the one behind it.
    pub before: Span,
    pub behind: Option<Span>,
    /// How many conditions ask whether its step keeps an assertion of another process, and how many
    /// of them are not proved.
    pub conditions: usize,
    pub unproved: usize,
}

/// What is found of a text.
#[derive(Drop)]
pub struct Judgement {
    /// What is wrong with it.
    pub diagnostics: Vec<Diagnostic>,
    /// Of an outline.
    pub summary: Option<Summary>,
    /// What `og notes` tells a reviewer: what it claims of no run, unused variables, and characters
    /// that may hide text.
    pub remarks: Vec<Diagnostic>,
    /// Of its parts, in the order of the text.
    pub parts: Vec<PartCount>,
    /// Of its statements, in the order of the text.
    pub statements: Vec<StatementCount>,
}
