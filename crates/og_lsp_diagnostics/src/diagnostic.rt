//! Diagnostics.

ghost use Rattle.std.specs.Prelude.{◌≡◌, IfOk};
ghost use Rattle.og_lsp_diagnostics.specs.Refusals.{code_text};

use og_report_text::put_number;
use og_text::Span;
use std::alloc::{AllocError, Global};

/// How much a diagnostic weighs.
#[derive(Clone, Copy, Drop, PartialEq, Eq)]
pub enum Severity {
    /// The text is refused, or a condition is false.
    Error,
    /// A condition is open.
    Warning,
    /// A remark.
    Information,
}

/// Another place that a diagnostic speaks of.
#[derive(Drop)]
pub struct Related {
    /// The bytes there.
    pub span: Span,
    /// What is said of them, in UTF-8.
    pub message: Vec<u8>,
}

/// What is said of some bytes of a text.
#[derive(Drop)]
pub struct Diagnostic {
    /// The bytes.
    pub span: Span,
    pub severity: Severity,
    /// The number and the name of a refusal, or the number of a condition and its kind.
    pub code: Vec<u8>,
    /// What is said, in lines without an LF at the end.
    pub message: Vec<u8>,
    /// Other places that belong to it.
    pub related: Vec<Related>,
}

/// A number and a name, with a space between them.
///
/// # Errors
///
/// An allocation was refused.
pub(crate) fn code_of(alloc: Global, number: u128, name: &str) -> Result<Vec<u8>, AllocError>
    ensures { IfOk result (λ code. code.items ≡ code_text number name.now) }
{
    let mut code = Vec::new(alloc);
    put_number(&mut code, number)?;
    code.extend_from_slice(b" ")?;
    code.extend_from_slice(name.as_bytes())?;
    Ok(code)
}
