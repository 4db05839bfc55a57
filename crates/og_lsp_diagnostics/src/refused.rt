//! The diagnostic of a text that is refused.

ghost use Rattle.std.specs.Prelude.{◌≡◌, ◌++◌, option_map, IfOk};
ghost use Rattle.og_report_refusal.specs.Advice.{IsKnown};
ghost use Rattle.og_report_text.specs.Faults.{place_of_input};
ghost use Rattle.og_template_outline.specs.Faults.{place_of_fault};
ghost use Rattle.og_lsp_diagnostics.specs.Extents.{LiesIn, IsSaidIn};
ghost use Rattle.og_lsp_diagnostics.specs.Refusals.{help_text, span_at, IsPlaced, IsOfSource, IsOfTemplate};

use crate::diagnostic::{Diagnostic, Severity, code_of};
use crate::extent::word_at;
use og_report_refusal::{Advice, Names, Refused, why};
use og_report_text::InputFault;
use og_template_outline::ExpandFault;
use og_text::Span;
use std::alloc::{AllocError, Global};

// The bytes that a refusal stands at: the word at its place, or the front of the text.
fn span_at(text: &[u8], place: Option<u32>) -> Span
    requires { IsPlaced text.now place }
    ensures span { result ≡ span_at text.now place }
    ensures lies { LiesIn text.now result }
{
    match place {
        Some(at) => word_at(text, at),
        None => Span { start: 0, end: 0 },
    }
}

// The reason, and the line of advice where there is one.
fn message_of(advice: Advice) -> Result<Vec<u8>, AllocError>
    ensures { IfOk result (λ message. message.items ≡ advice.reason.items
        ++ help_text (option_map (λ h. h.items) advice.help)) }
{
    let Advice { reason, help } = advice;
    let mut message = reason;
    if let Some(help) = help {
        message.extend_from_slice(b"\nhelp: ")?;
        message.extend_from_slice(&help)?;
    }
    Ok(message)
}

/// What is said of a source with this fault, which stands at a byte offset where it has a place.
///
/// # Errors
///
/// An allocation was refused.
pub fn of_source(
    alloc: Global,
    text: &[u8],
    fault: &InputFault,
    place: Option<u32>,
) -> Result<Diagnostic, AllocError>
    requires known { IsKnown text.now fault.now }
    requires place { place ≡ place_of_input fault.now }
    requires short { IsPlaced text.now place }
    ensures refusal { IfOk result (IsOfSource text.now fault.now) }
    ensures within { IfOk result (IsSaidIn text.now) }
{
    let names = Names {
        source: "",
        certs: "",
    };
    let message = message_of(why(alloc, names, fault, text)?)?;
    let code = code_of(alloc, fault.number() as u128, fault.name())?;
    Ok(Diagnostic {
        span: span_at(text, place),
        severity: Severity::Error,
        code,
        message,
        related: Vec::new(alloc),
    })
}

/// What is said of a template with this fault.
///
/// # Errors
///
/// An allocation was refused.
pub fn of_template(
    alloc: Global,
    text: &[u8],
    fault: &ExpandFault,
) -> Result<Diagnostic, AllocError>
    requires { IsPlaced text.now (place_of_fault fault.now) }
    ensures refusal { IfOk result (IsOfTemplate text.now fault.now) }
    ensures within { IfOk result (IsSaidIn text.now) }
{
    let refused = Refused {
        name: "",
        source: text,
        words: &[],
        fault,
    };
    let message = message_of(refused.why(alloc)?)?;
    let code = code_of(alloc, fault.number() as u128, fault.name())?;
    Ok(Diagnostic {
        span: span_at(text, fault.place()),
        severity: Severity::Error,
        code,
        message,
        related: Vec::new(alloc),
    })
}
