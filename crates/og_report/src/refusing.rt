//! The line of a refusal.

ghost use Rattle.std.specs.Prelude.{◌≡◌, ◌≤◌, ◌^◌, length, IfOk, IsSome};
ghost use Rattle.og_report.specs.Refusal.{place_of_refusal, refusal_text};

use og_judge::Refusal;
use og_report_text::refused_line;
use std::alloc::{AllocError, Global};

/// The line of a refusal, as `og_report_text::refused_line`; no bytes for `Spawn` and `Memory`. A
/// source in which a refusal has a place has at most 1,048,576 bytes.
///
/// # Errors
///
/// An allocation was refused.
pub fn refusal_text(alloc: Global, refusal: &Refusal, source: &[u8]) -> Result<Vec<u8>, AllocError>
    requires { IsSome (place_of_refusal refusal.now) → length source.now ≤ 2 ^ 20 }
    ensures { IfOk result (λ t. t.items ≡ refusal_text source.now refusal.now) }
{
    match refusal {
        Refusal::Input(fault) => refused_line(alloc, fault, source),
        Refusal::Spawn | Refusal::Memory => Ok(Vec::new(alloc)),
    }
}
