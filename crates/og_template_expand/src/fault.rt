//! Why an expansion stops.

ghost use Rattle.std.specs.Prelude.{◌≡◌};
ghost use Rattle.og_template_expand.specs.declared.fault.Stop.TheVariants.{Memory, Fault};

use og_parse::RawName;
use og_template::{FaultKind, TemplateError, TemplateFault};
use og_text::Span;
use std::alloc::{AllocError, AllocFailed};

/// Why an expansion stops.
#[derive(Clone, Copy, Drop)]
pub(crate) enum Stop {
    /// An allocation was refused.
    Memory,
    /// The steps or the statements are spent, at this place.
    Spent(TemplateFault),
    /// The template has this fault under the values of its constants.
    Fault(TemplateFault),
}

/// A fault at a place.
pub(crate) fn fault(kind: FaultKind, place: Span) -> Stop
    ensures { result ≡ Fault (record { kind = kind; at = place.start }) }
{
    Stop::Fault(TemplateFault {
        kind,
        at: place.start,
    })
}

/// A fault at a name.
pub(crate) fn fault_at(kind: FaultKind, name: &RawName) -> Stop
    ensures { result ≡ Fault (record { kind = kind; at = name.now.span.start }) }
{
    fault(kind, name.span)
}

impl From<AllocError> for Stop {
    ghost from_gives = { λ _ e. e ≡ Memory };

    fn from(_: AllocError) -> Stop {
        Stop::Memory
    }
}

impl<T: Drop> From<AllocFailed<T>> for Stop {
    ghost from_gives = { λ _ e. e ≡ Memory };

    fn from(_: AllocFailed<T>) -> Stop {
        Stop::Memory
    }
}

impl From<Stop> for TemplateError {
    fn from(stop: Stop) -> TemplateError {
        match stop {
            Stop::Memory => TemplateError::Memory,
            Stop::Spent(fault) | Stop::Fault(fault) => TemplateError::Fault(fault),
        }
    }
}
