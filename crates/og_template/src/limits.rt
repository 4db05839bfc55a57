//! How many levels may be opened.

ghost use Rattle.std.specs.Prelude.{◌≡◌, ◌+◌, IfOk};

use og_parse::{FaultKind, Refusal};

/// How many levels of statements and of assertions may be opened, and whether there may be an
/// await.
#[derive(Clone, Copy, Drop)]
pub(crate) struct Limits {
    pub(crate) levels: u32,
    pub(crate) depth: u32,
    pub(crate) awaits: bool,
}

/// How many levels are left within one that is opened.
pub(crate) fn deeper(levels: u32) -> Result<u32, Refusal>
    ensures { IfOk result (λ left. left + 1 ≡ levels) }
{
    if levels == 0 {
        return Err(Refusal::Fault(FaultKind::TooDeep));
    }
    Ok(levels - 1)
}

impl Limits {
    /// The limits within a level of statements that is opened.
    pub(crate) fn within(self) -> Result<Limits, Refusal>
        ensures { IfOk result (λ limits. limits.levels + 1 ≡ self.levels) }
    {
        Ok(Limits {
            levels: deeper(self.levels)?,
            depth: self.depth,
            awaits: self.awaits,
        })
    }
}
