//! The finding on a condition.

ghost use Rattle.std.specs.Prelude.{◌≡◌};
ghost use Rattle.og_judge.specs.Entries.{is_proved};

use og_cond::Kind;
use og_pool::Status;

/// A condition and what was found of it.
#[derive(Clone, Copy)]
pub struct Entry {
    /// What it asks.
    pub kind: Kind,
    /// The byte offset of the part asked about.
    pub at: u32,
    /// The byte offset of the action, of interference alone.
    pub action_at: Option<u32>,
    /// What was found.
    pub status: Status,
}

impl Entry {
    /// Whether the condition is proved. Takes no memory.
    pub fn is_proved(&self) -> bool
        ensures { result ≡ is_proved self.now }
    {
        matches!(self.status, Status::Proved)
    }
}
