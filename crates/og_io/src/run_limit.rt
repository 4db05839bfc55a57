//! How long a run may be.

ghost use Rattle.std.specs.Prelude.{◌≡◌, ◌≤◌, IfSome, IfNone};

use std::marker::Model;

/// The greatest number of steps of a run: from 0 to 1,000,000. Contracts see the number.
#[derive(Clone, Copy, Debug, PartialEq, Eq)]
pub struct RunLimit {
    steps: u32,
}

impl Model for RunLimit {
    ghost use Rattle.std.specs.Prelude.{ℕ, ◌≤◌};
    ghost use Rattle.std.specs.Coded.{coded_ℕ};

    ghost Value = { ℕ };

    ghost coded = { coded_ℕ };

    ghost view = { λ n. n.steps };

    ghost invariant = { λ n. n.steps ≤ 1000000 };

    ghost inverse = { λ n. record { steps = n } };
}

impl RunLimit {
    /// A limit of this many steps; `None` above 1,000,000.
    pub fn new(steps: u32) -> Option<RunLimit>
        ensures same { IfSome result (λ n. n ≡ steps) }
        ensures within { IfSome result (λ _. steps ≤ 1000000) }
        ensures none { IfNone result (steps ≤ 1000000 → ⊥) }
    {
        if steps > 1_000_000 {
            return None;
        }
        Some(RunLimit { steps })
    }

    /// How many steps it allows.
    pub fn steps(self) -> u32
        ensures same { result ≡ self }
        ensures within { result ≤ 1000000 }
    {
        self.steps
    }
}
