//! How much a search may do.

ghost use Rattle.std.specs.Prelude.{◌≡◌, ◌≤◌, IfSome, IfNone};

use std::marker::Model;

/// How many facts a search may add: from 1 to 1,000,000,000. Contracts see the number.
#[derive(Clone, Copy, Debug, PartialEq, Eq)]
pub struct Budget {
    facts: u64,
}

impl Model for Budget {
    ghost use Rattle.std.specs.Prelude.{ℕ, ◌≤◌};
    ghost use Rattle.std.specs.Coded.{coded_ℕ};

    ghost Value = { ℕ };

    ghost coded = { coded_ℕ };

    ghost view = { λ n. n.facts };

    ghost invariant = { λ n. (1 ≤ n.facts) × (n.facts ≤ 1000000000) };

    ghost inverse = { λ n. record { facts = n } };
}

impl Budget {
    /// A budget of this many facts; `None` where it is none, or more than 1,000,000,000.
    pub fn new(facts: u64) -> Option<Budget>
        ensures same { IfSome result (λ n. n ≡ facts) }
        ensures within { IfSome result (λ _. (1 ≤ facts) × (facts ≤ 1000000000)) }
        ensures none { IfNone result ((1 ≤ facts) × (facts ≤ 1000000000) → ⊥) }
    {
        if facts < 1 || facts > 1_000_000_000 {
            return None;
        }
        Some(Budget { facts })
    }

    /// How many facts it allows.
    pub fn facts(self) -> u64
        ensures same { result ≡ self }
        ensures within { (1 ≤ result) × (result ≤ 1000000000) }
    {
        self.facts
    }
}
