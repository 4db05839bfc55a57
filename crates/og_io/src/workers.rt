//! How many workers there are.

ghost use Rattle.std.specs.Prelude.{◌≡◌, ◌≤◌, IfSome, IfNone};

use std::marker::Model;

/// How many workers look at conditions: from 1 to 64. Contracts see the number.
#[derive(Clone, Copy, Debug, PartialEq, Eq)]
pub struct Workers {
    count: u32,
}

impl Model for Workers {
    ghost use Rattle.std.specs.Prelude.{ℕ, ◌≤◌};
    ghost use Rattle.std.specs.Coded.{coded_ℕ};

    ghost Value = { ℕ };

    ghost coded = { coded_ℕ };

    ghost view = { λ n. n.count };

    ghost invariant = { λ n. (1 ≤ n.count) × (n.count ≤ 64) };

    ghost inverse = { λ n. record { count = n } };
}

impl Workers {
    /// One worker.
    pub const ONE: Workers = Workers { count: 1 };

    /// This many workers; `None` where there is none, or more than 64.
    pub fn new(count: u32) -> Option<Workers>
        ensures same { IfSome result (λ n. n ≡ count) }
        ensures within { IfSome result (λ _. (1 ≤ count) × (count ≤ 64)) }
        ensures none { IfNone result ((1 ≤ count) × (count ≤ 64) → ⊥) }
    {
        if count < 1 || count > 64 {
            return None;
        }
        Some(Workers { count })
    }

    /// How many they are.
    pub fn count(self) -> u32
        ensures same { result ≡ self }
        ensures within { (1 ≤ result) × (result ≤ 64) }
    {
        self.count
    }
}
