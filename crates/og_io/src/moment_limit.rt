//! How many moments an exploration may look at.

ghost use Rattle.std.specs.Prelude.{◌≡◌, ◌≤◌, IfSome, IfNone};

use std::marker::Model;

/// The greatest number of moments of an exploration: from 1 to 1,000,000,000. Contracts see the number.
#[derive(Clone, Copy, Debug, PartialEq, Eq)]
pub struct MomentLimit {
    moments: u32,
}

impl Model for MomentLimit {
    ghost use Rattle.std.specs.Prelude.{ℕ, ◌≤◌};
    ghost use Rattle.std.specs.Coded.{coded_ℕ};

    ghost Value = { ℕ };

    ghost coded = { coded_ℕ };

    ghost view = { λ n. n.moments };

    ghost invariant = { λ n. (1 ≤ n.moments) × (n.moments ≤ 1000000000) };

    ghost inverse = { λ n. record { moments = n } };
}

impl MomentLimit {
    /// A limit of this many moments; `None` where it is none, or more than 1,000,000,000.
    pub fn new(moments: u32) -> Option<MomentLimit>
        ensures same { IfSome result (λ n. n ≡ moments) }
        ensures within { IfSome result (λ _. (1 ≤ moments) × (moments ≤ 1000000000)) }
        ensures none { IfNone result ((1 ≤ moments) × (moments ≤ 1000000000) → ⊥) }
    {
        if moments < 1 || moments > 1_000_000_000 {
            return None;
        }
        Some(MomentLimit { moments })
    }

    /// How many moments it allows.
    pub fn moments(self) -> u32
        ensures same { result ≡ self }
        ensures within { (1 ≤ result) × (result ≤ 1000000000) }
    {
        self.moments
    }
}
