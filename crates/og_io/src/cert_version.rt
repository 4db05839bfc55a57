//! In which version certificates are written.

ghost use Rattle.std.specs.Prelude.{◌≡◌, ◌≤◌, ◌==◌, IfSome, IfNone};

use std::marker::Model;

/// A version of the language of certificates: 1 or 2. Contracts see the number.
#[derive(Clone, Copy, Debug, PartialEq, Eq)]
pub struct CertVersion {
    number: u32,
}

impl Model for CertVersion {
    ghost use Rattle.std.specs.Prelude.{ℕ, ◌≤◌};
    ghost use Rattle.std.specs.Coded.{coded_ℕ};

    ghost Value = { ℕ };

    ghost coded = { coded_ℕ };

    ghost view = { λ n. n.number };

    ghost invariant = { λ n. (1 ≤ n.number) × (n.number ≤ 2) };

    ghost inverse = { λ n. record { number = n } };
}

impl CertVersion {
    /// Version 1.
    pub const ONE: CertVersion = CertVersion { number: 1 };

    /// The version of this number; `None` where there is none.
    pub fn new(number: u32) -> Option<CertVersion>
        ensures same { IfSome result (λ n. n ≡ number) }
        ensures within { IfSome result (λ _. (1 ≤ number) × (number ≤ 2)) }
        ensures none { IfNone result ((1 ≤ number) × (number ≤ 2) → ⊥) }
    {
        if number < 1 || number > 2 {
            return None;
        }
        Some(CertVersion { number })
    }

    /// Whether it is version 2.
    pub fn is_second(self) -> bool
        ensures { result ≡ (self == 2) }
    {
        self.number == 2
    }
}
