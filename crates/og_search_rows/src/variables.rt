//! Sets of variables.

ghost use Rattle.std.specs.Prelude.{◌≡◌, ℕ, ◌%◌, ◌==◌, ◌||◌, true, IsTrue, ◌↔◌};
ghost use Rattle.std.specs.List.{list_any};

use crate::inequality::Term;

/// A set of variables, in which each stands for all whose numbers have the same last six bits.
#[derive(Clone, Copy)]
pub struct Variables {
    bits: u64,
}

impl Variables {
    ghost use Rattle.og_search_rows.specs.Variables.{has};

    pub const NONE: Variables = Variables { bits: 0 };

    pub const ALL: Variables = Variables { bits: u64::MAX };

    /// The set of this variable alone.
    pub fn one(var: u32) -> Variables
        ensures { (x : ℕ) → has result x ≡ (x % 64 == var % 64) }
    {
        Variables {
            bits: 1u64 << (var % 64),
        }
    }

    /// The variables of the terms.
    pub fn of(terms: &[Term]) -> Variables
        ensures { (x : ℕ) → has result x ≡ list_any (λ t. x % 64 == t.var % 64) terms.now }
    {
        let mut all = Variables::NONE;
        for term in terms {
            all = all.union(Variables::one(term.var));
        }
        all
    }

    /// The variables of both sets.
    pub fn union(self, other: Variables) -> Variables
        ensures { (x : ℕ) → has result x ≡ (has self x || has other x) }
    {
        Variables {
            bits: self.bits | other.bits,
        }
    }

    /// Whether the sets may have a variable in common: where not, they have none.
    pub fn may_meet(self, other: Variables) -> bool
        ensures { IsTrue result ↔ ((x : ℕ) × (has self x ≡ true) × (has other x ≡ true)) }
    {
        self.bits & other.bits != 0
    }
}
