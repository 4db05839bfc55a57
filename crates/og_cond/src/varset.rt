//! Sets of variables.

ghost use Rattle.std.specs.Prelude.{◌≡◌, ℕ, ◌==◌, ◌||◌, ◌&&◌, false, true, nat_lt, IsTrue, ◌↔◌, length};

// The variables of an outline are below this number.
const VARIABLE_LIMIT: u32 = 256;

/// A set of variables below 256, one bit each.
#[derive(Clone, Copy)]
pub(crate) struct VarSet {
    words: [u64; 4],
    ghost full: { length words ≡ 4 },
}

impl VarSet {
    ghost use Rattle.og_cond.specs.Sets.{has};

    pub(crate) fn new() -> VarSet
        ensures { (x : ℕ) → has result x ≡ false }
    {
        VarSet { words: [0; 4] }
    }

    // A variable from 256 on is left out.
    pub(crate) fn insert(&mut self, var: u32)
        ensures { (x : ℕ) → has self.new x ≡ (x == var && nat_lt var 256 || has self.old x) }
    {
        if var < VARIABLE_LIMIT {
            self.words[(var / 64) as usize] |= 1 << (var % 64);
        }
    }

    /// Whether the variable is in the set.
    pub(crate) fn has(&self, var: u32) -> bool
        ensures { result ≡ has self.now var }
    {
        if var < VARIABLE_LIMIT {
            (self.words[(var / 64) as usize] >> (var % 64)) & 1 == 1
        } else {
            false
        }
    }

    /// Whether some variable is in both sets.
    pub(crate) fn meets(&self, other: &VarSet) -> bool
        ensures { IsTrue result ↔ ((x : ℕ) × (has self.now x ≡ true) × (has other.now x ≡ true)) }
    {
        for k in 0..4 {
            if self.words[k] & other.words[k] != 0 {
                return true;
            }
        }
        false
    }
}
