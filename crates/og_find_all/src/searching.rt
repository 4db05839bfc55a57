//! The verdicts of searches.

use og_cond::Condition;
use og_find::{Verdict, examine};
use og_pool::{Gate, Numbered};
use std::alloc::{AllocError, Global};

/// The condition at each of these indices is searched, and a gate hears of each search by the
/// its number.
#[derive(Clone, Copy)]
pub(crate) struct Searching<'a, 'c, G> {
    pub(crate) conditions: &'a [Condition<'c>],
    pub(crate) indices: &'a [usize],
    pub(crate) budget: u64,
    pub(crate) gate: &'a G,
}

impl<'a, 'c, G: Gate> Numbered for Searching<'a, 'c, G> {
    ghost use Rattle.std.specs.Prelude.{length, map, ⊤};
    ghost use Rattle.og_cond.specs.Seen.{seen};
    ghost use Rattle.og_find_all.specs.Findings.{IsSearched};

    type Answer = Verdict;

    type Kept = ();

    ghost count = { λ s. length s.indices.now };

    ghost may_answer = { λ s n v. IsSearched (map seen s.conditions.now) s.indices.now n v };

    ghost keeps = { λ _ _. ⊤ };

    fn kept(&self) {}

    fn answer(&self, alloc: Global, number: u32, _kept: &mut ()) -> Result<Verdict, AllocError> {
        let index = self.indices[number as usize - 1];
        if index >= self.conditions.len() {
            return Ok(Verdict::Open);
        }
        self.gate.before(number);
        let verdict = examine(alloc, &self.conditions[index], self.budget)?;
        self.gate.after(number);
        Ok(verdict)
    }
}
