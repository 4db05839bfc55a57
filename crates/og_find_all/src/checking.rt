//! Whether the verdicts of searches hold for all conditions of their groups.

ghost use Rattle.std.specs.Prelude.{◌≡◌, ◌<◌, Some, length, map, slice_get, IfOk, IsTrue};
ghost use Rattle.og_cond.specs.Seen.{seen};
ghost use Rattle.og_find.specs.Found.{IsVerdict};
ghost use Rattle.og_find_all.specs.Findings.{IsServed};

use og_cond::Condition;
use og_find::{Verdict, examine, has_equal_facts, is_verdict};
use og_pool::Numbered;
use std::alloc::{AllocError, Global};

/// Each condition is held against the verdict at its place, if that was not done before, and
/// searched where that is not shown to be true of it.
#[derive(Clone, Copy)]
pub(crate) struct Checking<'a, 'c> {
    pub(crate) conditions: &'a [Condition<'c>],
    pub(crate) places: &'a [usize],
    pub(crate) firsts: &'a [usize],
    // For each condition the place of a verdict that was seen to be true of it, if one was.
    pub(crate) known: &'a [Option<usize>],
    pub(crate) verdicts: &'a [Verdict],
    pub(crate) budget: u64,
}

// Whether the verdict on one condition is shown to be that of another one too. A verdict that says
// nothing is, where the facts are equal.
fn is_shared(
    alloc: Global,
    verdict: &Verdict,
    first: &Condition,
    condition: &Condition,
) -> Result<bool, AllocError>
    ensures { IfOk result (λ yes. IsTrue yes → IsVerdict (seen condition.now) verdict.now) }
{
    match verdict {
        Verdict::Open => has_equal_facts(alloc, first, condition),
        _ => is_verdict(alloc, condition, verdict),
    }
}

impl<'a, 'c> Checking<'a, 'c> {
    // Whether the place is that of a verdict which was seen to be true of the condition.
    fn is_known(&self, index: usize, place: usize) -> bool
        ensures { IsTrue result → slice_get self.now.known.now index ≡ Some (Some place) }
    {
        match self.known.get(index) {
            Some(Some(known)) => *known == place,
            _ => false,
        }
    }

    // Whether the verdict at the condition's place is true of it.
    fn is_served(&self, alloc: Global, index: usize) -> Result<bool, AllocError>
        requires { index < length self.now.conditions.now }
        ensures { IfOk result (λ yes. IsTrue yes
            → IsServed (map seen self.now.conditions.now) self.now.places.now self.now.known.now self.now.verdicts.now index) }
    {
        let Some(place) = self.places.get(index) else {
            return Ok(false);
        };
        let Some(verdict) = self.verdicts.get(*place) else {
            return Ok(false);
        };
        if self.is_known(index, *place) {
            return Ok(true);
        }
        let Some(first) = self.firsts.get(*place) else {
            return Ok(false);
        };
        let Some(other) = self.conditions.get(*first) else {
            return Ok(false);
        };
        let shared = is_shared(alloc, verdict, other, &self.conditions[index])?;
        Ok(shared)
    }
}

impl<'a, 'c> Numbered for Checking<'a, 'c> {
    ghost use Rattle.std.specs.Prelude.{length, map, ⊤};
    ghost use Rattle.og_cond.specs.Seen.{seen};
    ghost use Rattle.og_find_all.specs.Findings.{IsChecked};

    type Answer = Option<Box<Verdict>>;

    type Kept = ();

    ghost count = { λ c. length c.conditions.now };

    ghost may_answer = { λ c n own. IsChecked (map seen c.conditions.now) c.places.now c.known.now c.verdicts.now n own };

    ghost keeps = { λ _ _. ⊤ };

    fn kept(&self) {}

    fn answer(
        &self,
        alloc: Global,
        number: u32,
        _: &mut (),
    ) -> Result<Option<Box<Verdict>>, AllocError> {
        let index = number as usize - 1;
        if self.is_served(alloc, index)? {
            return Ok(None);
        }
        let verdict = examine(alloc, &self.conditions[index], self.budget)?;
        let own = Box::new(alloc, verdict)?;
        Ok(Some(own))
    }
}
