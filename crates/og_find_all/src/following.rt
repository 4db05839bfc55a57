//! The findings on the followers.

ghost use Rattle.std.specs.Prelude.{◌≡◌, Some, map, slice_get, IfOk, IfSome, IsSomeAnd};
ghost use Rattle.og_cond.specs.Seen.{seen};
ghost use Rattle.og_find.specs.declared.verdict.Verdict.TheVariants as verdicts;
ghost use Rattle.og_find_all.specs.Findings.{IsTried, IsOwnOrLed};

use crate::leading::Follower;
use og_cond::Condition;
use og_find::{Followed, Leader, Leaders, Verdict, examine, follow};
use og_pool::{Gate, Numbered};
use std::alloc::{AllocError, Global};

/// The certificate of its leader is tried for a follower, as it is and with variables exchanged.
/// The follower is searched for itself where neither closes its facts, or where it has no leader.
#[derive(Clone, Copy)]
pub(crate) struct Trial<'a, 'c> {
    pub(crate) conditions: &'a [Condition<'c>],
    // The indices of the leaders, and what was found of them.
    pub(crate) leaders: &'a [usize],
    pub(crate) verdicts: &'a [Verdict],
    pub(crate) budget: u64,
}

impl<'c> Trial<'_, 'c> {
    // The leader at this place, if it has a certificate.
    fn leader(&self, place: Option<usize>) -> Option<Leader<'_, 'c>>
        ensures { IfSome result (λ leader. IsSomeAnd place
            (λ p. slice_get self.now.verdicts.now p ≡ Some (verdicts.True leader.cert.now))) }
    {
        let number = place?;
        match self.verdicts.get(number)? {
            Verdict::True(cert) => Some(Leader {
                number,
                condition: self.conditions.get(*self.leaders.get(number)?)?,
                cert,
            }),
            _ => None,
        }
    }

    // The verdict on the condition after its leader's, or None where it shares that.
    fn own_of(
        &self,
        alloc: Global,
        condition: &Condition,
        place: Option<usize>,
        leaders: &mut Leaders<'c>,
    ) -> Result<Option<Verdict>, AllocError>
        ensures { IfOk result (λ own.
            IsOwnOrLed (seen condition.now) self.now.verdicts.now place own) }
    {
        let Some(leader) = self.leader(place) else {
            return Ok(Some(examine(alloc, condition, self.budget)?));
        };
        match follow(alloc, condition, leader, leaders, self.budget)? {
            Followed::Shares => Ok(None),
            Followed::Own(own) => Ok(Some(own)),
        }
    }

    // The verdict of the follower's own, where it does not share that of its leader.
    fn own(
        &self,
        alloc: Global,
        follower: Follower,
        leaders: &mut Leaders<'c>,
    ) -> Result<Option<Box<Verdict>>, AllocError>
        ensures { IfOk result (IsTried (map seen self.now.conditions.now) self.now.verdicts.now
            follower) }
    {
        let Some(condition) = self.conditions.get(follower.index) else {
            return Ok(Some(Box::new(alloc, Verdict::Open)?));
        };
        match self.own_of(alloc, condition, follower.leader, leaders)? {
            Some(own) => Ok(Some(Box::new(alloc, own)?)),
            None => Ok(None),
        }
    }
}

/// A trial for each follower. A gate hears of each, by its number after those of others. A worker
/// keeps the facts of leaders.
#[derive(Clone, Copy)]
pub(crate) struct Following<'a, 'f, 'c, G> {
    pub(crate) alloc: Global,
    pub(crate) trial: Trial<'a, 'c>,
    pub(crate) followers: &'f [Follower],
    // How many others were looked at before.
    pub(crate) before: u32,
    pub(crate) gate: &'a G,
}

impl<'a, 'f, 'c, G: Gate> Numbered for Following<'a, 'f, 'c, G> {
    ghost use Rattle.std.specs.Prelude.{length, map, ⊤};
    ghost use Rattle.og_cond.specs.Seen.{seen};
    ghost use Rattle.og_find_all.specs.Findings.{IsTriedOf};

    type Answer = Option<Box<Verdict>>;

    type Kept = Leaders<'c>;

    ghost count = { λ f. length f.followers.now };

    ghost may_answer = { λ f n own. IsTriedOf (map seen f.trial.conditions.now) f.trial.verdicts.now f.followers.now n own };

    ghost keeps = { λ _ _. ⊤ };

    fn kept(&self) -> Leaders<'c> {
        Leaders::new(self.alloc)
    }

    fn answer(
        &self,
        alloc: Global,
        number: u32,
        leaders: &mut Leaders<'c>,
    ) -> Result<Option<Box<Verdict>>, AllocError> {
        let Some(follower) = self.followers.get(number as usize - 1) else {
            return Ok(None);
        };
        let task = self.before.saturating_add(number);
        self.gate.before(task);
        let own = self.trial.own(alloc, *follower, leaders)?;
        self.gate.after(task);
        Ok(own)
    }
}
