//! Duties: what one obligation has to show with what is taken.

use crate::asking::{Allowance, Frozen, Inquiry, Settled};
use crate::listing::Spot;
use crate::pooling::{Early, Watch};
use crate::scene::Scene;
use og_infer_places::{Claim, Goal, Obligation};
use og_typed::Assert;
use std::alloc::{AllocError, Global};

/// What a duty has to show.
#[derive(Clone, Copy, PartialEq, Eq)]
pub enum Owing {
    /// What the obligation claims.
    Claim,
    /// The candidates of the place whose assertion it claims.
    Candidates,
}

/// What one obligation has to show.
#[derive(Clone, Copy)]
pub struct Duty {
    /// Which obligation.
    pub obligation: usize,
    pub owing: Owing,
}

/// How a duty was settled, what was taken for it, and how many questions were asked.
#[derive(Drop)]
pub struct Proof {
    pub settled: Settled,
    pub taken: Vec<Spot>,
    pub asked: u64,
}

/// The obligations that claim something of the author: an assertion of a place that is not `true`,
/// the postcondition, that values fit, or that the processes never all wait.
pub fn claims(scene: &Scene) -> Result<Vec<Duty>, AllocError> {
    let mut duties = Vec::new(scene.alloc);
    for (index, obligation) in scene.obligations.iter().enumerate() {
        let is_nothing = match obligation.claim {
            Claim::Holds(place) => matches!(scene.author(place), Some(Assert::True) | None),
            _ => false,
        };
        if !is_nothing {
            duties.push(Duty {
                obligation: index,
                owing: Owing::Claim,
            })?;
        }
    }
    Ok(duties)
}

/// A duty that is to be settled, what is left out for that, and how many questions may be asked.
#[derive(Clone, Copy)]
pub struct Attempt<'a> {
    pub duty: Duty,
    /// Candidates that are left out too, by places and by where they stand there.
    pub without: &'a [Spot],
    pub share: u64,
}

impl<'a, 'o> Frozen<'a, 'o> {
    /// The candidates of the place, those left out aside, that the obligation has to show.
    pub fn owed(&self, obligation: &Obligation, place: u32) -> Result<Vec<usize>, AllocError> {
        let changed = self.scene.changed(obligation)?;
        let mut goals = Vec::new(self.scene.alloc);
        for (index, listed) in self.lists.at(place).iter().enumerate() {
            let is_out = self.is_out(Spot { place, index });
            if !is_out && self.owes(obligation, place, &listed.candidate, &changed) {
                goals.push(index)?;
            }
        }
        Ok(goals)
    }

    // Nothing was asked.
    fn unasked(&self, settled: Settled) -> Proof {
        Proof {
            settled,
            taken: Vec::new(self.scene.alloc),
            asked: 0,
        }
    }

    // The proof of a goal.
    fn proof_of_goal(
        self,
        obligation: &'a Obligation<'o>,
        goal: Goal<'_>,
        allowance: Allowance<'a>,
    ) -> Result<Proof, AllocError> {
        let taken = Vec::new(self.scene.alloc);
        let mut inquiry = Inquiry::new(self, obligation, goal, taken, allowance);
        let settled = inquiry.settle()?;
        let Inquiry { taken, left, .. } = inquiry;
        let asked = allowance.left.saturating_sub(left);
        Ok(Proof {
            settled,
            taken,
            asked,
        })
    }

    // The proof of the candidates of the place whose assertion the obligation claims.
    fn proof_of_candidates(
        self,
        obligation: &'a Obligation<'o>,
        allowance: Allowance<'a>,
    ) -> Result<Proof, AllocError> {
        let Claim::Holds(place) = obligation.claim else {
            return Ok(self.unasked(Settled::True));
        };
        let goals = self.owed(obligation, place)?;
        if goals.is_empty() {
            return Ok(self.unasked(Settled::True));
        }
        let conjunction = self.conjunction(place, &goals)?;
        self.proof_of_goal(obligation, Goal::Holds(&conjunction), allowance)
    }

    // The proof of a duty.
    fn proof(self, duty: Duty, allowance: Allowance<'a>) -> Result<Proof, AllocError> {
        let Some(obligation) = self.scene.obligations.get(duty.obligation) else {
            return Ok(self.unasked(Settled::Open));
        };
        match duty.owing {
            Owing::Claim => self.proof_of_goal(obligation, Goal::Claimed, allowance),
            Owing::Candidates => self.proof_of_candidates(obligation, allowance),
        }
    }
}

/// Each of these attempts is made.
#[derive(Clone, Copy)]
pub struct Proving<'a, 'o> {
    pub frozen: Frozen<'a, 'o>,
    pub attempts: &'a [Attempt<'a>],
    pub count: u32,
}

impl<'a, 'o> Early for Proving<'a, 'o> {
    type Answer = Proof;

    ghost count = { λ t. t.count };

    fn answer(
        &self,
        _alloc: Global,
        number: u32,
        watch: Watch<'_>,
    ) -> Result<Option<Proof>, AllocError> {
        let Some(attempt) = self.attempts.get(number as usize - 1) else {
            return Ok(None);
        };
        let frozen = Frozen {
            without: attempt.without,
            ..self.frozen
        };
        let left = attempt.share;
        let proof = frozen.proof(attempt.duty, Allowance { left, watch })?;
        Ok(match proof.settled {
            Settled::Cut => None,
            _ => Some(proof),
        })
    }
}
