//! The few candidates that prove one goal.

use og_infer_places::{Goal, Obligation};
use og_infer_rounds::{Allowance, Early, Frozen, Inquiry, Role, Seen, Settled, Spot, Watch};
use std::alloc::{AllocError, Global};

/// How many single candidates are tried in place of several.
const MOST_ALONE: usize = 4;

/// What is to be proved: that an obligation gives a candidate, or what it claims.
#[derive(Clone, Copy)]
pub(crate) struct Owed {
    /// Which obligation.
    pub(crate) obligation: usize,
    /// The candidate of the place whose assertion it claims; none for what it claims.
    pub(crate) goal: Option<Spot>,
}

/// The candidates that a proof needs beside those that are needed anyway. There are none where no
/// proof was found.
#[derive(Drop)]
pub(crate) struct Core {
    pub(crate) spots: Vec<Spot>,
    pub(crate) asked: u64,
}

// A goal of an obligation, and how many questions may be asked for it.
#[derive(Clone, Copy)]
struct Aim<'a, 'o> {
    frozen: Frozen<'a, 'o>,
    obligation: &'a Obligation<'o>,
    goal: Goal<'a>,
    allowance: Allowance<'a>,
    // Whether it was given up.
    is_cut: bool,
}

impl<'a, 'o> Aim<'a, 'o> {
    // Those of these that have the role.
    fn with_role(&self, spots: &[Spot], role: Role) -> Result<Vec<Spot>, AllocError> {
        let mut all = Vec::new(self.frozen.scene.alloc);
        for spot in spots {
            if self.frozen.lists.has_role(*spot, role) {
                all.push(*spot)?;
            }
        }
        Ok(all)
    }

    // The lightest first.
    fn sort(&self, spots: &mut Vec<Spot>) -> Result<(), AllocError> {
        let lists = self.frozen.lists;
        spots.sort_by_key(|spot| lists.weight(*spot))
    }

    // Whether these prove the goal, with what is needed anyway.
    fn is_enough(&mut self, taken: Vec<Spot>) -> Result<bool, AllocError> {
        let allowance = self.allowance;
        let mut inquiry = Inquiry::new(self.frozen, self.obligation, self.goal, taken, allowance);
        inquiry.is_strict = true;
        let settled = inquiry.settle()?;
        self.allowance.left = inquiry.left;
        self.is_cut = self.is_cut || matches!(settled, Settled::Cut);
        Ok(matches!(settled, Settled::True))
    }

    // All of these.
    fn joined(&self, parts: [&[Spot]; 3]) -> Result<Vec<Spot>, AllocError> {
        let mut all = Vec::new(self.frozen.scene.alloc);
        for part in parts {
            all.extend_from_slice(part)?;
        }
        Ok(all)
    }

    // Those of the chosen ones that cannot be left out, one after another, the heaviest first.
    fn thinned(&mut self, mut chosen: Vec<Spot>, needed: &[Spot]) -> Result<Vec<Spot>, AllocError> {
        self.sort(&mut chosen)?;
        let mut kept = Vec::new(self.frozen.scene.alloc);
        for _ in 0..chosen.len() {
            let Some(spot) = chosen.pop() else {
                break;
            };
            let rest = self.joined([&chosen, &kept, needed])?;
            if !self.is_enough(rest)? {
                kept.push(spot)?;
            }
        }
        Ok(kept)
    }

    // Whether the candidate there is false in all these states.
    fn excludes_all(&self, spot: Spot, states: &[Seen]) -> bool {
        let Some(listed) = self.frozen.lists.get(spot) else {
            return false;
        };
        for state in states {
            if !listed.excludes(self.frozen.universe, state) {
                return false;
            }
        }
        true
    }

    // Adds the candidates of a place that weigh less and are false in all these states.
    fn add_alone(
        &self,
        place: u32,
        weight: u32,
        states: &[Seen],
        alone: &mut Vec<Spot>,
    ) -> Result<(), AllocError> {
        for index in 0..self.frozen.lists.at(place).len() {
            let spot = Spot { place, index };
            let is_offered = self.frozen.lists.has_role(spot, Role::Offered);
            let is_less = self.frozen.lists.weight(spot) < weight;
            if is_offered && is_less && self.excludes_all(spot, states) {
                alone.push(spot)?;
            }
        }
        Ok(())
    }

    // The weight of all of these.
    fn weight(&self, spots: &[Spot]) -> u32 {
        let mut weight = 0u32;
        for spot in spots {
            weight = weight.saturating_add(self.frozen.lists.weight(*spot));
        }
        weight
    }

    // The candidates that weigh less than all of these and are false in all these states, the
    // lightest first.
    fn alone(&self, chosen: &[Spot], states: &[Seen]) -> Result<Vec<Spot>, AllocError> {
        let mut alone = Vec::new(self.frozen.scene.alloc);
        if chosen.len() < 2 || !self.obligation.stuck.is_empty() {
            return Ok(alone);
        }
        let weight = self.weight(chosen);
        for place in &self.obligation.places {
            self.add_alone(*place, weight, states, &mut alone)?;
        }
        self.sort(&mut alone)?;
        alone.truncate(MOST_ALONE);
        Ok(alone)
    }

    // One candidate in place of the chosen ones where it proves the goal too.
    fn single(
        &mut self,
        chosen: Vec<Spot>,
        needed: &[Spot],
        states: &[Seen],
    ) -> Result<Vec<Spot>, AllocError> {
        for spot in self.alone(&chosen, states)? {
            let taken = self.joined([&[spot], needed, &[]])?;
            if self.is_enough(taken)? {
                return Vec::from_slice(self.frozen.scene.alloc, &[spot]);
            }
        }
        Ok(chosen)
    }

    // What proves the goal beside what is needed anyway.
    fn core(&mut self) -> Result<Vec<Spot>, AllocError> {
        let alloc = self.frozen.scene.alloc;
        let mut inquiry = Inquiry::new(
            self.frozen,
            self.obligation,
            self.goal,
            Vec::new(alloc),
            self.allowance,
        );
        let settled = inquiry.settle()?;
        let Inquiry {
            taken,
            left,
            states,
            ..
        } = inquiry;
        self.allowance.left = left;
        self.is_cut = matches!(settled, Settled::Cut);
        if !matches!(settled, Settled::True) {
            return Ok(Vec::new(alloc));
        }
        let needed = self.with_role(&taken, Role::Needed)?;
        let chosen = self.with_role(&taken, Role::Offered)?;
        let thinned = self.thinned(chosen, &needed)?;
        self.single(thinned, &needed, &states)
    }
}

/// What proves each of these.
#[derive(Clone, Copy)]
pub(crate) struct Supporting<'a, 'o> {
    pub(crate) frozen: Frozen<'a, 'o>,
    pub(crate) owed: &'a [Owed],
    /// How many questions each task may ask.
    pub(crate) share: u64,
    pub(crate) count: u32,
}

impl<'a, 'o> Supporting<'a, 'o> {
    // What proves a goal of an obligation; none where it was given up.
    fn core_of(
        &self,
        obligation: &'a Obligation<'o>,
        goal: Goal<'a>,
        watch: Watch<'_>,
    ) -> Result<Option<Core>, AllocError> {
        let left = self.share;
        let mut aim = Aim {
            frozen: self.frozen,
            obligation,
            goal,
            allowance: Allowance { left, watch },
            is_cut: false,
        };
        let spots = aim.core()?;
        if aim.is_cut {
            return Ok(None);
        }
        let asked = self.share.saturating_sub(aim.allowance.left);
        Ok(Some(Core { spots, asked }))
    }

    // The obligation and the goal of what is owed.
    fn goal_of(&self, owed: &Owed) -> Option<(&'a Obligation<'o>, Goal<'a>)> {
        let Frozen { scene, lists, .. } = self.frozen;
        let obligation = scene.obligations.get(owed.obligation)?;
        let goal = match owed.goal {
            Some(spot) => Goal::Holds(&lists.get(spot)?.assertion),
            None => Goal::Claimed,
        };
        Some((obligation, goal))
    }
}

impl<'a, 'o> Early for Supporting<'a, 'o> {
    type Answer = Core;

    ghost count = { λ t. t.count };

    fn answer(
        &self,
        alloc: Global,
        number: u32,
        watch: Watch<'_>,
    ) -> Result<Option<Core>, AllocError> {
        let found = match self.owed.get(number as usize - 1) {
            Some(owed) => self.goal_of(owed),
            None => None,
        };
        match found {
            Some((obligation, goal)) => self.core_of(obligation, goal, watch),
            None => Ok(Some(Core {
                spots: Vec::new(alloc),
                asked: 0,
            })),
        }
    }
}
