//! One question, asked again with more and more candidates taken.

use crate::counting::price;
use crate::listing::{Lists, Pick, Role, Seen, Spot, lighter};
use crate::pooling::Watch;
use crate::scene::Scene;
use og_infer_candidates::Universe;
use og_infer_places::{Answer, Goal, Obligation, Question, Taken, ask, is_true};
use og_typed::Assert;
use std::alloc::AllocError;

/// How many steps two variables, and how many a candidate that may be taken, add to a question.
const STEPS_OF_VARIABLES: u64 = 30;

const STEPS_A_CANDIDATE: u64 = 4;

/// What does not change while a task is done.
#[derive(Clone, Copy)]
pub struct Frozen<'a, 'o> {
    pub scene: &'a Scene<'o>,
    pub universe: &'a Universe,
    pub lists: &'a Lists,
    /// Candidates that are left out too, by places and by where they stand there.
    pub without: &'a [Spot],
}

/// How an inquiry ends.
#[derive(Drop)]
pub enum Settled {
    /// What was taken gives the goal.
    True,
    /// In this state, before the action, all that may be taken is true and the goal false.
    False(Vec<i64>),
    /// Neither was found.
    Open,
    /// It was given up, since nobody waits for it.
    Cut,
}

/// How many questions may be asked, and as long as what.
#[derive(Clone, Copy)]
pub struct Allowance<'w> {
    pub left: u64,
    pub watch: Watch<'w>,
}

/// A goal of an obligation, and what is taken for it: at first nothing, and then, while a state is
/// found in which the goal is false, the lightest candidate that is false in that state.
#[derive(Drop)]
pub struct Inquiry<'g, 'a, 'o> {
    pub frozen: Frozen<'a, 'o>,
    pub obligation: &'a Obligation<'o>,
    pub goal: Goal<'g>,
    /// Whether only what is needed anyway may be taken.
    pub is_strict: bool,
    /// What is taken.
    pub taken: Vec<Spot>,
    /// How many questions may still be asked.
    pub left: u64,
    watch: Watch<'a>,
    // How many of these each one costs.
    price: u64,
    /// The states for which something was taken that nothing else needs.
    pub states: Vec<Seen>,
}

impl Frozen<'_, '_> {
    /// Whether the candidate there is left out.
    pub fn is_out(&self, spot: Spot) -> bool {
        self.lists.has_role(spot, Role::Out) || spot.is_among(self.without)
    }

    // Whether the candidate there may be taken: one that is needed anyway, if this is strict.
    fn may_take(&self, spot: Spot, role: Role, is_strict: bool) -> bool {
        let is_taken = match role {
            Role::Offered => !is_strict,
            Role::Needed => true,
            Role::Out => false,
        };
        is_taken && !spot.is_among(self.without)
    }

    // The lightest candidate of a place that is false in the state, of those that may be taken.
    fn pick(&self, place: u32, state: &Seen, is_strict: bool) -> Option<Pick> {
        let mut best: Option<Pick> = None;
        for (index, listed) in self.lists.at(place).iter().enumerate() {
            let spot = Spot { place, index };
            let weight = listed.weight();
            let is_less = match best {
                Some(pick) => weight < pick.weight,
                None => true,
            };
            if is_less
                && self.may_take(spot, listed.role, is_strict)
                && listed.excludes(self.universe, state)
            {
                best = Some(Pick { spot, weight });
            }
        }
        best
    }

    // How many candidates the obligation may take.
    fn offers(&self, obligation: &Obligation) -> u64 {
        let mut offers = 0u64;
        for place in &obligation.places {
            offers = offers.saturating_add(self.lists.at(*place).len() as u64);
        }
        for alternatives in &obligation.stuck {
            for (place, _) in alternatives {
                offers = offers.saturating_add(self.lists.at(*place).len() as u64);
            }
        }
        offers
    }

    /// What a question of the obligation costs: one, and more where many variables or candidates
    /// are looked through.
    fn price(&self, obligation: &Obligation) -> u64 {
        let variables = u64::from(self.scene.frame.variables());
        let variables = variables
            .saturating_mul(variables)
            .saturating_mul(STEPS_OF_VARIABLES);
        let offers = self.offers(obligation).saturating_mul(STEPS_A_CANDIDATE);
        price(variables.saturating_add(offers)).saturating_add(1)
    }
}

// What is taken to exclude a state, and the weight of all of it.
#[derive(Drop)]
struct Picks {
    spots: Vec<Spot>,
    weight: u32,
}

impl<'g, 'a, 'o> Inquiry<'g, 'a, 'o> {
    /// With these taken, and so many questions.
    pub fn new(
        frozen: Frozen<'a, 'o>,
        obligation: &'a Obligation<'o>,
        goal: Goal<'g>,
        taken: Vec<Spot>,
        allowance: Allowance<'a>,
    ) -> Inquiry<'g, 'a, 'o> {
        Inquiry {
            frozen,
            obligation,
            goal,
            is_strict: false,
            taken,
            left: allowance.left,
            watch: allowance.watch,
            price: frozen.price(obligation),
            states: Vec::new(frozen.scene.alloc),
        }
    }

    // The assertions that are taken.
    fn assertions(&self) -> Result<Vec<Taken<'a>>, AllocError> {
        let lists = self.frozen.lists;
        let mut all = Vec::with_capacity(self.frozen.scene.alloc, self.taken.len())?;
        for spot in &self.taken {
            if let Some(listed) = lists.get(*spot) {
                all.push(Taken {
                    place: spot.place,
                    assertion: &listed.assertion,
                })?;
            }
        }
        Ok(all)
    }

    // One question.
    fn ask(&mut self) -> Result<Answer, AllocError> {
        let Some(left) = self.left.checked_sub(self.price) else {
            self.left = 0;
            return Ok(Answer::Open);
        };
        self.left = left;
        let scene = self.frozen.scene;
        let taken = self.assertions()?;
        let question = Question {
            obligation: self.obligation,
            taken: &taken,
            goal: self.goal,
        };
        ask(scene.alloc, &scene.frame, &question, scene.budget)
    }

    // The lightest candidate of the places of the obligation that is false in the state.
    fn lightest(&self, state: &Seen) -> Result<Vec<Spot>, AllocError> {
        let mut best = None;
        for place in &self.obligation.places {
            best = lighter(best, self.frozen.pick(*place, state, self.is_strict));
        }
        let mut spots = Vec::new(self.frozen.scene.alloc);
        if let Some(pick) = best {
            spots.push(pick.spot)?;
        }
        Ok(spots)
    }

    // Whether all that is taken at a place is true in the state.
    fn allows(&self, place: u32, state: &Seen) -> bool {
        let Frozen {
            universe,
            lists,
            ..
        } = self.frozen;
        for spot in &self.taken {
            if spot.place == place {
                if let Some(listed) = lists.get(*spot) {
                    if listed.excludes(universe, state) {
                        return false;
                    }
                }
            }
        }
        true
    }

    // Whether a process may stand at a place in the state, its guard false, after what is taken.
    fn is_possible(&self, place: u32, guard: Option<&Assert>, state: &Seen) -> bool {
        if let Some(guard) = guard {
            if is_true(guard, &state.values) {
                return false;
            }
        }
        match self.frozen.scene.author(place) {
            Some(author) => is_true(author, &state.values) && self.allows(place, state),
            None => false,
        }
    }

    // For each alternative of a process that is possible in the state the lightest candidate that
    // is false there. None where one has no such candidate.
    fn excluding(
        &self,
        alternatives: &[(u32, Option<&Assert>)],
        state: &Seen,
    ) -> Result<Option<Picks>, AllocError> {
        let mut spots = Vec::new(self.frozen.scene.alloc);
        let mut weight = 0u32;
        for (place, guard) in alternatives {
            if self.is_possible(*place, *guard, state) {
                let Some(pick) = self.frozen.pick(*place, state, self.is_strict) else {
                    return Ok(None);
                };
                spots.push(pick.spot)?;
                weight = weight.saturating_add(pick.weight);
            }
        }
        Ok(Some(Picks { spots, weight }))
    }

    // What excludes the state for one of the processes, the lightest of these.
    fn blocking(&self, state: &Seen) -> Result<Vec<Spot>, AllocError> {
        let mut best = Picks {
            spots: Vec::new(self.frozen.scene.alloc),
            weight: u32::MAX,
        };
        for alternatives in &self.obligation.stuck {
            if let Some(picks) = self.excluding(alternatives, state)? {
                if !picks.spots.is_empty() && picks.weight < best.weight {
                    best = picks;
                }
            }
        }
        Ok(best.spots)
    }

    // Takes these, which exclude the state, and says whether one of them was not taken before. The
    // state is kept where one is not needed anyway.
    fn take(&mut self, spots: &[Spot], state: Seen) -> Result<bool, AllocError> {
        let mut is_new = false;
        let mut is_kept = false;
        for spot in spots {
            if !self.taken.contains(spot) {
                self.taken.push(*spot)?;
                is_new = true;
                is_kept = is_kept || self.frozen.lists.has_role(*spot, Role::Offered);
            }
        }
        if is_kept {
            self.states.push(state)?;
        }
        Ok(is_new)
    }

    // Takes what excludes the state. Nothing is left to be done where that cannot be.
    fn exclude(&mut self, values: Vec<i64>) -> Result<Option<Settled>, AllocError> {
        let state = Seen::new(self.frozen.scene.alloc, self.frozen.universe, values)?;
        let spots = if self.obligation.stuck.is_empty() {
            self.lightest(&state)?
        } else {
            self.blocking(&state)?
        };
        if spots.is_empty() {
            return Ok(Some(Settled::False(state.values)));
        }
        let is_new = self.take(&spots, state)?;
        Ok(if is_new { None } else { Some(Settled::Open) })
    }

    /// Asks until the goal is shown, or a state is found in which all that may be taken is true, or
    /// no question is left, or nobody waits for it.
    pub fn settle(&mut self) -> Result<Settled, AllocError> {
        for _ in 0..u64::MAX {
            if self.watch.is_over() {
                return Ok(Settled::Cut);
            }
            match self.ask()? {
                Answer::True => return Ok(Settled::True),
                Answer::Open => return Ok(Settled::Open),
                Answer::False(values) => {
                    if let Some(settled) = self.exclude(values)? {
                        return Ok(settled);
                    }
                }
            }
        }
        Ok(Settled::Open)
    }
}
