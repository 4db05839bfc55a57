//! States after an action in which candidates of a place are false.

use crate::asking::{Allowance, Frozen, Inquiry, Settled};
use crate::counting::price;
use crate::listing::{Listed, Seen, Spot};
use crate::pooling::{Early, Watch};
use og_infer_candidates::Candidate;
use og_infer_places::{Claim, Goal, Obligation, apply};
use og_typed::Assert;
use std::alloc::{AllocError, Global};

/// How many candidates are asked in one question.
const MOST_GOALS: usize = 24;

/// How many states a task finds at most.
const MOST_STATES: usize = 8;

/// How many candidates are taken at first because other goals of the obligation needed them.
const MOST_USEFUL: usize = 16;

/// A candidate of a place that was taken.
#[derive(Drop)]
pub(crate) struct Useful {
    place: u32,
    candidate: Candidate,
}

/// Candidates of a place that are asked together, by where they stand in its list, and what was
/// taken for them so far.
#[derive(Drop)]
struct Chunk {
    goals: Vec<usize>,
    taken: Vec<Spot>,
}

/// The states that were found, after the action, what was taken last, and how many questions were
/// asked.
#[derive(Drop)]
pub(crate) struct Weakened {
    pub(crate) states: Vec<Seen>,
    pub(crate) taken: Vec<Spot>,
    pub(crate) asked: u64,
}

impl<'a, 'o> Frozen<'a, 'o> {
    // Whether one of the variables occurs in the candidate.
    fn changes(&self, changed: &[u32], candidate: &Candidate) -> bool {
        for var in changed {
            if candidate.mentions(self.universe, *var) {
                return true;
            }
        }
        false
    }

    /// Whether the obligation has to show the candidate of the place: the action may change it, or
    /// the place is not one of those that it starts from.
    pub fn owes(
        &self,
        obligation: &Obligation,
        place: u32,
        candidate: &Candidate,
        changed: &[u32],
    ) -> bool {
        !obligation.places.contains(&place) || self.changes(changed, candidate)
    }

    // Whether a place from which the obligation starts has the candidate.
    fn starts_with(&self, obligation: &Obligation, candidate: &Candidate) -> bool {
        for place in &obligation.places {
            if self.lists.find(*place, candidate).is_some() {
                return true;
            }
        }
        false
    }

    // Whether no state is at one of the places from which the obligation starts.
    fn is_unreached(&self, obligation: &Obligation) -> bool {
        for place in &obligation.places {
            for listed in self.lists.at(*place) {
                if matches!(listed.candidate, Candidate::False) {
                    return true;
                }
            }
        }
        false
    }

    // Whether the candidate of the place may fail after the action.
    fn is_doubtful(
        &self,
        obligation: &Obligation,
        place: u32,
        listed: &Listed,
        changed: &[u32],
    ) -> bool {
        if self.changes(changed, &listed.candidate) {
            return true;
        }
        !obligation.places.contains(&place) && !self.starts_with(obligation, &listed.candidate)
    }

    // The candidates of the place that may fail after the action.
    fn doubtful(&self, obligation: &Obligation, place: u32) -> Result<Vec<usize>, AllocError> {
        let mut goals = Vec::new(self.scene.alloc);
        if self.is_unreached(obligation) {
            return Ok(goals);
        }
        let changed = self.scene.changed(obligation)?;
        for (index, listed) in self.lists.at(place).iter().enumerate() {
            let is_out = self.is_out(Spot { place, index });
            if !is_out && self.is_doubtful(obligation, place, listed, &changed) {
                goals.push(index)?;
            }
        }
        Ok(goals)
    }

    /// That all these candidates of the place are true.
    pub fn conjunction(&self, place: u32, goals: &[usize]) -> Result<Assert, AllocError> {
        let alloc = self.scene.alloc;
        let mut all = Vec::with_capacity(alloc, goals.len())?;
        for index in goals {
            let spot = Spot {
                place,
                index: *index,
            };
            if let Some(listed) = self.lists.get(spot) {
                all.push(listed.assertion.copy(alloc)?)?;
            }
        }
        Ok(Assert::And(all))
    }

    /// What is taken, in a form that outlasts the lists.
    pub(crate) fn useful(&self, taken: &[Spot]) -> Result<Vec<Useful>, AllocError> {
        let alloc = self.scene.alloc;
        let mut useful = Vec::new(alloc);
        for spot in taken {
            if let Some(listed) = self.lists.get(*spot) {
                let place = spot.place;
                let candidate = listed.candidate.copy(alloc)?;
                useful.push(Useful { place, candidate })?;
            }
        }
        Ok(useful)
    }

    // Where these are listed, as far as they are.
    fn spots_of(&self, useful: &[Useful]) -> Result<Vec<Spot>, AllocError> {
        let mut spots = Vec::new(self.scene.alloc);
        for Useful { place, candidate } in useful {
            if let Some(spot) = self.lists.find(*place, candidate) {
                spots.push(spot)?;
            }
        }
        Ok(spots)
    }

    /// The state after the action of the obligation. A value beyond `i64` is the nearest one there.
    pub fn after(&self, obligation: &Obligation, mut values: Vec<i64>) -> Result<Seen, AllocError> {
        if let Some(action) = &obligation.action {
            let _ = apply(action, &mut values);
        }
        Seen::new(self.scene.alloc, self.universe, values)
    }
}

// The candidates in chunks, the first ones last.
fn chunks_of(alloc: Global, goals: &[usize]) -> Result<Vec<Chunk>, AllocError> {
    let mut chunks = Vec::new(alloc);
    for part in goals.chunks(MOST_GOALS) {
        chunks.push(Chunk {
            goals: Vec::from_slice(alloc, part)?,
            taken: Vec::new(alloc),
        })?;
    }
    chunks.reverse();
    Ok(chunks)
}

// Candidates of one place, and states in which some of them are false after one action.
#[derive(Drop)]
struct Weakener<'a, 'o> {
    frozen: Frozen<'a, 'o>,
    obligation: &'a Obligation<'o>,
    place: u32,
    // What is still to be asked, the last one first.
    chunks: Vec<Chunk>,
    states: Vec<Seen>,
    // What is taken at first.
    useful: Vec<Spot>,
    allowance: Allowance<'a>,
    // Whether it was given up.
    is_cut: bool,
}

impl<'a, 'o> Weakener<'a, 'o> {
    // Of an obligation that claims the assertion of the place, with so many questions.
    fn new(
        frozen: Frozen<'a, 'o>,
        obligation: &'a Obligation<'o>,
        place: u32,
        useful: &[Useful],
        mut allowance: Allowance<'a>,
    ) -> Result<Weakener<'a, 'o>, AllocError> {
        let alloc = frozen.scene.alloc;
        let goals = frozen.doubtful(obligation, place)?;
        let listed = frozen.lists.at(place).len() as u64;
        allowance.left = allowance.left.saturating_sub(price(listed));
        Ok(Weakener {
            frozen,
            obligation,
            place,
            chunks: chunks_of(alloc, &goals)?,
            states: Vec::new(alloc),
            useful: frozen.spots_of(useful)?,
            allowance,
            is_cut: false,
        })
    }

    // Whether the candidate is true in all states that were found.
    fn is_standing(&self, index: usize) -> bool {
        let place = self.place;
        let Some(listed) = self.frozen.lists.get(Spot { place, index }) else {
            return false;
        };
        for state in &self.states {
            if listed.excludes(self.frozen.universe, state) {
                return false;
            }
        }
        true
    }

    // Those that are true in all states that were found.
    fn standing(&self, goals: &[usize]) -> Result<Vec<usize>, AllocError> {
        let mut standing = Vec::new(self.frozen.scene.alloc);
        for index in goals {
            if self.is_standing(*index) {
                standing.push(*index)?;
            }
        }
        Ok(standing)
    }

    // Asks each half by itself.
    fn halve(&mut self, goals: &[usize]) -> Result<(), AllocError> {
        if goals.len() < 2 {
            return Ok(());
        }
        let alloc = self.frozen.scene.alloc;
        let (first, second) = goals.split_at(goals.len() / 2);
        for half in [second, first] {
            self.chunks.push(Chunk {
                goals: Vec::from_slice(alloc, half)?,
                taken: Vec::new(alloc),
            })?;
        }
        Ok(())
    }

    // Keeps the state after this one, and asks again without what is false in it.
    fn refute(&mut self, chunk: Chunk, values: Vec<i64>) -> Result<(), AllocError> {
        let state = self.frozen.after(self.obligation, values)?;
        self.states.push(state)?;
        let Chunk { goals, taken } = chunk;
        let rest = self.standing(&goals)?;
        if !rest.is_empty() && rest.len() < goals.len() {
            self.chunks.push(Chunk { goals: rest, taken })?;
        }
        Ok(())
    }

    // Takes the last ones of these at first from now on.
    fn keep(&mut self, taken: Vec<Spot>) -> Result<(), AllocError> {
        let first = taken.len().saturating_sub(MOST_USEFUL);
        self.useful = Vec::from_slice(self.frozen.scene.alloc, taken.get(first..).unwrap_or(&[]))?;
        Ok(())
    }

    // Asks whether the candidates hold after the action.
    fn settle(&mut self, chunk: Chunk) -> Result<(), AllocError> {
        let Chunk { goals, mut taken } = chunk;
        if taken.is_empty() {
            taken.extend_from_slice(&self.useful)?;
        }
        let conjunction = self.frozen.conjunction(self.place, &goals)?;
        let goal = Goal::Holds(&conjunction);
        let mut inquiry = Inquiry::new(self.frozen, self.obligation, goal, taken, self.allowance);
        let settled = inquiry.settle()?;
        let Inquiry { taken, left, .. } = inquiry;
        self.allowance.left = left;
        match settled {
            Settled::True => self.keep(taken),
            Settled::Cut => {
                self.is_cut = true;
                Ok(())
            }
            Settled::Open => self.halve(&goals),
            Settled::False(values) => self.refute(Chunk { goals, taken }, values),
        }
    }

    // Whether nothing more is to be asked: enough states are found, or no question is left, or it
    // was given up.
    fn is_done(&self) -> bool {
        self.is_cut || self.allowance.left == 0 || self.states.len() >= MOST_STATES
    }

    // Asks until all is asked.
    fn run(&mut self) -> Result<(), AllocError> {
        for _ in 0..u64::MAX {
            if self.is_done() {
                break;
            }
            let Some(Chunk { goals, taken }) = self.chunks.pop() else {
                break;
            };
            let goals = self.standing(&goals)?;
            if !goals.is_empty() {
                self.settle(Chunk { goals, taken })?;
            }
        }
        Ok(())
    }
}

/// For each of these obligations, which claim the assertion of a place: states in which candidates
/// of the place are false after the action, and those of the places from which it starts are true
/// before.
#[derive(Clone, Copy)]
pub(crate) struct Weakening<'a, 'o> {
    pub(crate) frozen: Frozen<'a, 'o>,
    pub(crate) tasks: &'a [usize],
    /// For each obligation what was taken last.
    pub(crate) useful: &'a [Vec<Useful>],
    /// How many questions each task may ask.
    pub(crate) share: u64,
    pub(crate) count: u32,
}

impl<'a, 'o> Weakening<'a, 'o> {
    // The states that one obligation gives; none where it was given up.
    fn weakened(
        &self,
        obligation: &'a Obligation<'o>,
        useful: &[Useful],
        watch: Watch<'_>,
    ) -> Result<Option<Weakened>, AllocError> {
        let Claim::Holds(place) = obligation.claim else {
            return Ok(None);
        };
        let left = self.share;
        let allowance = Allowance { left, watch };
        let mut weakener = Weakener::new(self.frozen, obligation, place, useful, allowance)?;
        weakener.run()?;
        let Weakener {
            states,
            useful,
            allowance,
            is_cut,
            ..
        } = weakener;
        if is_cut {
            return Ok(None);
        }
        Ok(Some(Weakened {
            states,
            taken: useful,
            asked: self.share.saturating_sub(allowance.left),
        }))
    }
}

impl<'a, 'o> Early for Weakening<'a, 'o> {
    type Answer = Weakened;

    ghost count = { λ t. t.count };

    fn answer(
        &self,
        _alloc: Global,
        number: u32,
        watch: Watch<'_>,
    ) -> Result<Option<Weakened>, AllocError> {
        let Some(task) = self.tasks.get(number as usize - 1) else {
            return Ok(None);
        };
        match (
            self.frozen.scene.obligations.get(*task),
            self.useful.get(*task),
        ) {
            (Some(obligation), Some(useful)) => self.weakened(obligation, useful, watch),
            _ => Ok(None),
        }
    }
}
