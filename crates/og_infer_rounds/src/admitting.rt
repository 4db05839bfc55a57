//! The candidates that are left of each place, and states that weaken them.

use crate::listing::Seen;
use crate::scene::Scene;
use og_infer_candidates::{Candidate, Candidates, Universe};
use og_infer_places::{Part, Places, Samples, is_true};
use og_pool::Numbered;
use std::alloc::{AllocError, Global};
use std::collections::VecDeque;

/// How many states one state leads to at most.
const MOST_ADMITTED: u32 = 60;

/// A state at a place.
#[derive(Drop)]
struct Standing {
    place: u32,
    values: Vec<i64>,
}

/// The candidates that are left of each place.
#[derive(Drop)]
pub struct Held {
    pub(crate) candidates: Vec<Candidates>,
    // The round in which those of each place were weakened last, 0 before the first one.
    changed: Vec<u64>,
    // How many steps were made to admit states.
    steps: u64,
}

/// Where states are admitted: the places, the literals, and the round.
#[derive(Clone, Copy)]
pub(crate) struct Ground<'a, 'o> {
    pub(crate) scene: &'a Scene<'o>,
    pub(crate) places: &'a Places<'o>,
    pub(crate) universe: &'a Universe,
    pub(crate) round: u64,
}

impl Held {
    /// These, of which none was weakened in a round.
    pub(crate) fn new(alloc: Global, candidates: Vec<Candidates>) -> Result<Held, AllocError> {
        let changed = vec![in alloc; 0u64; candidates.len()]?;
        Ok(Held {
            candidates,
            changed,
            steps: 0,
        })
    }

    /// How many steps were made to admit states since this was asked last.
    pub(crate) fn take_steps(&mut self) -> u64 {
        let steps = self.steps;
        self.steps = 0;
        steps
    }

    /// Whether those of a place were weakened in this round or later.
    pub(crate) fn is_changed(&self, place: u32, round: u64) -> bool {
        match self.changed.get(place as usize) {
            Some(last) => *last >= round,
            None => false,
        }
    }

    /// Whether a candidate is true of all states that the place admitted.
    pub fn has(
        &self,
        alloc: Global,
        universe: &Universe,
        place: u32,
        candidate: &Candidate,
    ) -> Result<bool, AllocError> {
        match self.candidates.get(place as usize) {
            Some(own) => own.has(alloc, universe, candidate),
            None => Ok(false),
        }
    }

    // Weakens the candidates of a place by a state. Whether something changed.
    fn weaken(&mut self, ground: Ground, place: u32, state: &Seen) -> Result<bool, AllocError> {
        let Some(own) = self.candidates.get_mut(place as usize) else {
            return Ok(false);
        };
        let is_weaker = own.admit(ground.universe, &state.values, &state.mask)?;
        if is_weaker {
            if let Some(last) = self.changed.get_mut(place as usize) {
                *last = ground.round;
            }
        }
        Ok(is_weaker)
    }

    // The state after the action of another process at that place, where its candidates and the
    // author's assertion there allow the state, and it differs.
    fn after(
        &self,
        ground: Ground,
        place: u32,
        state: &Seen,
    ) -> Result<Option<Vec<i64>>, AllocError> {
        let mut values = Vec::from_slice(ground.scene.alloc, &state.values)?;
        if ground.places.advance(place, &mut values).is_none() {
            return Ok(None);
        }
        if values.as_slice() == state.values.as_slice() {
            return Ok(None);
        }
        let (Some(author), Some(own)) = (
            ground.scene.author(place),
            self.candidates.get(place as usize),
        ) else {
            return Ok(None);
        };
        let is_allowed = is_true(author, &state.values)
            && own.admits(ground.universe, &state.values, &state.mask);
        Ok(if is_allowed { Some(values) } else { None })
    }

    // Adds what the actions of other processes make of the state at a place of a process.
    fn add_changes(
        &self,
        ground: Ground,
        process: u32,
        place: u32,
        state: &Seen,
        queue: &mut VecDeque<Standing>,
    ) -> Result<(), AllocError> {
        for other in &ground.scene.acting {
            let is_other = match ground.places.place(*other) {
                Some(acting) => acting.part != Part::Process(process),
                None => false,
            };
            if is_other {
                if let Some(values) = self.after(ground, *other, state)? {
                    queue.push_back(Standing { place, values })?;
                }
            }
        }
        Ok(())
    }

    // Adds what the state at the place leads to.
    fn add_next(
        &self,
        ground: Ground,
        place: u32,
        state: &Seen,
        queue: &mut VecDeque<Standing>,
    ) -> Result<(), AllocError> {
        let Some(own) = ground.places.place(place) else {
            return Ok(());
        };
        if !is_true(&own.note.assertion, &state.values) {
            return Ok(());
        }
        let mut values = Vec::from_slice(ground.scene.alloc, &state.values)?;
        if let Some(next) = ground.places.advance(place, &mut values) {
            queue.push_back(Standing {
                place: next,
                values,
            })?;
        }
        match own.part {
            Part::Process(process) if own.is_shared => {
                self.add_changes(ground, process, place, state, queue)
            }
            _ => Ok(()),
        }
    }

    /// Weakens the candidates of a place by a state, and then those of places to which it leads,
    /// as far as the candidates of other places allow it.
    pub(crate) fn admit(
        &mut self,
        ground: Ground,
        place: u32,
        values: Vec<i64>,
    ) -> Result<(), AllocError> {
        let alloc = ground.scene.alloc;
        let size = ground.universe.size();
        let mut queue = VecDeque::new(alloc);
        queue.push_back(Standing { place, values })?;
        let mut admitted = 0u32;
        for _ in 0..u64::MAX {
            if admitted >= MOST_ADMITTED {
                break;
            }
            let Some(Standing { place, values }) = queue.pop_front() else {
                break;
            };
            let state = Seen::new(alloc, ground.universe, values)?;
            self.steps = self.steps.saturating_add(size);
            if self.weaken(ground, place, &state)? {
                let acting = ground.scene.acting.len() as u64;
                self.steps = self.steps.saturating_add(size.saturating_mul(acting));
                admitted = admitted.saturating_add(1);
                self.add_next(ground, place, &state, &mut queue)?;
            }
        }
        Ok(())
    }
}

/// The candidates of each place that are true of its samples.
#[derive(Clone, Copy)]
pub(crate) struct Gathering<'a> {
    pub(crate) universe: &'a Universe,
    pub(crate) samples: &'a Samples,
    pub(crate) count: u32,
}

impl<'a> Numbered for Gathering<'a> {
    ghost use Rattle.std.specs.Prelude.{⊤};

    type Answer = Candidates;

    type Kept = ();

    ghost count = { λ t. t.count };

    ghost may_answer = { λ _ _ _. ⊤ };

    ghost keeps = { λ _ _. ⊤ };

    fn kept(&self) {}

    fn answer(&self, alloc: Global, number: u32, _kept: &mut ()) -> Result<Candidates, AllocError> {
        Candidates::of_states(alloc, self.universe, self.samples.at(number - 1))
    }
}
