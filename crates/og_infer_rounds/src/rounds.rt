//! Weakening in rounds, until the candidates of all places last.

use crate::admitting::{Gathering, Ground, Held};
use crate::asking::Frozen;
use crate::counting::{Questions, is_same_with, price};
use crate::foreseen::Foreseen;
use crate::listing::{Listed, Listing, Lists};
use crate::pooling::{Pool, count_of};
use crate::scene::{Scene, empty_lists};
use crate::weakening::{Useful, Weakened, Weakening};
use og_infer_candidates::Universe;
use og_infer_places::{Claim, Obligation, Places, Samples};
use og_pool::PoolFault;
use std::alloc::{AllocError, Global};
use std::sync::Wait;
use std::thread::Threads;

/// How many obligations are asked in one round.
const MOST_IN_ROUND: usize = 16;

/// How many steps it takes to list candidates, by the size of the literals, and by candidates.
const STEPS_A_WORD: u64 = 32;

const STEPS_A_CANDIDATE: u64 = 64;

/// For each place the round in which its candidates were listed last, 0 where they never were.
#[derive(Drop)]
struct Dates {
    of: Vec<u64>,
}

impl Dates {
    // Whether the candidates of the place were weakened since then.
    fn is_stale(&self, held: &Held, place: u32) -> bool {
        match self.of.get(place as usize) {
            Some(last) => *last == 0 || held.is_changed(place, *last),
            None => false,
        }
    }

    // How many places of the obligation are not up to date.
    fn lacking(&self, held: &Held, obligation: &Obligation) -> usize {
        let mut lacking = 0usize;
        for place in &obligation.places {
            lacking = lacking.saturating_add(usize::from(self.is_stale(held, *place)));
        }
        match obligation.claim {
            Claim::Holds(goal) if self.is_stale(held, goal) => lacking.saturating_add(1),
            _ => lacking,
        }
    }

    // Adds the place where it is not up to date. It is from now on.
    fn add_stale(
        &mut self,
        held: &Held,
        place: u32,
        round: u64,
        stale: &mut Vec<u32>,
    ) -> Result<(), AllocError> {
        if self.is_stale(held, place) {
            if let Some(last) = self.of.get_mut(place as usize) {
                *last = round;
            }
            stale.push(place)?;
        }
        Ok(())
    }

    // Adds those of these places that are not up to date.
    fn add_all(
        &mut self,
        held: &Held,
        places: &[u32],
        round: u64,
        stale: &mut Vec<u32>,
    ) -> Result<(), AllocError> {
        for place in places {
            self.add_stale(held, *place, round, stale)?;
        }
        Ok(())
    }

    // Adds the places of the obligation that are not up to date.
    fn add_stale_of(
        &mut self,
        held: &Held,
        obligation: &Obligation,
        round: u64,
        stale: &mut Vec<u32>,
    ) -> Result<(), AllocError> {
        self.add_all(held, &obligation.places, round, stale)?;
        match obligation.claim {
            Claim::Holds(goal) => self.add_stale(held, goal, round, stale),
            _ => Ok(()),
        }
    }

    // The places of these obligations that are not up to date.
    fn stale_of(
        &mut self,
        held: &Held,
        scene: &Scene,
        batch: &[usize],
        round: u64,
    ) -> Result<Vec<u32>, AllocError> {
        let mut stale = Vec::new(scene.alloc);
        for index in batch {
            if let Some(obligation) = scene.obligations.get(*index) {
                self.add_stale_of(held, obligation, round, &mut stale)?;
            }
        }
        Ok(stale)
    }
}

/// What an obligation gave in a round, where it might ask so many questions.
#[derive(Drop)]
struct Given {
    round: u64,
    share: u64,
    found: Weakened,
}

/// The obligations that are asked at once, and the places that are listed for that.
#[derive(Drop)]
struct Inquest {
    stale: Vec<u32>,
    tasks: Vec<usize>,
}

/// The candidates of all places, and how far they were weakened.
#[derive(Drop)]
pub struct Rounds {
    held: Held,
    // The strongest candidates of each place, as of the round in which they were listed.
    lists: Lists,
    // When they were listed, and when that was counted.
    listed: Dates,
    counted: Dates,
    // The round in which each obligation was asked last; 0 where that was never done.
    asked: Vec<u64>,
    // For each obligation what was taken when it was asked last, and how many questions it took.
    useful: Vec<Vec<Useful>>,
    costs: Vec<u64>,
    // What obligations gave before their turn.
    foreseen: Foreseen<usize, Given>,
    round: u64,
    // The obligation that comes next.
    next: usize,
    // How many steps were made to list candidates in this round.
    steps: u64,
    // Whether nothing was weakened in the round before: then it is worth while to ask what comes.
    is_calm: bool,
}

/// The literals, and the candidates of the samples of each place.
///
/// # Errors
///
/// As `og_pool::answers`.
pub fn gather<R: Threads + Wait + Sync>(
    pool: &Pool<'_, R>,
    scene: &Scene,
    universe: &Universe,
    samples: &Samples,
) -> Result<Rounds, PoolFault> {
    let count = count_of(scene.count());
    let tasks = Gathering {
        universe,
        samples,
        count,
    };
    let candidates = pool.answers(&tasks, count)?;
    let rounds = Rounds::new(scene, Held::new(scene.alloc, candidates)?)?;
    Ok(rounds)
}

impl Rounds {
    // Before the first round.
    fn new(scene: &Scene, held: Held) -> Result<Rounds, AllocError> {
        let alloc = scene.alloc;
        Ok(Rounds {
            held,
            lists: Lists::none(alloc, scene.count())?,
            listed: Dates {
                of: vec![in alloc; 0u64; scene.count()]?,
            },
            counted: Dates {
                of: vec![in alloc; 0u64; scene.count()]?,
            },
            asked: vec![in alloc; 0u64; scene.obligations.len()]?,
            useful: empty_lists(alloc, scene.obligations.len())?,
            costs: vec![in alloc; 0u64; scene.obligations.len()]?,
            foreseen: Foreseen::new(alloc),
            round: 1,
            next: 0,
            steps: 0,
            is_calm: false,
        })
    }

    // Whether a place that the obligation speaks of was weakened in this round or later.
    fn is_weaker(&self, obligation: &Obligation, goal: u32, round: u64) -> bool {
        for place in &obligation.places {
            if self.held.is_changed(*place, round) {
                return true;
            }
        }
        self.held.is_changed(goal, round)
    }

    // Whether the obligation is to be asked: it claims the assertion of a place, and was not asked
    // yet, or a place that it speaks of was weakened since.
    fn is_due(&self, scene: &Scene, index: usize) -> bool {
        let (Some(obligation), Some(last)) = (scene.obligations.get(index), self.asked.get(index))
        else {
            return false;
        };
        match obligation.claim {
            Claim::Holds(goal) => *last == 0 || self.is_weaker(obligation, goal, *last),
            _ => false,
        }
    }

    // Adds those of these obligations that are to be asked, as long as there are not so many.
    fn add_due(
        &self,
        scene: &Scene,
        from: usize,
        to: usize,
        most: usize,
        batch: &mut Vec<usize>,
    ) -> Result<(), AllocError> {
        for index in from..to {
            if batch.len() >= most {
                break;
            }
            if self.is_due(scene, index) {
                batch.push(index)?;
            }
        }
        Ok(())
    }

    // So many obligations that are to be asked, in their order from the one that comes next on.
    fn due(&self, scene: &Scene, most: usize) -> Result<Vec<usize>, AllocError> {
        let mut batch = Vec::new(scene.alloc);
        self.add_due(scene, self.next, scene.obligations.len(), most, &mut batch)?;
        self.add_due(scene, 0, self.next, most, &mut batch)?;
        Ok(batch)
    }

    // Whether it is known what the obligation gives.
    fn is_foreseen(&self, scene: &Scene, index: usize, share: u64) -> bool {
        let (Some(obligation), Some(given)) = (
            scene.obligations.get(index),
            self.foreseen.get(index),
        ) else {
            return false;
        };
        let is_same = is_same_with(given.found.asked, given.share, share);
        match obligation.claim {
            Claim::Holds(goal) => is_same && !self.is_weaker(obligation, goal, given.round),
            _ => is_same,
        }
    }

    // How many questions the obligation took last.
    fn cost(&self, index: usize) -> u64 {
        match self.costs.get(index) {
            Some(cost) => *cost,
            None => 0,
        }
    }

    // Those of these obligations of which it is not known what they give.
    fn unknown(
        &self,
        scene: &Scene,
        batch: &[usize],
        share: u64,
    ) -> Result<Vec<usize>, AllocError> {
        let mut unknown = Vec::new(scene.alloc);
        for index in batch {
            if !self.is_foreseen(scene, *index, share) {
                unknown.push(*index)?;
            }
        }
        Ok(unknown)
    }

    // All places whose lists are not up to date.
    fn stale(&mut self, scene: &Scene) -> Result<Vec<u32>, AllocError> {
        let mut stale = Vec::new(scene.alloc);
        for place in 0..count_of(scene.count()) {
            self.listed
                .add_stale(&self.held, place, self.round, &mut stale)?;
        }
        Ok(stale)
    }

    // Gives these places their lists.
    fn put(&mut self, places: &[u32], mut lists: Vec<Vec<Listed>>) {
        lists.truncate(places.len());
        for _ in 0..places.len() {
            let Some(list) = lists.pop() else {
                break;
            };
            if let Some(place) = places.get(lists.len()) {
                self.lists.put(*place, list);
            }
        }
    }

    // Counts the steps that were made to list the candidates of these places.
    fn count_listing(&mut self, universe: &Universe, places: &[u32]) {
        for place in places {
            let candidates = self.lists.at(*place).len() as u64;
            let steps = universe
                .size()
                .saturating_mul(STEPS_A_WORD)
                .saturating_add(candidates.saturating_mul(STEPS_A_CANDIDATE));
            self.steps = self.steps.saturating_add(steps);
        }
    }

    // Lists the candidates of these places.
    fn list<'a, R: Threads + Wait + Sync>(
        &mut self,
        pool: &Pool<'_, R>,
        scene: &'a Scene<'_>,
        universe: &'a Universe,
        places: &'a [u32],
    ) -> Result<(), PoolFault> {
        let count = count_of(places.len());
        let tasks = Listing {
            scene,
            universe,
            candidates: &self.held.candidates,
            places,
            count,
        };
        let lists = pool.answers(&tasks, count)?;
        self.put(places, lists);
        Ok(())
    }

    // Admits the states that one obligation gave, at the place whose assertion it claims.
    fn admit(
        &mut self,
        ground: Ground,
        index: usize,
        weakened: Option<Weakened>,
        questions: &mut Questions,
    ) -> Result<(), AllocError> {
        if let Some(last) = self.asked.get_mut(index) {
            *last = ground.round;
        }
        let (Some(obligation), Some(found)) = (ground.scene.obligations.get(index), weakened) else {
            return Ok(());
        };
        questions.spend(found.asked);
        if let Some(cost) = self.costs.get_mut(index) {
            *cost = found.asked;
        }
        let frozen = Frozen {
            scene: ground.scene,
            universe: ground.universe,
            lists: &self.lists,
            without: &[],
        };
        let taken = frozen.useful(&found.taken)?;
        if let Some(useful) = self.useful.get_mut(index) {
            *useful = taken;
        }
        if let Claim::Holds(goal) = obligation.claim {
            for state in found.states {
                self.held.admit(ground, goal, state.values)?;
            }
        }
        Ok(())
    }

    // Admits the states that these obligations gave, in their order, and ends the round.
    fn admit_all(
        &mut self,
        ground: Ground,
        batch: &[usize],
        found: Vec<Option<Weakened>>,
        questions: &mut Questions,
    ) -> Result<(), AllocError> {
        let mut indices = batch.iter();
        for weakened in found {
            if let Some(index) = indices.next() {
                self.admit(ground, *index, weakened, questions)?;
            }
        }
        let admitting = self.held.take_steps();
        self.is_calm = admitting == 0;
        questions.spend(price(self.steps.saturating_add(admitting)));
        self.steps = 0;
        self.round = self.round.saturating_add(1);
        Ok(())
    }

    // Adds those of the obligations that come whose places are up to date once so many are listed,
    // and of which it is not known what they give.
    fn add_coming(
        &mut self,
        scene: &Scene,
        coming: &[usize],
        share: u64,
        most: usize,
        inquest: &mut Inquest,
    ) -> Result<(), AllocError> {
        for index in self.unknown(scene, coming, share)? {
            let Some(obligation) = scene.obligations.get(index) else {
                continue;
            };
            let listed = self.listed.lacking(&self.held, obligation);
            if inquest.stale.len().saturating_add(listed) <= most {
                let round = self.round;
                self.listed
                    .add_stale_of(&self.held, obligation, round, &mut inquest.stale)?;
                inquest.tasks.push(index)?;
            }
        }
        Ok(())
    }

    // Lists the places of these obligations, asks them, and keeps what they give. Others that come
    // are asked too as long as threads have nothing else to do.
    fn foresee<'a, 'o, R: Threads + Wait + Sync>(
        &mut self,
        pool: &Pool<'_, R>,
        ground: Ground<'a, 'o>,
        mut wanted: Vec<usize>,
        coming: &[usize],
        share: u64,
    ) -> Result<(), PoolFault> {
        // The longest first, so that no thread has one left at the end.
        wanted.sort_by_key(|index| u64::MAX.saturating_sub(self.cost(*index)))?;
        let Ground {
            scene,
            universe,
            ..
        } = ground;
        let count = count_of(wanted.len());
        let stale = self
            .listed
            .stale_of(&self.held, scene, &wanted, self.round)?;
        let threads = pool.threads();
        let most = stale.len().div_ceil(threads).saturating_mul(threads);
        let tasks = wanted;
        let mut inquest = Inquest { stale, tasks };
        if self.is_calm {
            self.add_coming(scene, coming, share, most, &mut inquest)?;
        }
        self.list(pool, scene, universe, &inquest.stale)?;
        let found = self.found(pool, ground, &inquest.tasks, count, share)?;
        self.keep(&inquest.tasks, found, share)?;
        Ok(())
    }

    // What these obligations give, of which so many are wanted.
    fn found<'a, 'o, R: Threads + Wait + Sync>(
        &self,
        pool: &Pool<'_, R>,
        ground: Ground<'a, 'o>,
        tasks: &[usize],
        wanted: u32,
        share: u64,
    ) -> Result<Vec<Option<Weakened>>, PoolFault> {
        let count = count_of(tasks.len());
        let frozen = Frozen {
            scene: ground.scene,
            universe: ground.universe,
            lists: &self.lists,
            without: &[],
        };
        let tasks = Weakening {
            frozen,
            tasks,
            useful: &self.useful,
            share,
            count,
        };
        pool.answers_ahead(&tasks, wanted, count)
    }

    // Keeps what these obligations gave in this round, as far as they were asked.
    fn keep(
        &mut self,
        batch: &[usize],
        found: Vec<Option<Weakened>>,
        share: u64,
    ) -> Result<(), AllocError> {
        let mut indices = batch.iter();
        for answer in found {
            if let (Some(index), Some(found)) = (indices.next(), answer) {
                let given = Given {
                    round: self.round,
                    share,
                    found,
                };
                self.foreseen.add(*index, given)?;
            }
        }
        Ok(())
    }

    // What these obligations gave.
    fn given(
        &mut self,
        alloc: Global,
        batch: &[usize],
    ) -> Result<Vec<Option<Weakened>>, AllocError> {
        let mut all = Vec::with_capacity(alloc, batch.len())?;
        for index in batch {
            all.push(match self.foreseen.take(*index) {
                Some(given) => Some(given.found),
                None => None,
            })?;
        }
        Ok(all)
    }

    // What these obligations give in this round, which are the first ones of those that come.
    fn ask<'a, 'o, R: Threads + Wait + Sync>(
        &mut self,
        pool: &Pool<'_, R>,
        ground: Ground<'a, 'o>,
        coming: &[usize],
        batch: &[usize],
        share: u64,
    ) -> Result<Vec<Option<Weakened>>, PoolFault> {
        let stale = self
            .counted
            .stale_of(&self.held, ground.scene, batch, self.round)?;
        let wanted = self.unknown(ground.scene, batch, share)?;
        if !wanted.is_empty() {
            let rest = coming.get(batch.len()..).unwrap_or(&[]);
            self.foresee(pool, ground, wanted, rest, share)?;
        }
        self.count_listing(ground.universe, &stale);
        let given = self.given(ground.scene.alloc, batch)?;
        Ok(given)
    }

    /// The strongest candidates of each place, as they were listed last.
    pub fn lists(&self) -> &Lists {
        &self.lists
    }

    /// The candidates that are left, and the strongest of each place, as they were listed last.
    pub fn into_parts(self) -> (Held, Lists) {
        let Rounds { held, lists, .. } = self;
        (held, lists)
    }

    /// Weakens the candidates until each obligation shows those of the place whose assertion it
    /// claims, and lists what is left. Whether that was reached before the questions were spent.
    ///
    /// # Errors
    ///
    /// As `og_pool::answers`.
    pub fn weaken<'a, 'o, R: Threads + Wait + Sync>(
        &mut self,
        pool: &Pool<'_, R>,
        scene: &'a Scene<'o>,
        places: &'a Places<'o>,
        universe: &'a Universe,
        questions: &mut Questions,
    ) -> Result<bool, PoolFault> {
        for _ in 0..u64::MAX {
            let coming = self.due(scene, MOST_IN_ROUND.saturating_add(pool.ahead()))?;
            let batch = coming.get(..coming.len().min(MOST_IN_ROUND)).unwrap_or(&[]);
            let Some(last) = batch.last() else {
                break;
            };
            let Some(share) = questions.share(batch.len()) else {
                return Ok(false);
            };
            self.next = last.saturating_add(1);
            let ground = Ground {
                scene,
                places,
                universe,
                round: self.round,
            };
            let found = self.ask(pool, ground, &coming, batch, share)?;
            self.admit_all(ground, batch, found, questions)?;
        }
        let stale = self.stale(scene)?;
        self.list(pool, scene, universe, &stale)?;
        Ok(true)
    }
}
