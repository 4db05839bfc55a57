//! What is needed, from the author's claims backwards.

use crate::exchanges::{Exchange, Image, images};
use crate::support::{Core, Owed, Supporting};
use og_infer_candidates::Universe;
use og_infer_rounds::{
    Duty, Foreseen, Frozen, Held, Listed, Lists, Pool, Questions, Role, Scene, Spot, count_of,
    is_same_with,
};
use og_pool::PoolFault;
use std::alloc::AllocError;
use std::sync::Wait;
use std::thread::Threads;

/// How many proofs are looked for at a time: none of them knows what the others need.
const MOST_AT_A_TIME: usize = 8;

/// What proves a goal after so many changes of the lists, where it might ask so many questions.
#[derive(Drop)]
struct Given {
    changes: u64,
    share: u64,
    core: Core,
}

/// What is needed so far, and what is still to be proved.
#[derive(Drop)]
pub(crate) struct Needs<'a, 'o> {
    scene: &'a Scene<'o>,
    universe: &'a Universe,
    held: &'a Held,
    exchanges: &'a [Exchange],
    lists: Lists,
    owed: Vec<Owed>,
    // What proves goals, by where they stand there, before their turn.
    foreseen: Foreseen<usize, Given>,
}

impl<'a, 'o> Needs<'a, 'o> {
    /// Nothing is needed yet of these lists.
    pub(crate) fn new(
        scene: &'a Scene<'o>,
        universe: &'a Universe,
        held: &'a Held,
        exchanges: &'a [Exchange],
        lists: Lists,
    ) -> Needs<'a, 'o> {
        Needs {
            scene,
            universe,
            held,
            exchanges,
            lists,
            owed: Vec::new(scene.alloc),
            foreseen: Foreseen::new(scene.alloc),
        }
    }

    /// What these obligations claim is to be proved.
    pub(crate) fn owe_all(&mut self, claims: &[Duty]) -> Result<(), AllocError> {
        for duty in claims {
            self.owed.push(Owed {
                obligation: duty.obligation,
                goal: None,
            })?;
        }
        Ok(())
    }

    // The candidate there is to be proved, by all obligations that lead to its place and may change
    // it.
    fn owe(&mut self, spot: Spot) -> Result<(), AllocError> {
        let frozen = Frozen {
            scene: self.scene,
            universe: self.universe,
            lists: &self.lists,
            without: &[],
        };
        let Some(listed) = frozen.lists.get(spot) else {
            return Ok(());
        };
        for index in frozen.scene.claiming(spot.place) {
            let Some(obligation) = frozen.scene.obligations.get(*index) else {
                continue;
            };
            let changed = frozen.scene.changed(obligation)?;
            if frozen.owes(obligation, spot.place, &listed.candidate, &changed) {
                self.owed.push(Owed {
                    obligation: *index,
                    goal: Some(spot),
                })?;
            }
        }
        Ok(())
    }

    // Where the place lists the candidate, which is added if it does not.
    fn spot_of(&mut self, image: &Image) -> Result<Option<Spot>, AllocError> {
        if let Some(spot) = self.lists.find(image.place, &image.candidate) {
            return Ok(Some(spot));
        }
        let candidate = image.candidate.copy(self.scene.alloc)?;
        let listed = Listed::new(self.scene, self.universe, image.place, candidate)?;
        self.lists.add(image.place, listed)
    }

    // The place needs the candidate.
    fn need_one(&mut self, image: &Image) -> Result<(), AllocError> {
        let Some(spot) = self.spot_of(image)? else {
            return Ok(());
        };
        if self.lists.has_role(spot, Role::Needed) {
            return Ok(());
        }
        self.lists.need(spot, &image.candidate);
        self.owe(spot)
    }

    // The candidate there is needed, and so are its images.
    fn need(&mut self, spot: Spot) -> Result<(), AllocError> {
        let alloc = self.scene.alloc;
        let Some(listed) = self.lists.get(spot) else {
            return Ok(());
        };
        let first = Image {
            place: spot.place,
            candidate: listed.candidate.copy(alloc)?,
        };
        let all = images(alloc, self.universe, self.held, self.exchanges, first)?;
        for image in &all {
            self.need_one(image)?;
        }
        Ok(())
    }

    // Whether it is known what proves the goal that stands there.
    fn is_foreseen(&self, at: usize, share: u64) -> bool {
        let (Some(owed), Some(given)) = (self.owed.get(at), self.foreseen.get(at)) else {
            return false;
        };
        let is_changed = match self.scene.obligations.get(owed.obligation) {
            Some(obligation) => self.lists.are_changed(obligation, given.changes),
            None => false,
        };
        !is_changed && is_same_with(given.core.asked, given.share, share)
    }

    // Where those of these goals stand of which it is not known what proves them.
    fn unknown(&self, from: usize, to: usize, share: u64) -> Result<Vec<usize>, AllocError> {
        let mut unknown = Vec::new(self.scene.alloc);
        for at in from..to.min(self.owed.len()) {
            if !self.is_foreseen(at, share) {
                unknown.push(at)?;
            }
        }
        Ok(unknown)
    }

    // The goals that stand there.
    fn owed_at(&self, places: &[usize]) -> Result<Vec<Owed>, AllocError> {
        let mut all = Vec::with_capacity(self.scene.alloc, places.len())?;
        for at in places {
            if let Some(owed) = self.owed.get(*at) {
                all.push(*owed)?;
            }
        }
        Ok(all)
    }

    // Keeps what proves the goals that stand there, as far as it was looked for.
    fn keep(
        &mut self,
        places: &[usize],
        found: Vec<Option<Core>>,
        share: u64,
    ) -> Result<(), AllocError> {
        let changes = self.lists.changes();
        let mut places = places.iter();
        for core in found {
            if let (Some(at), Some(core)) = (places.next(), core) {
                let given = Given {
                    changes,
                    share,
                    core,
                };
                self.foreseen.add(*at, given)?;
            }
        }
        Ok(())
    }

    // Looks for what proves the goals that stand there, of which the first ones are wanted.
    fn foresee<R: Threads + Wait + Sync>(
        &mut self,
        pool: &Pool<'_, R>,
        places: &[usize],
        wanted: usize,
        share: u64,
    ) -> Result<(), PoolFault> {
        let owed = self.owed_at(places)?;
        let count = count_of(owed.len());
        let frozen = Frozen {
            scene: self.scene,
            universe: self.universe,
            lists: &self.lists,
            without: &[],
        };
        let tasks = Supporting {
            frozen,
            owed: &owed,
            share,
            count,
        };
        let found = pool.answers_ahead(&tasks, count_of(wanted), count)?;
        self.keep(places, found, share)?;
        Ok(())
    }

    // Adds what the goals from one to another need that stand there. None of their proofs knows
    // what the others need.
    fn need_of(
        &mut self,
        from: usize,
        to: usize,
        questions: &mut Questions,
    ) -> Result<(), AllocError> {
        for at in from..to {
            if let Some(Given { core, .. }) = self.foreseen.take(at) {
                questions.spend(core.asked);
                self.need_all(&core.spots)?;
            }
        }
        Ok(())
    }

    /// Looks for proofs until nothing is left to be proved, or no question is left.
    ///
    /// # Errors
    ///
    /// As `og_pool::answers`.
    pub(crate) fn prove<R: Threads + Wait + Sync>(
        &mut self,
        pool: &Pool<'_, R>,
        questions: &mut Questions,
    ) -> Result<(), PoolFault> {
        let mut done = 0usize;
        for _ in 0..u64::MAX {
            let next = done.saturating_add(MOST_AT_A_TIME).min(self.owed.len());
            let Some(share) = questions.share(next.saturating_sub(done)) else {
                break;
            };
            let wanted = self.unknown(done, next, share)?.len();
            if wanted > 0 {
                let tasks = self.unknown(done, next.saturating_add(pool.ahead()), share)?;
                self.foresee(pool, &tasks, wanted, share)?;
            }
            self.need_of(done, next, questions)?;
            done = next;
        }
        Ok(())
    }

    // These are needed.
    fn need_all(&mut self, spots: &[Spot]) -> Result<(), AllocError> {
        for spot in spots {
            self.need(*spot)?;
        }
        Ok(())
    }

    /// What is needed, and nothing else.
    pub(crate) fn into_lists(self) -> Result<Lists, AllocError> {
        let Needs { scene, lists, .. } = self;
        lists.into_needed(scene.alloc)
    }
}
