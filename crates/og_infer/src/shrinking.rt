//! Conjuncts that are left out where the rest still proves all that was proved.

use crate::exchanges::{Exchange, Image, contains, images};
use crate::trials::{Block, Coming, Given, Next, Plan, Planned, Task, Trial};
use og_infer_candidates::Universe;
use og_infer_places::{Claim, Obligation};
use og_infer_rounds::{
    Attempt, Duty, Foreseen, Frozen, Held, Lists, Owing, Pool, Proof, Proving, Questions, Role,
    Scene, Settled, Spot, count_of, is_same_with,
};
use og_pool::PoolFault;
use std::alloc::AllocError;
use std::sync::Wait;
use std::thread::Threads;

/// How many duties are proved at a time.
const MOST_AT_A_TIME: usize = 32;

/// How many duties each of several threads may prove before their turn.
const MOST_AHEAD: usize = 8;

/// How a duty stands.
#[derive(Drop)]
enum Standing {
    /// It is to be proved.
    Open,
    /// These candidates prove it.
    Proved(Vec<Spot>),
    /// It is not proved, and need not be.
    Lost,
}

/// A duty, how it stands, and how many questions its last proof took.
#[derive(Drop)]
struct Tracked {
    duty: Duty,
    standing: Standing,
    asked: u64,
}

/// The conjuncts that are left, and what they prove.
#[derive(Drop)]
pub(crate) struct Shrinking<'a, 'o> {
    scene: &'a Scene<'o>,
    universe: &'a Universe,
    held: &'a Held,
    exchanges: &'a [Exchange],
    lists: Lists,
    tracked: Vec<Tracked>,
    // Proofs that were looked for before their turn.
    foreseen: Foreseen<Task, Given>,
}

/// Which candidates are left out together.
#[derive(Clone, Copy, PartialEq, Eq)]
enum Together {
    /// Equal ones at all places, and their images.
    Everywhere,
    /// One at its place, and its images at theirs.
    Images,
}

// Adds these proofs, as long as something is proved. Whether all is.
fn append(all: &mut Vec<Proof>, proofs: Vec<Proof>) -> Result<bool, AllocError> {
    for proof in proofs {
        if !matches!(proof.settled, Settled::True) {
            return Ok(false);
        }
        all.push(proof)?;
    }
    Ok(true)
}

impl<'a, 'o> Shrinking<'a, 'o> {
    /// All conjuncts of these lists are left, and nothing is proved yet.
    pub(crate) fn new(
        scene: &'a Scene<'o>,
        universe: &'a Universe,
        held: &'a Held,
        exchanges: &'a [Exchange],
        lists: Lists,
    ) -> Shrinking<'a, 'o> {
        Shrinking {
            scene,
            universe,
            held,
            exchanges,
            lists,
            tracked: Vec::new(scene.alloc),
            foreseen: Foreseen::new(scene.alloc),
        }
    }

    // What does not change while tasks are done.
    fn frozen(&self) -> Frozen<'_, 'o> {
        Frozen {
            scene: self.scene,
            universe: self.universe,
            lists: &self.lists,
            without: &[],
        }
    }

    // The duty is to be proved.
    fn track(&mut self, duty: Duty) -> Result<(), AllocError> {
        self.tracked.push(Tracked {
            duty,
            standing: Standing::Open,
            asked: 0,
        })?;
        Ok(())
    }

    // Each obligation that claims the assertion of a place with conjuncts is to prove them.
    fn track_candidates(&mut self) -> Result<(), AllocError> {
        for index in 0..self.scene.obligations.len() {
            let has_goals = match self.scene.obligations.get(index) {
                Some(obligation) => match obligation.claim {
                    Claim::Holds(place) => !self.lists.at(place).is_empty(),
                    _ => false,
                },
                None => false,
            };
            if has_goals {
                self.track(Duty {
                    obligation: index,
                    owing: Owing::Candidates,
                })?;
            }
        }
        Ok(())
    }

    // Whether a candidate that was taken is left out, or is one of these.
    fn lacks(&self, taken: &[Spot], without: &[Spot]) -> bool {
        for spot in taken {
            if self.lists.has_role(*spot, Role::Out) || spot.is_among(without) {
                return true;
            }
        }
        false
    }

    // Those that are to be proved without these, since they were not or took what is left out.
    fn stale(&self, without: &[Spot]) -> Result<Vec<usize>, AllocError> {
        let mut stale = Vec::new(self.scene.alloc);
        for (index, tracked) in self.tracked.iter().enumerate() {
            let is_stale = match &tracked.standing {
                Standing::Open => true,
                Standing::Proved(taken) => self.lacks(taken, without),
                Standing::Lost => false,
            };
            if is_stale {
                stale.push(index)?;
            }
        }
        Ok(stale)
    }

    // Whether the proof of the task is known.
    fn is_foreseen(&self, task: Task, share: u64) -> bool {
        match self.foreseen.get(task) {
            Some(given) => is_same_with(given.proof.asked, given.share, share),
            None => false,
        }
    }

    // Those of these duties whose proofs in the trial of a block are not known, the longest first.
    fn unknown(
        &self,
        block: Block,
        indices: &[usize],
        share: u64,
    ) -> Result<Vec<usize>, AllocError> {
        let mut unknown = Vec::new(self.scene.alloc);
        for index in indices {
            let index = *index;
            if !self.is_foreseen(Task { block, index }, share) {
                unknown.push(index)?;
            }
        }
        unknown.sort_by_key(|index| u64::MAX.saturating_sub(self.asked(*index)))?;
        Ok(unknown)
    }

    // How many questions the last proof of a duty took.
    fn asked(&self, index: usize) -> u64 {
        match self.tracked.get(index) {
            Some(tracked) => tracked.asked,
            None => 0,
        }
    }

    // Adds those of these duties to a plan whose proofs in the trial are not known.
    fn plan(
        &self,
        trial: Trial,
        indices: &[usize],
        share: u64,
        plan: &mut Plan,
    ) -> Result<(), AllocError> {
        let number = plan.trials.len();
        for index in self.unknown(trial.block, indices, share)? {
            plan.tasks.push(Planned {
                trial: number,
                index,
                share,
            })?;
        }
        plan.trials.push(trial)?;
        Ok(())
    }

    // Adds the first duties that are to be proved in the trial of a block.
    fn plan_block(
        &self,
        units: &[Vec<Spot>],
        block: Block,
        questions: &Questions,
        plan: &mut Plan,
    ) -> Result<(), AllocError> {
        let trial = Trial::of(self.scene.alloc, units, block)?;
        if trial.spots.is_empty() {
            return Ok(());
        }
        let mut stale = self.stale(&trial.spots)?;
        stale.truncate(MOST_AT_A_TIME);
        match questions.share(stale.len()) {
            Some(share) => self.plan(trial, &stale, share, plan),
            None => Ok(()),
        }
    }

    // Whether the longest duty of a plan takes more than the share of one of these threads.
    fn is_uneven(&self, plan: &Plan, threads: usize) -> bool {
        let mut all = 0u64;
        let mut longest = 0u64;
        for planned in &plan.tasks {
            let asked = self.asked(planned.index).saturating_add(1);
            all = all.saturating_add(asked);
            longest = longest.max(asked);
        }
        longest.saturating_mul(threads as u64) > all
    }

    // Adds those of the blocks that are tried next if nothing can be left out. Gives how many duties
    // are wanted: as many as it takes for no thread to be without one.
    fn plan_blocks(
        &self,
        mut next: Next,
        threads: usize,
        questions: &Questions,
        plan: &mut Plan,
    ) -> Result<usize, AllocError> {
        let mut wanted = plan.tasks.len();
        let most = wanted.saturating_add(threads.saturating_mul(MOST_AHEAD));
        for _ in 0..most {
            let Some(block) = next.blocks.pop() else {
                break;
            };
            let is_wanted = plan.tasks.len() == wanted && self.is_uneven(plan, threads);
            self.plan_block(next.units, block, questions, plan)?;
            block.add_halves(&mut next.blocks)?;
            if is_wanted {
                wanted = plan.tasks.len();
            }
            if plan.tasks.len() >= most {
                break;
            }
        }
        Ok(wanted)
    }

    // Adds what is proved next after this trial if nothing can be left out. Gives how many duties
    // are wanted.
    fn plan_ahead(
        &self,
        trial: &Trial,
        coming: Coming,
        threads: usize,
        questions: &Questions,
        plan: &mut Plan,
    ) -> Result<usize, AllocError> {
        let alloc = self.scene.alloc;
        let wanted = plan.tasks.len();
        match coming {
            Coming::Duties(rest) => {
                let more = threads.saturating_mul(MOST_AHEAD).min(rest.len());
                let rest = rest.get(..more).unwrap_or(&[]);
                if let Some(share) = questions.share(rest.len().min(MOST_AT_A_TIME)) {
                    self.plan(trial.copy(alloc)?, rest, share, plan)?;
                }
                Ok(wanted)
            }
            Coming::Blocks(units, blocks) => {
                let mut blocks = Vec::from_slice(alloc, blocks)?;
                trial.block.add_halves(&mut blocks)?;
                let next = Next { units, blocks };
                self.plan_blocks(next, threads, questions, plan)
            }
        }
    }

    // The attempts of a plan.
    fn attempts<'p>(&self, plan: &'p Plan) -> Result<Vec<Attempt<'p>>, AllocError> {
        let mut attempts = Vec::with_capacity(self.scene.alloc, plan.tasks.len())?;
        for planned in &plan.tasks {
            if let (Some(tracked), Some(trial)) = (
                self.tracked.get(planned.index),
                plan.trials.get(planned.trial),
            ) {
                attempts.push(Attempt {
                    duty: tracked.duty,
                    without: &trial.spots,
                    share: planned.share,
                })?;
            }
        }
        Ok(attempts)
    }

    // Keeps the proofs of a plan that were looked for.
    fn keep(&mut self, plan: &Plan, found: Vec<Option<Proof>>) -> Result<(), AllocError> {
        let mut tasks = plan.tasks.iter();
        for proof in found {
            let (Some(planned), Some(proof)) = (tasks.next(), proof) else {
                continue;
            };
            if let Some(task) = plan.task(*planned) {
                let share = planned.share;
                self.foreseen.add(task, Given { share, proof })?;
            }
        }
        Ok(())
    }

    // Looks for the proofs of a plan, of which the first ones are wanted.
    fn foresee<R: Threads + Wait + Sync>(
        &mut self,
        pool: &Pool<'_, R>,
        plan: &Plan,
        wanted: usize,
    ) -> Result<(), PoolFault> {
        let attempts = self.attempts(plan)?;
        let count = count_of(attempts.len());
        let tasks = Proving {
            frozen: self.frozen(),
            attempts: &attempts,
            count,
        };
        let found = pool.answers_ahead(&tasks, count_of(wanted), count)?;
        self.keep(plan, found)?;
        Ok(())
    }

    // Notes how many questions the last proof of a duty took.
    fn set_asked(&mut self, index: usize, asked: u64) {
        if let Some(tracked) = self.tracked.get_mut(index) {
            tracked.asked = asked;
        }
    }

    // The proofs of these in the trial of a block, which are known.
    fn given(
        &mut self,
        block: Block,
        indices: &[usize],
        questions: &mut Questions,
    ) -> Result<Vec<Proof>, AllocError> {
        let mut proofs = Vec::with_capacity(self.scene.alloc, indices.len())?;
        for index in indices {
            let task = Task {
                block,
                index: *index,
            };
            if let Some(Given { proof, .. }) = self.foreseen.take(task) {
                questions.spend(proof.asked);
                self.set_asked(*index, proof.asked);
                proofs.push(proof)?;
            }
        }
        Ok(proofs)
    }

    // The proofs of these in a trial; none where no question is left.
    fn prove<R: Threads + Wait + Sync>(
        &mut self,
        pool: &Pool<'_, R>,
        trial: &Trial,
        indices: &[usize],
        coming: Coming,
        questions: &mut Questions,
    ) -> Result<Option<Vec<Proof>>, PoolFault> {
        let alloc = self.scene.alloc;
        let Some(share) = questions.share(indices.len()) else {
            return Ok(None);
        };
        let mut plan = Plan::new(alloc);
        self.plan(trial.copy(alloc)?, indices, share, &mut plan)?;
        let threads = pool.threads();
        let mut wanted = plan.tasks.len();
        if wanted > 0 && threads > 1 {
            wanted = self.plan_ahead(trial, coming, threads, questions, &mut plan)?;
        }
        if wanted > 0 {
            self.foresee(pool, &plan, wanted)?;
        }
        Ok(Some(self.given(trial.block, indices, questions)?))
    }

    // Leaves out those of the conjuncts that an obligation has to show which are not shown.
    fn prune(&mut self, obligation: &Obligation, settled: Settled) -> Result<(), AllocError> {
        let Claim::Holds(place) = obligation.claim else {
            return Ok(());
        };
        let goals = self.frozen().owed(obligation, place)?;
        let state = match settled {
            Settled::False(values) => Some(self.frozen().after(obligation, values)?),
            _ => None,
        };
        for index in goals {
            let spot = Spot { place, index };
            let is_kept = match (&state, self.lists.get(spot)) {
                (Some(state), Some(listed)) => !listed.excludes(self.universe, state),
                _ => false,
            };
            if !is_kept {
                self.lists.assign(spot, Role::Out);
            }
        }
        Ok(())
    }

    // Notes a proof, or what the lack of one means.
    fn note(&mut self, index: usize, proof: Proof) -> Result<(), AllocError> {
        let Proof { settled, taken, .. } = proof;
        let Some(tracked) = self.tracked.get_mut(index) else {
            return Ok(());
        };
        if matches!(settled, Settled::True) {
            tracked.standing = Standing::Proved(taken);
            return Ok(());
        }
        if tracked.duty.owing == Owing::Claim {
            tracked.standing = Standing::Lost;
            return Ok(());
        }
        tracked.standing = Standing::Open;
        let scene = self.scene;
        match scene.obligations.get(tracked.duty.obligation) {
            Some(obligation) => self.prune(obligation, settled),
            None => Ok(()),
        }
    }

    // Notes these proofs.
    fn note_all(&mut self, indices: &[usize], proofs: Vec<Proof>) -> Result<(), AllocError> {
        let mut indices = indices.iter();
        for proof in proofs {
            if let Some(index) = indices.next() {
                self.note(*index, proof)?;
            }
        }
        Ok(())
    }

    // Leaves out all conjuncts.
    fn clear(&mut self) -> Result<(), AllocError> {
        for spot in self.spots()? {
            self.lists.assign(spot, Role::Out);
        }
        Ok(())
    }

    // Notes these proofs. Where that leaves something out, none is known any more.
    fn note_part(&mut self, indices: &[usize], proofs: Vec<Proof>) -> Result<(), AllocError> {
        let before = self.lists.changes();
        self.note_all(indices, proofs)?;
        if self.lists.changes() != before {
            self.foreseen = Foreseen::new(self.scene.alloc);
        }
        Ok(())
    }

    // Proves these as far as they can be proved. Whether the questions suffice.
    fn settle_all<R: Threads + Wait + Sync>(
        &mut self,
        pool: &Pool<'_, R>,
        indices: &[usize],
        questions: &mut Questions,
    ) -> Result<bool, PoolFault> {
        let trial = Trial::of_nothing(self.scene.alloc);
        let mut left = indices;
        for _ in 0..indices.len() {
            let (part, rest) = left.split_at(left.len().min(MOST_AT_A_TIME));
            if part.is_empty() {
                break;
            }
            let Some(proofs) = self.prove(pool, &trial, part, Coming::Duties(rest), questions)?
            else {
                return Ok(false);
            };
            self.note_part(part, proofs)?;
            left = rest;
        }
        Ok(true)
    }

    // Proves what can be proved, and leaves out the conjuncts that cannot. All are left out where
    // the questions do not suffice.
    fn settle<R: Threads + Wait + Sync>(
        &mut self,
        pool: &Pool<'_, R>,
        questions: &mut Questions,
    ) -> Result<(), PoolFault> {
        for _ in 0..u64::MAX {
            let stale = self.stale(&[])?;
            if stale.is_empty() {
                break;
            }
            let is_known = self.settle_all(pool, &stale, questions)?;
            if !is_known {
                self.clear()?;
                break;
            }
        }
        Ok(())
    }

    // The conjuncts that are left, the heaviest first.
    fn spots(&self) -> Result<Vec<Spot>, AllocError> {
        let mut spots = Vec::new(self.scene.alloc);
        for place in 0..count_of(self.scene.count()) {
            for (index, listed) in self.lists.at(place).iter().enumerate() {
                if listed.role != Role::Out {
                    spots.push(Spot { place, index })?;
                }
            }
        }
        let lists = &self.lists;
        spots.sort_by_key(|spot| u32::MAX.saturating_sub(lists.weight(*spot)))?;
        Ok(spots)
    }

    // Whether a candidate is left out together with those that have these images.
    fn is_together(&self, together: Together, all: &[Image], spot: Spot) -> bool {
        let Some(listed) = self.lists.get(spot) else {
            return false;
        };
        match together {
            Together::Images => contains(all, spot.place, &listed.candidate),
            Together::Everywhere => {
                for image in all {
                    if image.candidate.is_same(&listed.candidate) {
                        return true;
                    }
                }
                false
            }
        }
    }

    // Those of the conjuncts that are left out together with this one.
    fn unit(
        &self,
        together: Together,
        spot: Spot,
        spots: &[Spot],
    ) -> Result<Vec<Spot>, AllocError> {
        let alloc = self.scene.alloc;
        let mut unit = Vec::new(alloc);
        let Some(listed) = self.lists.get(spot) else {
            return Ok(unit);
        };
        let first = Image {
            place: spot.place,
            candidate: listed.candidate.copy(alloc)?,
        };
        let all = images(alloc, self.universe, self.held, self.exchanges, first)?;
        for other in spots {
            if self.is_together(together, &all, *other) {
                unit.push(*other)?;
            }
        }
        Ok(unit)
    }

    // The conjuncts that are left, by what is left out together, the heaviest first.
    fn units(&self, together: Together) -> Result<Vec<Vec<Spot>>, AllocError> {
        let spots = self.spots()?;
        let mut units: Vec<Vec<Spot>> = Vec::new(self.scene.alloc);
        for spot in &spots {
            let is_known = units.iter().any(|unit| unit.contains(spot));
            if !is_known {
                units.push(self.unit(together, *spot, &spots)?)?;
            }
        }
        Ok(units)
    }

    // The proofs of these in a trial in the order of their indices, where all of them are found.
    fn prove_all<R: Threads + Wait + Sync>(
        &mut self,
        pool: &Pool<'_, R>,
        trial: &Trial,
        indices: &[usize],
        coming: Coming,
        questions: &mut Questions,
    ) -> Result<Option<Vec<Proof>>, PoolFault> {
        let mut all = Vec::new(self.scene.alloc);
        for part in indices.chunks(MOST_AT_A_TIME) {
            let Some(proofs) = self.prove(pool, trial, part, coming, questions)? else {
                return Ok(None);
            };
            if !append(&mut all, proofs)? {
                return Ok(None);
            }
        }
        Ok(Some(all))
    }

    // Whether the duty is to show candidates of the place of one of these.
    fn shows_one(&self, index: usize, spots: &[Spot]) -> bool {
        let Some(tracked) = self.tracked.get(index) else {
            return false;
        };
        let Some(obligation) = self.scene.obligations.get(tracked.duty.obligation) else {
            return false;
        };
        match (tracked.duty.owing, obligation.claim) {
            (Owing::Candidates, Claim::Holds(place)) => {
                spots.iter().any(|spot| spot.place == place)
            }
            _ => false,
        }
    }

    // Whether what is known of a task stays as it is without the candidates of a trial: none of
    // them was taken or is to be shown. Those that are not looked at do not matter.
    fn stays(&self, task: Task, given: &Given, trial: &Trial) -> bool {
        let is_over = task.block.is_within(trial.block);
        !is_over
            && !self.shows_one(task.index, &trial.spots)
            && !given
                .proof
                .taken
                .iter()
                .any(|spot| spot.is_among(&trial.spots))
    }

    // Forgets what does not stay as it is without the candidates of a trial.
    fn forget(&mut self, trial: &Trial) -> Result<(), AllocError> {
        let mut kept = Foreseen::new(self.scene.alloc);
        for _ in 0..self.foreseen.len() {
            let Some((task, given)) = self.foreseen.pop() else {
                break;
            };
            if self.stays(task, &given, trial) {
                kept.add(task, given)?;
            }
        }
        self.foreseen = kept;
        Ok(())
    }

    // Leaves out the candidates of a trial for good.
    fn end_trial(
        &mut self,
        trial: &Trial,
        indices: &[usize],
        proofs: Vec<Proof>,
    ) -> Result<(), AllocError> {
        for spot in &trial.spots {
            self.lists.assign(*spot, Role::Out);
        }
        self.note_all(indices, proofs)?;
        self.forget(trial)
    }

    // Leaves out the candidates of a trial where what was proved still is. Whether they are.
    fn leave_out<R: Threads + Wait + Sync>(
        &mut self,
        pool: &Pool<'_, R>,
        trial: &Trial,
        coming: Coming,
        questions: &mut Questions,
    ) -> Result<bool, PoolFault> {
        if trial.spots.is_empty() {
            return Ok(true);
        }
        let stale = self.stale(&trial.spots)?;
        match self.prove_all(pool, trial, &stale, coming, questions)? {
            Some(proofs) => {
                self.end_trial(trial, &stale, proofs)?;
                Ok(true)
            }
            None => Ok(false),
        }
    }

    // Leaves out what can go: a block of units at once, or else each half of it.
    fn delete<R: Threads + Wait + Sync>(
        &mut self,
        pool: &Pool<'_, R>,
        units: Vec<Vec<Spot>>,
        questions: &mut Questions,
    ) -> Result<(), PoolFault> {
        let alloc = self.scene.alloc;
        self.foreseen = Foreseen::new(alloc);
        let mut blocks = Block::of_all(alloc, units.len())?;
        for _ in 0..u64::MAX {
            let Some(block) = blocks.pop() else {
                break;
            };
            let trial = Trial::of(alloc, &units, block)?;
            let coming = Coming::Blocks(&units, &blocks);
            if !self.leave_out(pool, &trial, coming, questions)? {
                block.add_halves(&mut blocks)?;
            }
        }
        Ok(())
    }

    /// Leaves out the conjuncts that are not shown, and then those without which all that was
    /// proved still is, the heaviest first: equal ones at all places at once, and then place by
    /// place. `claims` are the duties that are to be proved if they can. What is left.
    ///
    /// # Errors
    ///
    /// As `og_pool::answers`.
    pub(crate) fn shrink<R: Threads + Wait + Sync>(
        mut self,
        pool: &Pool<'_, R>,
        claims: &[Duty],
        questions: &mut Questions,
    ) -> Result<Lists, PoolFault> {
        for duty in claims {
            self.track(*duty)?;
        }
        self.track_candidates()?;
        self.settle(pool, questions)?;
        let units = self.units(Together::Everywhere)?;
        self.delete(pool, units, questions)?;
        let units = self.units(Together::Images)?;
        self.delete(pool, units, questions)?;
        let Shrinking { lists, .. } = self;
        Ok(lists)
    }
}
