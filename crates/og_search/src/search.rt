//! The search: it takes in facts, closes or picks a choice, and goes into each part.

use crate::known::KnownRows;
use crate::rests::Rests;
use crate::steps::{Decision, Entry, Parts};
use crate::stop::{Halt, Stop};
use og_search_choices::{
    Cause, Chains, Choice, Common, Conflict, Denials, Facts, News, Open, Part, Reach, View,
    common_to_choice, failing, forced, forced_among, refuted_by, untaken, weight,
};
use og_search_elimination::{Gap, Outcome, Problem, Ranges, eliminate, narrow};
use og_search_pigeons::{Pigeons, look, weight_of_pairs};
use og_search_queues::{Detection, Queue, look as look_for_queue};
use og_search_refutation::{
    Cases, Lifted, Placed, Proof, both_sides, denial, leaf, refute_conflict,
};
use og_search_rows::{Bounds, Inequality, Model, Place, TOP, Term, Variables};
use std::alloc::{AllocError, Global};

/// Below this level a choice is taken only where it is false of the values.
const EAGER_LEVEL: u32 = 50;

/// The greatest number, in magnitude, at which a variable's values are divided.
const GAP_LIMIT: u128 = 1 << 120;

/// How often a search lifts forms from the first parts of a choice.
const MOST_LIFTS: u32 = 4;

/// The lowest level to which forms are lifted, so that levels are left below them.
const LIFT_LEVEL: u32 = 130;

/// The lowest level at which numbers are looked for that are all different and have too few values,
/// so that levels are left to refute them.
const PIGEONS_LEVEL: u32 = 100;

/// The most facts of a part that is held against the choices of the condition.
const DENIAL_LIMIT: usize = 64;

/// The lowest level at which one is.
const DENIAL_LEVEL: u32 = 180;

/// The greatest size of a refutation, over all its leaves: more takes too much memory.
const MOST: u64 = 3_600_000;

/// A search among the facts of a condition.
#[derive(Drop)]
pub(crate) struct Search<'a> {
    alloc: Global,
    variables: u32,
    known: KnownRows,
    // The choices on the path.
    open: Vec<Open<'a>>,
    // Their marks.
    marks: Chains,
    // The values that were tried last.
    model: Model,
    // The facts of the condition, and the numbers of its inequalities by their directions.
    facts: &'a Part,
    directions: Chains,
    denials: Denials,
    // How many of the rows, the first ones, were used for bounds at a level above.
    narrowed: usize,
    // The new part since no choice was found refuted, and since none was found forced.
    unrefuted: News,
    unforced: News,
    // The choices that have facts in common, and whether these are known.
    rests: &'a Rests,
    is_shared: bool,
    // The place of an own fact that closed a part, the last one of several in order.
    near: usize,
    // The choice to be taken next, whatever the values.
    next: Option<usize>,
    // The forms to be branched on next, the last one first, before any choice.
    lifted: Vec<Lifted>,
    // The lowest level above which there are first sides of branches alone, and how often forms may
    // still be lifted to it.
    trunk: u32,
    lifts: u32,
    // How much larger the leaves may grow, those that were dropped again included.
    room: u64,
}

// How many of the choices, the last ones, are of this level.
fn own_choices(open: &[Open], level: u32) -> usize {
    let mut own = 0usize;
    for one in open.iter().rev() {
        if one.place.level != level {
            break;
        }
        own = own.saturating_add(1);
    }
    own
}

impl<'a> Search<'a> {
    pub(crate) fn new(
        alloc: Global,
        facts: &'a Part,
        rests: &'a Rests,
        variables: u32,
        known: KnownRows,
    ) -> Result<Search<'a>, AllocError> {
        Ok(Search {
            alloc,
            variables,
            known,
            open: Vec::new(alloc),
            marks: Chains::new(alloc, facts.choices.len())?,
            model: Model::new(alloc, variables as usize)?,
            facts,
            directions: facts.directions()?,
            denials: Denials::new(alloc, &facts.choices)?,
            narrowed: 0,
            unrefuted: News::ALL,
            unforced: News::ALL,
            rests,
            is_shared: false,
            near: 0,
            next: None,
            lifted: Vec::new(alloc),
            trunk: TOP,
            lifts: MOST_LIFTS,
            room: MOST,
        })
    }

    /// The values at which the search ended, where it ended by them.
    pub(crate) fn into_model(self) -> Model {
        self.model
    }

    fn view<'v>(&'v self, bounds: &'v Bounds) -> View<'v, 'a> {
        View {
            rows: &self.known.rows,
            base: &self.known.base,
            open: &self.open,
            bounds,
        }
    }

    fn facts<'v>(&'v self, bounds: &'v Bounds) -> Facts<'v> {
        Facts {
            rows: &self.known.rows,
            base: &self.known.base,
            index: &self.known.index,
            bounds,
            own: &self.facts.atoms,
            directions: &self.directions,
            near: self.near,
            assumed: None,
        }
    }

    // A choice each of whose parts is at odds with the known facts.
    fn refuted(&self, bounds: &Bounds, reach: Reach) -> Option<usize> {
        self.facts(bounds)
            .refuted(&self.open, reach, self.unrefuted)
    }

    // A choice of which each part is at odds with the known facts, or with one of the last choices,
    // this many; or one of these with a single way.
    fn denied(&self, own: usize, bounds: &Bounds) -> Option<usize> {
        let from = self.open.len().saturating_sub(own);
        self.facts(bounds).denied(&self.open, from)
    }

    // A choice from above this level of which each part is at odds with the known facts, or with a
    // choice of this level: so a denied choice there is split before the one that denies it, but
    // for a choice of this level with a single way.
    fn denied_at(&mut self, level: u32, bounds: &Bounds) -> Result<Option<usize>, Stop> {
        let own = own_choices(&self.open, level);
        if own == 0 {
            return Ok(None);
        }
        self.spend_pairs(own)?;
        Ok(self.denied(own, bounds))
    }

    // Whether an equal choice is on the path.
    fn is_open(&self, choice: &Choice) -> bool {
        self.marks.walk(choice.mark).step().is_some()
    }

    // Takes in the choices of a part that are not on the path. Returns how many.
    fn take_choices(&mut self, part: &'a Part, level: u32) -> Result<usize, AllocError> {
        let mut taken = 0usize;
        for (number, choice) in part.choices.iter().enumerate() {
            if !self.is_open(choice) {
                let index = choice.index;
                self.marks.put(choice.mark, index)?;
                let rest = if level == TOP {
                    self.rests.of(number)
                } else {
                    None
                };
                let place = Place { level, index };
                self.open.push(Open::new(place, choice, rest))?;
                taken = taken.saturating_add(1);
            }
        }
        Ok(taken)
    }

    // The one with the fewest ways of these choices. Where that has three or more, one of which no
    // part is alive comes first.
    fn pick(&mut self, among: &[usize], bounds: &Bounds) -> Result<Option<usize>, Stop> {
        let Some(best) = self.view(bounds).narrowest(among) else {
            return Ok(None);
        };
        if best.ways < 3 {
            return Ok(Some(best.choice));
        }
        self.spend_looks()?;
        let dead = self.view(bounds).dead_choice()?;
        Ok(Some(dead.unwrap_or(best).choice))
    }

    // Takes a step for each 1,000 facts in the choices that are looked through.
    fn spend_choices(&mut self) -> Result<(), Stop> {
        self.known.rows.spend((weight(&self.open) / 1000) as u64)?;
        Ok(())
    }

    // Takes a step for each 10,000 looks at a fact or a row, where each choice is looked into.
    fn spend_looks(&mut self) -> Result<(), Stop> {
        let looks = weight(&self.open).saturating_add(self.known.base.len());
        let all = self.open.len().saturating_mul(looks);
        self.known.rows.spend((all / 10_000) as u64)?;
        Ok(())
    }

    // Takes a step for each 10,000 pairs of a fact and one of this many choices.
    fn spend_pairs(&mut self, choices: usize) -> Result<(), Stop> {
        let pairs = weight(&self.open).saturating_mul(choices);
        self.known.rows.spend((pairs / 10_000) as u64)?;
        Ok(())
    }

    // Takes a step for each fact of a part that was taken in, and for each 16 others.
    fn spend_facts(&mut self, part: &Part, taken: usize) -> Result<(), Stop> {
        let all = part.atoms.len().saturating_add(part.choices.len());
        let others = all.saturating_sub(taken) / 16;
        self.known.rows.spend(taken.saturating_add(others) as u64)?;
        Ok(())
    }

    // Takes in the facts of a level.
    fn take_in(&mut self, entry: Entry<'a>, level: u32, bounds: &mut Bounds) -> Result<(), Halt> {
        self.known.rows.spend(1)?;
        match entry {
            Entry::Side(form) => self
                .known
                .take_atom(&form, Place { level, index: 0 }, bounds),
            Entry::Part(part) => {
                let choices = self.take_choices(part, level)?;
                let atoms = self.known.take_atoms(part, level, bounds)?;
                self.spend_facts(part, choices.saturating_add(atoms))?;
                Ok(())
            }
        }
    }

    // Adds the bounds that follow from the rows, and notes the new ones: the rows from this one on,
    // and the bounds. Those of the level above were changed for these variables.
    fn narrow(&mut self, from: usize, late: Variables, bounds: &mut Bounds) -> Result<(), Halt> {
        narrow(
            &mut self.known.rows,
            &self.known.base,
            self.narrowed,
            late,
            bounds,
        )?;
        self.narrowed = self.known.base.len();
        let changed = bounds.changed();
        self.unforced = self.unforced.with(changed);
        let news = changed.union(self.known.variables_from(from));
        self.unrefuted = self.unrefuted.with(news);
        Ok(())
    }

    // Takes in the facts of a level, and returns the outcome there. Those of the level above were
    // changed for these variables.
    fn begin(
        &mut self,
        entry: Entry<'a>,
        level: u32,
        late: Variables,
        bounds: &mut Bounds,
    ) -> Result<Decision, Halt> {
        let from = self.known.base.len();
        self.take_in(entry, level, bounds)?;
        self.known.close_new(from, bounds)?;
        self.narrow(from, late, bounds)?;
        self.go_on(level, bounds)
    }

    // Takes in the choices of the condition, whose inequalities are known, and returns the outcome:
    // at first without the bounds that follow.
    fn begin_at_top(&mut self, bounds: &mut Bounds) -> Result<Decision, Halt> {
        self.take_choices(self.facts, TOP)?;
        if let Some(i) = self.refuted(bounds, Reach::Rows) {
            return Ok(Decision::Split(i));
        }
        self.narrow(0, Variables::NONE, bounds)?;
        self.go_on(TOP, bounds)
    }

    // Eliminates all variables, and keeps no row of it but where there is a contradiction.
    fn eliminate_in(&mut self, bounds: &Bounds, ranges: Ranges) -> Result<Outcome, Halt> {
        let mark = self.known.rows.len();
        let problem = Problem {
            base: &self.known.base,
            bounds,
            kept: &self.model,
            variables: self.variables,
            ranges,
        };
        let outcome = eliminate(&mut self.known.rows, &problem)?;
        self.known.rows.forget(mark);
        Ok(outcome)
    }

    // Eliminates all variables, at first without the range of `i64`.
    fn eliminate(&mut self, bounds: &Bounds) -> Result<Outcome, Halt> {
        match self.eliminate_in(bounds, Ranges::Ignored)? {
            Outcome::OutOfRange => self.eliminate_in(bounds, Ranges::Counted),
            other => Ok(other),
        }
    }

    // Numbers that are all different and have too few values, if there are some, to be refuted
    // below this level. Takes a step for each 1,000 facts that are looked through.
    fn pigeons(&mut self, level: u32, bounds: &Bounds) -> Result<Option<Pigeons>, Stop> {
        if level < PIGEONS_LEVEL {
            return Ok(None);
        }
        self.known
            .rows
            .spend((weight_of_pairs(&self.open) / 1000) as u64)?;
        Ok(look(self.alloc, self.view(bounds), level)?)
    }

    // A queue that leaves no place free, if there is one, to be refuted below this level. Takes a
    // step for each 10,000 looks at a fact on the path.
    fn queue(&mut self, level: u32, bounds: &Bounds) -> Result<Detection, Stop> {
        let seen = look_for_queue(self.alloc, self.view(bounds), level)?;
        self.known.rows.spend((seen.looks / 10_000) as u64)?;
        Ok(seen.detection)
    }

    // An inequality that all parts of one of these choices imply, and that is false of the values.
    fn common(&self, among: &[usize], bounds: &Bounds) -> Result<Option<Common>, AllocError> {
        common_to_choice(self.alloc, &self.open, among, bounds, &self.model)
    }

    // The outcome where all rows hold of these values.
    fn decide_at(&mut self, model: Model, level: u32, bounds: &Bounds) -> Result<Decision, Stop> {
        self.model = model;
        let failing = failing(self.alloc, &self.open, &self.model)?;
        if failing.is_empty() {
            return Err(Stop::Model);
        }
        match self.decide_by_queue(level, bounds)? {
            Some(decision) => Ok(decision),
            None => self.decide_among(&failing, bounds),
        }
    }

    // Both sides of the gap between a variable's values.
    fn branch_at(&self, gap: Gap) -> Result<Decision, Stop> {
        if gap.most.unsigned_abs() > GAP_LIMIT {
            return Err(Stop::Stuck);
        }
        let term = Term {
            var: gap.var,
            coefficient: 1,
        };
        let constant = gap.most.checked_neg().ok_or(Stop::Stuck)?;
        Ok(Decision::Branch {
            form: Inequality::single(self.alloc, term, constant)?,
            next: None,
        })
    }

    // The outcome where no values were found.
    fn decide_without(&mut self, gap: Option<Gap>, bounds: &Bounds) -> Result<Decision, Stop> {
        let open = untaken(self.alloc, &self.open)?;
        match self.pick(&open, bounds)? {
            Some(i) => Ok(Decision::Split(i)),
            None => self.branch_at(gap.ok_or(Stop::Stuck)?),
        }
    }

    // The outcome at a level whose facts were taken in.
    fn go_on(&mut self, level: u32, bounds: &Bounds) -> Result<Decision, Halt> {
        if let Some(decision) = self.decided() {
            return Ok(decision);
        }
        self.spend_choices()?;
        if let Some(i) = self.settled(level, bounds) {
            return Ok(Decision::Split(i));
        }
        if let Some(i) = self.denied_at(level, bounds)? {
            return Ok(Decision::Split(i));
        }
        let decision = match self.eliminate(bounds)? {
            Outcome::Model(model) => self.decide_at(model, level, bounds)?,
            Outcome::Gap(gap) => self.decide_without(Some(gap), bounds)?,
            Outcome::OutOfRange | Outcome::Unknown => self.decide_without(None, bounds)?,
        };
        Ok(decision)
    }

    // What was decided before, if something was.
    fn decided(&mut self) -> Option<Decision> {
        if let Some(i) = self.next.take() {
            return Some(Decision::Split(i));
        }
        let Lifted { form, next } = self.lifted.pop()?;
        Some(Decision::Branch { form, next })
    }

    // The choice that the bounds refute, or force, if there is one.
    fn settled(&mut self, level: u32, bounds: &Bounds) -> Option<usize> {
        if let Some(i) = self.refuted(bounds, Reach::of_level(level)) {
            return Some(i);
        }
        self.unrefuted = News::none(self.open.len());
        if level <= EAGER_LEVEL {
            return None;
        }
        if let Some(i) = forced(&self.open, bounds, self.unforced) {
            return Some(i);
        }
        self.unforced = News::none(self.open.len());
        None
    }

    // To refute pigeons or a queue, if one is seen.
    fn decide_by_queue(&mut self, level: u32, bounds: &Bounds) -> Result<Option<Decision>, Stop> {
        if let Some(pigeons) = self.pigeons(level, bounds)? {
            return Ok(Some(Decision::Refute(pigeons)));
        }
        Ok(match self.queue(level, bounds)? {
            Detection::Queue(queue) => Some(Decision::Queue(queue)),
            Detection::Bound(form) => Some(Decision::Branch { form, next: None }),
            Detection::Nothing => None,
        })
    }

    // To split one of the choices that fail, or to branch by what all parts of one have in common.
    fn decide_among(&mut self, failing: &[usize], bounds: &Bounds) -> Result<Decision, Stop> {
        if let Some(i) = forced_among(&self.open, failing, bounds) {
            return Ok(Decision::Split(i));
        }
        if let Some(common) = self.common(failing, bounds)? {
            return Ok(Decision::Branch {
                form: common.form,
                next: Some(common.choice),
            });
        }
        let choice = self.pick(failing, bounds)?;
        Ok(Decision::Split(choice.ok_or(Stop::Stuck)?))
    }

    // Marks the choice as taken or not. Returns it, if it is there.
    fn set_taken(&mut self, i: usize, is_taken: bool) -> Option<Open<'a>> {
        let open = self.open.get_mut(i)?;
        open.is_taken = is_taken;
        Some(*open)
    }

    // The leaf, if there is room for it.
    fn keep(&mut self, proof: Proof) -> Result<Proof, Stop> {
        let room = self.room.checked_sub(proof.tree.size());
        self.room = room.ok_or(Stop::Size)?;
        Ok(proof)
    }

    // The leaf that closes with this row.
    fn close(&mut self, row: usize) -> Result<Proof, Stop> {
        let proof = leaf(&self.known.rows, row)?;
        self.keep(proof)
    }

    // What comes of a level whose work was halted.
    fn halted(&mut self, halt: Halt) -> Result<Proof, Stop> {
        match halt {
            Halt::Contradiction(row) => {
                self.next = None;
                self.lifted.truncate(0);
                self.close(row)
            }
            Halt::Stop(stop) => Err(stop),
        }
    }

    // Notes the place of an own fact that closes a part, if it is among the next ones: so parts
    // that stand in the order of an assertion are closed by the facts of that one assertion.
    fn go_near(&mut self, index: usize, bounds: &Bounds) {
        if self.facts(bounds).is_near(index) {
            self.near = self.near.max(index);
        }
    }

    // The leaf of a part with a conflict, if its sum is a contradiction.
    fn close_conflict(
        &mut self,
        conflict: Conflict,
        level: u32,
        bounds: &Bounds,
    ) -> Result<Option<Proof>, Stop> {
        let index = conflict.atom.index;
        let place = Place { level, index };
        let Some(proof) = refute_conflict(&mut self.known.rows, bounds, conflict, place)? else {
            return Ok(None);
        };
        self.known.rows.spend(1)?;
        if let Cause::Fact(index) = conflict.cause {
            self.go_near(index, bounds);
        }
        Ok(Some(self.keep(proof)?))
    }

    // The refutation of a part that is at odds with the known facts, or a choice of which is.
    #[cycle(once)]
    fn at_once(
        &mut self,
        part: &Part,
        level: u32,
        bounds: &Bounds,
        reach: Reach,
    ) -> Result<Option<Proof>, Stop> {
        if let Some(conflict) = self.facts(bounds).conflict(part, reach) {
            self.known
                .rows
                .spend((part.count as u64 / 16).saturating_add(1))?;
            return self.close_conflict(conflict, level, bounds);
        }
        for choice in &part.choices {
            if self.facts(bounds).are_shut(&choice.parts, reach) {
                return self.split_at_once(choice, level, bounds, reach);
            }
        }
        Ok(None)
    }

    // The refutation of a choice of a part at this level, if it is found at once.
    #[cycle(once)]
    fn split_at_once(
        &mut self,
        choice: &Choice,
        level: u32,
        bounds: &Bounds,
        reach: Reach,
    ) -> Result<Option<Proof>, Stop> {
        let index = choice.index;
        let below = level.checked_sub(1).ok_or(Stop::Stuck)?;
        let mut cases = Cases::new(self.alloc, Place { level, index }, choice.parts.len())?;
        for part in &choice.parts {
            let Some(proof) = self.at_once(part, below, bounds, reach)? else {
                return Ok(None);
            };
            cases.add(below, part.count, proof)?;
        }
        Ok(Some(cases.into_proof()))
    }

    // The choice of the condition each of whose parts is at odds with the facts of a part, by
    // themselves: most often the same conjunct of a hypothesis.
    fn denying(&mut self, part: &Part) -> Result<Option<&'a Choice>, Stop> {
        let choices = &self.facts.choices;
        if let Some(choice) = self.denials.opposite(choices, part) {
            return Ok(Some(choice));
        }
        let pairs = choices.len().saturating_mul(part.size());
        self.known.rows.spend((pairs / 10_000) as u64)?;
        Ok(refuted_by(choices, part))
    }

    // The refutation of a part at this level by such a choice.
    fn deny(&mut self, part: &Part, level: u32) -> Result<Option<Proof>, Stop> {
        if level < DENIAL_LEVEL || part.size() > DENIAL_LIMIT {
            return Ok(None);
        }
        let Some(choice) = self.denying(part)? else {
            return Ok(None);
        };
        let Some(proof) = denial(self.alloc, choice, Placed { part, level })? else {
            return Ok(None);
        };
        self.known.rows.spend(1)?;
        let room = self.room.checked_sub(proof.tree.size_of_leaves());
        self.room = room.ok_or(Stop::Size)?;
        Ok(Some(proof))
    }

    // Refutes a part: by a choice of the condition or at once, of which that goes first which is
    // mostly shorter, or by a level of its own.
    #[cycle(search)]
    fn refute_part(
        &mut self,
        part: &'a Part,
        level: u32,
        bounds: &mut Bounds,
    ) -> Result<Proof, Stop> {
        let reach = Reach::of_level(level.saturating_add(1));
        let is_plain = part.choices.is_empty();
        if !is_plain {
            if let Some(proof) = self.deny(part, level)? {
                return Ok(proof);
            }
        }
        if let Some(proof) = self.at_once(part, level, bounds, reach)? {
            return Ok(proof);
        }
        if is_plain {
            if let Some(proof) = self.deny(part, level)? {
                return Ok(proof);
            }
        }
        self.at_level(level, Entry::Part(part), bounds)
    }

    // Searches at a level, and leaves the path as it was.
    #[cycle(search)]
    fn at_level(
        &mut self,
        level: u32,
        entry: Entry<'a>,
        bounds: &mut Bounds,
    ) -> Result<Proof, Stop> {
        let (known, open, marks) = (self.known.extent(), self.open.len(), self.marks.len());
        let (narrowed, unrefuted, unforced) = (self.narrowed, self.unrefuted, self.unforced);
        let late = bounds.changed();
        let mark = bounds.mark();
        let decided = self.begin(entry, level, late, bounds);
        let proof = self.refute(level, decided, bounds)?;
        bounds.forget(mark);
        self.narrowed = narrowed;
        self.unrefuted = unrefuted;
        self.unforced = unforced;
        self.known.forget(known);
        self.marks.forget(marks);
        self.open.truncate(open);
        Ok(proof)
    }

    // Refutes the facts known at a level, for which this was decided.
    #[cycle(search)]
    fn refute(
        &mut self,
        level: u32,
        decided: Result<Decision, Halt>,
        bounds: &mut Bounds,
    ) -> Result<Proof, Stop> {
        let decision = match decided {
            Ok(decision) => decision,
            Err(halt) => return self.halted(halt),
        };
        let below = level.checked_sub(1).ok_or(Stop::Stuck)?;
        match decision {
            Decision::Split(i) => self.split_at(below, i, bounds),
            Decision::Branch { form, next } => self.branch(below, form, next, bounds),
            Decision::Refute(pigeons) => self.refute_pigeons(&pigeons, bounds),
            Decision::Queue(queue) => self.refute_queue(&queue, bounds),
        }
    }

    // Refutes a queue that leaves no place free.
    fn refute_queue(&mut self, queue: &Queue, bounds: &Bounds) -> Result<Proof, Stop> {
        let proof = queue.refute(&mut self.known.rows, &self.open, bounds, &mut self.room)?;
        Ok(proof)
    }

    // Refutes numbers that are all different and have too few values.
    fn refute_pigeons(&mut self, pigeons: &Pigeons, bounds: &Bounds) -> Result<Proof, Stop> {
        let proof = pigeons.refute(&mut self.known.rows, &self.open, bounds, &mut self.room)?;
        Ok(proof)
    }

    // Goes into the parts of a choice, or first into the sides of the forms that were met there.
    #[cycle(search)]
    fn split_at(&mut self, below: u32, i: usize, bounds: &mut Bounds) -> Result<Proof, Stop> {
        match self.split(below, i, bounds)? {
            Parts::Refuted(proof) => Ok(proof),
            Parts::Lifted(forms) => {
                self.lifted = forms;
                self.lifts = self.lifts.saturating_sub(1);
                let Lifted { form, next } = self.lifted.pop().ok_or(Stop::Stuck)?;
                self.branch(below, form, next, bounds)
            }
        }
    }

    // Whether forms may be lifted from the parts at this level.
    fn may_lift(&self, level: u32) -> bool {
        self.lifts > 0 && level >= LIFT_LEVEL && level.saturating_add(1) == self.trunk
    }

    // From now on the facts that choices have in common are known, or not.
    fn set_shared(&mut self, is_shared: bool) {
        self.is_shared = is_shared;
        for one in &mut self.open {
            one.set_whole(!is_shared);
        }
    }

    // Notes that a choice is no longer taken, the first one of those with facts in common or
    // another.
    fn leave(&mut self, i: usize, is_first: bool) {
        self.set_taken(i, false);
        if is_first {
            self.set_shared(false);
        }
    }

    // Goes into the parts of a choice. A refutation that needs no fact of its part stands for all.
    #[cycle(search)]
    fn split(&mut self, below: u32, i: usize, bounds: &mut Bounds) -> Result<Parts, Stop> {
        let choice = self.set_taken(i, true).ok_or(Stop::Stuck)?;
        let is_first = choice.is_sharing() && !self.is_shared;
        if is_first {
            self.set_shared(true);
        }
        let mut cases = Cases::new(self.alloc, choice.place, choice.parts.len())?;
        self.near = 0;
        for part in choice.parts {
            let proof = self.refute_part(part, below, bounds)?;
            if !proof.used.has(below) {
                self.leave(i, is_first);
                return Ok(Parts::Refuted(proof));
            }
            let is_early = cases.len() < choice.parts.len() / 2;
            if is_early && self.may_lift(below) && proof.tree.is_lifting() {
                self.leave(i, is_first);
                return Ok(Parts::Lifted(proof.tree.into_lifted(self.alloc)?));
            }
            cases.add(below, part.count, proof)?;
        }
        self.leave(i, is_first);
        Ok(Parts::Refuted(cases.into_proof()))
    }

    // Goes into both sides of a form.
    #[cycle(search)]
    fn branch(
        &mut self,
        below: u32,
        form: Inequality,
        next: Option<usize>,
        bounds: &mut Bounds,
    ) -> Result<Proof, Stop> {
        let other = form.otherwise(self.alloc)?.ok_or(Stop::Stuck)?;
        let trunk = self.trunk;
        if self.may_lift(below) {
            self.trunk = below;
        }
        let first = self.at_level(below, Entry::Side(form.copy()?), bounds)?;
        self.trunk = trunk;
        if !first.used.has(below) {
            return Ok(first);
        }
        self.next = next;
        let second = self.at_level(below, Entry::Side(other), bounds)?;
        if !second.used.has(below) {
            return Ok(second);
        }
        Ok(both_sides(self.alloc, below, form, next, first, second)?)
    }

    /// A refutation of the facts, if the search finds one: their inequalities are known, with these
    /// bounds.
    pub(crate) fn run(&mut self, bounds: &mut Bounds) -> Result<Proof, Stop> {
        let decided = self.begin_at_top(bounds);
        self.refute(TOP, decided, bounds)
    }
}
