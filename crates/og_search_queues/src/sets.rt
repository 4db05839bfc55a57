//! Which entries of a list are through and which wait, one after the other.

use crate::narrowing::{Own, Source, Stage};
use crate::queue::State;
use crate::refuter::{Refuter, Values, Waiting, levels_behind, lower};
use og_search_pigeons::{Unrefuted, beyond, once};
use og_search_refutation::{Multiple, Tree, assumed_at};
use og_search_rows::{Place, Side};
use std::alloc::Global;

/// An entry of a list: the fact that its number is at most the greatest value or it is through, if
/// there is one.
#[derive(Clone, Copy)]
pub(crate) struct Listed {
    pub entry: usize,
    pub low: Option<Place>,
}

/// A value of the counter that is known to be the least, and the fact that says so.
#[derive(Clone, Copy)]
pub(crate) struct Known {
    pub value: i128,
    pub place: Place,
}

/// A list of entries, the least value of the counter, if more is known of it than how many are
/// through, the greatest value of the counter and of the numbers, and the fact that the counter is
/// not above it.
#[derive(Clone, Copy)]
pub(crate) struct Sets<'s> {
    pub list: &'s [Listed],
    pub known: Option<Known>,
    pub most: i128,
    pub counter: Place,
}

/// How far a list has been gone through: the next place, those that wait, and how many are through.
#[derive(Drop)]
pub(crate) struct Course {
    pub next: usize,
    pub waiting: Vec<Waiting>,
    pub through: usize,
}

impl Course {
    /// Nothing was gone through yet.
    pub(crate) fn new(alloc: Global) -> Course {
        Course {
            next: 0,
            waiting: Vec::new(alloc),
            through: 0,
        }
    }
}

impl Refuter<'_, '_, '_> {
    // The facts from which it follows that the counter is not below the number of entries that are
    // through.
    fn counted(&self) -> Result<Vec<Multiple>, Unrefuted> {
        let mut facts = Vec::new(self.alloc);
        facts.push(once(self.queue.count))?;
        for place in &self.queue.others {
            facts.push(once(*place))?;
        }
        for (entry, standing) in self.queue.entries.iter().zip(&self.standings) {
            facts.push(once(standing.through.unwrap_or(entry.flag_low)))?;
        }
        Ok(facts)
    }

    // What refutes that too many entries are through for the counter.
    fn refute_through(&mut self, counter: Place) -> Result<Tree, Unrefuted> {
        let mut end = self.counted()?;
        end.push(once(counter))?;
        self.leaves.close(end)
    }

    // What refutes those that wait with these values above the counter, the least of which is
    // shown first.
    fn refute_above_shown(
        &mut self,
        level: u32,
        waiting: &[Waiting],
        values: Values,
        least: i128,
    ) -> Result<Tree, Unrefuted> {
        let below = lower(level, 1)?;
        let tree = self.refute_pigeons(below, waiting, values, Some(assumed_at(below)))?;
        let form = beyond(self.alloc, self.queue.counter, Side::Lower, least)?;
        let facts = self.counted()?;
        self.shown(below, form, &facts, tree)
    }

    // The least value of the counter.
    fn least_of(&self, sets: Sets, through: usize) -> i128 {
        let least = self.queue.least.saturating_add(through as i128);
        match sets.known {
            Some(known) => least.max(known.value),
            None => least,
        }
    }

    // Refutes the entries so far, where more wait than there are values left above this least value
    // of the counter.
    fn refute_full(
        &mut self,
        level: u32,
        sets: Sets,
        waiting: &[Waiting],
        least: i128,
    ) -> Result<Tree, Unrefuted> {
        if waiting.is_empty() {
            return self.refute_through(sets.counter);
        }
        let values = Values {
            least: least.saturating_add(1),
            most: sets.most,
        };
        match sets.known {
            Some(known) if known.value == least => {
                self.refute_pigeons(level, waiting, values, Some(known.place))
            }
            _ => self.refute_above_shown(level, waiting, values, least),
        }
    }

    /// Refutes a list of entries, below this level.
    #[cycle(sets)]
    pub(crate) fn refute_sets(
        &mut self,
        level: u32,
        sets: Sets,
        course: &mut Course,
    ) -> Result<Tree, Unrefuted> {
        let least = self.least_of(sets, course.through);
        if course.waiting.len() as i128 > sets.most.saturating_sub(least) {
            return self.refute_full(level, sets, &course.waiting, least);
        }
        let below = level.checked_sub(1).ok_or(Unrefuted::Levels)?;
        let listed = sets.list.get(course.next).copied();
        let listed = listed.ok_or(Unrefuted::Levels)?;
        course.next = course.next.saturating_add(1);
        let waits = self.refute_one_more(below, sets, course, listed)?;
        let through = self.refute_one_through(below, sets, course, listed)?;
        course.next = course.next.saturating_sub(1);
        self.with_open_entry(below, listed.entry, waits, through)
    }

    // The fact that the number of an entry that waits is above the counter.
    fn above_counter(&self, number: usize) -> Result<Vec<Multiple>, Unrefuted> {
        let above = Source::Own(Own {
            entry: number,
            stage: Stage::Above,
            index: 0,
        });
        Ok(vec![in self.alloc; once(self.place_of(above)?)]?)
    }

    // The facts that the number of an entry that waits is at most the greatest value.
    fn below_most(&self, listed: Listed) -> Result<Vec<Multiple>, Unrefuted> {
        let Some(low) = listed.low else {
            return self.below_end(listed.entry);
        };
        let high = self.place_of(self.entry(listed.entry)?.flag_high)?;
        Ok(vec![in self.alloc; once(low), self.weighted(high)]?)
    }

    // Lets an entry wait behind those that wait, at this level.
    fn join(
        &mut self,
        level: u32,
        number: usize,
        waiting: &mut Vec<Waiting>,
    ) -> Result<(), Unrefuted> {
        self.note_waiting(level, number)?;
        let least = self.above_counter(number)?;
        self.stand(level, number, least, waiting)
    }

    // What refutes that the entry waits too.
    #[cycle(sets)]
    fn refute_one_more(
        &mut self,
        level: u32,
        sets: Sets,
        course: &mut Course,
        listed: Listed,
    ) -> Result<Tree, Unrefuted> {
        let (number, count) = (listed.entry, course.waiting.len());
        let last = level.checked_sub(levels_behind(count));
        let last = last.ok_or(Unrefuted::Levels)?;
        self.join(level, number, &mut course.waiting)?;
        let tree = self.refute_sets(last, sets, course)?;
        course.waiting.truncate(count);
        let facts = self.below_most(listed)?;
        self.with_entry(level, number, &course.waiting, sets.most, &facts, tree)
    }

    // What refutes that the entry is through too, if it may be.
    #[cycle(sets)]
    fn refute_one_through(
        &mut self,
        level: u32,
        sets: Sets,
        course: &mut Course,
        listed: Listed,
    ) -> Result<Option<Tree>, Unrefuted> {
        let State::Open(open_entry) = &self.entry(listed.entry)?.state else {
            return Ok(None);
        };
        let index = open_entry.flag;
        self.note_through(listed.entry, Some(Place { level, index }));
        course.through = course.through.saturating_add(1);
        let tree = self.refute_sets(level, sets, course)?;
        course.through = course.through.saturating_sub(1);
        self.note_through(listed.entry, None);
        Ok(Some(tree))
    }

    // Notes the fact that an entry is through, or that it is no longer known.
    fn note_through(&mut self, number: usize, place: Option<Place>) {
        if let Some(own) = self.standings.get_mut(number) {
            own.through = place;
        }
    }
}
