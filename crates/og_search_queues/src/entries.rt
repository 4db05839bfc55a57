//! The entries of a queue, made of the facts about them.

use crate::candidates::{Branches, Candidate, Hidden, Range, range_of};
use crate::missed::Missed;
use crate::narrowing::{Ground, Held, Narrowing, Own, Source, Stage, fact_of};
use crate::queue::{Distinct, Entry, OpenEntry, State, Var};
use og_search_choices::Part;
use og_search_rows::Place;
use std::alloc::{AllocError, Global};

/// A number, and the part in which its entry waits, if the facts of that are not on the path.
#[derive(Clone, Copy)]
struct Seen<'a> {
    number: Var,
    part: Option<&'a Part>,
}

/// Whether an entry is known to be through, its flag, and the fact that this is at most 0
/// where it waits.
#[derive(Drop)]
struct Flagged {
    state: State,
    flag: Var,
    high: Source,
}

/// Makes the entries of candidates, one after the other: the variables among which the flags are,
/// the end that all numbers are less than, and the choices that hide that two differ; and what was
/// made: the flags, the entries, and for each of these the pairs with those before it.
#[derive(Drop)]
pub(crate) struct Maker<'a, 'h> {
    alloc: Global,
    counted: Vec<Var>,
    end: Var,
    hidden: &'h [Hidden],
    seen: Vec<Seen<'a>>,
    pub flags: Vec<Var>,
    pub entries: Vec<Entry>,
    pub pairs: Vec<Vec<Distinct>>,
}

// The facts of a part that are known where the entry waits, if there is one.
fn held<'a>(
    alloc: Global,
    entry: usize,
    stage: Stage,
    part: Option<&'a Part>,
) -> Result<Vec<Held<'a>>, AllocError> {
    let mut held = Vec::new(alloc);
    if let Some(part) = part {
        held.push(Held { entry, stage, part })?;
    }
    Ok(held)
}

// The rest of the choice that hides that two numbers differ, where these facts are known.
fn difference(ground: &mut Ground, pair: Hidden, held: &[Held]) -> Result<Narrowing, Missed> {
    let open = ground.view.open;
    match open.get(pair.choice) {
        Some(one) => ground.narrowing(Source::Path(one.place), one.parts, &[pair.left], held),
        None => Err(Missed::Fact),
    }
}

impl<'a, 'h> Maker<'a, 'h> {
    /// No entries yet.
    pub(crate) fn new(
        alloc: Global,
        counted: Vec<Var>,
        end: Var,
        hidden: &'h [Hidden],
    ) -> Maker<'a, 'h> {
        Maker {
            alloc,
            counted,
            end,
            hidden,
            seen: Vec::new(alloc),
            flags: Vec::new(alloc),
            entries: Vec::new(alloc),
            pairs: Vec::new(alloc),
        }
    }

    // The flag that is 0 where the entry waits and 1 where it is through, with the places of the
    // facts that say so.
    fn flag_of(&self, waits: &Part, through: &Part) -> Option<(Var, usize, usize)> {
        for var in &self.counted {
            let high = fact_of(waits, &[(*var, 1)], 0);
            let low = fact_of(through, &[(*var, -1)], 1);
            if let (Some(high), Some(low)) = (high, low) {
                return Some((*var, high, low));
            }
        }
        None
    }

    // The facts known of an entry that may be through.
    fn open_candidate(&self, ground: &mut Ground, branches: Branches) -> Result<Flagged, Missed> {
        let waits = branches.parts.get(branches.waits).ok_or(Missed::Fact)?;
        let through = branches.parts.get(branches.through).ok_or(Missed::Fact)?;
        let (flag, index, low) = self.flag_of(waits, through).ok_or(Missed::Fact)?;
        let left = [branches.waits, branches.through];
        let none: &[Held] = &[];
        let narrowing = ground.narrowing(
            Source::Path(branches.place),
            branches.parts,
            &left,
            none,
        )?;
        let (entry, stage) = (self.entries.len(), Stage::Waiting);
        Ok(Flagged {
            state: State::Open(OpenEntry {
                narrowing,
                is_waiting_first: branches.waits < branches.through,
                flag: low,
            }),
            flag,
            high: Source::Own(Own {
                entry,
                stage,
                index,
            }),
        })
    }

    // The facts known of an entry that waits by those on the path: its flag is the first one that
    // is at most 0 there.
    fn waiting(&self, ground: &mut Ground) -> Result<Flagged, Missed> {
        for flag in &self.counted {
            if let Some(place) = ground.path_place(&[(*flag, 1)], 0) {
                ground.note(place);
                return Ok(Flagged {
                    state: State::Waits,
                    flag: *flag,
                    high: Source::Path(place),
                });
            }
        }
        Err(Missed::Fact)
    }

    // The facts known of a candidate's flag.
    fn flagged(&self, ground: &mut Ground, candidate: Candidate) -> Result<Flagged, Missed> {
        match candidate.branches {
            Some(branches) => self.open_candidate(ground, branches),
            None => self.waiting(ground),
        }
    }

    // The rest of the range of a candidate's number.
    fn in_range(
        &self,
        ground: &mut Ground,
        candidate: Candidate,
        range: Range,
    ) -> Result<Narrowing, Missed> {
        let entry = self.entries.len();
        let waits = held(self.alloc, entry, Stage::Waiting, candidate.waits())?;
        let place = Source::Path(range.place);
        ground.narrowing(place, range.parts, &[range.left], &waits)
    }

    // The rest of the choice that hides that a candidate's number is above the counter.
    fn above_counter(
        &self,
        ground: &mut Ground,
        candidate: Candidate,
        range: Range,
    ) -> Result<Narrowing, Missed> {
        let (entry, part) = (self.entries.len(), range.parts.get(range.left));
        let ranged = held(self.alloc, entry, Stage::Ranged, part)?;
        let apart = candidate.apart;
        ground.narrowing(apart.choice, apart.parts, &[apart.left], &ranged)
    }

    // Both.
    fn narrowings(
        &self,
        ground: &mut Ground,
        candidate: Candidate,
        range: Range,
    ) -> Result<(Narrowing, Narrowing), Missed> {
        let in_range = self.in_range(ground, candidate, range)?;
        let above = self.above_counter(ground, candidate, range)?;
        Ok((in_range, above))
    }

    // Adds a flag. Gives the fact that it is at least 0.
    fn add_flag(&mut self, ground: &mut Ground, flag: Var) -> Result<Place, Missed> {
        self.flags.push(flag)?;
        ground.path_fact(&[(flag, -1)], 0)
    }

    // The entry of a candidate, whose number has this range.
    fn entry(
        &mut self,
        ground: &mut Ground,
        candidate: Candidate,
        range: Range,
    ) -> Result<Entry, Missed> {
        let flagged = self.flagged(ground, candidate)?;
        let (range_left, above) = self.narrowings(ground, candidate, range)?;
        let flag_low = self.add_flag(ground, flagged.flag)?;
        Ok(Entry {
            number: candidate.number,
            state: flagged.state,
            flag_low,
            flag_high: flagged.high,
            range: range_left,
            high: range.high,
            above,
        })
    }

    // The choice that hides that the two numbers differ.
    fn hidden(&self, number: Var, other: Var) -> Result<Hidden, Missed> {
        for pair in self.hidden {
            if pair.is_of(number, other) {
                return Ok(*pair);
            }
        }
        Err(Missed::Fact)
    }

    // The facts that are known where the entry with this number and one before it wait.
    fn held_by_both(
        &self,
        own: Seen<'a>,
        before: Seen<'a>,
        other: usize,
    ) -> Result<Vec<Held<'a>>, AllocError> {
        let mut held = held(self.alloc, self.seen.len(), Stage::Waiting, own.part)?;
        if let Some(part) = before.part {
            let (entry, stage) = (other, Stage::Waiting);
            held.push(Held { entry, stage, part })?;
        }
        Ok(held)
    }

    // The rest of that choice where the entry with this number and one before it wait.
    fn pair(&self, ground: &mut Ground, own: Seen<'a>, other: usize) -> Result<Distinct, Missed> {
        let Some(before) = self.seen.get(other) else {
            return Err(Missed::Fact);
        };
        let pair = self.hidden(own.number, before.number)?;
        let held = self.held_by_both(own, *before, other)?;
        Ok(Distinct {
            narrowing: difference(ground, pair, &held)?,
            is_less_first: pair.first == own.number,
        })
    }

    // For all that are before it.
    fn pairs(&self, ground: &mut Ground, own: Seen<'a>) -> Result<Vec<Distinct>, Missed> {
        let mut pairs = Vec::with_capacity(self.alloc, self.seen.len())?;
        for other in 0..self.seen.len() {
            pairs.push(self.pair(ground, own, other)?)?;
        }
        Ok(pairs)
    }

    // The range of a candidate's number, where that is less than the end.
    fn range<'b>(
        &self,
        ground: &Ground<'_, 'b>,
        candidate: Candidate,
    ) -> Result<Range<'b>, Missed> {
        match range_of(ground.view, candidate) {
            Some(range) if range.end == self.end => Ok(range),
            _ => Err(Missed::Fact),
        }
    }

    // Adds what was made.
    fn put(&mut self, own: Seen<'a>, entry: Entry, pairs: Vec<Distinct>) -> Result<(), Missed> {
        self.entries.push(entry)?;
        self.pairs.push(pairs)?;
        self.seen.push(own)?;
        Ok(())
    }

    /// Makes the entry of a candidate.
    ///
    /// # Errors
    ///
    /// `Fact` where something is not as in a queue, `Memory` where an allocation was refused.
    pub(crate) fn add(
        &mut self,
        ground: &mut Ground<'_, 'a>,
        candidate: Candidate<'a>,
    ) -> Result<(), Missed> {
        let range = self.range(ground, candidate)?;
        let own = Seen {
            number: candidate.number,
            part: candidate.waits(),
        };
        let pairs = self.pairs(ground, own)?;
        let entry = self.entry(ground, candidate, range)?;
        self.put(own, entry, pairs)
    }
}
