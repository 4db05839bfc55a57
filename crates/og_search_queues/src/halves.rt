//! The refutation of a queue.
//!
//! First the counter is taken to be in the lower half of its values or above it. Where it is above,
//! few entries can wait, and each is taken to wait or to be through. Where it is not, each entry is
//! taken to wait with a number of the upper half or not, by a form that is one inequality: so those
//! that do not are not yet known apart. Once there are too many with such numbers, these alone are
//! refuted; once there are too many others, each of these alone is taken to wait or to be through.

use crate::queue::{Queue, State, Var};
use crate::refuter::{Refuter, Standing, Values, WEIGHT, Waiting, levels_behind, lower};
use crate::sets::{Course, Known, Listed, Sets};
use og_search_choices::Open;
use og_search_pigeons::{Known as Path, Leaves, Unrefuted, beyond, once};
use og_search_refutation::{Multiple, Name, Proof, Tree, assumed_at, branch};
use og_search_rows::{Bounds, Inequality, Place, Rows, Side, Term};
use std::alloc::Global;

/// The greatest value of the lower half, and where it stands that the counter is not above it;
/// which entry is next, those that wait with numbers of the upper half, and those that do not.
#[derive(Drop)]
struct Halves {
    middle: i128,
    counter: Place,
    next: usize,
    high: Vec<Waiting>,
    low: Vec<Listed>,
}

// The two terms, by rising variables, and the constant.
fn form_of(
    alloc: Global,
    first: Term,
    second: Term,
    constant: i128,
) -> Result<Inequality, Unrefuted> {
    let mut form = Inequality::number(alloc, constant);
    let (one, other) = if first.var < second.var {
        (first, second)
    } else {
        (second, first)
    };
    form.terms.push(one)?;
    form.terms.push(other)?;
    Ok(form)
}

impl Refuter<'_, '_, '_> {
    // The form that is at most 0 where the entry waits with a number above the value, and at least
    // 1 where it waits with another one or is through.
    fn above_form(&self, number: usize, value: i128) -> Result<Inequality, Unrefuted> {
        let queue = self.queue;
        let entry = self.entry(number)?;
        let flag = *queue.flags.get(number).ok_or(Unrefuted::Levels)?;
        let flag = Term {
            var: flag,
            coefficient: i128::from(WEIGHT),
        };
        let own = Term {
            var: entry.number,
            coefficient: -1,
        };
        form_of(self.alloc, flag, own, value.saturating_add(1))
    }

    // Refutes the entries so far, if there are too many of either kind.
    fn refute_either(&mut self, level: u32, halves: &Halves) -> Result<Option<Tree>, Unrefuted> {
        let (middle, most) = (halves.middle, self.queue.most);
        if halves.high.len() as i128 > most.saturating_sub(middle) {
            let least = middle.saturating_add(1);
            let values = Values { least, most };
            return Ok(Some(self.refute_pigeons(level, &halves.high, values, None)?));
        }
        if halves.low.len() as i128 > middle.saturating_sub(self.queue.least) {
            return Ok(Some(self.refute_low(level, halves)?));
        }
        Ok(None)
    }

    // Refutes the entries from the next one on, where the counter is in the lower half.
    #[cycle(halves)]
    fn refute_halves(&mut self, level: u32, halves: &mut Halves) -> Result<Tree, Unrefuted> {
        if let Some(tree) = self.refute_either(level, halves)? {
            return Ok(tree);
        }
        let below = level.checked_sub(1).ok_or(Unrefuted::Levels)?;
        let number = halves.next;
        halves.next = number.saturating_add(1);
        let form = self.above_form(number, halves.middle)?;
        let first = self.refute_high(below, halves, number)?;
        let second = self.refute_not_high(below, halves, number)?;
        halves.next = number;
        Ok(branch(self.alloc, below, form, first, second)?)
    }

    // What refutes that an entry does not wait with a number of the upper half, which is the fact
    // at this level.
    #[cycle(halves)]
    fn refute_not_high(
        &mut self,
        level: u32,
        halves: &mut Halves,
        entry: usize,
    ) -> Result<Tree, Unrefuted> {
        let low = Some(assumed_at(level));
        halves.low.push(Listed { entry, low })?;
        let tree = self.refute_halves(level, halves)?;
        halves.low.pop();
        Ok(tree)
    }

    // Refutes the entries that do not wait with numbers of the upper half.
    fn refute_low(&mut self, level: u32, halves: &Halves) -> Result<Tree, Unrefuted> {
        let sets = Sets {
            list: &halves.low,
            known: None,
            most: halves.middle,
            counter: halves.counter,
        };
        self.refute_sets(level, sets, &mut Course::new(self.alloc))
    }

    // Lets an entry wait with a number of the upper half, by the fact at this place, behind those
    // that do, at this level.
    fn join_high(
        &mut self,
        level: u32,
        number: usize,
        fact: Place,
        high: &mut Vec<Waiting>,
    ) -> Result<(), Unrefuted> {
        let low = self.weighted(self.entry(number)?.flag_low);
        let least = vec![in self.alloc; once(fact), low]?;
        self.note_waiting(level, number)?;
        self.stand(level, number, least, high)
    }

    // What refutes that an entry waits with a number of the upper half, at this level, by the fact
    // at this place.
    #[cycle(halves)]
    fn refute_waits_high(
        &mut self,
        level: u32,
        halves: &mut Halves,
        number: usize,
        fact: Place,
    ) -> Result<Tree, Unrefuted> {
        let (count, most) = (halves.high.len(), self.queue.most);
        let last = level.checked_sub(levels_behind(count));
        let last = last.ok_or(Unrefuted::Levels)?;
        self.join_high(level, number, fact, &mut halves.high)?;
        let tree = self.refute_halves(last, halves)?;
        halves.high.truncate(count);
        let facts = self.below_end(number)?;
        self.with_entry(level, number, &halves.high, most, &facts, tree)
    }

    // What refutes that an entry has a number of the upper half and is not through, which is the
    // fact at this level.
    #[cycle(halves)]
    fn refute_high(
        &mut self,
        level: u32,
        halves: &mut Halves,
        number: usize,
    ) -> Result<Tree, Unrefuted> {
        let fact = assumed_at(level);
        let below = level.checked_sub(1).ok_or(Unrefuted::Levels)?;
        let waits = self.refute_waits_high(below, halves, number, fact)?;
        let through = self.refute_through_high(below, number, fact)?;
        self.with_open_entry(below, number, waits, through)
    }

    // What refutes that such an entry is through, at this level, if it may be.
    fn refute_through_high(
        &mut self,
        level: u32,
        number: usize,
        assumed: Place,
    ) -> Result<Option<Tree>, Unrefuted> {
        let entry = self.entry(number)?;
        let State::Open(open_entry) = &entry.state else {
            return Ok(None);
        };
        let index = open_entry.flag;
        let flag = self.weighted(Place { level, index });
        let range = Multiple {
            times: 1,
            name: Name::Range {
                var: entry.number,
                side: Side::Upper,
            },
        };
        let end = vec![in self.alloc; once(assumed), flag, range]?;
        Ok(Some(self.leaves.close(end)?))
    }

    // Refutes all entries, where the counter is above this value by the fact at the place.
    fn refute_above(&mut self, level: u32, middle: i128) -> Result<Tree, Unrefuted> {
        let mut list = Vec::with_capacity(self.alloc, self.queue.entries.len())?;
        for entry in 0..self.queue.entries.len() {
            let low = None;
            list.push(Listed { entry, low })?;
        }
        let sets = Sets {
            list: &list,
            known: Some(Known {
                value: middle.saturating_add(1),
                place: assumed_at(level),
            }),
            most: self.queue.most,
            counter: self.counter,
        };
        self.refute_sets(level, sets, &mut Course::new(self.alloc))
    }

    // Refutes all entries, where the counter is not above this value by the fact at this level.
    fn refute_below(&mut self, level: u32, middle: i128) -> Result<Tree, Unrefuted> {
        let mut halves = Halves {
            middle,
            counter: assumed_at(level),
            next: 0,
            high: Vec::new(self.alloc),
            low: Vec::new(self.alloc),
        };
        self.refute_halves(level, &mut halves)
    }

    // Refutes the queue below this level.
    fn refute(&mut self, level: u32) -> Result<Tree, Unrefuted> {
        let queue = self.queue;
        let half = queue.entries.len() / 2;
        let middle = queue.least.saturating_add(half as i128).saturating_sub(1);
        let least = middle.saturating_add(1);
        let form = beyond(self.alloc, queue.counter, Side::Lower, least)?;
        let first = self.refute_below(level, middle)?;
        let second = self.refute_above(level, middle)?;
        Ok(branch(self.alloc, level, form, first, second)?)
    }
}

// The proof where the variable is at most this value by the assumption at this level.
fn with_most(
    path: &mut Path,
    level: u32,
    var: Var,
    most: i128,
    proof: Proof,
) -> Result<Proof, Unrefuted> {
    let form = beyond(path.rows.alloc(), var, Side::Upper, most)?;
    path.with_bound(form, level, proof)
}

impl Queue {
    // What refutes the queue below the facts that the end and the counter are not above their
    // greatest values.
    fn tree(&self, leaves: &mut Leaves) -> Result<Tree, Unrefuted> {
        let alloc = leaves.alloc();
        let none = Standing {
            waiting: 0,
            ranged: 0,
            above: 0,
            through: None,
        };
        let mut refuter = Refuter {
            alloc,
            queue: self,
            leaves,
            end: assumed_at(lower(self.level, 1)?),
            counter: assumed_at(lower(self.level, 2)?),
            standings: vec![in alloc; none; self.entries.len()]?,
        };
        refuter.refute(lower(self.level, 3)?)
    }

    // The same, with leaves whose size is taken from the room.
    fn tree_within(&self, rows: &mut Rows, room: &mut u64) -> Result<Tree, Unrefuted> {
        let mut leaves = Leaves::new(rows, *room);
        let tree = self.tree(&mut leaves)?;
        *room = leaves.room();
        Ok(tree)
    }

    /// Refutes the queue below its level, where these are the choices and the bounds with which it
    /// was found. Each 16 leaves cost a step of the budget of the rows; the size of the leaves is
    /// taken from the room.
    ///
    /// # Errors
    ///
    /// `Memory`, `Budget`, `Size` where the room is too small, and `Levels`.
    pub fn refute(
        &self,
        rows: &mut Rows,
        open: &[Open],
        bounds: &Bounds,
        room: &mut u64,
    ) -> Result<Proof, Unrefuted> {
        let (of_end, of_counter) = (lower(self.level, 1)?, lower(self.level, 2)?);
        let tree = self.tree_within(rows, room)?;
        let used = self.used;
        let mut path = Path { rows, open, bounds };
        let proof = Proof { used, tree };
        let proof = with_most(&mut path, of_counter, self.counter, self.most, proof)?;
        let most = self.most.saturating_add(1);
        with_most(&mut path, of_end, self.end, most, proof)
    }
}
