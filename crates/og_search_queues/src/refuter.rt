//! What the refutation of a queue is made of: the choices that are narrowed, the bounds that are
//! shown, and the entries that wait.

use crate::narrowing::{Closing, Narrowing, Source, Stage};
use crate::queue::{Entry, Queue, State};
use og_search_pigeons::{Leaves, Member, Order, Pigeons, Unrefuted, beyond, once};
use og_search_refutation::{Case, Multiple, Name, Tree, assumed_at, branch};
use og_search_rows::{Inequality, Place, Side};
use std::alloc::Global;

/// How many levels an entry takes that waits, but for those of its orders.
const LEVELS_OF_ENTRY: usize = 4;

/// How often the fact is taken that a flag is 0, or 1, that the number of its entry does not
/// matter.
pub(crate) const WEIGHT: u64 = i64::MAX as u64;

/// The level of the facts of an entry: those of the part in which it waits, of its range, and that
/// its number is above the counter. Where it is through the fact that its flag is at least 1.
#[derive(Clone, Copy)]
pub(crate) struct Standing {
    pub waiting: u32,
    pub ranged: u32,
    pub above: u32,
    pub through: Option<Place>,
}

/// An entry that waits: the facts from which it follows that its number is not below the least
/// value, the fact that it is not above the greatest, and its orders with those that wait before
/// it.
#[derive(Drop)]
pub(crate) struct Waiting {
    pub entry: usize,
    pub least: Vec<Multiple>,
    pub most: Place,
    pub orders: Vec<Order>,
}

/// The values of numbers.
#[derive(Clone, Copy)]
pub(crate) struct Values {
    pub least: i128,
    pub most: i128,
}

/// The facts known on the path of a refutation.
#[derive(Drop)]
pub(crate) struct Refuter<'q, 'l, 'r> {
    pub alloc: Global,
    pub queue: &'q Queue,
    pub leaves: &'l mut Leaves<'r>,
    /// Where it stands that the end and the counter are not above their greatest values.
    pub end: Place,
    pub counter: Place,
    pub standings: Vec<Standing>,
}

/// The level this many below this one.
pub(crate) fn lower(level: u32, more: usize) -> Result<u32, Unrefuted> {
    let Ok(more) = u32::try_from(more) else {
        return Err(Unrefuted::Levels);
    };
    level.checked_sub(more).ok_or(Unrefuted::Levels)
}

/// How many levels an entry takes behind its first one, where this many wait before it.
pub(crate) fn levels_behind(before: usize) -> u32 {
    let levels = LEVELS_OF_ENTRY.saturating_add(before).saturating_sub(1);
    u32::try_from(levels).unwrap_or(u32::MAX)
}

impl<'q> Refuter<'q, '_, '_> {
    /// The entry with this number.
    pub(crate) fn entry(&self, number: usize) -> Result<&'q Entry, Unrefuted> {
        let queue = self.queue;
        queue.entries.get(number).ok_or(Unrefuted::Levels)
    }

    fn standing(&self, number: usize) -> Result<Standing, Unrefuted> {
        let standing = self.standings.get(number).copied();
        standing.ok_or(Unrefuted::Levels)
    }

    /// Where the fact stands.
    pub(crate) fn place_of(&self, source: Source) -> Result<Place, Unrefuted> {
        let own = match source {
            Source::Path(place) => return Ok(place),
            Source::Own(own) => own,
        };
        let standing = self.standing(own.entry)?;
        let level = match own.stage {
            Stage::Waiting => standing.waiting,
            Stage::Ranged => standing.ranged,
            Stage::Above => standing.above,
        };
        let index = own.index;
        Ok(Place { level, index })
    }

    // The leaf of a part at this level.
    fn closed(&mut self, closing: Closing, level: u32) -> Result<Tree, Unrefuted> {
        let index = closing.index;
        let mut end = Vec::with_capacity(self.alloc, 2)?;
        end.push(once(Place { level, index }))?;
        if let Some(source) = closing.source {
            end.push(once(self.place_of(source)?))?;
        }
        self.leaves.close(end)
    }

    /// All parts of a choice, at this level, where these trees refute those that are left.
    pub(crate) fn split(
        &mut self,
        narrowing: &Narrowing,
        level: u32,
        left: Vec<Tree>,
    ) -> Result<Tree, Unrefuted> {
        let mut left = left.into_iter();
        let mut cases = Vec::with_capacity(self.alloc, narrowing.remainders.len())?;
        for remainder in &narrowing.remainders {
            let tree = match remainder.closing {
                Some(closing) => self.closed(closing, level)?,
                None => left.next().ok_or(Unrefuted::Levels)?,
            };
            let count = remainder.count;
            cases.push(Case { level, count, tree })?;
        }
        let choice = self.place_of(narrowing.choice)?;
        Ok(Tree::Split { choice, cases })
    }

    // Where one part is left.
    fn split_one(
        &mut self,
        narrowing: &Narrowing,
        level: u32,
        tree: Tree,
    ) -> Result<Tree, Unrefuted> {
        let left = vec![in self.alloc; tree]?;
        self.split(narrowing, level, left)
    }

    /// Both sides of a form, where the fact that it is at most 0 is refuted by these facts, and the
    /// tree refutes that it is above 0.
    pub(crate) fn shown(
        &mut self,
        level: u32,
        form: Inequality,
        facts: &[Multiple],
        tree: Tree,
    ) -> Result<Tree, Unrefuted> {
        let mut end = Vec::with_capacity(self.alloc, facts.len().saturating_add(1))?;
        end.push(once(assumed_at(level)))?;
        end.extend_from_slice(facts)?;
        let first = self.leaves.close(end)?;
        Ok(branch(self.alloc, level, form, first, tree)?)
    }

    /// The fact at this place, so often that the number of its entry does not matter.
    pub(crate) fn weighted(&self, place: Place) -> Multiple {
        Multiple {
            times: WEIGHT,
            name: Name::Given(place),
        }
    }

    // The orders of an entry and those that wait before it, which stand at this level and below.
    fn orders(
        &self,
        level: u32,
        number: usize,
        before: &[Waiting],
    ) -> Result<Vec<Order>, Unrefuted> {
        let pairs = self.queue.pairs.get(number).ok_or(Unrefuted::Levels)?;
        let mut orders = Vec::with_capacity(self.alloc, before.len())?;
        for (place, other) in before.iter().enumerate() {
            let pair = pairs.get(other.entry).ok_or(Unrefuted::Levels)?;
            orders.push(Order {
                choice: assumed_at(lower(level, place)?),
                is_less_first: pair.is_less_first,
            })?;
        }
        Ok(orders)
    }

    /// Lets an entry wait behind these, at this level and those below. That its number is not below
    /// the least value follows from these facts.
    pub(crate) fn stand(
        &mut self,
        level: u32,
        number: usize,
        least: Vec<Multiple>,
        group: &mut Vec<Waiting>,
    ) -> Result<(), Unrefuted> {
        let most = assumed_at(lower(level, 3)?);
        let orders = self.orders(lower(level, LEVELS_OF_ENTRY)?, number, group)?;
        group.push(Waiting {
            entry: number,
            least,
            most,
            orders,
        })?;
        Ok(())
    }

    /// Notes at which levels the facts of an entry stand that waits from this level on.
    pub(crate) fn note_waiting(&mut self, level: u32, number: usize) -> Result<(), Unrefuted> {
        let standing = Standing {
            waiting: level,
            ranged: lower(level, 1)?,
            above: lower(level, 2)?,
            through: None,
        };
        if let Some(own) = self.standings.get_mut(number) {
            *own = standing;
        }
        Ok(())
    }

    // The choices of the orders of an entry and those before it, where the tree refutes the part
    // below these.
    fn with_orders(
        &mut self,
        level: u32,
        number: usize,
        before: &[Waiting],
        tree: Tree,
    ) -> Result<Tree, Unrefuted> {
        let queue = self.queue;
        let pairs = queue.pairs.get(number).ok_or(Unrefuted::Levels)?;
        let mut whole = tree;
        for (place, other) in before.iter().enumerate().rev() {
            let pair = pairs.get(other.entry).ok_or(Unrefuted::Levels)?;
            whole = self.split_one(&pair.narrowing, lower(level, place)?, whole)?;
        }
        Ok(whole)
    }

    // The bound that the number of an entry is at most this value, at this level, where the tree
    // refutes below it.
    fn with_most(
        &mut self,
        level: u32,
        entry: &Entry,
        most: i128,
        facts: &[Multiple],
        tree: Tree,
    ) -> Result<Tree, Unrefuted> {
        let form = beyond(self.alloc, entry.number, Side::Upper, most)?;
        self.shown(level, form, facts, tree)
    }

    /// The refutation of the part in which an entry waits, at this level, where the tree refutes
    /// the part below its facts, and these facts refute that its number is above the value.
    pub(crate) fn with_entry(
        &mut self,
        level: u32,
        number: usize,
        before: &[Waiting],
        most: i128,
        facts: &[Multiple],
        tree: Tree,
    ) -> Result<Tree, Unrefuted> {
        let entry = self.entry(number)?;
        let ordered = self.with_orders(lower(level, LEVELS_OF_ENTRY)?, number, before, tree)?;
        let bounded = self.with_most(lower(level, 3)?, entry, most, facts, ordered)?;
        let above = self.split_one(&entry.above, lower(level, 2)?, bounded)?;
        self.split_one(&entry.range, lower(level, 1)?, above)
    }

    /// The choice of whether an entry waits or is through, at this level, where these trees refute
    /// either. The second one is made only where it may be through.
    pub(crate) fn with_open_entry(
        &mut self,
        level: u32,
        number: usize,
        waits: Tree,
        through: Option<Tree>,
    ) -> Result<Tree, Unrefuted> {
        let open_entry = match &self.entry(number)?.state {
            State::Waits => return Ok(waits),
            State::Open(open_entry) => open_entry,
        };
        let through = through.ok_or(Unrefuted::Levels)?;
        let left = if open_entry.is_waiting_first {
            vec![in self.alloc; waits, through]?
        } else {
            vec![in self.alloc; through, waits]?
        };
        self.split(&open_entry.narrowing, level, left)
    }

    /// The facts that the number of an entry is at most the greatest value.
    pub(crate) fn below_end(&self, number: usize) -> Result<Vec<Multiple>, Unrefuted> {
        let standing = self.standing(number)?;
        let high = Place {
            level: standing.ranged,
            index: self.entry(number)?.high,
        };
        Ok(vec![in self.alloc; once(high), once(self.end)]?)
    }

    // The numbers of these entries, which have these values, at this level: the facts that say so
    // stand above it.
    fn pigeons(&self, level: u32, group: &[Waiting], values: Values) -> Result<Pigeons, Unrefuted> {
        let below = lower(level, group.len())?;
        let mut pigeons = Pigeons::new(self.alloc, below, values.least, values.most);
        for (place, one) in group.iter().enumerate() {
            let member = Member {
                var: self.entry(one.entry)?.number,
                least: assumed_at(lower(level, place.saturating_add(1))?),
                most: one.most,
            };
            pigeons.add(member, one.orders.clone()?)?;
        }
        Ok(pigeons)
    }

    // The facts that the number of an entry is not below the least value, with the one at the
    // place.
    fn least_facts(
        &self,
        one: &Waiting,
        counter: Option<Place>,
    ) -> Result<Vec<Multiple>, Unrefuted> {
        let mut facts = one.least.clone()?;
        if let Some(counter) = counter {
            facts.push(once(counter))?;
        }
        Ok(facts)
    }

    // The bound that the number of an entry is not below the least value, at this level, where the
    // tree refutes the part below it.
    fn with_least(
        &mut self,
        level: u32,
        one: &Waiting,
        least: i128,
        counter: Option<Place>,
        tree: Tree,
    ) -> Result<Tree, Unrefuted> {
        let number = self.entry(one.entry)?.number;
        let form = beyond(self.alloc, number, Side::Lower, least)?;
        let facts = self.least_facts(one, counter)?;
        self.shown(level, form, &facts, tree)
    }

    /// What refutes entries that wait and are one more than their numbers have values, below this
    /// level. The fact at the place belongs to those from which it follows that they are not below
    /// the least value.
    pub(crate) fn refute_pigeons(
        &mut self,
        level: u32,
        group: &[Waiting],
        values: Values,
        counter: Option<Place>,
    ) -> Result<Tree, Unrefuted> {
        let pigeons = self.pigeons(level, group, values)?;
        let mut tree = pigeons.tree(self.leaves)?;
        for (place, one) in group.iter().enumerate().rev() {
            let below = lower(level, place.saturating_add(1))?;
            tree = self.with_least(below, one, values.least, counter, tree)?;
        }
        Ok(tree)
    }
}
