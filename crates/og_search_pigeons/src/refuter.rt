//! The refutation of pigeons: more different numbers than there are values.
//!
//! Up to four numbers are put in order, one after the other: each order has a chain that is longer
//! than the values. Of more numbers each is taken to be in the lower half of the values or in the
//! upper one, until one more is in a half than that has values; then these are refuted alone.

use crate::fault::Unrefuted;
use crate::leaves::{Leaves, once};
use crate::making::Known;
use crate::pigeons::{Member, Order, Pigeons};
use og_search_choices::Open;
use og_search_refutation::{Case, Proof, Tree, assumed_at, branch};
use og_search_rows::{Bounds, Inequality, Place, Rows, Term};
use std::alloc::{AllocError, Global};

/// The most numbers that are put in order.
const ORDER_LIMIT: usize = 4;

/// A number in a chain, and the fact that the one before it in the chain is less, if there is one.
#[derive(Clone, Copy)]
struct Link {
    member: usize,
    fact: Option<Place>,
}

/// Numbers that are put in order: those of the list up to the next one are in the chain.
#[derive(Clone, Copy)]
struct Ordering<'v> {
    list: &'v [usize],
    next: usize,
    chain: &'v [Link],
}

/// A half of the values.
#[derive(Clone, Copy)]
enum Half {
    Lower,
    Upper,
}

/// Numbers that are one more than there are values from the least one on, and those of the list up
/// to the next one, by the half of the values in which each is taken to be.
#[derive(Drop)]
struct Sorting<'v> {
    list: &'v [usize],
    least: i128,
    // The greatest value of the lower half.
    middle: i128,
    // How many values each half has.
    lower: usize,
    upper: usize,
    low: Vec<usize>,
    high: Vec<usize>,
}

/// The facts known of the numbers on the path of a refutation.
#[derive(Drop)]
struct Refuter<'a, 'r> {
    alloc: Global,
    pigeons: &'a Pigeons,
    leaves: &'a mut Leaves<'r>,
    // The numbers, each with its tightest bounds.
    members: Vec<Member>,
}

impl<'v> Sorting<'v> {
    // None of the numbers is taken to be in a half.
    fn new(alloc: Global, list: &'v [usize], least: i128) -> Result<Sorting<'v>, Unrefuted> {
        let values = list.len().checked_sub(1).ok_or(Unrefuted::Levels)?;
        let lower = values / 2;
        let end = least.checked_add(lower as i128);
        let middle = end.and_then(|end| end.checked_sub(1));
        Ok(Sorting {
            list,
            least,
            middle: middle.ok_or(Unrefuted::Levels)?,
            lower,
            upper: values.saturating_sub(lower),
            low: Vec::with_capacity(alloc, list.len())?,
            high: Vec::with_capacity(alloc, list.len())?,
        })
    }

    // Those in a half that are more than its values, and the least of these values.
    fn excess(&self) -> Option<(&[usize], i128)> {
        if self.low.len() > self.lower {
            return Some((&self.low, self.least));
        }
        if self.high.len() > self.upper {
            return Some((&self.high, self.middle.saturating_add(1)));
        }
        None
    }

    // The next number of the list.
    fn next(&self) -> Option<usize> {
        let next = self.low.len().saturating_add(self.high.len());
        self.list.get(next).copied()
    }

    // Takes a number to be in a half.
    fn add(&mut self, half: Half, number: usize) -> Result<(), AllocError> {
        match half {
            Half::Lower => self.low.push(number)?,
            Half::Upper => self.high.push(number)?,
        }
        Ok(())
    }

    // Takes the last number of a half to be in neither.
    fn remove(&mut self, half: Half) {
        let _ = match half {
            Half::Lower => self.low.pop(),
            Half::Upper => self.high.pop(),
        };
    }
}

// The chain with a number at this place, where a fact says that the one behind it is greater.
fn with_link(
    alloc: Global,
    chain: &[Link],
    at: usize,
    link: Link,
    after: Option<Place>,
) -> Result<Vec<Link>, AllocError> {
    let mut links = Vec::with_capacity(alloc, chain.len().saturating_add(1))?;
    for old in chain {
        links.push(*old)?;
    }
    match links.get_mut(at) {
        Some(behind) => {
            behind.fact = after;
            links.insert(at, link)?;
        }
        None => links.push(link)?,
    }
    Ok(links)
}

// A part with one fact, at this level.
fn case(level: u32, tree: Tree) -> Case {
    Case {
        level,
        count: 1,
        tree,
    }
}

// Both parts of the order of two numbers, where these trees refute that the one is less, and that
// it is greater.
fn split(
    alloc: Global,
    order: Order,
    level: u32,
    less: Tree,
    greater: Tree,
) -> Result<Tree, AllocError> {
    let (first, second) = if order.is_less_first {
        (less, greater)
    } else {
        (greater, less)
    };
    Ok(Tree::Split {
        choice: order.choice,
        cases: vec![in alloc; case(level, first), case(level, second)]?,
    })
}

impl Refuter<'_, '_> {
    fn member(&self, place: usize) -> Result<Member, Unrefuted> {
        self.members.get(place).copied().ok_or(Unrefuted::Levels)
    }

    // The leaf of a chain that is longer than the values.
    fn close_chain(&mut self, chain: &[Link]) -> Result<Tree, Unrefuted> {
        let first = chain.first().ok_or(Unrefuted::Levels)?;
        let last = chain.last().ok_or(Unrefuted::Levels)?;
        let mut end = Vec::with_capacity(self.alloc, chain.len().saturating_add(1))?;
        end.push(once(self.member(first.member)?.least))?;
        for link in chain {
            if let Some(place) = link.fact {
                end.push(once(place))?;
            }
        }
        end.push(once(self.member(last.member)?.most))?;
        self.leaves.close(end)
    }

    // Puts the next number of the list into the chain, if there is one.
    #[cycle(ordering)]
    fn grow(&mut self, level: u32, ordering: Ordering) -> Result<Tree, Unrefuted> {
        match ordering.list.get(ordering.next) {
            Some(member) => self.insert(level, ordering, *member, 0, None),
            None => self.close_chain(ordering.chain),
        }
    }

    // Goes on with the number at this place of the chain.
    #[cycle(ordering)]
    fn put(
        &mut self,
        level: u32,
        ordering: Ordering,
        at: usize,
        link: Link,
        after: Option<Place>,
    ) -> Result<Tree, Unrefuted> {
        let chain = with_link(self.alloc, ordering.chain, at, link, after)?;
        let next = ordering.next.saturating_add(1);
        let list = ordering.list;
        self.grow(
            level,
            Ordering {
                list,
                next,
                chain: &chain,
            },
        )
    }

    // Puts a number into the chain at this place or behind it, where a fact says that it is greater
    // than the one before the place.
    #[cycle(ordering)]
    fn insert(
        &mut self,
        level: u32,
        ordering: Ordering,
        member: usize,
        at: usize,
        fact: Option<Place>,
    ) -> Result<Tree, Unrefuted> {
        let below = level.checked_sub(1).ok_or(Unrefuted::Levels)?;
        let link = Link { member, fact };
        let Some(behind) = ordering.chain.get(at) else {
            return self.put(below, ordering, at, link, None);
        };
        let order = self.pigeons.order(member, behind.member);
        let order = order.ok_or(Unrefuted::Levels)?;
        let assumed = Some(assumed_at(below));
        let less = self.put(below, ordering, at, link, assumed)?;
        let greater = self.insert(below, ordering, member, at.saturating_add(1), assumed)?;
        Ok(split(self.alloc, order, below, less, greater)?)
    }

    // Sets the bounds of a number.
    fn set(&mut self, place: usize, member: Member) {
        if let Some(own) = self.members.get_mut(place) {
            *own = member;
        }
    }

    // Refutes one number more than there are values from the least one on.
    #[cycle(halving)]
    fn refute(&mut self, level: u32, list: &[usize], least: i128) -> Result<Tree, Unrefuted> {
        if list.len() > ORDER_LIMIT {
            let mut sorting = Sorting::new(self.alloc, list, least)?;
            return self.halve(level, &mut sorting);
        }
        let chain: &[Link] = &[];
        let next = 0;
        self.grow(level, Ordering { list, next, chain })
    }

    // Refutes those of the numbers in a half that are one more than its values, if this many are
    // there; else takes the next number to be in either half.
    #[cycle(halving)]
    fn halve(&mut self, level: u32, sorting: &mut Sorting) -> Result<Tree, Unrefuted> {
        let below = level.checked_sub(1).ok_or(Unrefuted::Levels)?;
        if let Some((list, least)) = sorting.excess() {
            return self.refute(below, list, least);
        }
        let number = sorting.next().ok_or(Unrefuted::Levels)?;
        let own = self.member(number)?;
        let form = self.at_most(own.var, sorting.middle)?;
        let first = self.refute_in(below, number, Half::Lower, sorting)?;
        let second = self.refute_in(below, number, Half::Upper, sorting)?;
        Ok(branch(self.alloc, below, form, first, second)?)
    }

    // Sets the bound that a number has in a half, as it is assumed at this level.
    fn assume(&mut self, level: u32, number: usize, own: Member, half: Half) {
        let bounded = match half {
            Half::Lower => own.with_most(assumed_at(level)),
            Half::Upper => own.with_least(assumed_at(level)),
        };
        self.set(number, bounded);
    }

    // Refutes that a number is in a half.
    #[cycle(halving)]
    fn refute_in(
        &mut self,
        level: u32,
        number: usize,
        half: Half,
        sorting: &mut Sorting,
    ) -> Result<Tree, Unrefuted> {
        let own = self.member(number)?;
        self.assume(level, number, own, half);
        sorting.add(half, number)?;
        let tree = self.halve(level, sorting)?;
        sorting.remove(half);
        self.set(number, own);
        Ok(tree)
    }

    // The form that is at most 0 where the variable is not above the value.
    fn at_most(&self, var: u32, value: i128) -> Result<Inequality, Unrefuted> {
        let constant = value.checked_neg().ok_or(Unrefuted::Levels)?;
        let coefficient = 1;
        Ok(Inequality::single(self.alloc, Term { var, coefficient }, constant)?)
    }
}

impl Pigeons {
    /// What refutes the numbers below all facts that are made.
    ///
    /// # Errors
    ///
    /// `Memory`, `Budget`, `Size` where the room of the leaves is too small, and `Levels`.
    pub fn tree(&self, leaves: &mut Leaves) -> Result<Tree, Unrefuted> {
        let alloc = leaves.alloc();
        let count = self.members().len();
        let level = self.level_of(self.lemmas().len());
        let level = level.ok_or(Unrefuted::Levels)?.saturating_add(1);
        let mut list = Vec::with_capacity(alloc, count)?;
        for place in 0..count {
            list.push(place)?;
        }
        let mut refuter = Refuter {
            alloc,
            pigeons: self,
            leaves,
            members: self.copied_members()?,
        };
        refuter.refute(level, &list, self.least())
    }

    /// Refutes the pigeons below their level, where these are the choices and the bounds with which
    /// they were found. Each 16 leaves cost a step of the budget of the rows, and each fact that is
    /// made one and what its own sums cost; the size of the leaves is taken from the room.
    ///
    /// # Errors
    ///
    /// `Memory`, `Budget`, `Size` where the room is too small, and `Levels`.
    pub fn refute(
        &self,
        rows: &mut Rows,
        open: &[Open],
        bounds: &Bounds,
        room: &mut u64,
    ) -> Result<Proof, Unrefuted> {
        let mut leaves = Leaves::new(rows, *room);
        let tree = self.tree(&mut leaves)?;
        *room = leaves.room();
        let used = self.used();
        self.above_all(Proof { used, tree }, &mut Known { rows, open, bounds })
    }
}
