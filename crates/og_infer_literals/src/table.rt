//! The sums and literals of an outline, while they are gathered.

use crate::atom::Atom;
use crate::comparison::{Comparison, Relation};
use crate::room::{Room, count};
use crate::study::Study;
use og_search_rows::Term;
use std::alloc::{AllocError, Global};
use std::collections::BTreeSet;

/// A sum, by its number, and what it is compared with.
#[derive(Clone, Copy)]
pub(crate) struct Literal {
    pub(crate) sum: u32,
    pub(crate) comparison: Comparison,
}

/// A sum with its literals.
#[derive(Drop)]
pub struct Sum {
    pub terms: Vec<Term>,
    /// The literals of it of which clauses are made.
    pub literals: Vec<u32>,
    /// Its bounds that stand alone, rising. Each has two literals: that the sum is at most this
    /// number, and that it is at least this number.
    pub bounds: Vec<i64>,
    // The first literal of these bounds.
    first: u32,
}

impl Sum {
    /// The literal that says that the sum is at most, or at least, the bound at this place.
    pub fn bound_literal(&self, place: usize, relation: Relation) -> Option<u32> {
        let pair = u32::try_from(place).ok()?.checked_mul(2)?;
        let number = self.first.checked_add(pair)?;
        match relation {
            Relation::AtMost => Some(number),
            Relation::AtLeast => number.checked_add(1),
            _ => None,
        }
    }

    /// The place of a bound.
    pub fn bound_place(&self, bound: i64) -> Option<usize> {
        self.bounds.binary_search(&bound).ok()
    }
}

/// The sum with these terms.
pub(crate) fn sum_with<'s>(sums: &'s [Sum], terms: &[Term]) -> Option<&'s Sum> {
    for sum in sums {
        if sum.terms.as_slice() == terms {
            return Some(sum);
        }
    }
    None
}

/// The sums and literals so far.
#[derive(Drop)]
pub(crate) struct Table {
    alloc: Global,
    pub(crate) sums: Vec<Sum>,
    pub(crate) literals: Vec<Literal>,
    room: Room,
}

impl Table {
    pub(crate) fn new(alloc: Global, room: Room) -> Table {
        Table {
            alloc,
            sums: Vec::new(alloc),
            literals: Vec::new(alloc),
            room,
        }
    }

    // The number of a sum.
    fn number(&self, terms: &[Term]) -> Option<u32> {
        for (number, sum) in (0..u32::MAX).zip(&self.sums) {
            if sum.terms.as_slice() == terms {
                return Some(number);
            }
        }
        None
    }

    // The number of a sum, which is added if there is room.
    fn put(&mut self, terms: &[Term]) -> Result<Option<u32>, AllocError> {
        let known = self.number(terms);
        if known.is_some() {
            return Ok(known);
        }
        let next = count(&self.sums);
        if u64::from(next) >= self.room.sums {
            return Ok(None);
        }
        self.sums.push(Sum {
            terms: Vec::from_slice(self.alloc, terms)?,
            literals: Vec::new(self.alloc),
            bounds: Vec::new(self.alloc),
            first: 0,
        })?;
        Ok(Some(next))
    }

    fn is_of(&self, literal: u32, comparison: Comparison) -> bool {
        match self.literals.get(literal as usize) {
            Some(known) => known.comparison == comparison,
            None => false,
        }
    }

    /// The literal of an atom.
    pub(crate) fn find(&self, atom: &Atom) -> Option<u32> {
        let sum = sum_with(&self.sums, &atom.terms)?;
        for literal in &sum.literals {
            if self.is_of(*literal, atom.comparison) {
                return Some(*literal);
            }
        }
        None
    }

    /// Adds the literal of an atom to those of which clauses are made, if there is room.
    pub(crate) fn add(&mut self, atom: &Atom) -> Result<(), AllocError> {
        let number = count(&self.literals);
        if self.find(atom).is_some() || u64::from(number) >= self.room.literals {
            return Ok(());
        }
        let Some(sum) = self.put(&atom.terms)? else {
            return Ok(());
        };
        if let Some(own) = self.sums.get_mut(sum as usize) {
            own.literals.push(number)?;
            let comparison = atom.comparison;
            self.literals.push(Literal { sum, comparison })?;
        }
        Ok(())
    }

    /// Adds the literal of an atom, and that of its negation.
    pub(crate) fn add_both(&mut self, atom: &Atom) -> Result<(), AllocError> {
        self.add(atom)?;
        match atom.negation()? {
            Some(negation) => self.add(&negation),
            None => Ok(()),
        }
    }

    // Adds the bounds among the literals of a sum of which clauses are made.
    fn put_limits(&self, sum: u32, bounds: &mut BTreeSet<i64>) -> Result<(), AllocError> {
        let Some(own) = self.sums.get(sum as usize) else {
            return Ok(());
        };
        for literal in &own.literals {
            if let Some(known) = self.literals.get(*literal as usize) {
                if known.comparison.is_limit() {
                    bounds.insert(known.comparison.bound)?;
                }
            }
        }
        Ok(())
    }

    // Adds the two literals of a bound of a sum.
    fn add_bound(&mut self, sum: u32, bound: i64) -> Result<(), AllocError> {
        for relation in [Relation::AtMost, Relation::AtLeast] {
            let comparison = Comparison { relation, bound };
            self.literals.push(Literal { sum, comparison })?;
        }
        Ok(())
    }

    // Whether the sum has bounds that stand alone.
    fn has_bounds(&self, sum: u32) -> bool {
        match self.sums.get(sum as usize) {
            Some(own) => !own.bounds.is_empty(),
            None => false,
        }
    }

    // Adds the literals of these bounds of a sum. Gives all of them, rising.
    fn add_all(
        &mut self,
        sum: u32,
        bounds: &BTreeSet<i64>,
        wanted: &BTreeSet<i64>,
    ) -> Result<Vec<i64>, AllocError> {
        let mut rising = Vec::new(self.alloc);
        for bound in bounds.union(wanted) {
            self.add_bound(sum, *bound)?;
            rising.push(*bound)?;
        }
        Ok(rising)
    }

    // Gives a sum these bounds that stand alone.
    fn set_bounds(
        &mut self,
        sum: u32,
        bounds: &BTreeSet<i64>,
        wanted: &BTreeSet<i64>,
    ) -> Result<(), AllocError> {
        let first = count(&self.literals);
        let rising = self.add_all(sum, bounds, wanted)?;
        if let Some(own) = self.sums.get_mut(sum as usize) {
            own.bounds = rising;
            own.first = first;
        }
        Ok(())
    }

    /// Adds these bounds of a sum, with its bounds that stand in clauses and as many as this more
    /// from the states, unless it has some. No literal of clauses may be added later.
    pub(crate) fn add_bounds(
        &mut self,
        study: &Study,
        terms: &[Term],
        wanted: &BTreeSet<i64>,
        free: usize,
    ) -> Result<(), AllocError> {
        let Some(sum) = self.put(terms)? else {
            return Ok(());
        };
        if self.has_bounds(sum) {
            return Ok(());
        }
        let mut bounds = study.extremes(terms, free)?;
        self.put_limits(sum, &mut bounds)?;
        self.set_bounds(sum, &bounds, wanted)
    }
}
