//! The clauses of three literals that were true of all states of a place.

use crate::bits::Bits;
use crate::universe::Universe;
use std::alloc::{AllocError, Global};
use std::cmp::Ordering;

/// How many states, at most, the clauses are made of; those that others refute go.
const MOST_STATES: usize = 200;

/// Three literals, rising.
#[derive(Clone, Copy, PartialEq, Eq)]
pub(crate) struct Triple {
    low: u32,
    middle: u32,
    high: u32,
}

impl Triple {
    /// These three, of which no two are equal.
    pub(crate) fn of(first: u32, second: u32, third: u32) -> Triple {
        let low = first.min(second).min(third);
        let high = first.max(second).max(third);
        let middle = first ^ second ^ third ^ low ^ high;
        Triple { low, middle, high }
    }

    /// One of the literals is true.
    pub(crate) fn is_true(self, mask: &Bits) -> bool {
        mask.has(self.low) || mask.has(self.middle) || mask.has(self.high)
    }

    // One of the literals is true in each of these states.
    fn is_true_of_all(self, states: &[Bits]) -> bool {
        for mask in states {
            if !self.is_true(mask) {
                return false;
            }
        }
        true
    }

    /// The literals, rising.
    pub(crate) fn literals(self) -> (u32, u32, u32) {
        (self.low, self.middle, self.high)
    }

    // A number for each, by which they are in order.
    fn key(self) -> u128 {
        u128::from(self.low) << 64 | u128::from(self.middle) << 32 | u128::from(self.high)
    }
}

/// Whether the triple is among these, which rise.
pub(crate) fn is_among(rising: &[Triple], wanted: Triple) -> bool {
    let place = rising.partition_point(|triple| triple.key() < wanted.key());
    rising.get(place) == Some(&wanted)
}

// The order of two of them.
fn order_of(first: &Triple, second: &Triple) -> Ordering {
    first.key().cmp(&second.key())
}

/// The same in rising order.
pub(crate) fn in_order(alloc: Global, triples: &[Triple]) -> Result<Vec<Triple>, AllocError> {
    let mut rising = Vec::from_slice(alloc, triples)?;
    rising.sort_unstable_by(order_of);
    Ok(rising)
}

/// The literals, and the clauses of two of them that were true.
#[derive(Clone, Copy)]
pub(crate) struct Ground<'a> {
    pub(crate) universe: &'a Universe,
    pub(crate) pairs: &'a [Bits],
}

impl Ground<'_> {
    // Whether a clause may have these two literals together, and has to have a third one.
    fn lacks(self, first: u32, second: u32) -> bool {
        let may = matches!(self.universe.partners(first), Some(all) if all.has(second));
        let is_clause = matches!(self.pairs.get(first as usize), Some(row) if row.has(second));
        may && !is_clause
    }

    // Adds the clauses of these two literals and one of the others from that one on, as long as
    // there is room.
    fn add_thirds(
        self,
        first: u32,
        second: u32,
        from: u32,
        thirds: &Bits,
        triples: &mut Vec<Triple>,
    ) -> Result<(), AllocError> {
        for third in from..self.universe.literals.clausal {
            let is_clause = thirds.has(third)
                && self.lacks(first, third)
                && self.lacks(second, third);
            if is_clause && triples.len() < self.universe.most_triples() {
                triples.push(Triple::of(first, second, third))?;
            }
        }
        Ok(())
    }

    // Adds those of a literal and two above it that are true of these states, in which it is false.
    fn add_above(
        self,
        first: u32,
        states: &[&Bits],
        triples: &mut Vec<Triple>,
    ) -> Result<(), AllocError> {
        for second in first.saturating_add(1)..self.universe.literals.clausal {
            if self.lacks(first, second) {
                let thirds = self.common(second, states, triples)?;
                self.add_thirds(first, second, second.saturating_add(1), &thirds, triples)?;
            }
        }
        Ok(())
    }

    // The literals that are true in all of these states in which this one is false.
    fn common(
        self,
        literal: u32,
        states: &[&Bits],
        triples: &Vec<Triple>,
    ) -> Result<Bits, AllocError> {
        let mut common = Bits::all(*triples.allocator(), self.universe.literals.clausal)?;
        for mask in states {
            if !mask.has(literal) {
                let _ = common.keep(mask);
            }
        }
        Ok(common)
    }

    // All that are true of these states.
    fn of_states(self, alloc: Global, states: &[Bits]) -> Result<Vec<Triple>, AllocError> {
        let mut triples = Vec::new(alloc);
        for first in 0..self.universe.literals.clausal {
            let refuting = refuting(alloc, states, first)?;
            self.add_above(first, &refuting, &mut triples)?;
        }
        Ok(triples)
    }

    /// The clauses of three literals, no two of which are one, that are true of these states, as
    /// many as there is room for.
    pub(crate) fn triples(self, alloc: Global, states: &[Bits]) -> Result<Vec<Triple>, AllocError> {
        let first = states.get(..states.len().min(MOST_STATES)).unwrap_or(&[]);
        let mut triples = self.of_states(alloc, first)?;
        triples.retain(|triple| triple.is_true_of_all(states));
        Ok(triples)
    }

    /// Adds those clauses of three literals that the state leaves of a clause of this literal, which
    /// is false in it, and another one.
    pub(crate) fn add_widened(
        self,
        first: u32,
        mask: &Bits,
        triples: &mut Vec<Triple>,
    ) -> Result<(), AllocError> {
        for second in first.saturating_add(1)..self.universe.literals.clausal {
            let was_clause = matches!(self.pairs.get(first as usize), Some(row) if row.has(second));
            if was_clause && !mask.has(second) {
                self.add_thirds(first, second, 0, mask, triples)?;
            }
        }
        Ok(())
    }
}

// The states in which the literal is false.
fn refuting(alloc: Global, states: &[Bits], literal: u32) -> Result<Vec<&Bits>, AllocError> {
    let mut refuting = Vec::new(alloc);
    for mask in states {
        if !mask.has(literal) {
            refuting.push(mask)?;
        }
    }
    Ok(refuting)
}
