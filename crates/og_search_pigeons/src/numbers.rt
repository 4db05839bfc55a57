//! The variables that differ, and those among them that have too few values.

use crate::pairs::Pair;
use og_search_rows::{Bounds, Side};
use std::alloc::{AllocError, Global};

/// The fewest pigeons: fewer numbers are left to the search.
const LEAST: usize = 4;

/// The most pigeons: a refutation of more numbers is too large.
const GREATEST: usize = 10;

/// The most variables that are looked at.
const NUMBERS_LIMIT: usize = 64;

/// A variable within its bounds, its own bit, and the bits of those from which it differs.
#[derive(Clone, Copy)]
struct Number {
    var: u32,
    least: i128,
    most: i128,
    bit: u64,
    others: u64,
}

/// Variables that differ from one another, one more than there are values from the least one to the
/// greatest.
#[derive(Drop)]
pub(crate) struct Excess {
    pub variables: Vec<u32>,
    pub least: i128,
    pub most: i128,
}

/// Variables, with those from which they differ.
#[derive(Drop)]
struct Numbers {
    alloc: Global,
    numbers: Vec<Number>,
}

impl Numbers {
    // The place of a variable.
    fn place(&self, var: u32) -> Option<usize> {
        self.numbers.iter().position(|number| number.var == var)
    }

    // Adds a variable, if it is not there and there is room. Returns its place.
    fn add(&mut self, var: u32, bounds: &Bounds) -> Result<Option<usize>, AllocError> {
        let place = self.place(var);
        let next = self.numbers.len();
        if place.is_some() || next >= NUMBERS_LIMIT {
            return Ok(place);
        }
        self.numbers.push(Number {
            var,
            least: bounds.get(var, Side::Lower).value,
            most: bounds.get(var, Side::Upper).value,
            bit: 1u64.checked_shl(next as u32).unwrap_or(0),
            others: 0,
        })?;
        Ok(Some(next))
    }

    fn bit(&self, place: usize) -> u64 {
        match self.numbers.get(place) {
            Some(number) => number.bit,
            None => 0,
        }
    }

    // Notes that the number at the place differs from those of the bits.
    fn note(&mut self, place: usize, bits: u64) {
        if let Some(number) = self.numbers.get_mut(place) {
            number.others |= bits;
        }
    }

    // Notes that two variables differ.
    fn add_pair(&mut self, pair: Pair, bounds: &Bounds) -> Result<(), AllocError> {
        let first = self.add(pair.first, bounds)?;
        let second = self.add(pair.second, bounds)?;
        if let (Some(first), Some(second)) = (first, second) {
            self.note(first, self.bit(second));
            self.note(second, self.bit(first));
        }
        Ok(())
    }

    // The bits of the first variables within these bounds each of which differs from those before
    // it, this many at most.
    fn different(&self, least: i128, most: i128, size: usize) -> u64 {
        let mut bits = 0u64;
        for number in &self.numbers {
            let is_within = number.least >= least && number.most <= most;
            let is_wanted = is_within && bits & !number.others == 0;
            if is_wanted && (bits.count_ones() as usize) < size {
                bits |= number.bit;
            }
        }
        bits
    }

    // The variables of these bits.
    fn variables(&self, bits: u64) -> Result<Vec<u32>, AllocError> {
        let mut variables = Vec::new(self.alloc);
        for number in &self.numbers {
            if bits & number.bit != 0 {
                variables.push(number.var)?;
            }
        }
        Ok(variables)
    }

    // This many pigeons, if there are that many with this least value.
    fn pigeons_from(&self, least: i128, size: usize) -> Result<Option<Excess>, AllocError> {
        let values = size.saturating_sub(1) as i128;
        let Some(most) = least.saturating_add(values).checked_sub(1) else {
            return Ok(None);
        };
        let bits = self.different(least, most, size);
        if bits.count_ones() as usize != size {
            return Ok(None);
        }
        Ok(Some(Excess {
            variables: self.variables(bits)?,
            least,
            most,
        }))
    }

    // This many pigeons.
    fn pigeons(&self, size: usize) -> Result<Option<Excess>, AllocError> {
        for first in &self.numbers {
            if let Some(pigeons) = self.pigeons_from(first.least, size)? {
                return Ok(Some(pigeons));
            }
        }
        Ok(None)
    }

    // The smallest set of pigeons.
    fn smallest(&self) -> Result<Option<Excess>, AllocError> {
        for size in LEAST..=GREATEST {
            if let Some(pigeons) = self.pigeons(size)? {
                return Ok(Some(pigeons));
            }
        }
        Ok(None)
    }
}

/// The smallest set of pigeons among the variables of these pairs.
pub(crate) fn smallest_excess(
    alloc: Global,
    pairs: &[Pair],
    bounds: &Bounds,
) -> Result<Option<Excess>, AllocError> {
    let mut numbers = Numbers {
        alloc,
        numbers: Vec::new(alloc),
    };
    for pair in pairs {
        numbers.add_pair(*pair, bounds)?;
    }
    numbers.smallest()
}
