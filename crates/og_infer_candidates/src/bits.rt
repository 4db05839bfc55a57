//! Sets of small numbers.

use std::alloc::{AllocError, Global};

/// The bits of a word.
const WORD: u32 = 64;

/// A set of numbers below a limit.
#[derive(Drop)]
pub struct Bits {
    words: Vec<u64>,
}

// The word of a number, and its bit there.
fn place_of(number: u32) -> (usize, u64) {
    ((number / WORD) as usize, 1u64 << (number % 64))
}

impl Bits {
    /// No number, of those below the limit.
    pub(crate) fn none(alloc: Global, limit: u32) -> Result<Bits, AllocError> {
        Ok(Bits {
            words: vec![in alloc; 0u64; limit.div_ceil(WORD) as usize]?,
        })
    }

    /// All numbers below the limit.
    pub(crate) fn all(alloc: Global, limit: u32) -> Result<Bits, AllocError> {
        let mut all = Bits::none(alloc, limit)?;
        for number in 0..limit {
            all.add(number);
        }
        Ok(all)
    }

    /// An equal set.
    pub(crate) fn copy(&self) -> Result<Bits, AllocError> {
        Ok(Bits {
            words: self.words.clone()?,
        })
    }

    /// Whether the number is in the set.
    pub(crate) fn has(&self, number: u32) -> bool {
        let (place, bit) = place_of(number);
        match self.words.get(place) {
            Some(word) => *word & bit != 0,
            None => false,
        }
    }

    /// Adds a number that is below the limit.
    pub(crate) fn add(&mut self, number: u32) {
        let (place, bit) = place_of(number);
        if let Some(word) = self.words.get_mut(place) {
            *word |= bit;
        }
    }

    /// Takes the number out.
    pub(crate) fn remove(&mut self, number: u32) {
        let (place, bit) = place_of(number);
        if let Some(word) = self.words.get_mut(place) {
            *word &= !bit;
        }
    }

    /// Takes all numbers that are not in the other set out. Whether there were some.
    pub(crate) fn keep(&mut self, other: &Bits) -> bool {
        let mut changed = false;
        for (word, kept) in self.words.iter_mut().zip(&other.words) {
            changed |= *word & !*kept != 0;
            *word &= *kept;
        }
        changed
    }

    /// Whether each number is in the other set too.
    pub(crate) fn is_within(&self, other: &Bits) -> bool {
        for (word, all) in self.words.iter().zip(&other.words) {
            if *word & !*all != 0 {
                return false;
            }
        }
        true
    }

    /// Whether the sets have a number in common.
    pub(crate) fn meets(&self, other: &Bits) -> bool {
        for (word, all) in self.words.iter().zip(&other.words) {
            if *word & *all != 0 {
                return true;
            }
        }
        false
    }
}
