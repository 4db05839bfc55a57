//! Numbers by keys, the last that was put first, that are forgotten again in the other order.

use std::alloc::{AllocError, Global};

/// Numbers with their keys, in chains by the last bits of these.
#[derive(Drop)]
pub struct Chains {
    // The last entry of each chain.
    heads: Vec<Option<usize>>,
    // The bits of a key that tell its chain.
    mask: u64,
    entries: Vec<Entry>,
}

// A number with its key, and the entry before it in its chain.
#[derive(Clone, Copy)]
struct Entry {
    key: u64,
    number: usize,
    before: Option<usize>,
}

/// The numbers with a key, the last that was put first.
#[derive(Clone, Copy)]
pub struct Walk<'a> {
    entries: &'a [Entry],
    key: u64,
    next: Option<usize>,
}

// How many chains there are for this many numbers: a power of two, so that a search among few facts
// does not begin with a long table.
fn chains_for(numbers: usize) -> usize {
    if numbers < 64 {
        16
    } else if numbers < 512 {
        128
    } else {
        1024
    }
}

impl Walk<'_> {
    /// The next number, if there is one.
    pub fn step(&mut self) -> Option<usize> {
        for _ in 0..self.entries.len() {
            let entry = *self.entries.get(self.next?)?;
            self.next = entry.before;
            if entry.key == self.key {
                return Some(entry.number);
            }
        }
        None
    }
}

impl Chains {
    /// No numbers, where this many are expected: there may be more.
    pub fn new(alloc: Global, expected: usize) -> Result<Chains, AllocError> {
        let chains = chains_for(expected);
        Ok(Chains {
            heads: vec![in alloc; None; chains]?,
            mask: (chains as u64).saturating_sub(1),
            entries: Vec::with_capacity(alloc, expected)?,
        })
    }

    // The chain of a key.
    fn chain_of(&self, key: u64) -> usize {
        (key & self.mask) as usize
    }

    /// How many numbers there are.
    pub fn len(&self) -> usize {
        self.entries.len()
    }

    /// The numbers with this key.
    pub fn walk(&self, key: u64) -> Walk<'_> {
        Walk {
            entries: &self.entries,
            key,
            next: self.heads.get(self.chain_of(key)).copied().flatten(),
        }
    }

    fn set_head(&mut self, chain: usize, head: Option<usize>) {
        if let Some(place) = self.heads.get_mut(chain) {
            *place = head;
        }
    }

    /// Puts a number under a key.
    pub fn put(&mut self, key: u64, number: usize) -> Result<(), AllocError> {
        let chain = self.chain_of(key);
        let before = self.heads.get(chain).copied().flatten();
        let last = self.entries.len();
        self.entries.push(Entry {
            key,
            number,
            before,
        })?;
        self.set_head(chain, Some(last));
        Ok(())
    }

    /// Forgets all that were put after the first ones, this many.
    pub fn forget(&mut self, from: usize) {
        for _ in from..self.entries.len() {
            if let Some(entry) = self.entries.pop() {
                self.set_head(self.chain_of(entry.key), entry.before);
            }
        }
    }
}
