//! Answers that were found before they were wanted.

use std::alloc::{AllocError, Global};

// An answer, and to what.
#[derive(Drop)]
struct Found<K, A> {
    key: K,
    answer: A,
}

/// Answers that were found before they were wanted, at most one to each key.
#[derive(Drop)]
pub struct Foreseen<K, A> {
    all: Vec<Found<K, A>>,
}

impl<K: Copy + PartialEq, A: Drop> Foreseen<K, A> {
    /// None so far.
    pub fn new(alloc: Global) -> Foreseen<K, A> {
        Foreseen {
            all: Vec::new(alloc),
        }
    }

    /// How many there are.
    pub fn len(&self) -> usize {
        self.all.len()
    }

    // Where the answer to this key stands.
    fn find(&self, key: K) -> Option<usize> {
        for (at, found) in self.all.iter().enumerate() {
            if found.key == key {
                return Some(at);
            }
        }
        None
    }

    /// The answer to this key.
    pub fn get(&self, key: K) -> Option<&A> {
        let at = self.find(key)?;
        match self.all.get(at) {
            Some(found) => Some(&found.answer),
            None => None,
        }
    }

    /// Takes the answer to this key out.
    pub fn take(&mut self, key: K) -> Option<A> {
        let at = self.find(key)?;
        if at < self.all.len() {
            let Found { answer, .. } = self.all.swap_remove(at);
            Some(answer)
        } else {
            None
        }
    }

    /// Takes some answer out, with its key.
    pub fn pop(&mut self) -> Option<(K, A)> {
        let Found { key, answer } = self.all.pop()?;
        Some((key, answer))
    }

    /// Adds the answer to this key, in place of what was found before.
    pub fn add(&mut self, key: K, answer: A) -> Result<(), AllocError> {
        let _ = self.take(key);
        self.all.push(Found { key, answer })?;
        Ok(())
    }
}
