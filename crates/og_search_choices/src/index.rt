//! The rows of several variables on the path of a search, by the directions of their terms.

use crate::chains::Chains;
use og_search_rows::{Inequality, Rows};
use std::alloc::{AllocError, Global};

/// Rows by their directions. Of rows with the same terms those that come later are tighter.
#[derive(Drop)]
pub struct Index {
    chains: Chains,
}

impl Index {
    /// No rows, where this many are expected.
    pub fn new(alloc: Global, expected: usize) -> Result<Index, AllocError> {
        Ok(Index {
            chains: Chains::new(alloc, expected)?,
        })
    }

    /// How many rows there are.
    pub fn len(&self) -> usize {
        self.chains.len()
    }

    /// Forgets the rows from this one on, counted as they were taken in.
    pub fn forget(&mut self, from: usize) {
        self.chains.forget(from);
    }

    // The tightest row with these terms of this direction.
    fn parallel(&self, rows: &Rows, form: &Inequality, direction: u64) -> Option<usize> {
        let mut walk = self.chains.walk(direction);
        for _ in 0..self.chains.len() {
            let row = walk.step()?;
            if rows.form(row).is_parallel(form) {
                return Some(row);
            }
        }
        None
    }

    /// The tightest row with these terms of this direction, their sign changed.
    pub fn opposite(&self, rows: &Rows, form: &Inequality, direction: u64) -> Option<usize> {
        let mut walk = self.chains.walk(direction);
        for _ in 0..self.chains.len() {
            let row = walk.step()?;
            if rows.form(row).is_opposite(form) {
                return Some(row);
            }
        }
        None
    }

    /// Whether there is a row with these terms of this direction that is as tight.
    pub fn implies(&self, rows: &Rows, form: &Inequality, direction: u64) -> bool {
        match self.parallel(rows, form, direction) {
            Some(row) => rows.form(row).constant >= form.constant,
            None => false,
        }
    }

    /// Takes a row in, unless it has one variable, or there is one with the same terms as tight.
    pub fn put(&mut self, rows: &Rows, row: usize) -> Result<(), AllocError> {
        let form = rows.form(row);
        let direction = rows.direction(row);
        if form.terms.len() < 2 || self.implies(rows, form, direction) {
            return Ok(());
        }
        self.chains.put(direction, row)
    }
}
