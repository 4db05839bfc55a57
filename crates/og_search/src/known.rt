//! The facts known on the path of a search: rows, those of several variables by their terms.

use crate::stop::Halt;
use og_search_choices::{Atom, Index, Part};
use og_search_elimination::{close_within, note_bound};
use og_search_rows::{Added, Bounds, Inequality, Place, Rows, Variables};
use std::alloc::{AllocError, Global};

/// The rows of a search.
#[derive(Drop)]
pub(crate) struct KnownRows {
    pub(crate) rows: Rows,
    // The rows of the facts on the path.
    pub(crate) base: Vec<usize>,
    // Those of several variables.
    pub(crate) index: Index,
}

/// How many rows are known.
#[derive(Clone, Copy)]
pub(crate) struct Extent {
    rows: usize,
    base: usize,
    index: usize,
}

impl KnownRows {
    /// Nothing, within the budget, where this many facts are expected.
    pub(crate) fn new(
        alloc: Global,
        budget: u64,
        expected: usize,
    ) -> Result<KnownRows, AllocError> {
        Ok(KnownRows {
            rows: Rows::new(alloc, budget),
            base: Vec::new(alloc),
            index: Index::new(alloc, expected)?,
        })
    }

    pub(crate) fn extent(&self) -> Extent {
        Extent {
            rows: self.rows.len(),
            base: self.base.len(),
            index: self.index.len(),
        }
    }

    /// Forgets all but what was known then.
    pub(crate) fn forget(&mut self, from: Extent) {
        self.index.forget(from.index);
        self.rows.forget(from.rows);
        self.base.truncate(from.base);
    }

    /// Adds a fact as a row.
    pub(crate) fn take_atom(
        &mut self,
        form: &Inequality,
        place: Place,
        bounds: &mut Bounds,
    ) -> Result<(), Halt> {
        match self.rows.add_fact(form, place)? {
            Added::Nothing => Ok(()),
            Added::Row(row) => {
                self.base.push(row)?;
                self.index.put(&self.rows, row)?;
                note_bound(&mut self.rows, row, bounds)?;
                Ok(())
            }
        }
    }

    // Whether a fact says as much as the inequality, or a row that is a sum of one.
    fn is_known(&self, atom: &Atom, bounds: &Bounds) -> bool {
        if atom.form.terms.len() == 1 {
            let row = bounds.implied_by(&atom.form);
            return matches!(row, Some(row) if self.rows.is_fact(row));
        }
        match atom.direction {
            Some(direction) => self.index.implies(&self.rows, &atom.form, direction),
            None => false,
        }
    }

    /// Takes in the inequalities of a part that are not known. Returns how many.
    pub(crate) fn take_atoms(
        &mut self,
        part: &Part,
        level: u32,
        bounds: &mut Bounds,
    ) -> Result<usize, Halt> {
        let mut taken = 0usize;
        for atom in &part.atoms {
            if !self.is_known(atom, bounds) {
                let index = atom.index;
                self.take_atom(&atom.form, Place { level, index }, bounds)?;
                taken = taken.saturating_add(1);
            }
        }
        Ok(taken)
    }

    /// Looks for a contradiction within the bounds, in each of the facts from this one on.
    pub(crate) fn close_new(&mut self, from: usize, bounds: &Bounds) -> Result<(), Halt> {
        for row in self.base.iter().skip(from) {
            close_within(&mut self.rows, *row, bounds)?;
        }
        Ok(())
    }

    /// The variables of the facts of several variables from this one on.
    pub(crate) fn variables_from(&self, from: usize) -> Variables {
        let mut all = Variables::NONE;
        for row in self.base.iter().skip(from) {
            all = all.union(Variables::of(&self.rows.form(*row).terms));
        }
        all
    }
}
