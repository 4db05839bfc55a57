//! How often variables occur in rows.

use og_search_rows::{Inequality, Rows};
use std::alloc::AllocError;

/// In how many rows a variable is positive, and in how many negative.
#[derive(Clone, Copy)]
pub(crate) struct Count {
    pub(crate) above: usize,
    pub(crate) below: usize,
}

impl Count {
    const NONE: Count = Count { above: 0, below: 0 };

    /// In how many rows the variable occurs.
    pub(crate) fn both(self) -> usize {
        self.above.saturating_add(self.below)
    }
}

/// The counts of all variables.
#[derive(Drop)]
pub(crate) struct Counts {
    counts: Vec<Count>,
}

impl Counts {
    /// How often each of this many variables occurs in the rows.
    pub(crate) fn of(rows: &Rows, among: &[usize], variables: u32) -> Result<Counts, AllocError> {
        let mut counts = Counts {
            counts: vec![in rows.alloc(); Count::NONE; variables as usize]?,
        };
        for row in among {
            counts.add(rows.form(*row));
        }
        Ok(counts)
    }

    fn add(&mut self, form: &Inequality) {
        for term in &form.terms {
            if let Some(count) = self.counts.get_mut(term.var as usize) {
                if term.coefficient > 0 {
                    count.above = count.above.saturating_add(1);
                } else {
                    count.below = count.below.saturating_add(1);
                }
            }
        }
    }

    pub(crate) fn get(&self, var: u32) -> Count {
        self.counts
            .get(var as usize)
            .copied()
            .unwrap_or(Count::NONE)
    }
}
