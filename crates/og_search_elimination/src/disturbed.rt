//! The rows that have to do with one that is false of some values.

use og_search_rows::{Inequality, Model, Rows};
use std::alloc::AllocError;

/// For each variable whether a row that was met has it.
#[derive(Drop)]
struct Met {
    variables: Vec<bool>,
}

impl Met {
    // Whether a row that was met has a variable of the form.
    fn touches(&self, form: &Inequality) -> bool {
        let mut terms = form.terms.iter();
        terms.any(|term| matches!(self.variables.get(term.var as usize), Some(true)))
    }

    fn add(&mut self, form: &Inequality) {
        for term in &form.terms {
            if let Some(is_met) = self.variables.get_mut(term.var as usize) {
                *is_met = true;
            }
        }
    }

    // Meets the rows that are false of the values.
    fn add_false(&mut self, rows: &Rows, among: &[usize], values: &Model) {
        for row in among {
            let form = rows.form(*row);
            if !form.holds(values) {
                self.add(form);
            }
        }
    }

    // Meets those of the rows that share a variable with one that was met before. Gives the others.
    fn add_touched(&mut self, rows: &Rows, among: &[usize]) -> Result<Vec<usize>, AllocError> {
        let mut others = Vec::with_capacity(rows.alloc(), among.len())?;
        for row in among {
            let form = rows.form(*row);
            if self.touches(form) {
                self.add(form);
            } else {
                others.push(*row)?;
            }
        }
        Ok(others)
    }

    // Meets rows until each of the others shares no variable with one that was met.
    fn spread(&mut self, rows: &Rows, among: &[usize]) -> Result<(), AllocError> {
        let mut others = self.add_touched(rows, among)?;
        for _ in 0..among.len() {
            let left = self.add_touched(rows, &others)?;
            if left.len() == others.len() {
                break;
            }
            others = left;
        }
        Ok(())
    }
}

/// Those of the rows that are false of the values, or share one of this many variables with a row
/// that is among these: the others hold, whatever becomes of the variables of these. In their
/// order. `AllocError` where an allocation was refused.
pub(crate) fn disturbed(
    rows: &Rows,
    among: &[usize],
    values: &Model,
    variables: u32,
) -> Result<Vec<usize>, AllocError> {
    let mut met = Met {
        variables: vec![in rows.alloc(); false; variables as usize]?,
    };
    met.add_false(rows, among, values);
    met.spread(rows, among)?;
    let mut disturbed = Vec::with_capacity(rows.alloc(), among.len())?;
    for row in among {
        if met.touches(rows.form(*row)) {
            disturbed.push(*row)?;
        }
    }
    Ok(disturbed)
}
