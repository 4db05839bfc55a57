//! The leaves of inequalities that are at odds with the known facts: directly, where they need no
//! rows but facts and the range of `i64`, and else by rows.

use crate::fault::Unshown;
use crate::leaves::leaf;
use crate::proof::{Multiple, Name, Proof, Tree};
use og_search_choices::{Cause, Conflict};
use og_search_rows::{
    AddError, Added, Bounds, Inequality, Levels, Origin, Place, Rows, Side, TOP, Term,
};
use std::alloc::AllocError;

// What the rows of a sum are taken from.
#[derive(Clone, Copy)]
struct Known<'v> {
    rows: &'v Rows,
    bounds: &'v Bounds,
}

// A sum of facts and ends of the range of `i64`, and the levels of the facts.
#[derive(Drop)]
struct Ending {
    used: Levels,
    end: Vec<Multiple>,
}

impl Ending {
    // Adds this many times the fact that a name stands for.
    fn add(&mut self, name: Name, times: u64) -> Result<bool, AllocError> {
        self.end.push(Multiple { times, name })?;
        Ok(true)
    }

    // Adds the condition's own fact at the place.
    fn add_own(&mut self, index: usize) -> Result<bool, AllocError> {
        let level = TOP;
        self.used = self.used.union(Levels::one(level));
        self.add(Name::Given(Place { level, index }), 1)
    }

    // Adds this many times a row, if that is a fact. Returns whether it was added.
    fn add_row(&mut self, rows: &Rows, row: usize, times: u64) -> Result<bool, AllocError> {
        let Some(Origin::Given(place)) = rows.origin(row) else {
            return Ok(false);
        };
        self.used = self.used.union(rows.used(row));
        self.add(Name::Given(*place), times)
    }

    // Adds the bound by which a term cancels out, if that is a fact or an end of the range. Returns
    // whether it was added.
    fn add_bound(&mut self, known: Known, term: Term) -> Result<bool, AllocError> {
        let Ok(times) = u64::try_from(term.coefficient.unsigned_abs()) else {
            return Ok(false);
        };
        if let Some(row) = known.bounds.least_at(term).row {
            return self.add_row(known.rows, row, times);
        }
        let var = term.var;
        let side = Side::of_least(term.coefficient);
        self.add(Name::Range { var, side }, times)
    }

    // Adds the bounds by which all these terms cancel out. Returns whether they were added.
    fn add_bounds(&mut self, known: Known, terms: &[Term]) -> Result<bool, AllocError> {
        for term in terms {
            if !self.add_bound(known, *term)? {
                return Ok(false);
            }
        }
        Ok(true)
    }

    // Adds a row, and the bounds of the rest of its sum with the inequality. Returns whether they
    // were added.
    fn add_pair(
        &mut self,
        known: Known,
        row: usize,
        form: &Inequality,
    ) -> Result<bool, AllocError> {
        if !self.add_row(known.rows, row, 1)? {
            return Ok(false);
        }
        let other = known.rows.form(row);
        if other.is_opposite(form) {
            return Ok(true);
        }
        match Inequality::sum(known.rows.alloc(), other.times(1), form.times(1))? {
            Some(rest) => self.add_bounds(known, &rest.terms),
            None => Ok(false),
        }
    }

    // Adds what an inequality is at odds with. Returns whether it was added.
    fn add_conflict(&mut self, known: Known, conflict: Conflict) -> Result<bool, AllocError> {
        let form = &conflict.atom.form;
        if form.is_large() {
            return Ok(false);
        }
        match conflict.cause {
            Cause::Fact(index) => self.add_own(index),
            Cause::Bounds => self.add_bounds(known, &form.terms),
            Cause::Row(row) => self.add_pair(known, row, form),
        }
    }
}

// The leaf of a conflict at this place, where it needs no rows but facts, and no number is too large.
fn closing(
    rows: &Rows,
    bounds: &Bounds,
    conflict: Conflict,
    place: Place,
) -> Result<Option<Proof>, AllocError> {
    let alloc = rows.alloc();
    let mut sum = Ending {
        used: Levels::one(place.level),
        end: Vec::with_capacity(alloc, 2)?,
    };
    if !sum.add_conflict(Known { rows, bounds }, conflict)? {
        return Ok(None);
    }
    sum.add(Name::Given(place), 1)?;
    let Ending { used, end } = sum;
    let lines = Vec::new(alloc);
    let tree = Tree::Leaf { lines, end };
    Ok(Some(Proof { used, tree }))
}

// Adds the inequality of a conflict at this place, and the sum that shows it.
fn meet(
    rows: &mut Rows,
    bounds: &Bounds,
    conflict: Conflict,
    place: Place,
) -> Result<(), AddError> {
    if let Added::Row(row) = rows.add_fact(&conflict.atom.form, place)? {
        match conflict.cause {
            Cause::Fact(_) | Cause::Bounds => rows.add_with_bounds(row, None, bounds)?,
            Cause::Row(other) => rows.add_pair(other, row, bounds)?,
        };
    }
    Ok(())
}

// The leaf of a conflict at this place by rows, if its sum is a contradiction. The rows stay.
fn by_rows(
    rows: &mut Rows,
    bounds: &Bounds,
    conflict: Conflict,
    place: Place,
) -> Result<Option<Proof>, Unshown> {
    match meet(rows, bounds, conflict, place) {
        Ok(()) => Ok(None),
        Err(AddError::Contradiction(row)) => Ok(Some(leaf(rows, row)?)),
        Err(AddError::Memory) => Err(Unshown::Memory),
        Err(AddError::Budget) => Err(Unshown::Budget),
    }
}

/// The leaf of a conflict at this place, if its sum is a contradiction and no number is too large. The
/// rows are as they were, but for the steps spent.
///
/// # Errors
///
/// `Memory`, `Budget`, and `TooLarge` where a number of the leaf is; then there may be rows more.
pub fn refute_conflict(
    rows: &mut Rows,
    bounds: &Bounds,
    conflict: Conflict,
    place: Place,
) -> Result<Option<Proof>, Unshown> {
    if let Some(proof) = closing(rows, bounds, conflict, place)? {
        return Ok(Some(proof));
    }
    let mark = rows.len();
    let proof = by_rows(rows, bounds, conflict, place)?;
    rows.forget(mark);
    Ok(proof)
}
