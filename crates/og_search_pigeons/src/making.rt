//! The facts that the path lacks: what refutes the other parts of a choice, or the other side of a
//! bound.

use crate::fault::Unrefuted;
use crate::pigeons::{Lemma, Pigeons};
use og_search_choices::{Atom, Cause, Conflict, Open, Part};
use og_search_refutation::{Cases, Proof, both_sides, refute_conflict};
use og_search_rows::{Bounds, Inequality, Place, Rows, Side, Term};
use std::alloc::Global;

/// The facts known on the path: the rows, the choices and the bounds.
#[derive(Drop)]
pub struct Known<'k, 'a> {
    pub rows: &'k mut Rows,
    pub open: &'k [Open<'a>],
    pub bounds: &'k Bounds,
}

impl Known<'_, '_> {
    // What refutes a part whose facts stand at this level, by an inequality that is false within
    // the bounds.
    fn barred(&mut self, part: &Part, level: u32) -> Result<Option<Proof>, Unrefuted> {
        let mut atoms = part.atoms.iter();
        let Some(atom) = atoms.find(|atom| self.bounds.exclude(&atom.form)) else {
            return Ok(None);
        };
        self.beyond(atom, level)
    }

    // What refutes an inequality at this level that is false within the bounds.
    fn beyond(&mut self, atom: &Atom, level: u32) -> Result<Option<Proof>, Unrefuted> {
        let index = atom.index;
        let cause = Cause::Bounds;
        let conflict = Conflict { atom, cause };
        Ok(refute_conflict(self.rows, self.bounds, conflict, Place { level, index })?)
    }

    // The refutation of an open choice, where this is the one of the part that is left.
    fn with_order(
        &mut self,
        choice: Open,
        left: usize,
        level: u32,
        proof: Proof,
    ) -> Result<Proof, Unrefuted> {
        let mut own = Some(proof);
        let mut cases = Cases::new(self.rows.alloc(), choice.place, choice.parts.len())?;
        for (number, part) in choice.parts.iter().enumerate() {
            let proof = if number == left {
                own.take()
            } else {
                self.barred(part, level)?
            };
            cases.add(level, part.count, proof.ok_or(Unrefuted::Levels)?)?;
        }
        Ok(cases.into_proof())
    }

    /// The refutation of both sides of a form, where this is the one of the side on which it is
    /// above 0, and the other side is false within the bounds.
    ///
    /// # Errors
    ///
    /// `Memory`, `Budget`, and `Levels` where the other side is not false.
    pub fn with_bound(
        &mut self,
        form: Inequality,
        level: u32,
        proof: Proof,
    ) -> Result<Proof, Unrefuted> {
        let alloc = self.rows.alloc();
        let atom = Atom {
            index: 0,
            form,
            direction: None,
        };
        let first = self.beyond(&atom, level)?.ok_or(Unrefuted::Levels)?;
        Ok(both_sides(alloc, level, atom.form, None, first, proof)?)
    }
}

/// The form that is at most 0 where the variable is below the value, for the lower side, or above
/// it.
///
/// # Errors
///
/// `Levels` where the constant does not fit, `Memory` where an allocation was refused.
pub fn beyond(alloc: Global, var: u32, side: Side, value: i128) -> Result<Inequality, Unrefuted> {
    let (coefficient, constant) = match side {
        Side::Lower => (1, 1i128.checked_sub(value)),
        Side::Upper => (-1, value.checked_add(1)),
    };
    let constant = constant.ok_or(Unrefuted::Levels)?;
    Ok(Inequality::single(alloc, Term { var, coefficient }, constant)?)
}

impl Pigeons {
    // The refutation above a fact that is made at this level, where this is the one below it.
    fn above(
        &self,
        lemma: Lemma,
        level: u32,
        proof: Proof,
        known: &mut Known,
    ) -> Result<Proof, Unrefuted> {
        known.rows.spend(1)?;
        match lemma {
            Lemma::Order { choice, part } => {
                let choice = known.open.get(choice).copied().ok_or(Unrefuted::Levels)?;
                known.with_order(choice, part, level, proof)
            }
            Lemma::Bound { var, side } => {
                let value = match side {
                    Side::Lower => self.least(),
                    Side::Upper => self.most(),
                };
                let form = beyond(known.rows.alloc(), var, side, value)?;
                known.with_bound(form, level, proof)
            }
        }
    }

    /// The refutation above all facts that are made, where this is the one below them. Each costs a
    /// step of the budget of the rows, and what its own sums cost.
    pub(crate) fn above_all(&self, proof: Proof, known: &mut Known) -> Result<Proof, Unrefuted> {
        let mut whole = proof;
        for (number, lemma) in self.lemmas().iter().enumerate().rev() {
            let level = self.level_of(number).ok_or(Unrefuted::Levels)?;
            whole = self.above(*lemma, level, whole, known)?;
        }
        Ok(whole)
    }
}
