//! The memory of rows that were forgotten, for the next ones.

ghost use Rattle.std.specs.Prelude.{◌≡◌, [], IfOk};

use crate::inequality::Term;
use crate::rows::{Origin, Row, Summand};
use std::alloc::{AllocError, Global};

/// The memory of rows that were forgotten: of their terms, and of the sums that they were.
#[derive(Drop)]
pub(crate) struct Pool {
    alloc: Global,
    terms: Vec<Vec<Term>>,
    sums: Vec<Vec<Summand>>,
}

impl Pool {
    /// None yet.
    pub(crate) fn new(alloc: Global) -> Pool {
        Pool {
            alloc,
            terms: Vec::new(alloc),
            sums: Vec::new(alloc),
        }
    }

    /// Memory for terms, whatever stands there.
    pub(crate) fn room(&mut self) -> Vec<Term> {
        match self.terms.pop() {
            Some(room) => room,
            None => Vec::new(self.alloc),
        }
    }

    /// These terms.
    pub(crate) fn terms(&mut self, terms: &[Term]) -> Result<Vec<Term>, AllocError>
        ensures { IfOk result (λ v. v.items ≡ terms.now) }
    {
        let mut room = self.room();
        room.clear();
        room.extend_from_slice(terms)?;
        Ok(room)
    }

    /// The sum of these multiples.
    pub(crate) fn sum(&mut self, parts: &[Summand]) -> Result<Vec<Summand>, AllocError>
        ensures { IfOk result (λ v. v.items ≡ parts.now) }
    {
        let mut room = match self.sums.pop() {
            Some(room) => room,
            None => Vec::new(self.alloc),
        };
        room.clear();
        room.extend_from_slice(parts)?;
        Ok(room)
    }

    /// Takes the memory of terms. Where none is left to note it, it is freed.
    pub(crate) fn take_terms(&mut self, terms: Vec<Term>) {
        let _ = self.terms.push(terms);
    }

    /// Takes the memory of a row in the same way.
    pub(crate) fn take(&mut self, row: Row) {
        let Row { form, origin, .. } = row;
        self.take_terms(form.terms);
        if let Origin::Sum(sum) = origin {
            let _ = self.sums.push(sum);
        }
    }
}
