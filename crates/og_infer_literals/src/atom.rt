//! Sums that are compared with a number, in a normal form.

use crate::comparison::{Comparison, Relation};
use crate::sums::{exchanged, is_turned, turn};
use og_search_rows::{Inequality, Term};
use og_typed::Assert;
use std::alloc::{AllocError, Global};

/// A sum that is compared with a number. Its variables rise, its coefficients have no common
/// divisor, and the first of them is above 0.
#[derive(Drop)]
pub struct Atom {
    pub terms: Vec<Term>,
    pub comparison: Comparison,
}

// The form and the relation, with the sign changed.
fn turned(mut form: Inequality, relation: Relation) -> (Inequality, Relation) {
    turn(&mut form);
    (form, relation.turned())
}

impl Atom {
    /// The atom that says that the sum and the constant are in this relation to 0; none where that
    /// says nothing of variables, or a number is too large.
    pub fn of(
        alloc: Global,
        form: Inequality,
        relation: Relation,
    ) -> Result<Option<Atom>, AllocError> {
        let (form, relation) = match relation {
            Relation::AtLeast => turned(form, relation),
            _ => (form, relation),
        };
        let divisor = form.divisor();
        let is_whole = form.constant.checked_rem(divisor) == Some(0);
        if relation != Relation::AtMost && !is_whole {
            return Ok(None);
        }
        let Some(form) = form.divided(alloc, divisor)? else {
            return Ok(None);
        };
        let (form, relation) = if is_turned(&form.terms) {
            turned(form, relation)
        } else {
            (form, relation)
        };
        let Inequality { terms, constant } = form;
        match i64::try_from(constant.wrapping_neg()) {
            Ok(bound) => Ok(Some(Atom {
                terms,
                comparison: Comparison { relation, bound },
            })),
            Err(_) => Ok(None),
        }
    }

    /// The atom of an assertion that is a comparison.
    pub fn of_assertion(alloc: Global, assertion: &Assert) -> Result<Option<Atom>, AllocError> {
        let (form, relation) = match assertion {
            Assert::Le(form) => (form, Relation::AtMost),
            Assert::Eq(form) => (form, Relation::Equal),
            Assert::Ne(form) => (form, Relation::NotEqual),
            _ => return Ok(None),
        };
        Atom::of(alloc, Inequality::of_form(alloc, form)?, relation)
    }

    /// The atom of one variable.
    pub fn of_variable(
        alloc: Global,
        variable: u32,
        comparison: Comparison,
    ) -> Result<Atom, AllocError> {
        let term = Term {
            var: variable,
            coefficient: 1,
        };
        Ok(Atom {
            terms: vec![in alloc; term]?,
            comparison,
        })
    }

    /// The atom of the same sum with another comparison.
    pub fn with(&self, comparison: Comparison) -> Result<Atom, AllocError> {
        Ok(Atom {
            terms: self.terms.clone()?,
            comparison,
        })
    }

    /// The atom that is true where this one is false; none where a number is too large.
    pub fn negation(&self) -> Result<Option<Atom>, AllocError> {
        match self.comparison.negation() {
            Some(comparison) => Ok(Some(self.with(comparison)?)),
            None => Ok(None),
        }
    }

    /// Whether it says the same.
    pub fn is_same(&self, other: &Atom) -> bool {
        self.comparison == other.comparison && self.terms.as_slice() == other.terms.as_slice()
    }

    /// The variable, where there is one alone.
    pub fn only_variable(&self) -> Option<u32> {
        match self.terms.as_slice() {
            [only] => Some(only.var),
            _ => None,
        }
    }

    /// The sum and a constant, of which it says that they are in its relation to 0.
    pub fn form(&self) -> Result<Inequality, AllocError> {
        Ok(Inequality {
            terms: self.terms.clone()?,
            constant: i128::from(self.comparison.bound).wrapping_neg(),
        })
    }

    /// The atom with another variable for each, by its number; none where a number is too large.
    pub fn renamed(&self, alloc: Global, exchange: &[u32]) -> Result<Option<Atom>, AllocError> {
        let form = exchanged(&self.form()?, exchange)?;
        Atom::of(alloc, form, self.comparison.relation)
    }
}
