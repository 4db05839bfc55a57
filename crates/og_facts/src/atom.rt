//! Inequalities, which borrow their terms where they can.

ghost use Rattle.std.specs.Prelude.{◌≡◌, true, negsuc, ◌-ℤ◌, slice_get, IfOk, IfSome};
ghost use Rattle.og_linear.specs.Linear.{form_value};
ghost use Rattle.og_linear.specs.Tidy.{IsTidy};
ghost use Rattle.og_linear.specs.Arith.{scale_terms};
ghost use Rattle.og_linear.specs.Bounded.{fits_terms, fits_form};
ghost use Rattle.og_linear.specs.Answer.{IsAnswer, OnMemory, checked, checked_int};
ghost use Rattle.og_linear.specs.declared.fault.FormFault.TheVariants as faults;
ghost use Rattle.og_facts.specs.Facts as plain;
ghost use Rattle.og_facts.specs.Atoms.{signed_terms};

use crate::signed::{Signed, negated_term};
use og_linear::{Form, FormError, FormFault};
use std::alloc::{AllocError, Global};
use std::marker::Model;

// Where the terms of an inequality come from.
#[derive(Debug, Drop)]
enum Base<'a> {
    // They are those of this form.
    Lent(&'a Form),
    // They are those of this form, each negated.
    Negated(&'a Form),
    // They are those of a form of its own.
    Own(Box<Form>),
}

/// A form that is at most 0. It borrows its terms from another form, as they are or negated, or it
/// has its own.
///
/// Contracts see the form.
#[derive(Debug, Drop)]
pub struct Atom<'a> {
    base: Base<'a>,
    constant: i128,
}

impl<'a> Model for Atom<'a> {
    ghost use Rattle.og_linear.specs.Linear.{FormValue, form_value};
    ghost use Rattle.og_facts.specs.Atoms.{terms_in, AreTerms};

    ghost Value = { FormValue };

    ghost view = { λ a. form_value (terms_in a.base) a.constant };

    ghost invariant = { λ a. AreTerms a.base };
}

// The one number less the other.
fn difference(c: i128, d: i128) -> Result<i128, FormError>
    ensures answer { IsAnswer (λ x. x) faults.TooLarge result (checked_int (c -ℤ d)) }
    ensures memory { OnMemory result ⊥ }
{
    c.checked_sub(d)
        .ok_or(FormError::Fault(FormFault::TooLarge))
}

// Whether each coefficient can be negated.
fn has_negation(form: &Form) -> bool
    ensures { result ≡ fits_terms (scale_terms (negsuc 0) form.now.terms) }
{
    form.numbers_fit();
    let mut index = 0;
    while let Some((_, coefficient)) = form.term(index) {
        if coefficient == i128::MIN {
            return false;
        }
        index += 1;
    }
    true
}

impl<'a> Atom<'a> {
    /// The form itself. Takes no memory.
    pub(crate) fn same(form: &'a Form) -> Atom<'a>
        ensures { result ≡ form.now }
    {
        form.numbers_fit();
        Atom {
            base: Base::Lent(form),
            constant: form.offset(),
        }
    }

    /// The form and 1. Takes no memory.
    pub(crate) fn next(form: &'a Form) -> Result<Atom<'a>, FormError>
        ensures answer { IsAnswer (λ a. a) faults.TooLarge result
            (checked (plain.plus_one form.now)) }
        ensures memory { OnMemory result ⊥ }
    {
        form.numbers_fit();
        let constant = difference(form.offset(), -1)?;
        Ok(Atom {
            base: Base::Lent(form),
            constant,
        })
    }

    // The form negated, with this constant.
    fn with_negated(form: &'a Form, constant: i128) -> Result<Atom<'a>, FormError>
        ensures answer { IsAnswer (λ a. a) faults.TooLarge result
            (checked (form_value (scale_terms (negsuc 0) form.now.terms) constant)) }
        ensures memory { OnMemory result ⊥ }
    {
        form.numbers_fit();
        if has_negation(form) {
            Ok(Atom {
                base: Base::Negated(form),
                constant,
            })
        } else {
            Err(FormError::Fault(FormFault::TooLarge))
        }
    }

    /// The form negated. Takes no memory.
    pub(crate) fn negated(form: &'a Form) -> Result<Atom<'a>, FormError>
        ensures answer { IsAnswer (λ a. a) faults.TooLarge result (checked (plain.negated form.now)) }
        ensures memory { OnMemory result ⊥ }
    {
        let constant = difference(0, form.offset())?;
        Atom::with_negated(form, constant)
    }

    /// 1 less the form. Takes no memory.
    pub(crate) fn beyond(form: &'a Form) -> Result<Atom<'a>, FormError>
        ensures answer { IsAnswer (λ a. a) faults.TooLarge result
            (checked (plain.plus_one (plain.negated form.now))) }
        ensures memory { OnMemory result ⊥ }
    {
        let constant = difference(1, form.offset())?;
        Atom::with_negated(form, constant)
    }

    /// The form, as its own.
    ///
    /// # Errors
    ///
    /// An allocation was refused.
    pub fn own(alloc: Global, form: Form) -> Result<Atom<'a>, AllocError>
        ensures { IfOk result (λ a. a ≡ form) }
    {
        form.numbers_fit();
        let constant = form.offset();
        Ok(Atom {
            base: Base::Own(Box::new(alloc, form)?),
            constant,
        })
    }

    /// A law: the variables rise, no coefficient is 0, and each number is an `i128`.
    pub fn numbers_fit(&self)
        ensures tidy { IsTidy self.now.terms }
        ensures fits { fits_form self.now ≡ true }
    {
        let _base = &self.base;
        let _constant = self.constant;
    }

    /// The constant. Takes no memory, like `term`.
    pub fn offset(&self) -> i128
        ensures { result ≡ self.now.constant }
    {
        self.constant
    }

    /// The i-th variable and its coefficient, counted from 0. The variables rise, and no
    /// coefficient is 0.
    pub fn term(&self, i: usize) -> Option<(u32, i128)>
        ensures found { result ≡ slice_get self.now.terms i }
        ensures tidy { IsTidy self.now.terms }
    {
        match &self.base {
            Base::Lent(form) => form.term(i),
            Base::Negated(form) => negated_term(form, i),
            Base::Own(form) => form.term(i),
        }
    }

    /// The form whose terms it has, as they are or each negated. Takes no memory.
    pub fn signed(&self) -> Signed<'_>
        ensures { signed_terms result ≡ self.now.terms }
    {
        match &self.base {
            Base::Lent(form) => Signed {
                form,
                is_negated: false,
            },
            Base::Negated(form) => Signed {
                form,
                is_negated: true,
            },
            Base::Own(form) => Signed {
                form,
                is_negated: false,
            },
        }
    }

    /// An equal form.
    ///
    /// # Errors
    ///
    /// An allocation was refused.
    pub fn form(&self, alloc: Global) -> Result<Form, AllocError>
        ensures { IfOk result (λ form. form ≡ self.now) }
    {
        let mut terms = Vec::new(alloc);
        let mut index = 0;
        while let Some(term) = self.term(index) {
            terms.push(term)?;
            index += 1;
        }
        Ok(Form::of_terms(terms, self.constant))
    }
}
