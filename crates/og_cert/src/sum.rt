//! Sums of multiples of inequalities, which grow in place.

ghost use Rattle.std.specs.Prelude.{◌≡◌, ◌≢◌, ◌≤◌, ◌<◌, ◌+◌, ◌++◌, ℕ, ℤ, pos, ◌+ℤ◌, ◌*ℤ◌, [], ◌∷◌, true, nat_lt, Some, None, IfSome, OnErr, MatchOption, length, take, drop, slice_get, IsTrue};
ghost use Rattle.std.specs.List.{list_all};
ghost use Rattle.og_linear.specs.Linear.{form_value};
ghost use Rattle.og_linear.specs.Arith.{with_term, merge};
ghost use Rattle.og_linear.specs.Bounded.{fits_i128, add_scaled};
ghost use Rattle.og_linear.specs.Answer.{IsAnswer, OnMemory, checked_int, checked_terms};
ghost use Rattle.og_linear.specs.declared.fault.FormFault.TheVariants as faults;
ghost use Rattle.og_cert.specs.Opposite.{single_form};
ghost use Rattle.og_cert.specs.Sums.{AreTerms, added_terms, added_int};

use crate::opposite::Single;
use og_facts::Atom;
use og_linear::{Form, FormError, FormFault};
use std::alloc::Global;
use std::marker::Model;

/// A sum of multiples of inequalities. Contracts see the form.
#[derive(Drop)]
pub(crate) struct Sum {
    terms: Vec<(u32, i128)>,
    constant: i128,
}

impl Model for Sum {
    ghost use Rattle.og_linear.specs.Linear.{FormValue, form_value};
    ghost use Rattle.og_cert.specs.Sums.{AreTerms};

    ghost Value = { FormValue };

    ghost view = { λ s. form_value s.terms.items s.constant };

    ghost invariant = { λ s. AreTerms s.terms.items };
}

/// k times the number.
pub(crate) fn product_of(k: i128, c: i128) -> Result<i128, FormError>
    ensures answer { IsAnswer (λ x. x) faults.TooLarge result (checked_int (k *ℤ c)) }
    ensures memory { OnMemory result ⊥ }
{
    if k == 1 {
        return Ok(c);
    }
    k.checked_mul(c)
        .ok_or(FormError::Fault(FormFault::TooLarge))
}

// The sum of the two numbers.
fn sum_of(c: i128, d: i128) -> Result<i128, FormError>
    ensures answer { IsAnswer (λ x. x) faults.TooLarge result (checked_int (c +ℤ d)) }
    ensures memory { OnMemory result ⊥ }
{
    c.checked_add(d)
        .ok_or(FormError::Fault(FormFault::TooLarge))
}

/// The number and k times another one.
pub(crate) fn plus_product(c: i128, k: i128, d: i128) -> Result<i128, FormError>
    ensures answer { IsAnswer (λ x. x) faults.TooLarge result (added_int c k d) }
    ensures memory { OnMemory result ⊥ }
{
    let product = product_of(k, d)?;
    sum_of(c, product)
}

// Whether the variable comes after all others.
fn is_last(terms: &[(u32, i128)], var: u32) -> bool
    requires { AreTerms terms.now }
    ensures { result ≡ list_all (λ t. nat_lt t.0 var) terms.now }
{
    match terms.last() {
        Some(t) => t.0 < var,
        None => true,
    }
}

// How many of the terms have a variable before this one. Facts mostly cancel the first terms, so
// the search begins there.
fn place_of(terms: &[(u32, i128)], var: u32) -> usize
    ensures within { result ≤ length terms.now }
    ensures before { list_all (λ t. nat_lt t.0 var) (take result terms.now) ≡ true }
    ensures behind { (t : ℕ × ℤ) → slice_get terms.now result ≡ Some t → var ≤ t.0 }
{
    let mut place = 0;
    for t in terms {
        if var <= t.0 {
            return place;
        }
        place += 1;
    }
    place
}

// The coefficient of the term at this place, if that is one of the variable.
fn coefficient_at(terms: &[(u32, i128)], place: usize, var: u32) -> Option<i128>
    ensures { MatchOption result
        ((t : ℕ × ℤ) → slice_get terms.now place ≡ Some t → t.0 ≢ var)
        (λ c. slice_get terms.now place ≡ Some (var, c)) }
{
    let t = terms.get(place)?;
    if t.0 == var { Some(t.1) } else { None }
}

// Puts a coefficient in place of the one there. A term whose coefficient is 0 goes.
fn put_at(terms: &mut Vec<(u32, i128)>, place: usize, var: u32, c: i128)
    requires { place < length terms.old.items }
    ensures { terms.new.items ≡ take place terms.old.items
        ++ with_term var c (drop (place + 1) terms.old.items) }
{
    if c == 0 {
        terms.remove(place);
    } else {
        terms[place] = (var, c);
    }
}

// Adds d times the variable.
fn add_term(terms: &mut Vec<(u32, i128)>, var: u32, d: i128) -> Result<(), FormError>
    requires { AreTerms terms.old.items }
    ensures answer { IsAnswer (λ _. terms.new.items) faults.TooLarge result
        (checked_terms (merge terms.old.items (with_term var d []))) }
    ensures kept { OnErr result (terms.new.items ≡ terms.old.items) }
{
    if d == 0 {
        return Ok(());
    }
    if is_last(terms, var) {
        return Ok(terms.push((var, d))?);
    }
    let place = place_of(terms, var);
    match coefficient_at(terms, place, var) {
        Some(c) => {
            let sum = sum_of(c, d)?;
            put_at(terms, place, var, sum);
            Ok(())
        }
        None => Ok(terms.insert(place, (var, d))?),
    }
}

// Adds k times c times the variable.
fn add_multiple(terms: &mut Vec<(u32, i128)>, k: i128, var: u32, c: i128) -> Result<(), FormError>
    requires { AreTerms terms.old.items }
    ensures answer { IsAnswer (λ _. terms.new.items) faults.TooLarge result
        (added_terms terms.old.items k ((var, c) ∷ [])) }
    ensures terms { AreTerms terms.new.items }
{
    let product = product_of(k, c)?;
    add_term(terms, var, product)
}

// Whether the number takes k times the other one away.
fn is_taken_away(c: i128, k: i128, d: i128) -> bool
    ensures { IsTrue result → (fits_i128 (k *ℤ d) ≡ true) × (c +ℤ k *ℤ d ≡ pos 0) }
{
    match product_of(k, d) {
        Ok(product) => c.checked_add(product) == Some(0),
        Err(_) => false,
    }
}

// Whether k times the terms of the inequality take away just these, as those of the last fact of a
// sum do that has no variable left.
fn are_taken_away(terms: &[(u32, i128)], k: i128, atom: &Atom) -> bool
    requires { AreTerms terms.now }
    ensures { IsTrue result → added_terms terms.now k atom.now.terms ≡ Some [] }
{
    let signed = atom.signed();
    let mut index = 0;
    for t in terms {
        match signed.term(index) {
            Some((var, c)) if var == t.0 && is_taken_away(t.1, k, c) => index += 1,
            _ => return false,
        }
    }
    signed.term(index).is_none()
}

// Adds k times the terms of the inequality, one after another.
fn add_each(terms: &mut Vec<(u32, i128)>, k: i128, atom: &Atom) -> Result<(), FormError>
    requires { AreTerms terms.old.items }
    ensures answer { IsAnswer (λ _. terms.new.items) faults.TooLarge result
        (added_terms terms.old.items k atom.now.terms) }
    ensures terms { AreTerms terms.new.items }
{
    atom.numbers_fit();
    let signed = atom.signed();
    let mut index = 0;
    while let Some((var, c)) = signed.term(index) {
        add_multiple(terms, k, var, c)?;
        index += 1;
    }
    Ok(())
}

// Adds k times the terms of the inequality.
fn add_terms(terms: &mut Vec<(u32, i128)>, k: i128, atom: &Atom) -> Result<(), FormError>
    requires { AreTerms terms.old.items }
    ensures answer { IsAnswer (λ _. terms.new.items) faults.TooLarge result
        (added_terms terms.old.items k atom.now.terms) }
    ensures terms { AreTerms terms.new.items }
{
    if are_taken_away(terms, k, atom) {
        terms.truncate(0);
        return Ok(());
    }
    add_each(terms, k, atom)
}

impl Sum {
    /// The sum of nothing. Takes no memory.
    pub(crate) fn new(alloc: Global) -> Sum
        ensures { result ≡ form_value [] (pos 0) }
    {
        Sum {
            terms: Vec::new(alloc),
            constant: 0,
        }
    }

    /// Adds this many times the inequality.
    ///
    /// `TooLarge` where a product of a number of it, or a sum of such a product and a number of the
    /// sum, leaves `i128`. After an error the sum is of no use.
    pub(crate) fn add(&mut self, times: u64, atom: &Atom) -> Result<(), FormError>
        ensures { IsAnswer (λ _. self.new) faults.TooLarge result
            (add_scaled self.old (pos times) atom.now) }
    {
        let times = i128::from(times);
        add_terms(&mut self.terms, times, atom)?;
        self.constant = plus_product(self.constant, times, atom.offset())?;
        Ok(())
    }

    /// Adds this many times the inequality of one variable. The same errors as of `add`.
    pub(crate) fn add_single(&mut self, times: u64, single: Single) -> Result<(), FormError>
        ensures { IsAnswer (λ _. self.new) faults.TooLarge result
            (add_scaled self.old (pos times) (single_form single)) }
    {
        let times = i128::from(times);
        add_multiple(&mut self.terms, times, single.var, single.coefficient)?;
        self.constant = plus_product(self.constant, times, single.constant)?;
        Ok(())
    }

    /// The sum. Takes no memory.
    pub(crate) fn into_form(self) -> Form
        ensures { result ≡ self }
    {
        Form::of_terms(self.terms, self.constant)
    }
}
