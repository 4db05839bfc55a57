//! Linear inequalities: a sum of multiples of variables, and a constant, that is at most 0.

ghost use Rattle.std.specs.Prelude.{◌≡◌, ℤ, pos, List, [], ◌∷◌, ◌+ℤ◌, ◌*ℤ◌, ◌≤ℤ◌, ◌<ℤ◌, ◌↔◌, ◌<◌, ◌^◌, ◌||◌, nat_lt, nat_abs, IfOk, IfSome, OnOk, IsTrue};
ghost use Rattle.std.specs.List.{list_any};
ghost use Rattle.og_linear.specs.Linear.{val};
ghost use Rattle.og_linear.specs.Replaced as replaced;
ghost use Rattle.og_search_rows.specs.Inequality.{form_of, left_side, Holds, sum_at, part_at, IsSum};

use crate::marks::{last_bits, next_mark};
use crate::model::Model;
use crate::number::{ceil_div, common, mixed, product};
use og_linear::Form;
use std::alloc::{AllocError, Global};

/// The greatest coefficient, in magnitude, of a row that a search uses.
const COEFFICIENT_LIMIT: u128 = 1 << 62;

/// The greatest constant, in magnitude, of a row that a search uses.
const CONSTANT_LIMIT: u128 = 1 << 120;

/// A multiple of a variable.
#[derive(Clone, Copy, PartialEq)]
pub struct Term {
    pub var: u32,
    pub coefficient: i128,
}

/// The terms of an inequality, by rising variables and with no coefficient 0, and its constant.
#[derive(Drop)]
pub struct Inequality {
    pub terms: Vec<Term>,
    pub constant: i128,
}

/// A multiple of an inequality.
#[derive(Clone, Copy)]
pub struct Scaled<'a> {
    pub times: i128,
    pub form: &'a Inequality,
}

impl Term {
    // Whether the two terms sum to 0.
    fn cancels(self, other: Term) -> bool
        ensures variable { IsTrue result → self.var ≡ other.var }
        ensures sum { IsTrue result → self.coefficient +ℤ other.coefficient ≡ pos 0 }
    {
        self.var == other.var && self.coefficient.checked_add(other.coefficient) == Some(0)
    }

    // The value of the term at the model, where it fits.
    fn value(self, model: &Model) -> Option<i128>
        ensures { IfSome result (λ v. v ≡ part_at self model.now) }
    {
        product(self.coefficient, model.value(self.var))
    }
}

// Adds a term, unless its coefficient is 0.
fn put(terms: &mut Vec<Term>, term: Term) -> Result<(), AllocError>
    ensures { OnOk result ((s : List ℤ) → sum_at terms.new.items s
        ≡ sum_at terms.old.items s +ℤ part_at term s) }
{
    if term.coefficient == 0 {
        return Ok(());
    }
    terms.push(term)?;
    Ok(())
}

// Adds a multiple of a term. Returns whether its coefficient fits.
fn put_multiple(terms: &mut Vec<Term>, times: i128, term: Term) -> Result<bool, AllocError>
    ensures { IfOk result (λ fits. IsTrue fits → (s : List ℤ)
        → sum_at terms.new.items s ≡ sum_at terms.old.items s +ℤ times *ℤ part_at term s) }
{
    let Some(coefficient) = product(times, term.coefficient) else {
        return Ok(false);
    };
    let var = term.var;
    put(terms, Term { var, coefficient })?;
    Ok(true)
}

// Adds the sum of multiples of two terms of one variable. Returns whether its coefficient fits.
fn put_both(terms: &mut Vec<Term>, m: i128, x: Term, k: i128, y: Term) -> Result<bool, AllocError>
    requires { x.var ≡ y.var }
    ensures { IfOk result (λ fits. IsTrue fits → (s : List ℤ)
        → sum_at terms.new.items s ≡ sum_at terms.old.items s +ℤ (m *ℤ part_at x s +ℤ k *ℤ part_at y s)) }
{
    let Some(coefficient) = mixed(m, x.coefficient, k, y.coefficient) else {
        return Ok(false);
    };
    let var = x.var;
    put(terms, Term { var, coefficient })?;
    Ok(true)
}

// Adds multiples of all these terms. Returns whether their coefficients fit.
fn put_all(terms: &mut Vec<Term>, times: i128, more: &[Term]) -> Result<bool, AllocError>
    ensures { IfOk result (λ fits. IsTrue fits → (s : List ℤ)
        → sum_at terms.new.items s ≡ sum_at terms.old.items s +ℤ times *ℤ sum_at more.now s) }
{
    for term in more {
        if !put_multiple(terms, times, *term)? {
            return Ok(false);
        }
    }
    Ok(true)
}

// Adds the terms of the sum of two multiples. Returns whether their coefficients fit.
fn put_sum(
    terms: &mut Vec<Term>,
    m: i128,
    a: &[Term],
    k: i128,
    b: &[Term],
) -> Result<bool, AllocError>
    ensures { IfOk result (λ fits. IsTrue fits → (s : List ℤ)
        → sum_at terms.new.items s ≡ sum_at terms.old.items s +ℤ (m *ℤ sum_at a.now s +ℤ k *ℤ sum_at b.now s)) }
{
    let mut i = 0;
    let mut j = 0;
    'both: while i < a.len() && j < b.len() {
        let (x, y) = (a[i], b[j]);
        if x.var < y.var {
            if !put_multiple(terms, m, x)? {
                return Ok(false);
            }
            i += 1;
        } else if y.var < x.var {
            if !put_multiple(terms, k, y)? {
                return Ok(false);
            }
            j += 1;
        } else {
            if !put_both(terms, m, x, k, y)? {
                return Ok(false);
            }
            i += 1;
            j += 1;
        }
    }
    if !put_all(terms, m, &a[i..])? {
        return Ok(false);
    }
    if !put_all(terms, k, &b[j..])? {
        return Ok(false);
    }
    Ok(true)
}

// The terms of the sum of two multiples, in place of these; none where a number leaves `i128`.
fn summed_terms(
    mut terms: Vec<Term>,
    first: Scaled,
    second: Scaled,
) -> Result<Option<Vec<Term>>, AllocError>
    ensures { IfOk result (λ found. IfSome found (λ ts. (s : List ℤ)
        → sum_at ts.items s ≡ first.entry.times *ℤ sum_at first.entry.form.now.terms.items s
        +ℤ second.entry.times *ℤ sum_at second.entry.form.now.terms.items s)) }
{
    let (a, b) = (first.form.terms.as_slice(), second.form.terms.as_slice());
    terms.clear();
    terms.reserve(a.len().saturating_add(b.len()))?;
    if put_sum(&mut terms, first.times, a, second.times, b)? {
        Ok(Some(terms))
    } else {
        Ok(None)
    }
}

// The terms divided; none where the divisor does not divide a coefficient.
fn divided_terms(
    alloc: Global,
    terms: &[Term],
    divisor: i128,
) -> Result<Option<Vec<Term>>, AllocError>
    ensures { IfOk result (λ found. IfSome found (λ ts. (s : List ℤ)
        → sum_at terms.now s ≡ divisor *ℤ sum_at ts.items s)) }
{
    let mut out = Vec::with_capacity(alloc, terms.len())?;
    for term in terms {
        let Some(coefficient) = quotient(term.coefficient, divisor) else {
            return Ok(None);
        };
        let var = term.var;
        out.push(Term { var, coefficient })?;
    }
    Ok(Some(out))
}

// The quotient, if it is a whole number.
fn quotient(a: i128, divisor: i128) -> Option<i128>
    ensures { IfSome result (λ q. a ≡ divisor *ℤ q) }
{
    let quotient = a.checked_div(divisor)?;
    if divisor.checked_mul(quotient) == Some(a) {
        Some(quotient)
    } else {
        None
    }
}

// Whether a coefficient is beyond those that a search reckons with.
fn are_large(terms: &[Term]) -> bool
    ensures { result ≡ list_any (λ t. nat_lt (2 ^ 62) (nat_abs t.coefficient)) terms.now }
{
    terms
        .iter()
        .any(|term| term.coefficient.unsigned_abs() > COEFFICIENT_LIMIT)
}

// Whether the terms are the same.
fn are_same(a: &[Term], b: &[Term]) -> bool
    ensures { IsTrue result ↔ (a.now ≡ b.now) }
{
    if a.len() != b.len() {
        return false;
    }
    for i in 0..a.len() {
        if a[i].var != b[i].var || a[i].coefficient != b[i].coefficient {
            return false;
        }
    }
    true
}

// Whether the one terms are the others with the sign changed.
fn are_opposite(a: &[Term], b: &[Term]) -> bool
    ensures { IsTrue result → (s : List ℤ) → sum_at a.now s +ℤ sum_at b.now s ≡ pos 0 }
{
    if a.len() != b.len() {
        return false;
    }
    for i in 0..a.len() {
        if !a[i].cancels(b[i]) {
            return false;
        }
    }
    true
}

// How many terms the form has.
fn count_terms(form: &Form) -> usize {
    for i in 0..usize::MAX {
        if form.term(i).is_none() {
            return i;
        }
    }
    usize::MAX
}

impl Inequality {
    /// The inequality without variables. Takes no memory.
    pub fn number(alloc: Global, constant: i128) -> Inequality
        ensures terms { result.terms.items ≡ [] }
        ensures constant { result.constant ≡ constant }
    {
        Inequality {
            terms: Vec::new(alloc),
            constant,
        }
    }

    /// The inequality of one variable.
    pub fn single(alloc: Global, term: Term, constant: i128) -> Result<Inequality, AllocError>
        ensures terms { IfOk result (λ f. f.terms.items ≡ term ∷ []) }
        ensures constant { IfOk result (λ f. f.constant ≡ constant) }
    {
        Ok(Inequality {
            terms: vec![in alloc; term]?,
            constant,
        })
    }

    /// The inequality that says that the form is at most 0.
    pub fn of_form(alloc: Global, form: &Form) -> Result<Inequality, AllocError>
        ensures { IfOk result (λ f. (s : List ℤ) → left_side f s ≡ val form.now s) }
    {
        let mut terms = Vec::with_capacity(alloc, count_terms(form))?;
        for i in 0..usize::MAX {
            let Some((var, coefficient)) = form.term(i) else {
                let constant = form.offset();
                return Ok(Inequality { terms, constant });
            };
            terms.push(Term { var, coefficient })?;
        }
        Err(AllocError)
    }

    /// The sum of two multiples; none where a number leaves `i128`.
    pub fn sum(
        alloc: Global,
        first: Scaled,
        second: Scaled,
    ) -> Result<Option<Inequality>, AllocError>
        ensures { IfOk result (λ found. IfSome found (λ f. (s : List ℤ)
            → left_side f s ≡ first.entry.times *ℤ left_side first.entry.form.now s
            +ℤ second.entry.times *ℤ left_side second.entry.form.now s)) }
    {
        Inequality::sum_in(Vec::new(alloc), first, second)
    }

    /// The sum of two multiples, in the memory of these terms; none where a number leaves `i128`.
    pub(crate) fn sum_in(
        room: Vec<Term>,
        first: Scaled,
        second: Scaled,
    ) -> Result<Option<Inequality>, AllocError>
        ensures { IfOk result (λ found. IfSome found (IsSum first.entry second.entry)) }
    {
        let (a, b) = (first.form.constant, second.form.constant);
        let Some(constant) = mixed(first.times, a, second.times, b) else {
            return Ok(None);
        };
        match summed_terms(room, first, second)? {
            Some(terms) => Ok(Some(Inequality { terms, constant })),
            None => Ok(None),
        }
    }

    /// An equal inequality.
    pub fn copy(&self) -> Result<Inequality, AllocError>
        ensures { IfOk result (λ f. form_of f ≡ form_of self.now) }
    {
        Ok(Inequality {
            terms: self.terms.clone()?,
            constant: self.constant,
        })
    }

    /// The inequality multiplied by a number.
    pub fn times(&self, times: i128) -> Scaled<'_>
        ensures times { result.times ≡ times }
        ensures form { result.form.now ≡ self.now }
    {
        Scaled { times, form: self }
    }

    /// The coefficient of the variable, 0 where it does not occur.
    pub fn coefficient(&self, var: u32) -> i128
        ensures { result ≡ replaced.coefficient var (form_of self.now).terms }
    {
        for term in &self.terms {
            if var == term.var {
                return term.coefficient;
            }
        }
        0
    }

    /// Whether a number is beyond those that a search reckons with: a coefficient above 2^62 or a
    /// constant above 2^120, in magnitude.
    pub fn is_large(&self) -> bool
        ensures { result ≡ (nat_lt (2 ^ 120) (nat_abs self.now.constant)
            || list_any (λ t. nat_lt (2 ^ 62) (nat_abs t.coefficient)) self.now.terms.items) }
    {
        self.constant.unsigned_abs() > CONSTANT_LIMIT || are_large(&self.terms)
    }

    /// The greatest common divisor of the coefficients, 0 where there is none.
    pub fn divisor(&self) -> i128 {
        let mut divisor = 0;
        for term in &self.terms {
            divisor = common(divisor, term.coefficient);
            if divisor == 1 {
                break;
            }
        }
        divisor
    }

    /// Each coefficient divided, and the constant divided and rounded up: it holds where this one
    /// does. None where the divisor is below 1 or does not divide a coefficient, or a number leaves
    /// `i128`.
    pub fn divided(&self, alloc: Global, divisor: i128) -> Result<Option<Inequality>, AllocError>
        ensures { IfOk result (λ found.
            IfSome found (λ f. (s : List ℤ) → Holds f s ↔ Holds self.now s)) }
    {
        if divisor < 1 {
            return Ok(None);
        }
        let Some(constant) = ceil_div(self.constant, divisor) else {
            return Ok(None);
        };
        match divided_terms(alloc, &self.terms, divisor)? {
            Some(terms) => Ok(Some(Inequality { terms, constant })),
            None => Ok(None),
        }
    }

    /// The inequality that holds exactly where this one does not; none where a number leaves
    /// `i128`.
    pub fn otherwise(&self, alloc: Global) -> Result<Option<Inequality>, AllocError>
        ensures { IfOk result (λ found.
            IfSome found (λ f. (s : List ℤ) → Holds f s ↔ (pos 0 <ℤ left_side self.now s))) }
    {
        let one = Inequality::number(alloc, 1);
        Inequality::sum(alloc, self.times(-1), one.times(1))
    }

    /// The value of the form at the model; none where a number leaves `i128`.
    pub fn value(&self, model: &Model) -> Option<i128>
        ensures { IfSome result (λ v. v ≡ left_side self.now model.now) }
    {
        let mut sum = self.constant;
        for term in &self.terms {
            sum = sum.checked_add(term.value(model)?)?;
        }
        Some(sum)
    }

    /// Whether the inequality holds of the model. One whose value leaves `i128` does not.
    pub fn holds(&self, model: &Model) -> bool
        ensures { IsTrue result → Holds self.now model.now }
    {
        match self.value(model) {
            Some(value) => value <= 0,
            None => false,
        }
    }

    /// Whether the two have the same terms.
    pub fn is_parallel(&self, other: &Inequality) -> bool
        ensures { IsTrue result ↔ (self.now.terms.items ≡ other.now.terms.items) }
    {
        are_same(&self.terms, &other.terms)
    }

    /// Whether the terms of the one are those of the other with the sign changed.
    pub fn is_opposite(&self, other: &Inequality) -> bool
        ensures { IsTrue result → (s : List ℤ)
            → sum_at self.now.terms.items s +ℤ sum_at other.now.terms.items s ≡ pos 0 }
    {
        are_opposite(&self.terms, &other.terms)
    }

    /// A number that is the same for equal terms, and for those with the sign changed.
    pub fn direction(&self) -> u64 {
        let is_turned = matches!(self.terms.first(), Some(first) if first.coefficient < 0);
        let mut mark = self.terms.len() as u64;
        for term in &self.terms {
            let bits = last_bits(term.coefficient);
            mark = next_mark(mark, u64::from(term.var));
            mark = next_mark(mark, if is_turned { bits.wrapping_neg() } else { bits });
        }
        mark
    }
}
