//! Linear forms.

ghost use Rattle.std.specs.Prelude.{◌≡◌, ◌≢◌, [], ◌∷◌, ◌<◌, ◌≤◌, pos, ◌≤ℤ◌, true, nat_lt, not, IfOk, IfSome, OnErr, All, length, slice_get};
ghost use Rattle.std.specs.List.{list_all};
ghost use Rattle.og_linear.specs.Linear.{form_value, is_term, val, is_small};
ghost use Rattle.og_linear.specs.Tidy.{IsTidy};
ghost use Rattle.og_linear.specs.Arith as arith;
ghost use Rattle.og_linear.specs.Bounded as bounded;
ghost use Rattle.og_linear.specs.Replaced as replaced;
ghost use Rattle.og_linear.specs.Bounded.{names};
ghost use Rattle.og_linear.specs.Answer.{IsAnswer, OnMemory, checked};
ghost use Rattle.og_linear.specs.declared.fault.FormFault.TheVariants as faults;

use crate::fault::{FormError, FormFault};
use crate::map::Map;
use crate::state::State;
use crate::terms::{
    are_small, ceil_div, fits_i64, multiples, others, product_of, push_term, quotients, sum_of,
    sums, weighed,
};
use std::alloc::{AllocError, Global};
use std::marker::Model;

/// A sum of variables with nonzero coefficients, and a constant.
///
/// Contracts see the variables, rising, each with its coefficient, and the constant: whole numbers
/// within `i128`.
#[derive(Debug, Drop)]
pub struct Form {
    terms: Vec<(u32, i128)>,
    constant: i128,
}

impl Model for Form {
    ghost use Rattle.std.specs.Prelude.{◌≡◌, true};
    ghost use Rattle.og_linear.specs.Linear.{FormValue, form_value};
    ghost use Rattle.og_linear.specs.Tidy.{IsTidy};
    ghost use Rattle.og_linear.specs.Bounded.{fits_terms};

    ghost Value = { FormValue };

    ghost view = { λ f. form_value f.terms.items f.constant };

    ghost invariant = { λ f. IsTidy f.terms.items × (fits_terms f.terms.items ≡ true) };
}

impl Form {
    /// The form without variables. Takes no memory.
    pub fn constant(alloc: Global, c: i128) -> Form
        ensures { result ≡ form_value [] c }
    {
        Form {
            terms: Vec::new(alloc),
            constant: c,
        }
    }

    /// The form that is the variable itself.
    pub fn variable(alloc: Global, var: u32) -> Result<Form, AllocError>
        ensures { IfOk result (λ f. f ≡ arith.variable var) }
    {
        let mut terms = Vec::new(alloc);
        terms.push((var, 1))?;
        Ok(Form { terms, constant: 0 })
    }

    /// The form of these variables, which rise, each with its nonzero coefficient, and of this
    /// constant. Takes no memory.
    pub fn of_terms(terms: Vec<(u32, i128)>, constant: i128) -> Form
        requires tidy { IsTidy terms.items }
        requires fits { bounded.fits_terms terms.items ≡ true }
        ensures { result ≡ form_value terms.items constant }
    {
        Form { terms, constant }
    }

    /// An equal form.
    pub fn copy(&self) -> Result<Form, AllocError>
        ensures { IfOk result (λ f. f ≡ self.now) }
    {
        Ok(Form {
            terms: Vec::from_slice(*self.terms.allocator(), &self.terms)?,
            constant: self.constant,
        })
    }

    /// A law: the variables rise, no coefficient is 0, and each number is an `i128`.
    pub fn numbers_fit(&self)
        ensures tidy { IsTidy self.now.terms }
        ensures fits { bounded.fits_form self.now ≡ true }
    {
        let _terms = &self.terms;
        let _constant = self.constant;
    }

    /// The constant.
    pub fn offset(&self) -> i128
        ensures { result ≡ self.now.constant }
    {
        self.constant
    }

    /// The i-th variable and its coefficient, counted from 0. The variables rise, and no
    /// coefficient is 0.
    pub fn term(&self, i: usize) -> Option<(u32, i128)>
        ensures found { result ≡ slice_get self.now.terms i }
        ensures tidy { IsTidy self.now.terms }
    {
        self.terms.get(i).copied()
    }

    /// Whether the variable occurs in the form.
    pub fn mentions(&self, var: u32) -> bool
        ensures { result ≡ is_term var self.now.terms }
    {
        self.terms.iter().any(|t| t.0 == var)
    }

    // k times the form.
    fn scaled(&self, k: i128) -> Result<Form, FormError>
        ensures { IsAnswer (λ f. f) faults.TooLarge result (checked (arith.scaled k self.now)) }
    {
        let terms = multiples(*self.terms.allocator(), k, &self.terms)?;
        let constant = product_of(k, self.constant)?;
        Ok(Form { terms, constant })
    }

    // The sum of two forms.
    fn plus(&self, other: &Form) -> Result<Form, FormError>
        ensures { IsAnswer (λ f. f) faults.TooLarge result (checked (arith.plus self.now other.now)) }
    {
        let terms = sums(*self.terms.allocator(), &self.terms, &other.terms)?;
        let constant = sum_of(self.constant, other.constant)?;
        Ok(Form { terms, constant })
    }

    // The sum of a form without variables and the other one.
    fn offset_plus(&self, other: Form) -> Result<Form, FormError>
        requires { self.now.terms ≡ [] }
        ensures { IsAnswer (λ f. f) faults.TooLarge result (checked (arith.plus self.now other)) }
    {
        let constant = sum_of(self.constant, other.constant)?;
        Ok(Form {
            terms: other.terms,
            constant,
        })
    }

    // The sum of this form and the other one, which is added once.
    fn with(&self, other: &Form) -> Result<Form, FormError>
        ensures { IsAnswer (λ f. f) faults.TooLarge result
            (bounded.add_scaled self.now (pos 1) other.now) }
    {
        other.numbers_fit();
        if self.terms.len() == 0 {
            self.offset_plus(other.copy()?)
        } else {
            self.plus(other)
        }
    }

    // Whether the variable comes after all others.
    fn is_last(&self, var: u32) -> bool
        ensures { result ≡ list_all (λ t. nat_lt t.0 var) self.now.terms }
    {
        match self.terms.last() {
            Some(t) => t.0 < var,
            None => true,
        }
    }

    // The one term of the form, where there is nothing else.
    fn only_term(&self) -> Option<(u32, i128)>
        ensures { IfSome result (λ t. self.now ≡ form_value (t ∷ []) (pos 0)) }
    {
        if self.terms.len() == 1 && self.constant == 0 {
            self.terms.first().copied()
        } else {
            None
        }
    }

    // Adds k times the term, whose variable comes after all others.
    fn push_term(&mut self, k: i128, var: u32, c: i128) -> Result<(), FormError>
        requires last { list_all (λ t. nat_lt t.0 var) self.old.terms ≡ true }
        ensures answer { IsAnswer (λ _. self.new) faults.TooLarge result
            (bounded.add_scaled self.old k (form_value ((var, c) ∷ []) (pos 0))) }
        ensures unchanged { OnErr result (self.new ≡ self.old) }
    {
        let product = product_of(k, c)?;
        push_term(&mut self.terms, var, product)?;
        Ok(())
    }

    // Adds k times the other form, term by term.
    fn add_terms(&mut self, k: i128, other: &Form) -> Result<(), FormError>
        ensures answer { IsAnswer (λ _. self.new) faults.TooLarge result
            (bounded.add_scaled self.old k other.now) }
        ensures unchanged { OnErr result (self.new ≡ self.old) }
    {
        if k == 1 {
            *self = self.with(other)?;
            return Ok(());
        }
        let own = other.scaled(k)?;
        let sum = if self.terms.len() == 0 {
            self.offset_plus(own)?
        } else {
            self.plus(&own)?
        };
        *self = sum;
        Ok(())
    }

    /// Adds k times the other form.
    ///
    /// `TooLarge` where a product of k and a number of the other form, or a sum of such a product
    /// and a number of this form, leaves `i128`. An error leaves the form as it was.
    pub fn add_scaled(&mut self, k: i128, other: &Form) -> Result<(), FormError>
        ensures answer { IsAnswer (λ _. self.new) faults.TooLarge result
            (bounded.add_scaled self.old k other.now) }
        ensures unchanged { OnErr result (self.new ≡ self.old) }
    {
        if let Some((var, c)) = other.only_term() {
            if self.terms.len() > 0 && self.is_last(var) {
                return self.push_term(k, var, c);
            }
        }
        self.add_terms(k, other)
    }

    // The coefficient of the variable, 0 where it doesn't occur.
    fn coefficient(&self, var: u32) -> i128
        ensures { result ≡ replaced.coefficient var self.now.terms }
    {
        for t in &self.terms {
            if var == t.0 {
                return t.1;
            }
        }
        0
    }

    // The form without the variable.
    fn without(&self, var: u32) -> Result<Form, AllocError>
        ensures { IfOk result (λ f. f ≡ replaced.without var self.now) }
    {
        Ok(Form {
            terms: others(*self.terms.allocator(), var, &self.terms)?,
            constant: self.constant,
        })
    }

    /// The form with the other one in place of the variable: the form without it, and then once its
    /// coefficient times the other form added.
    ///
    /// `TooLarge` where that addition leaves `i128`, as in `add_scaled`.
    pub fn replace(&self, var: u32, form: &Form) -> Result<Form, FormError>
        ensures { IsAnswer (λ f. f) faults.TooLarge result (replaced.replace var form.now self.now) }
    {
        let mut sum = self.without(var)?;
        sum.add_scaled(self.coefficient(var), form)?;
        Ok(sum)
    }

    // Adds k times the variable.
    fn add_variable(&mut self, k: i128, var: u32) -> Result<(), FormError>
        ensures { IsAnswer (λ _. self.new) faults.TooLarge result
            (bounded.add_scaled self.old k (arith.variable var)) }
    {
        if self.is_last(var) {
            return self.push_term(k, var, 1);
        }
        let own = Form::variable(*self.terms.allocator(), var)?;
        self.add_scaled(k, &own)
    }

    // Adds k times the form that stands for the variable.
    fn add_image(&mut self, k: i128, map: &Map, var: u32) -> Result<(), FormError>
        ensures { IsAnswer (λ _. self.new) faults.TooLarge result
            (bounded.add_scaled self.old k (bounded.image map.now var)) }
    {
        match map.named(var) {
            Some(form) => self.add_scaled(k, form),
            None => self.add_variable(k, var),
        }
    }

    // Whether the map names none of the variables.
    fn is_kept(&self, map: &Map) -> bool
        ensures { result ≡ list_all (λ t. not (names map.now t.0)) self.now.terms }
    {
        self.terms.iter().all(|t| !map.names(t.0))
    }

    // As `apply`, variable by variable.
    fn images(&self, map: &Map) -> Result<Form, FormError>
        ensures { IsAnswer (λ f. f) faults.TooLarge result (bounded.apply map.now self.now) }
    {
        let mut sum = Form::constant(*self.terms.allocator(), self.constant);
        for t in &self.terms {
            sum.add_image(t.1, map, t.0)?;
        }
        Ok(sum)
    }

    /// The form with the map's forms in place of the variables, all at once: the constant, and then
    /// for each rising variable its coefficient times its form added.
    ///
    /// `TooLarge` where one of these additions leaves `i128`, as in `add_scaled`.
    pub fn apply(&self, map: &Map) -> Result<Form, FormError>
        ensures { IsAnswer (λ f. f) faults.TooLarge result (bounded.apply map.now self.now) }
    {
        self.numbers_fit();
        if self.is_kept(map) {
            return Ok(self.copy()?);
        }
        self.images(map)
    }

    /// The form cut by d: each coefficient divided by d, and the constant divided and rounded up.
    /// Over whole numbers it is at most 0 exactly where the form is.
    ///
    /// `NotDivisible` where d is below 1 or doesn't divide some coefficient. Below 1 no memory is
    /// asked for.
    pub fn cut(&self, d: i128) -> Result<Form, FormError>
        ensures answer { IsAnswer (λ f. f) faults.NotDivisible result (bounded.cut self.now d) }
        ensures memory { OnMemory result (pos 1 ≤ℤ d) }
    {
        if d < 1 {
            return Err(FormError::Fault(FormFault::NotDivisible));
        }
        let terms = quotients(*self.terms.allocator(), d, &self.terms)?;
        let constant = ceil_div(self.constant, d);
        Ok(Form { terms, constant })
    }

    /// Whether the form is within the limits of a source: coefficients of magnitude at most
    /// 2147483648, and a constant in the range of `i64`.
    pub fn is_small(&self) -> bool
        ensures { result ≡ is_small self.now }
    {
        are_small(&self.terms) && fits_i64(self.constant)
    }

    /// The value of the form at the state. Takes no memory.
    pub fn value(&self, state: &State) -> i128
        requires small { is_small self.now ≡ true }
        requires few { length self.now.terms ≤ 256 }
        requires within { All (λ t. t.0 < length state.now) self.now.terms }
        ensures { result ≡ val self.now state.now }
    {
        let values = state.as_slice();
        let mut sum = 0;
        for t in &self.terms {
            sum += weighed(t.1, values[t.0 as usize]);
        }
        sum + self.constant
    }
}
