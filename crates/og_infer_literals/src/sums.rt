//! Sums of multiples of variables.

use og_linear::{Form, FormError};
use og_search_rows::{Inequality, Term};
use std::alloc::{AllocError, Global};

// The product, where it fits; that of 1 or -1, the most frequent one, without a multiplication.
fn product(coefficient: i128, value: i128) -> Option<i128> {
    match coefficient {
        1 => Some(value),
        -1 => value.checked_neg(),
        _ => coefficient.checked_mul(value),
    }
}

/// The value of the sum at a state; none where a variable has no value or a number leaves `i128`.
pub fn sum_at(terms: &[Term], values: &[i64]) -> Option<i128> {
    let mut sum = 0i128;
    for term in terms {
        let value = *values.get(term.var as usize)?;
        sum = sum.checked_add(product(term.coefficient, i128::from(value))?)?;
    }
    Some(sum)
}

/// Whether the variable stands in the sum.
pub fn mentions(terms: &[Term], variable: u32) -> bool {
    for term in terms {
        if term.var == variable {
            return true;
        }
    }
    false
}

/// Whether the first coefficient is below 0.
pub fn is_turned(terms: &[Term]) -> bool {
    matches!(terms.first(), Some(first) if first.coefficient < 0)
}

/// Changes the sign of each coefficient and of the constant.
pub fn turn(form: &mut Inequality) {
    let Inequality { terms, constant } = form;
    *constant = constant.wrapping_neg();
    for term in terms.iter_mut() {
        term.coefficient = term.coefficient.wrapping_neg();
    }
}

/// The sum and the constant with another variable for each, by its number.
pub fn exchanged(form: &Inequality, exchange: &[u32]) -> Result<Inequality, AllocError> {
    let Inequality {
        mut terms,
        constant,
    } = form.copy()?;
    for term in terms.iter_mut() {
        if let Some(other) = exchange.get(term.var as usize) {
            term.var = *other;
        }
    }
    terms.sort_unstable_by_key(|term| term.var);
    Ok(Inequality { terms, constant })
}

// Adds a multiple of a variable, which comes after all others.
fn add_term(alloc: Global, form: &mut Form, term: Term) -> Result<(), AllocError> {
    let variable = Form::variable(alloc, term.var)?;
    match form.add_scaled(term.coefficient, &variable) {
        Err(FormError::Memory) => Err(AllocError),
        _ => Ok(()),
    }
}

/// The form of the sum and this constant.
pub fn form_of(alloc: Global, terms: &[Term], constant: i128) -> Result<Form, AllocError> {
    let mut form = Form::constant(alloc, constant);
    for term in terms {
        add_term(alloc, &mut form, *term)?;
    }
    Ok(form)
}
