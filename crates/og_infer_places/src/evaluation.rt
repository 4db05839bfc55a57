//! Assertions and actions at values. A variable without a value has 0. Takes no memory.

use og_linear::Form;
use og_subst::Action;
use og_typed::{Assert, Basic};

/// The most variables that an outline has.
const VARIABLE_LIMIT: usize = 256;

// The sum with a term more, where it fits.
fn with_term(sum: i128, coefficient: i128, value: i64) -> Option<i128> {
    sum.checked_add(coefficient.checked_mul(i128::from(value))?)
}

fn value_at(values: &[i64], var: u32) -> i64 {
    values.get(var as usize).copied().unwrap_or(0)
}

// The value of the form, where each product and each partial sum fits.
fn value_of(form: &Form, values: &[i64]) -> Option<i128> {
    let mut sum = form.offset();
    for i in 0..usize::MAX {
        match form.term(i) {
            Some((var, c)) => sum = with_term(sum, c, value_at(values, var))?,
            None => return Some(sum),
        }
    }
    None
}

// Whether one of the assertions has this truth, where each number that is looked at fits 128 bits.
#[cycle(truth)]
fn some_is(all: &[Assert], values: &[i64], truth: bool) -> Option<bool> {
    for a in all {
        if truth_of(a, values)? == truth {
            return Some(true);
        }
    }
    Some(false)
}

// The truth of an assertion, where each number that is looked at fits 128 bits.
#[cycle(truth)]
fn truth_of(assertion: &Assert, values: &[i64]) -> Option<bool> {
    match assertion {
        Assert::True => Some(true),
        Assert::False => Some(false),
        Assert::Le(form) => Some(value_of(form, values)? <= 0),
        Assert::Eq(form) => Some(value_of(form, values)? == 0),
        Assert::Ne(form) => Some(value_of(form, values)? != 0),
        Assert::Not(a) => Some(!truth_of(a, values)?),
        Assert::And(all) => Some(!some_is(all, values, false)?),
        Assert::Or(all) => some_is(all, values, true),
        Assert::Imp(a, b) => Some(!truth_of(a, values)? || truth_of(b, values)?),
    }
}

/// Whether the assertion is true of the values, by the numbers of the variables. It is not where a
/// number that is looked at leaves 128 bits.
pub fn is_true(assertion: &Assert, values: &[i64]) -> bool {
    truth_of(assertion, values).unwrap_or(false)
}

/// Whether an action is not held up by its guard.
pub(crate) fn is_open(guard: Option<&Assert>, values: &[i64]) -> bool {
    match guard {
        Some(guard) => is_true(guard, values),
        None => true,
    }
}

// The number, or the nearest one that is an i64.
fn nearest(number: i128) -> i64 {
    match i64::try_from(number) {
        Ok(value) => value,
        Err(_) if number < 0 => i64::MIN,
        Err(_) => i64::MAX,
    }
}

// The variable gets the form's value, or what is nearest to it. Whether that is an i64.
fn assign(values: &mut [i64], var: u32, form: &Form) -> bool {
    let Some(number) = value_of(form, values) else {
        return false;
    };
    let value = nearest(number);
    if let Some(own) = values.get_mut(var as usize) {
        *own = value;
    }
    i128::from(value) == number
}

// The assignments in their order. Whether each value is an i64.
fn run(values: &mut [i64], body: &[Basic]) -> bool {
    let mut fits = true;
    for basic in body {
        if let Basic::Assign(var, form) = basic {
            fits = assign(values, *var, form) && fits;
        }
    }
    fits
}

/// Does the assignments of an action in their order; no guard is asked. A value that is no `i64`
/// becomes the nearest one, and where a number on the way leaves 128 bits the variable keeps its
/// value. Answers whether no value had to be changed so.
pub fn apply(action: &Action, values: &mut [i64]) -> bool {
    match action {
        Action::Assign(var, form) => assign(values, *var, form),
        Action::Await(body) => run(values, body),
    }
}

// As many of the values as there is room for.
fn copy_values(from: &[i64], to: &mut [i64]) {
    for (own, value) in to.iter_mut().zip(from) {
        *own = *value;
    }
}

/// Does the assignments of an action, where each value is an `i64`. Else the values stay, of which
/// there are at most 256.
pub(crate) fn attempt(action: &Action, values: &mut [i64]) -> bool {
    let mut before = [0; VARIABLE_LIMIT];
    copy_values(values, &mut before);
    if apply(action, values) {
        return true;
    }
    copy_values(&before, values);
    false
}
