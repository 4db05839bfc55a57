//! The values that are tried at the start of a program: small ones, and those near the constants of
//! its text.

use crate::place::Step;
use crate::places::Places;
use indexmap::IndexSet;
use og_explore::Range;
use og_linear::Form;
use og_typed::Assert;
use std::alloc::{AllocError, Global};

/// The values that are tried more often than others.
const SMALL: [i64; 4] = [0, 1, 2, 3];

/// The values that are tried in each program.
const ALWAYS: [i64; 6] = [0, 1, 2, 3, 5, -1];

/// The most different values.
const VALUES_LIMIT: usize = 256;

// Adds a value, where there is room.
fn add(values: &mut IndexSet<i64>, value: i64) -> Result<(), AllocError> {
    if values.len() < VALUES_LIMIT {
        values.insert(value)?;
    }
    Ok(())
}

// Adds the values near the constant of a form of at most two variables.
fn add_form(values: &mut IndexSet<i64>, form: &Form) -> Result<(), AllocError> {
    if form.term(2).is_some() {
        return Ok(());
    }
    let Ok(value) = i64::try_from(form.offset().unsigned_abs()) else {
        return Ok(());
    };
    add(values, value)?;
    add(values, value.saturating_sub(1))?;
    add(values, value.saturating_add(1))
}

// Adds the values near the constants of an assertion.
#[cycle(constants)]
fn add_assertion(values: &mut IndexSet<i64>, assertion: &Assert) -> Result<(), AllocError> {
    match assertion {
        Assert::True | Assert::False => Ok(()),
        Assert::Le(form) | Assert::Eq(form) | Assert::Ne(form) => add_form(values, form),
        Assert::Not(a) => add_assertion(values, a),
        Assert::And(all) | Assert::Or(all) => add_assertions(values, all),
        Assert::Imp(a, b) => {
            add_assertion(values, a)?;
            add_assertion(values, b)
        }
    }
}

// Adds those near the constants of each.
#[cycle(constants)]
fn add_assertions(values: &mut IndexSet<i64>, all: &[Assert]) -> Result<(), AllocError> {
    for a in all {
        add_assertion(values, a)?;
    }
    Ok(())
}

// Adds the values near the constants of the test or the guard of a step.
fn add_step(values: &mut IndexSet<i64>, step: &Step) -> Result<(), AllocError> {
    match step {
        Step::Test { test, .. } => add_assertion(values, test),
        Step::Act {
            guard: Some(guard),
            ..
        } => add_assertion(values, guard),
        _ => Ok(()),
    }
}

// Adds those of all steps.
fn add_steps(values: &mut IndexSet<i64>, places: &Places) -> Result<(), AllocError> {
    for place in places.as_slice() {
        add_step(values, &place.step)?;
    }
    Ok(())
}

// Adds the ends of the ranges.
fn add_ends(values: &mut IndexSet<i64>, given: &[Option<Range>]) -> Result<(), AllocError> {
    for range in given {
        if let Some(range) = range {
            add(values, range.low())?;
            add(values, range.high())?;
        }
    }
    Ok(())
}

// The values that are tried in each program.
fn always(alloc: Global) -> Result<IndexSet<i64>, AllocError> {
    let mut values = IndexSet::new(alloc);
    for value in &ALWAYS {
        add(&mut values, *value)?;
    }
    Ok(values)
}

/// The values that are tried for a variable: small ones, which stand there twice, the ends of the
/// given ranges, and those near the constants of the pre- and postcondition, the tests and the guards.
///
/// # Errors
///
/// An allocation was refused.
pub(crate) fn tried_values(
    alloc: Global,
    places: &Places,
    given: &[Option<Range>],
) -> Result<Vec<i64>, AllocError> {
    let mut found = always(alloc)?;
    add_ends(&mut found, given)?;
    add_assertion(&mut found, &places.outline().pre().assertion)?;
    add_assertion(&mut found, &places.outline().post().assertion)?;
    add_steps(&mut found, places)?;
    let mut values = Vec::from_slice(alloc, &SMALL)?;
    values.extend_from_slice(found.as_slice())?;
    Ok(values)
}
