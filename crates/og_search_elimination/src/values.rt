//! Whole numbers for variables that were eliminated.

use crate::working::Eliminated;
use og_search_rows::{HIGHEST, Inequality, LOWEST, Limit, Model, Rows, Side};

/// A variable for which no whole number fits: it is at most this, or above it.
#[derive(Clone, Copy)]
pub struct Gap {
    pub var: u32,
    pub most: i128,
}

/// Why a variable gets no value.
#[derive(Clone, Copy)]
pub(crate) enum Misfit {
    /// No whole number fits.
    Gap(Gap),
    /// What fits is outside the range of `i64`.
    OutOfRange,
    /// A number is too large.
    TooLarge,
}

// The least and the greatest value of a variable, as far as there are such.
#[derive(Clone, Copy)]
struct Limits {
    low: Option<i128>,
    high: Option<i128>,
}

impl Limits {
    // The limits with one more.
    fn and(self, limit: Limit) -> Limits {
        let value = limit.value;
        match limit.side {
            Side::Lower => Limits {
                low: Some(self.low.unwrap_or(value).max(value)),
                high: self.high,
            },
            Side::Upper => Limits {
                low: self.low,
                high: Some(self.high.unwrap_or(value).min(value)),
            },
        }
    }
}

// What the inequality says of the variable, where the others have these values.
fn limit_of(form: &Inequality, var: u32, model: &Model) -> Option<Limit> {
    let coefficient = form.coefficient(var);
    let own = coefficient.checked_mul(model.value(var))?;
    let rest = form.value(model)?.checked_sub(own)?;
    Limit::of(coefficient, rest)
}

// The limits that the rows set to a variable.
fn limits_of(rows: &Rows, gone: &Eliminated, model: &Model) -> Option<Limits> {
    let mut limits = Limits {
        low: None,
        high: None,
    };
    for row in &gone.rows {
        limits = limits.and(limit_of(rows.form(*row), gone.var, model)?);
    }
    Some(limits)
}

// Gives the variable a value within the limits, its old one if that fits.
fn settle(limits: Limits, var: u32, model: &mut Model) -> Result<(), Misfit> {
    if let (Some(low), Some(most)) = (limits.low, limits.high) {
        if low > most {
            return Err(Misfit::Gap(Gap { var, most }));
        }
    }
    let low = limits.low.unwrap_or(LOWEST).max(LOWEST);
    let high = limits.high.unwrap_or(HIGHEST).min(HIGHEST);
    if low > high {
        return Err(Misfit::OutOfRange);
    }
    let value = model.value(var).max(low).min(high);
    model.set(var, value);
    Ok(())
}

/// Gives each variable a value, the last that was eliminated first.
pub(crate) fn set_values(
    rows: &Rows,
    gone: &[Eliminated],
    model: &mut Model,
) -> Result<(), Misfit> {
    for one in gone.iter().rev() {
        let limits = limits_of(rows, one, model).ok_or(Misfit::TooLarge)?;
        settle(limits, one.var, model)?;
    }
    Ok(())
}
