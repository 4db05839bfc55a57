//! Which variable is eliminated next, and by which sums.

use crate::counts::{Count, Counts};
use og_search_rows::{Inequality, Rows, Term};
use std::alloc::AllocError;

/// Rows in which the variable is positive, each of which goes with each in which it is negative.
#[derive(Drop)]
pub(crate) struct Product {
    pub(crate) above: Vec<usize>,
    pub(crate) below: Vec<usize>,
}

/// The variable that is eliminated next, and the pairs of rows whose sums take the place of those
/// in which it occurs.
#[derive(Drop)]
pub(crate) struct Plan {
    pub(crate) var: u32,
    pub(crate) first: Product,
    pub(crate) second: Product,
}

// Two rows that together say that a form is 0.
#[derive(Clone, Copy)]
struct Equality {
    row: usize,
    opposite: usize,
}

// What it costs to eliminate a variable by an equality: a coefficient other than 1 and -1 above
// all, and then the rows in which the variable occurs.
#[derive(Clone, Copy)]
struct Cost {
    multiplies: bool,
    rows: usize,
}

// A variable, the equality by which it is eliminated, and what that costs.
#[derive(Clone, Copy)]
struct Choice {
    equality: Equality,
    var: u32,
    cost: Cost,
}

impl Equality {
    fn has(self, row: usize) -> bool {
        row == self.row || row == self.opposite
    }

    // Whether the rows are opposite and their constants sum to 0.
    fn holds(self, rows: &Rows) -> bool {
        let (form, opposite) = (rows.form(self.row), rows.form(self.opposite));
        form.constant.checked_neg() == Some(opposite.constant) && form.is_opposite(opposite)
    }
}

impl Cost {
    fn is_below(self, other: Cost) -> bool {
        if self.multiplies == other.multiplies {
            self.rows < other.rows
        } else {
            other.multiplies
        }
    }
}

impl Choice {
    // Whether it costs less, or as much by an earlier row.
    fn is_before(self, other: Choice) -> bool {
        if self.cost.is_below(other.cost) {
            return true;
        }
        !other.cost.is_below(self.cost) && self.equality.row < other.equality.row
    }
}

// The choice that is taken of the two, the first where there is no difference.
fn better(first: Option<Choice>, second: Choice) -> Choice {
    match first {
        Some(first) if !second.is_before(first) => first,
        _ => second,
    }
}

// The directions of the rows with the rows, sorted.
fn by_direction(rows: &Rows, left: &[usize]) -> Result<Vec<(u64, usize)>, AllocError> {
    let mut sorted = Vec::with_capacity(rows.alloc(), left.len())?;
    for row in left {
        sorted.push((rows.direction(*row), *row))?;
    }
    sorted.sort_unstable();
    Ok(sorted)
}

// The equalities among the rows, between neighbours where they are sorted by direction.
fn equalities(rows: &Rows, left: &[usize]) -> Result<Vec<Equality>, AllocError> {
    let sorted = by_direction(rows, left)?;
    let mut found = Vec::new(rows.alloc());
    for pair in sorted.windows(2) {
        if let [(direction, row), (other, opposite)] = pair {
            let (row, opposite) = (*row, *opposite);
            let equality = Equality { row, opposite };
            if direction == other && equality.holds(rows) {
                found.push(equality)?;
            }
        }
    }
    Ok(found)
}

fn cost_by_equality(counts: &Counts, term: Term) -> Cost {
    Cost {
        multiplies: term.coefficient.unsigned_abs() != 1,
        rows: counts.get(term.var).both(),
    }
}

// The cheapest variable of an equality.
fn choice_in(form: &Inequality, counts: &Counts, equality: Equality) -> Option<Choice> {
    let mut best = None;
    for term in &form.terms {
        let choice = Choice {
            equality,
            var: term.var,
            cost: cost_by_equality(counts, *term),
        };
        best = Some(better(best, choice));
    }
    best
}

// The cheapest variable of all equalities.
fn choose_equality(
    rows: &Rows,
    left: &[usize],
    counts: &Counts,
) -> Result<Option<Choice>, AllocError> {
    let mut best = None;
    for equality in &equalities(rows, left)? {
        if let Some(choice) = choice_in(rows.form(equality.row), counts, *equality) {
            best = Some(better(best, choice));
        }
    }
    Ok(best)
}

// How many rows more there are without the variable, if it occurs.
fn growth(count: Count) -> Option<i64> {
    let above = i64::try_from(count.above).ok()?;
    let below = i64::try_from(count.below).ok()?;
    if above == 0 && below == 0 {
        return None;
    }
    above
        .checked_mul(below)?
        .checked_sub(above)?
        .checked_sub(below)
}

// The variable without which there are the fewest rows.
fn choose_variable(counts: &Counts, variables: u32) -> Option<u32> {
    let mut best = None;
    let mut least = i64::MAX;
    for var in 0..variables {
        if let Some(more) = growth(counts.get(var)) {
            if more < least {
                least = more;
                best = Some(var);
            }
        }
    }
    best
}

// The rows in which the variable is positive and those in which it is negative, but for those of
// an equality.
fn sides(
    rows: &Rows,
    left: &[usize],
    var: u32,
    but: Option<Equality>,
) -> Result<Product, AllocError> {
    let mut above = Vec::new(rows.alloc());
    let mut below = Vec::new(rows.alloc());
    for row in left {
        if matches!(but, Some(equality) if equality.has(*row)) {
            continue;
        }
        let coefficient = rows.form(*row).coefficient(var);
        if coefficient > 0 {
            above.push(*row)?;
        } else if coefficient < 0 {
            below.push(*row)?;
        }
    }
    Ok(Product { above, below })
}

// Each row with the variable goes with that row of the equality that takes it away.
fn plan_by_equality(rows: &Rows, left: &[usize], choice: Choice) -> Result<Plan, AllocError> {
    let Choice { equality, var, .. } = choice;
    let (above, below) = if rows.form(equality.row).coefficient(var) > 0 {
        (equality.row, equality.opposite)
    } else {
        (equality.opposite, equality.row)
    };
    let others = sides(rows, left, var, Some(equality))?;
    Ok(Plan {
        var,
        first: Product {
            above: others.above,
            below: vec![in rows.alloc(); below]?,
        },
        second: Product {
            above: vec![in rows.alloc(); above]?,
            below: others.below,
        },
    })
}

// Each row in which the variable is positive goes with each in which it is negative.
fn plan_by_pairs(rows: &Rows, left: &[usize], var: u32) -> Result<Plan, AllocError> {
    Ok(Plan {
        var,
        first: sides(rows, left, var, None)?,
        second: Product {
            above: Vec::new(rows.alloc()),
            below: Vec::new(rows.alloc()),
        },
    })
}

/// The variable eliminated next from the rows that are left; none where no variable is left.
pub(crate) fn next_plan(
    rows: &Rows,
    left: &[usize],
    variables: u32,
) -> Result<Option<Plan>, AllocError> {
    let counts = Counts::of(rows, left, variables)?;
    if let Some(choice) = choose_equality(rows, left, &counts)? {
        return Ok(Some(plan_by_equality(rows, left, choice)?));
    }
    match choose_variable(&counts, variables) {
        Some(var) => Ok(Some(plan_by_pairs(rows, left, var)?)),
        None => Ok(None),
    }
}
