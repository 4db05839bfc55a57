//! The rows that are left of an elimination, and the sums that take the place of others.

ghost use Rattle.std.specs.Prelude.{IfErr};
ghost use Rattle.og_search_rows.specs.Rows.{Extends, ShowsContradiction};

use crate::plan::{Plan, Product};
use og_search_rows::{AddError, Added, Bounds, RowError, Rows, Side, Summand, common};
use std::alloc::{AllocError, Global};

/// The most rows at one time.
const ROWS_LIMIT: usize = 500;

/// A variable that was eliminated, and the rows in which it occurred.
#[derive(Drop)]
pub(crate) struct Eliminated {
    pub(crate) var: u32,
    pub(crate) rows: Vec<usize>,
}

/// The rows that are left, by their numbers; of those with the same terms the tightest.
#[derive(Drop)]
pub(crate) struct Working {
    left: Vec<usize>,
}

// A row that is left, and its place there.
#[derive(Clone, Copy)]
struct Standing {
    place: usize,
    row: usize,
}

// The rows that are left with the same terms as a row, and with those with the sign changed.
#[derive(Clone, Copy)]
struct Alike {
    parallel: Option<Standing>,
    opposite: Option<usize>,
}

// The multiples of two rows in whose sum the variable cancels out: in the one it is positive, in
// the other negative.
fn cancelling(rows: &Rows, above: usize, below: usize, var: u32) -> Option<(Summand, Summand)> {
    let rise = rows.form(above).coefficient(var);
    let fall = rows.form(below).coefficient(var).checked_neg()?;
    let divisor = common(rise, fall);
    let first = Summand {
        times: u64::try_from(fall.checked_div(divisor)?).ok()?,
        row: above,
    };
    let second = Summand {
        times: u64::try_from(rise.checked_div(divisor)?).ok()?,
        row: below,
    };
    Some((first, second))
}

// Whether the constant of the one row is at least that of the other.
fn is_as_tight(rows: &Rows, row: usize, other: usize) -> bool {
    rows.form(row).constant >= rows.form(other).constant
}

// Adds the sum of two opposite rows if that is above 0.
fn add_opposite(rows: &mut Rows, row: usize, other: usize) -> Result<(), AddError>
    ensures extends { Extends rows.old.rows rows.new.rows }
    ensures contradiction { IfErr result (ShowsContradiction rows.new.rows) }
{
    let constant = rows.form(row).constant;
    let sum = constant.checked_add(rows.form(other).constant);
    if matches!(sum, Some(sum) if sum > 0) {
        let first = Summand {
            times: 1,
            row: other,
        };
        rows.add_sum(first, Summand { times: 1, row })?;
    }
    Ok(())
}

impl Working {
    /// No row is left.
    pub(crate) fn new(alloc: Global) -> Working {
        Working {
            left: Vec::new(alloc),
        }
    }

    /// The numbers of the rows that are left.
    pub(crate) fn left(&self) -> &[usize] {
        &self.left
    }

    /// Whether there are too many rows to go on.
    pub(crate) fn is_full(&self) -> bool {
        self.left.len() > ROWS_LIMIT
    }

    fn alike(&self, rows: &Rows, row: usize) -> Alike {
        let mut alike = Alike {
            parallel: None,
            opposite: None,
        };
        let form = rows.form(row);
        let direction = rows.direction(row);
        for (place, other) in self.left.iter().enumerate() {
            if rows.direction(*other) == direction {
                let row = *other;
                if rows.form(row).is_parallel(form) {
                    alike.parallel = Some(Standing { place, row });
                } else if rows.form(row).is_opposite(form) {
                    alike.opposite = Some(row);
                }
            }
        }
        alike
    }

    fn replace(&mut self, place: usize, row: usize) {
        if let Some(left) = self.left.get_mut(place) {
            *left = row;
        }
    }

    // Takes a row in, unless the bounds or a row with the same terms imply it.
    fn put(&mut self, rows: &mut Rows, bounds: &Bounds, row: usize) -> Result<(), AddError>
        ensures extends { Extends rows.old.rows rows.new.rows }
        ensures contradiction { IfErr result (ShowsContradiction rows.new.rows) }
    {
        let form = rows.form(row);
        if form.terms.len() > 1 && bounds.imply(form) {
            return Ok(());
        }
        let alike = self.alike(rows, row);
        if matches!(alike.parallel, Some(one) if is_as_tight(rows, one.row, row)) {
            return Ok(());
        }
        if let Some(other) = alike.opposite {
            add_opposite(rows, row, other)?;
        }
        match alike.parallel {
            Some(one) => self.replace(one.place, row),
            None => self.left.push(row)?,
        }
        Ok(())
    }

    /// Takes in those of the rows that have several variables.
    pub(crate) fn put_several(
        &mut self,
        rows: &mut Rows,
        bounds: &Bounds,
        base: &[usize],
    ) -> Result<(), AddError>
        ensures extends { Extends rows.old.rows rows.new.rows }
        ensures contradiction { IfErr result (ShowsContradiction rows.new.rows) }
    {
        for row in base {
            if rows.form(*row).terms.len() > 1 {
                self.put(rows, bounds, *row)?;
            }
        }
        Ok(())
    }

    /// Takes in the row of a bound, the range of `i64` included.
    pub(crate) fn put_bound(
        &mut self,
        rows: &mut Rows,
        bounds: &Bounds,
        var: u32,
        side: Side,
    ) -> Result<(), RowError>
        ensures { Extends rows.old.rows rows.new.rows }
    {
        let row = rows.bound_row(bounds, var, side)?;
        self.left.push(row)?;
        Ok(())
    }

    /// Takes out the rows in which the variable occurs.
    pub(crate) fn take_out(&mut self, rows: &Rows, var: u32) -> Result<Eliminated, AllocError> {
        let mut with = Vec::new(rows.alloc());
        let mut without = Vec::new(rows.alloc());
        for row in &self.left {
            if rows.form(*row).coefficient(var) == 0 {
                without.push(*row)?;
            } else {
                with.push(*row)?;
            }
        }
        self.left = without;
        Ok(Eliminated { var, rows: with })
    }

    // Takes in the sum of two rows in which the variable cancels out.
    fn put_sum(
        &mut self,
        rows: &mut Rows,
        bounds: &Bounds,
        pair: (usize, usize),
        var: u32,
    ) -> Result<(), AddError>
        ensures extends { Extends rows.old.rows rows.new.rows }
        ensures contradiction { IfErr result (ShowsContradiction rows.new.rows) }
    {
        let Some((first, second)) = cancelling(rows, pair.0, pair.1, var) else {
            return Ok(());
        };
        match rows.add_sum(first, second)? {
            Added::Row(row) => self.put(rows, bounds, row),
            Added::Nothing => Ok(()),
        }
    }

    // Takes in the sums of a row with each of those below, until there are too many rows.
    fn put_sums(
        &mut self,
        rows: &mut Rows,
        bounds: &Bounds,
        above: usize,
        below: &[usize],
        var: u32,
    ) -> Result<(), AddError>
        ensures extends { Extends rows.old.rows rows.new.rows }
        ensures contradiction { IfErr result (ShowsContradiction rows.new.rows) }
    {
        for other in below {
            self.put_sum(rows, bounds, (above, *other), var)?;
            if self.is_full() {
                break;
            }
        }
        Ok(())
    }

    // Takes in the sums of all pairs, until there are too many rows.
    fn put_product(
        &mut self,
        rows: &mut Rows,
        bounds: &Bounds,
        product: &Product,
        var: u32,
    ) -> Result<(), AddError>
        ensures extends { Extends rows.old.rows rows.new.rows }
        ensures contradiction { IfErr result (ShowsContradiction rows.new.rows) }
    {
        for above in &product.above {
            self.put_sums(rows, bounds, *above, &product.below, var)?;
            if self.is_full() {
                break;
            }
        }
        Ok(())
    }

    /// Takes in the sums of a plan, of each of its products until there are too many rows.
    pub(crate) fn follow(
        &mut self,
        rows: &mut Rows,
        bounds: &Bounds,
        plan: &Plan,
    ) -> Result<(), AddError>
        ensures extends { Extends rows.old.rows rows.new.rows }
        ensures contradiction { IfErr result (ShowsContradiction rows.new.rows) }
    {
        self.put_product(rows, bounds, &plan.first, plan.var)?;
        self.put_product(rows, bounds, &plan.second, plan.var)
    }
}
