//! Bounds that follow from rows.

ghost use Rattle.std.specs.Prelude.{IfErr};
ghost use Rattle.og_search_rows.specs.Rows.{Extends, ShowsContradiction};
ghost use Rattle.og_search_rows.specs.Bounds.{LeadsBack};

use og_search_rows::{AddError, Added, Bounds, Limit, Rows, Side, Summand, Term, Variables};

/// Takes note of a row of one variable. Ends with a contradiction where no value is left.
pub fn note_bound(rows: &mut Rows, row: usize, bounds: &mut Bounds) -> Result<(), AddError>
    ensures extends { Extends rows.old.rows rows.new.rows }
    ensures contradiction { IfErr result (ShowsContradiction rows.new.rows) }
    ensures back { LeadsBack bounds.new bounds.old }
{
    let Some(var) = bounds.take(rows.form(row), Some(row))? else {
        return Ok(());
    };
    if !bounds.is_empty_at(var) {
        return Ok(());
    }
    let lower = Summand {
        times: 1,
        row: rows.bound_row(bounds, var, Side::Lower)?,
    };
    let upper = Summand {
        times: 1,
        row: rows.bound_row(bounds, var, Side::Upper)?,
    };
    rows.add_sum(lower, upper)?;
    Ok(())
}

/// Ends with a contradiction where a row is false at all values within the bounds.
pub fn close_within(rows: &mut Rows, row: usize, bounds: &Bounds) -> Result<(), AddError>
    ensures extends { Extends rows.old.rows rows.new.rows }
    ensures contradiction { IfErr result (ShowsContradiction rows.new.rows) }
{
    if bounds.exclude(rows.form(row)) {
        rows.add_with_bounds(row, None, bounds)?;
    }
    Ok(())
}

// Which variables of a row may get a better bound.
#[derive(Clone, Copy)]
enum Open {
    // Each of them.
    All,
    // The only one without a bound of its own on the side that the others need.
    Only(u32),
    // None of them.
    None,
}

impl Open {
    fn has(self, var: u32) -> bool {
        match self {
            Open::All => true,
            Open::Only(only) => var == only,
            Open::None => false,
        }
    }
}

fn open_variables(rows: &Rows, row: usize, bounds: &Bounds) -> Open {
    let mut open = Open::All;
    for term in &rows.form(row).terms {
        if bounds.least_at(*term).row.is_none() {
            open = match open {
                Open::All => Open::Only(term.var),
                _ => return Open::None,
            };
        }
    }
    open
}

// What a row with this least value says of the variable of one of its terms, where the others are
// within the bounds.
fn limit_within(bounds: &Bounds, term: Term, least: i128) -> Option<Limit> {
    let own = term.coefficient.checked_mul(bounds.least_at(term).value)?;
    Limit::of(term.coefficient, least.checked_sub(own)?)
}

// Whether that gives the variable a better bound.
fn is_better(bounds: &Bounds, term: Term, least: i128) -> bool {
    match limit_within(bounds, term, least) {
        Some(limit) => bounds.is_improved_by(term.var, limit),
        None => false,
    }
}

// Whether that gives one of the open variables of the row a better bound.
fn has_better(rows: &Rows, row: usize, bounds: &Bounds, open: Open, least: i128) -> bool {
    let mut terms = rows.form(row).terms.iter();
    terms.any(|term| open.has(term.var) && is_better(bounds, *term, least))
}

// Adds the bound of one variable that follows from the row and the bounds of the others.
#[tactic(auto, using(og_search_rows::proofs::Trail::leads_back_same, og_search_rows::proofs::Trail::leads_back_on))]
fn narrow_one(rows: &mut Rows, row: usize, var: u32, bounds: &mut Bounds) -> Result<(), AddError>
    ensures extends { Extends rows.old.rows rows.new.rows }
    ensures contradiction { IfErr result (ShowsContradiction rows.new.rows) }
    ensures back { LeadsBack bounds.new bounds.old }
{
    match rows.add_with_bounds(row, Some(var), bounds)? {
        Added::Row(row) => note_bound(rows, row, bounds),
        Added::Nothing => Ok(()),
    }
}

// Adds the bounds that follow from one row.
#[tactic(auto, using(og_search_rows::proofs::Trail::leads_back_same, og_search_rows::proofs::Trail::leads_back_on))]
fn narrow_by(rows: &mut Rows, row: usize, bounds: &mut Bounds) -> Result<(), AddError>
    ensures extends { Extends rows.old.rows rows.new.rows }
    ensures contradiction { IfErr result (ShowsContradiction rows.new.rows) }
    ensures back { LeadsBack bounds.new bounds.old }
{
    let Some(least) = bounds.least(rows.form(row)) else {
        return Ok(());
    };
    if least > 0 {
        rows.add_with_bounds(row, None, bounds)?;
    }
    let open = open_variables(rows, row, bounds);
    if !has_better(rows, row, bounds, open, least) {
        return Ok(());
    }
    let terms = rows.form(row).terms.clone()?;
    for term in &terms {
        if open.has(term.var) && is_better(bounds, *term, least) {
            narrow_one(rows, row, term.var, bounds)?;
        }
    }
    Ok(())
}

/// Adds the bounds that follow from rows of several variables, each row once and in order: from the
/// rows from a place on, and before it from those that may have a variable that is among these, or
/// that got a better bound since `bounds` was made, or since its last mark. Ends with a
/// contradiction where no value of a variable is left.
#[tactic(auto, using(og_search_rows::proofs::Trail::leads_back_same, og_search_rows::proofs::Trail::leads_back_on))]
pub fn narrow(
    rows: &mut Rows,
    base: &[usize],
    from: usize,
    late: Variables,
    bounds: &mut Bounds,
) -> Result<(), AddError>
    ensures extends { Extends rows.old.rows rows.new.rows }
    ensures contradiction { IfErr result (ShowsContradiction rows.new.rows) }
    ensures back { LeadsBack bounds.new bounds.old }
{
    for (place, row) in base.iter().enumerate() {
        let terms = &rows.form(*row).terms;
        let known = late.union(bounds.changed());
        let is_due = place >= from || Variables::of(terms).may_meet(known);
        if terms.len() > 1 && is_due {
            narrow_by(rows, *row, bounds)?;
        }
    }
    Ok(())
}
