//! Rows: inequalities that follow from facts, each with what it was made of.

ghost use Rattle.std.specs.Prelude.{◌≡◌, ◌<◌, ◌≤◌, ℤ, pos, ◌-◌, ◌+◌, ◌≤ℤ◌, ◌<ℤ◌, ◌*ℤ◌, ◌+ℤ◌, ◌↔◌, List, [], ◌∷◌, Ok, Some, None, true, IfOk, IfErr, IfSome, IfNone, OnOk, OnErr, IsOk, IsTrue, MatchOption, All, take, length, slice_get};
ghost use Rattle.std.specs.Option.{IsSomeAnd};
ghost use Rattle.og_search_rows.specs.Inequality.{form_of, left_side, Holds};
ghost use Rattle.og_linear.specs.Linear.{value_at};
ghost use Rattle.og_search_rows.specs.Bounds.{bound_at, Meets};
ghost use Rattle.og_search_rows.specs.Rows.{is_given, HoldsAt, AllFollow, Contradicts, Extends, IsRowOf, AddsRowOf, ShowsContradiction, IsJustified, weighted, left_of};

use crate::bounds::{Bounds, HIGHEST, LOWEST, Side};
use crate::error::{AddError, RowError};
use crate::inequality::{Inequality, Term};
use crate::levels::{Levels, Place};
use crate::model::Model;
use crate::pool::Pool;
use std::alloc::{AllocError, Global};
use std::{marker, mem};

/// A multiple of a row.
#[derive(Clone, Copy)]
pub struct Summand {
    pub times: u64,
    pub row: usize,
}

/// What a row was made of.
#[derive(Drop)]
pub enum Origin {
    /// The fact at this place.
    Given(Place),
    /// That the variable is within the range of `i64` on this side.
    Range { var: u32, side: Side },
    /// The sum of these multiples of rows.
    Sum(Vec<Summand>),
    /// A row divided.
    Cut { row: usize, divisor: i128 },
}

impl Origin {
    // How many steps of the budget the row costs.
    fn cost(&self) -> u64 {
        match self {
            Origin::Given(_) | Origin::Range { .. } => 0,
            Origin::Sum(_) | Origin::Cut { .. } => 1,
        }
    }
}

// That the variable is within the range of `i64` on this side.
fn range_form(alloc: Global, var: u32, side: Side) -> Result<Inequality, AllocError>
    ensures { IfOk result (λ f.
        (s : List ℤ) → Holds f s ↔ Meets side (bound_at [] var side).value (value_at s var)) }
{
    let (coefficient, constant) = match side {
        Side::Lower => (-1, LOWEST),
        Side::Upper => (1, -HIGHEST),
    };
    Inequality::single(alloc, Term { var, coefficient }, constant)
}

/// An inequality that follows from the facts of these levels.
#[derive(Drop)]
pub struct Row {
    pub form: Inequality,
    pub origin: Origin,
    pub used: Levels,
    pub direction: u64,
}

/// What came of an inequality that was added, where it is no contradiction.
#[derive(Clone, Copy)]
pub enum Added {
    /// It is this row.
    Row(usize),
    /// It says nothing, or its numbers are too large.
    Nothing,
}

/// Rows by their numbers, and the budget that is left.
///
/// Each row is true of every state of `i64` values of which the facts among the rows up to it are
/// true.
#[derive(Drop)]
pub struct Rows {
    alloc: Global,
    rows: Vec<Row>,
    // What stands for a row that is not there.
    nothing: Inequality,
    budget: u64,
    // The memory of rows that were forgotten.
    pool: Pool,
}

// Takes the rows from a place on away, the last one first, and their memory into the pool.
fn recycle(rows: &mut Vec<Row>, pool: &mut Pool, from: usize)
    ensures { rows.new.items ≡ take from rows.old.items }
{
    'back: while rows.len() > from {
        let Some(row) = rows.pop() else {
            return;
        };
        pool.take(row);
    }
}

impl marker::Model for Rows {
    ghost use Rattle.std.specs.Prelude.{◌≡◌, [], pos};
    ghost use Rattle.og_search_rows.specs.Rows.{RowsValue, AllFollow};

    ghost Value = { RowsValue };

    ghost view = { λ r. record { rows = r.rows.items; budget = r.budget } };

    ghost invariant = { λ r. AllFollow r.rows.items × (r.nothing.terms.items ≡ []) × (r.nothing.constant ≡ pos 0) };
}

impl Rows {
    /// No rows, and this many steps to spend.
    pub fn new(alloc: Global, budget: u64) -> Rows
        ensures rows { result.rows ≡ [] }
        ensures budget { result.budget ≡ budget }
    {
        Rows {
            alloc,
            rows: Vec::new(alloc),
            nothing: Inequality::number(alloc, 0),
            budget,
            pool: Pool::new(alloc),
        }
    }

    /// The allocator.
    pub fn alloc(&self) -> Global {
        self.alloc
    }

    /// How many rows there are. Each follows from the facts up to it.
    pub fn len(&self) -> usize
        ensures len { result ≡ length self.now.rows }
        ensures follow { AllFollow self.now.rows }
    {
        self.rows.len()
    }

    /// Forgets the rows from this one on. Rows that are added later take their memory.
    pub fn forget(&mut self, from: usize)
        ensures rows { self.new.rows ≡ take from self.old.rows }
        ensures budget { self.new.budget ≡ self.old.budget }
    {
        let Rows { rows, pool, .. } = self;
        recycle(rows, pool, from);
    }

    /// What the row was made of, if there is such a row.
    pub fn origin(&self, row: usize) -> Option<&Origin>
        ensures { MatchOption result (slice_get self.now.rows row ≡ None)
            (λ o. IsSomeAnd (slice_get self.now.rows row) (λ r. r.origin ≡ o.now)) }
    {
        match self.rows.get(row) {
            Some(row) => Some(&row.origin),
            None => None,
        }
    }

    /// Whether the row is a fact.
    pub fn is_fact(&self, row: usize) -> bool
        ensures { IsTrue result ↔ IsSomeAnd (slice_get self.now.rows row)
            (λ r. is_given r.origin ≡ true) }
    {
        match self.rows.get(row) {
            Some(row) => matches!(row.origin, Origin::Given(_)),
            None => false,
        }
    }

    /// The inequality that the row is; 0 <= 0 where there is no such row.
    pub fn form(&self, row: usize) -> &Inequality
        ensures { (s : List ℤ) → left_side result.now s ≡ left_of (slice_get self.now.rows row) s }
    {
        match self.rows.get(row) {
            Some(row) => &row.form,
            None => &self.nothing,
        }
    }

    /// The levels of the facts from which the row follows.
    pub fn used(&self, row: usize) -> Levels
        ensures { IfSome (slice_get self.now.rows row) (λ r. result ≡ r.used) }
    {
        match self.rows.get(row) {
            Some(row) => row.used,
            None => Levels::NONE,
        }
    }

    /// The direction of the row's terms (`Inequality::direction`).
    pub fn direction(&self, row: usize) -> u64
        ensures { IfSome (slice_get self.now.rows row) (λ r. result ≡ r.direction) }
    {
        match self.rows.get(row) {
            Some(row) => row.direction,
            None => 0,
        }
    }

    /// Takes this many steps from the budget. `Budget` where fewer are left, and then none is
    /// taken.
    pub fn spend(&mut self, steps: u64) -> Result<(), RowError>
        ensures spent { OnOk result (self.new
            ≡ record self.old { budget = self.old.budget - steps }) }
        ensures enough { IsOk result ↔ (steps ≤ self.old.budget) }
        ensures kept { OnErr result (self.new ≡ self.old) }
    {
        match self.budget.checked_sub(steps) {
            Some(left) => {
                self.budget = left;
                Ok(())
            }
            None => Err(RowError::Budget),
        }
    }

    // The levels of all rows of a sum.
    fn used_by_all(&self, sum: &[Summand]) -> Levels {
        let mut used = Levels::NONE;
        for part in sum {
            used = used.union(self.used(part.row));
        }
        used
    }

    // The levels of the facts from which a row of this origin follows.
    fn used_by(&self, origin: &Origin) -> Levels {
        match origin {
            Origin::Given(place) => Levels::one(place.level),
            Origin::Range { .. } => Levels::NONE,
            Origin::Sum(sum) => self.used_by_all(sum),
            Origin::Cut { row, .. } => self.used(*row),
        }
    }

    // Adds a row as it is, the last one.
    fn push(&mut self, form: Inequality, origin: Origin) -> Result<usize, RowError>
        requires { IsJustified self.old.rows form origin }
        ensures extends { Extends self.old.rows self.new.rows }
        ensures row { IfOk result (λ i. IsRowOf self.new.rows i (Holds form)) }
        ensures follow { AllFollow self.new.rows }
    {
        let number = self.rows.len();
        self.spend(origin.cost())?;
        let used = self.used_by(&origin);
        let direction = form.direction();
        self.rows.push(Row {
            form,
            origin,
            used,
            direction,
        })?;
        Ok(number)
    }

    // Adds a row that no state makes true. It shows that the facts contradict each other.
    fn push_contradiction(&mut self, form: Inequality, origin: Origin) -> Result<usize, RowError>
        requires justified { IsJustified self.old.rows form origin }
        requires terms { form.terms.items ≡ [] }
        requires above { pos 0 <ℤ form.constant }
        ensures extends { Extends self.old.rows self.new.rows }
        ensures contradiction { IfOk result (Contradicts self.new.rows) }
    {
        let row = self.push(form, origin)?;
        Ok(row)
    }

    // The row divided by the common divisor of its coefficients.
    fn cut(&mut self, row: usize) -> Result<usize, RowError>
        requires { row < length self.old.rows }
        ensures extends { Extends self.old.rows self.new.rows }
        ensures row { IfOk result (λ i. IsRowOf self.new.rows i (HoldsAt self.old.rows row)) }
    {
        let divisor = self.form(row).divisor();
        if divisor <= 1 {
            return Ok(row);
        }
        match self.form(row).divided(self.alloc, divisor)? {
            Some(form) => {
                let part = self.push(form, Origin::Cut { row, divisor })?;
                Ok(part)
            }
            None => Ok(row),
        }
    }

    // Adds an inequality, divided by the common divisor of its coefficients.
    fn add(&mut self, form: Inequality, origin: Origin) -> Result<Added, AddError>
        requires { IsJustified self.old.rows form origin }
        ensures extends { Extends self.old.rows self.new.rows }
        ensures row { IfOk result (λ a. AddsRowOf self.new.rows a (Holds form)) }
        ensures contradiction { IfErr result (ShowsContradiction self.new.rows) }
    {
        if form.terms.is_empty() {
            if form.constant <= 0 {
                return Ok(Added::Nothing);
            }
            let row = self.push_contradiction(form, origin)?;
            return Err(AddError::Contradiction(row));
        }
        if form.is_large() {
            return Ok(Added::Nothing);
        }
        let whole = self.push(form, origin)?;
        let row = self.cut(whole)?;
        Ok(Added::Row(row))
    }

    /// Adds a fact, divided by the common divisor of its coefficients: a row that says just what it
    /// says. Nothing where it is true of all states or a number is too large.
    ///
    /// # Errors
    ///
    /// `Contradiction` where it is false of all states, with its row; `Budget` and `Memory`. The
    /// earlier rows stay.
    pub fn add_fact(&mut self, form: &Inequality, place: Place) -> Result<Added, AddError>
        ensures extends { Extends self.old.rows self.new.rows }
        ensures row { IfOk result (λ a. AddsRowOf self.new.rows a (Holds form.now)) }
        ensures contradiction { IfErr result (ShowsContradiction self.new.rows) }
    {
        let terms = self.pool.terms(&form.terms)?;
        let constant = form.constant;
        self.add(Inequality { terms, constant }, Origin::Given(place))
    }

    // The sum of two multiples of rows, in the memory of these terms; none where a number leaves
    // `i128`.
    fn sum_of(
        &self,
        room: Vec<Term>,
        first: Summand,
        second: Summand,
    ) -> Result<Option<Inequality>, AllocError>
        ensures { IfOk result (λ found. IfSome found (λ f. (s : List ℤ)
            → left_side f s ≡ weighted self.now.rows (first ∷ second ∷ []) s)) }
    {
        let a = self.form(first.row).times(i128::from(first.times));
        let b = self.form(second.row).times(i128::from(second.times));
        let Some(form) = Inequality::sum_in(room, a, b)? else {
            return Ok(None);
        };
        Ok(Some(form))
    }

    /// Adds the sum of two multiples of rows, divided by the common divisor of its coefficients.
    /// Nothing where it is true of all states or a number is too large.
    ///
    /// # Errors
    ///
    /// `Contradiction` where it is false of all states, with its row: then no state makes the facts
    /// true; `Budget` and `Memory`. The earlier rows stay.
    pub fn add_sum(&mut self, first: Summand, second: Summand) -> Result<Added, AddError>
        ensures extends { Extends self.old.rows self.new.rows }
        ensures row { IfOk result (λ a. AddsRowOf self.new.rows a
            (λ s. weighted self.old.rows (first ∷ second ∷ []) s ≤ℤ pos 0)) }
        ensures contradiction { IfErr result (ShowsContradiction self.new.rows) }
    {
        let room = self.pool.room();
        let Some(form) = self.sum_of(room, first, second)? else {
            return Ok(Added::Nothing);
        };
        let sum = self.pool.sum(&[first, second])?;
        let added = self.add(form, Origin::Sum(sum))?;
        Ok(added)
    }

    /// The row of a bound of the variable, that of the range of `i64` where no other says it.
    ///
    /// # Errors
    ///
    /// `Budget` and `Memory`. The earlier rows stay.
    pub fn bound_row(&mut self, bounds: &Bounds, var: u32, side: Side) -> Result<usize, RowError>
        ensures extends { Extends self.old.rows self.new.rows }
        ensures said { IfSome (bound_at bounds.now.intervals var side).row (λ i. result ≡ Ok i) }
        ensures range { IfNone (bound_at bounds.now.intervals var side).row
            (IfOk result (λ i. IsRowOf self.new.rows i (λ s. Meets side (bound_at [] var side).value (value_at s var)))) }
    {
        if let Some(row) = bounds.get(var, side).row {
            return Ok(row);
        }
        let form = range_form(self.alloc, var, side)?;
        self.push(form, Origin::Range { var, side })
    }

    // Adds to a sum the multiples of bounds by which all these terms but those of one variable
    // cancel out. Returns whether the multiples fit.
    fn put_bounds(
        &mut self,
        sum: &mut Vec<Summand>,
        terms: &[Term],
        but: Option<u32>,
        bounds: &Bounds,
    ) -> Result<bool, RowError>
        ensures { Extends self.old.rows self.new.rows }
    {
        for term in terms {
            if but != Some(term.var) {
                let Ok(times) = u64::try_from(term.coefficient.unsigned_abs()) else {
                    return Ok(false);
                };
                let side = Side::of_least(term.coefficient);
                let row = self.bound_row(bounds, term.var, side)?;
                sum.push(Summand { times, row })?;
            }
        }
        Ok(true)
    }

    // The sum of these multiples of rows; none where a number leaves `i128`.
    fn total(&mut self, sum: &[Summand]) -> Result<Option<Inequality>, AllocError>
        ensures total { IfOk result (λ found. IfSome found (λ f. (s : List ℤ)
            → left_side f s ≡ weighted self.old.rows sum.now s)) }
        ensures same { self.new ≡ self.old }
    {
        let mut total = Inequality::number(self.alloc, 0);
        for part in sum {
            let room = self.pool.room();
            let next = self.form(part.row).times(i128::from(part.times));
            let Some(more) = Inequality::sum_in(room, total.times(1), next)? else {
                return Ok(None);
            };
            let spent = mem::replace(&mut total, more);
            self.pool.take_terms(spent.terms);
        }
        Ok(Some(total))
    }

    // Adds the sum of these multiples of rows, where its numbers fit.
    fn add_total(&mut self, sum: Vec<Summand>) -> Result<Added, AddError>
        ensures extends { Extends self.old.rows self.new.rows }
        ensures row { IfOk result (λ a. AddsRowOf self.new.rows a
            (λ s. weighted self.old.rows sum.items s ≤ℤ pos 0)) }
        ensures contradiction { IfErr result (ShowsContradiction self.new.rows) }
    {
        let Some(form) = self.total(&sum)? else {
            return Ok(Added::Nothing);
        };
        let added = self.add(form, Origin::Sum(sum))?;
        Ok(added)
    }

    /// Adds the sum of the row and the bounds of all its variables but one, as `add_sum` does.
    ///
    /// # Errors
    ///
    /// As of `add_sum`.
    pub fn add_with_bounds(
        &mut self,
        row: usize,
        but: Option<u32>,
        bounds: &Bounds,
    ) -> Result<Added, AddError>
        ensures extends { Extends self.old.rows self.new.rows }
        ensures contradiction { IfErr result (ShowsContradiction self.new.rows) }
    {
        let terms = self.form(row).terms.clone()?;
        let mut sum = self.pool.sum(&[Summand { times: 1, row }])?;
        let fits = self.put_bounds(&mut sum, &terms, but, bounds)?;
        self.pool.take_terms(terms);
        if fits {
            self.add_total(sum)
        } else {
            Ok(Added::Nothing)
        }
    }

    /// Adds the sum of two rows and the bounds of the variables that do not cancel out, as
    /// `add_sum` does.
    ///
    /// # Errors
    ///
    /// As of `add_sum`.
    pub fn add_pair(
        &mut self,
        first: usize,
        second: usize,
        bounds: &Bounds,
    ) -> Result<Added, AddError>
        ensures extends { Extends self.old.rows self.new.rows }
        ensures contradiction { IfErr result (ShowsContradiction self.new.rows) }
    {
        let room = self.pool.room();
        let (a, b) = (self.form(first).times(1), self.form(second).times(1));
        let Some(form) = Inequality::sum_in(room, a, b)? else {
            return Ok(Added::Nothing);
        };
        let one = Summand {
            times: 1,
            row: first,
        };
        let other = Summand {
            times: 1,
            row: second,
        };
        let mut sum = self.pool.sum(&[one, other])?;
        let fits = self.put_bounds(&mut sum, &form.terms, None, bounds)?;
        self.pool.take_terms(form.terms);
        if fits {
            self.add_total(sum)
        } else {
            Ok(Added::Nothing)
        }
    }

    /// Whether all these rows hold of the model, as far as `i128` shows.
    pub fn all_hold(&self, rows: &[usize], model: &Model) -> bool
        ensures { IsTrue result → All (λ i. HoldsAt self.now.rows i model.now) rows.now }
    {
        for row in rows {
            if !self.form(*row).holds(model) {
                return false;
            }
        }
        true
    }
}
