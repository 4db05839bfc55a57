//! Bounds of the variables.

ghost use Rattle.std.specs.Prelude.{◌≡◌, ◌≢◌, ◌<◌, ◌%◌, ◌==◌, ◌||◌, ◌++◌, ◌∷◌, [], ℕ, ℤ, false, pos, List, ◌+ℤ◌, ◌*ℤ◌, ◌≤ℤ◌, ◌<ℤ◌, ◌↔◌, IfOk, IfSome, IfNone, OnSome, OnOk, OnErr, IsTrue, replicate, get_or, length, take, drop, slice_set, int_lt, if◌then◌else◌};
ghost use Rattle.og_search_rows.specs.declared.bounds.Side.TheVariants.{Lower, Upper};
ghost use Rattle.og_linear.specs.Linear.{value_at};
ghost use Rattle.og_search_rows.specs.Inequality.{left_side, Holds, part_at, sum_at};
ghost use Rattle.og_search_rows.specs.Variables.{has};
ghost use Rattle.og_search_rows.specs.Bounds.{least, whole, bound_at, bounded, Within, Meets, Tightens, IsBoundOf, GetsBetter, undone, rewound, LeadsBack};

use crate::inequality::{Inequality, Term};
use crate::number::{ceil_div, floor_div, product};
use crate::variables::Variables;
use std::alloc::{AllocError, Global};
use std::marker;

/// The least value of a variable.
pub const LOWEST: i128 = -9_223_372_036_854_775_808;

/// The greatest value of a variable.
pub const HIGHEST: i128 = 9_223_372_036_854_775_807;

/// A side on which a variable is bounded.
#[derive(Clone, Copy)]
pub enum Side {
    Lower,
    Upper,
}

impl Side {
    // The first side where the coefficient is above 0, else the second.
    fn by_sign(coefficient: i128, first: Side, second: Side) -> Side
        ensures { result ≡ (if int_lt (pos 0) coefficient then first else second) }
    {
        if coefficient > 0 { first } else { second }
    }

    /// The side on which a term with this coefficient is least.
    pub fn of_least(coefficient: i128) -> Side
        ensures { result ≡ (if int_lt (pos 0) coefficient then Lower else Upper) }
    {
        Side::by_sign(coefficient, Side::Lower, Side::Upper)
    }

    /// The side on which a term with this coefficient is greatest.
    pub fn of_greatest(coefficient: i128) -> Side
        ensures { result ≡ (if int_lt (pos 0) coefficient then Upper else Lower) }
    {
        Side::by_sign(coefficient, Side::Upper, Side::Lower)
    }
}

/// What an inequality says of one of its variables: it is no less, or no greater, than a value.
#[derive(Clone, Copy)]
pub struct Limit {
    pub side: Side,
    pub value: i128,
}

impl Limit {
    /// What `coefficient * x + rest <= 0` says of x; none only where the coefficient is 0, or one
    /// of the two is the least `i128`.
    pub fn of(coefficient: i128, rest: i128) -> Option<Limit>
        ensures limit { IfSome result (λ l. (x : ℤ)
            → ((coefficient *ℤ x +ℤ rest) ≤ℤ pos 0) ↔ Meets l.side l.value x) }
        ensures none { IfNone result
            (coefficient ≢ pos 0 → least <ℤ coefficient → least <ℤ rest → ⊥) }
    {
        if coefficient > 0 {
            let value = floor_div(rest.checked_neg()?, coefficient);
            let side = Side::Upper;
            return Some(Limit { side, value });
        }
        let opposite = coefficient.checked_neg()?;
        if opposite == 0 {
            return None;
        }
        let value = ceil_div(rest, opposite)?;
        let side = Side::Lower;
        Some(Limit { side, value })
    }
}

// What an inequality of one variable says of that; none of other inequalities, and where a number
// leaves `i128`.
fn limit_of(form: &Inequality) -> Option<(u32, Limit)>
    ensures limit { IfSome result (λ p. (s : List ℤ)
        → Holds form.now s ↔ Meets p.1.side p.1.value (value_at s p.0)) }
    ensures variable { IfSome result (λ p. (t : Term) → form.now.terms.items ≡ t ∷ [] → p.0 ≡ t.var) }
    ensures none { IfNone result ((n : ℕ) → IsBoundOf n form.now → ⊥) }
{
    if form.terms.len() != 1 {
        return None;
    }
    let only = form.terms[0];
    let limit = Limit::of(only.coefficient, form.constant)?;
    Some((only.var, limit))
}

/// A bound of a variable, and the row that says so; none where it is the range of `i64`.
#[derive(Clone, Copy)]
pub struct Bound {
    pub value: i128,
    pub row: Option<usize>,
}

/// The bounds of one variable.
#[derive(Clone, Copy)]
pub struct Interval {
    lower: Bound,
    upper: Bound,
}

impl Interval {
    // The range of `i64`.
    fn whole() -> Interval
        ensures { result ≡ whole }
    {
        Interval {
            lower: Bound {
                value: LOWEST,
                row: None,
            },
            upper: Bound {
                value: HIGHEST,
                row: None,
            },
        }
    }
}

/// The interval that a variable had before it got a better bound.
#[derive(Clone, Copy)]
pub struct Before {
    var: u32,
    interval: Interval,
}

/// A moment to which bounds can go back: how many intervals had been replaced, and which variables
/// had changed.
#[derive(Clone, Copy)]
pub struct Mark {
    replaced: usize,
    changed: Variables,
}

// Gives the variable back the interval from before.
#[tactic(auto, using(std::proofs::lemmas::List::set_past))]
fn put_back(intervals: &mut [Interval], before: Before)
    ensures { intervals.new ≡ slice_set intervals.old before.var before.interval }
{
    let place = before.var as usize;
    if place < intervals.len() {
        intervals[place] = before.interval;
    }
}

// Puts the intervals of the trail from a place on back, the last one first, and takes them off it.
fn undo(intervals: &mut [Interval], trail: &mut Vec<Before>, from: usize)
    ensures intervals { intervals.new ≡ undone (drop from trail.old.items) intervals.old }
    ensures trail { trail.new.items ≡ take from trail.old.items }
{
    'back: while trail.len() > from {
        let Some(before) = trail.pop() else {
            return;
        };
        put_back(intervals, before);
    }
}

/// The bounds of all variables, which of these got a better bound, and the trail: the intervals
/// that were replaced, in order. Contracts see all three.
#[derive(Drop)]
pub struct Bounds {
    intervals: Vec<Interval>,
    // The variables that got a better bound since it was made, or since the last mark.
    changed: Variables,
    trail: Vec<Before>,
}

impl marker::Model for Bounds {
    ghost use Rattle.og_search_rows.specs.Bounds.{BoundsValue};

    ghost Value = { BoundsValue };

    ghost view = { λ b. record { intervals = b.intervals.items; changed = b.changed; trail = b.trail.items } };
}

impl Bounds {
    /// No bounds but the range of `i64`.
    pub fn new(alloc: Global, variables: usize) -> Result<Bounds, AllocError>
        ensures intervals { IfOk result (λ b. b.intervals ≡ replicate variables whole) }
        ensures changed { IfOk result (λ b. (x : ℕ) → has b.changed x ≡ false) }
        ensures trail { IfOk result (λ b. b.trail ≡ []) }
    {
        Ok(Bounds {
            intervals: vec![in alloc; Interval::whole(); variables]?,
            changed: Variables::NONE,
            trail: Vec::new(alloc),
        })
    }

    /// Equal bounds, none of which has changed yet, with an empty trail.
    pub fn copy(&self) -> Result<Bounds, AllocError>
        ensures intervals { IfOk result (λ b. b.intervals ≡ self.now.intervals) }
        ensures changed { IfOk result (λ b. (x : ℕ) → has b.changed x ≡ false) }
        ensures trail { IfOk result (λ b. b.trail ≡ []) }
    {
        let intervals = self.intervals.clone()?;
        let changed = Variables::NONE;
        let trail = Vec::new(*intervals.allocator());
        Ok(Bounds {
            intervals,
            changed,
            trail,
        })
    }

    /// Marks the moment: from here on no variable has changed.
    pub fn mark(&mut self) -> Mark
        ensures replaced { result.replaced ≡ length self.old.trail }
        ensures had_changed { result.changed ≡ self.old.changed }
        ensures changed { (x : ℕ) → has self.new.changed x ≡ false }
        ensures intervals { self.new.intervals ≡ self.old.intervals }
        ensures trail { self.new.trail ≡ self.old.trail }
    {
        let Bounds { changed, trail, .. } = self;
        let mark = Mark {
            replaced: trail.len(),
            changed: *changed,
        };
        *changed = Variables::NONE;
        mark
    }

    /// Goes back to the moment of the mark: the intervals are what they were, and the variables
    /// that had changed are those from then. Earlier marks still lead back to the same intervals.
    pub fn forget(&mut self, mark: Mark)
        ensures intervals { self.new.intervals ≡ rewound mark.replaced self.old }
        ensures trail { self.new.trail ≡ take mark.replaced self.old.trail }
        ensures changed { self.new.changed ≡ mark.changed }
        ensures back { LeadsBack self.old self.new }
    {
        let Bounds {
            intervals,
            changed,
            trail,
        } = self;
        undo(intervals, trail, mark.replaced);
        *changed = mark.changed;
    }

    /// The variables that got a better bound since these bounds were made, as a copy of others or
    /// anew, or since the last mark.
    pub fn changed(&self) -> Variables
        ensures { result ≡ self.now.changed }
    {
        self.changed
    }

    /// The bound of a variable on a side.
    pub fn get(&self, var: u32, side: Side) -> Bound
        ensures { result ≡ bound_at self.now.intervals var side }
    {
        if let Some(interval) = self.intervals.get(var as usize) {
            return match side {
                Side::Lower => interval.lower,
                Side::Upper => interval.upper,
            };
        }
        let whole = Interval::whole();
        match side {
            Side::Lower => whole.lower,
            Side::Upper => whole.upper,
        }
    }

    /// Whether the limit leaves the variable fewer values than its bound on that side.
    pub fn is_improved_by(&self, var: u32, limit: Limit) -> bool
        ensures { IsTrue result ↔ Tightens limit.side limit.value
            (bound_at self.now.intervals var limit.side).value }
    {
        let bound = self.get(var, limit.side);
        match limit.side {
            Side::Lower => limit.value > bound.value,
            Side::Upper => limit.value < bound.value,
        }
    }

    /// The bound of its variable at which the term is least.
    pub fn least_at(&self, term: Term) -> Bound
        ensures { (s : List ℤ) → Within self.now.intervals s
            → (term.coefficient *ℤ result.value) ≤ℤ part_at term s }
    {
        self.get(term.var, Side::of_least(term.coefficient))
    }

    /// The bound of its variable at which the term is greatest.
    pub fn greatest_at(&self, term: Term) -> Bound
        ensures { (s : List ℤ) → Within self.now.intervals s
            → part_at term s ≤ℤ (term.coefficient *ℤ result.value) }
    {
        self.get(term.var, Side::of_greatest(term.coefficient))
    }

    // A number that the term is not below at values within the bounds, where it fits.
    fn least_of(&self, term: Term) -> Option<i128>
        ensures { IfSome result
            (λ v. (s : List ℤ) → Within self.now.intervals s → v ≤ℤ part_at term s) }
    {
        product(term.coefficient, self.least_at(term).value)
    }

    // A number that the term is not above at values within the bounds, where it fits.
    fn greatest_of(&self, term: Term) -> Option<i128>
        ensures { IfSome result
            (λ v. (s : List ℤ) → Within self.now.intervals s → part_at term s ≤ℤ v) }
    {
        product(term.coefficient, self.greatest_at(term).value)
    }

    // The sum, and what the terms are not below at values within the bounds, where it fits.
    fn add_least(&self, start: i128, terms: &[Term]) -> Option<i128>
        ensures { IfSome result
            (λ v. (s : List ℤ) → Within self.now.intervals s → v ≤ℤ (start +ℤ sum_at terms.now s)) }
    {
        let mut sum = start;
        for term in terms {
            sum = sum.checked_add(self.least_of(*term)?)?;
        }
        Some(sum)
    }

    /// A number that the form is not below at values within the bounds, each term where it is
    /// least; none where a number leaves `i128`.
    pub fn least(&self, form: &Inequality) -> Option<i128>
        ensures { IfSome result
            (λ v. (s : List ℤ) → Within self.now.intervals s → v ≤ℤ left_side form.now s) }
    {
        self.add_least(form.constant, &form.terms)
    }

    /// A number that the form is not above at values within the bounds, each term where it is
    /// greatest; none where a number leaves `i128`.
    pub fn greatest(&self, form: &Inequality) -> Option<i128>
        ensures { IfSome result
            (λ v. (s : List ℤ) → Within self.now.intervals s → left_side form.now s ≤ℤ v) }
    {
        let mut sum = form.constant;
        for term in &form.terms {
            sum = sum.checked_add(self.greatest_of(*term)?)?;
        }
        Some(sum)
    }

    // A number that the sum of two terms of one variable is not below, where it fits.
    fn least_of_both(&self, x: Term, y: Term) -> Option<i128>
        requires { x.var ≡ y.var }
        ensures { IfSome result
            (λ v. (s : List ℤ) → Within self.now.intervals s → v ≤ℤ (part_at x s +ℤ part_at y s)) }
    {
        let var = x.var;
        let coefficient = x.coefficient.checked_add(y.coefficient)?;
        self.least_of(Term { var, coefficient })
    }

    // The sum, and what the terms of both lists are not below at values within the bounds, where it
    // fits.
    fn add_least_of_sum(&self, start: i128, a: &[Term], b: &[Term]) -> Option<i128>
        ensures { IfSome result (λ v. (s : List ℤ) → Within self.now.intervals s
            → v ≤ℤ (start +ℤ (sum_at a.now s +ℤ sum_at b.now s))) }
    {
        let mut sum = start;
        let mut i = 0;
        let mut j = 0;
        'both: while i < a.len() && j < b.len() {
            let (x, y) = (a[i], b[j]);
            if x.var < y.var {
                sum = sum.checked_add(self.least_of(x)?)?;
                i += 1;
            } else if y.var < x.var {
                sum = sum.checked_add(self.least_of(y)?)?;
                j += 1;
            } else {
                sum = sum.checked_add(self.least_of_both(x, y)?)?;
                i += 1;
                j += 1;
            }
        }
        let with_first = self.add_least(sum, &a[i..])?;
        self.add_least(with_first, &b[j..])
    }

    /// A number that the sum of the two forms is not below at values within the bounds, each term
    /// of the sum where it is least; none where a number leaves `i128`.
    pub fn least_of_sum(&self, first: &Inequality, second: &Inequality) -> Option<i128>
        ensures { IfSome result (λ v. (s : List ℤ) → Within self.now.intervals s
            → v ≤ℤ (left_side first.now s +ℤ left_side second.now s)) }
    {
        let start = first.constant.checked_add(second.constant)?;
        self.add_least_of_sum(start, &first.terms, &second.terms)
    }

    /// Whether the inequality is false at all values within the bounds, as far as sums of the
    /// terms' least values tell.
    pub fn exclude(&self, form: &Inequality) -> bool
        ensures { IsTrue result → (s : List ℤ) → Within self.now.intervals s
            → pos 0 <ℤ left_side form.now s }
    {
        match self.least(form) {
            Some(least) => least > 0,
            None => false,
        }
    }

    /// Whether the sum of the two inequalities is false at all values within the bounds, in the
    /// same way.
    pub fn exclude_sum(&self, first: &Inequality, second: &Inequality) -> bool
        ensures { IsTrue result → (s : List ℤ) → Within self.now.intervals s
            → pos 0 <ℤ (left_side first.now s +ℤ left_side second.now s) }
    {
        match self.least_of_sum(first, second) {
            Some(least) => least > 0,
            None => false,
        }
    }

    /// Whether the inequality is true at all values within the bounds, as far as sums of the terms'
    /// greatest values tell.
    pub fn imply(&self, form: &Inequality) -> bool
        ensures { IsTrue result → (s : List ℤ) → Within self.now.intervals s → Holds form.now s }
    {
        match self.greatest(form) {
            Some(greatest) => greatest <= 0,
            None => false,
        }
    }

    /// Whether no value of the variable is left.
    pub fn is_empty_at(&self, var: u32) -> bool
        ensures { IsTrue result ↔ ((bound_at self.now.intervals var Upper).value <ℤ
            (bound_at self.now.intervals var Lower).value) }
    {
        self.get(var, Side::Lower).value > self.get(var, Side::Upper).value
    }

    /// The row that says as much of its variable as an inequality of one variable, if one does.
    pub fn implied_by(&self, form: &Inequality) -> Option<usize>
        ensures { OnSome result ((s : List ℤ) → Within self.now.intervals s → Holds form.now s) }
    {
        let (var, limit) = limit_of(form)?;
        if self.is_improved_by(var, limit) {
            return None;
        }
        self.get(var, limit.side).row
    }

    // Gives the variable a bound on a side, and notes the interval from before.
    fn set(&mut self, var: u32, side: Side, bound: Bound) -> Result<(), AllocError>
        requires { var < length self.old.intervals }
        ensures intervals { OnOk result (self.new.intervals
            ≡ slice_set self.old.intervals var (bounded side bound (get_or self.old.intervals var whole))) }
        ensures changed { OnOk result ((x : ℕ) → has self.new.changed x
            ≡ (has self.old.changed x || x % 64 == var % 64)) }
        ensures trail { OnOk result (self.new.trail
            ≡ self.old.trail ++ (record { var = var; interval = get_or self.old.intervals var whole }) ∷ []) }
        ensures kept { OnErr result (self.new ≡ self.old) }
    {
        let Bounds {
            intervals,
            changed,
            trail,
        } = self;
        let interval = intervals[var as usize];
        trail.push(Before { var, interval })?;
        *changed = changed.union(Variables::one(var));
        intervals[var as usize] = match side {
            Side::Lower => Interval {
                lower: bound,
                upper: interval.upper,
            },
            Side::Upper => Interval {
                lower: interval.lower,
                upper: bound,
            },
        };
        Ok(())
    }

    /// Takes the bound that an inequality of one variable sets, said by this row if there is one.
    /// Returns the variable if that got a better bound; none where the bounds say as much already,
    /// where the inequality is not of one of the variables alone, and where a number leaves `i128`.
    /// All marks so far still lead back to the same intervals.
    ///
    /// # Errors
    ///
    /// `AllocError` where an allocation was refused, and then nothing has changed.
    pub fn take(&mut self, form: &Inequality, row: Option<usize>) -> Result<Option<u32>, AllocError>
        ensures within { (s : List ℤ) → Within self.old.intervals s → Holds form.now s
            → Within self.new.intervals s }
        ensures tighter { IfOk result (λ taken. OnSome taken ((s : List ℤ)
            → Within self.new.intervals s → Within self.old.intervals s × Holds form.now s)) }
        ensures changed { IfOk result (λ taken. IfSome taken (λ v. (x : ℕ)
            → has self.new.changed x ≡ (has self.old.changed x || x % 64 == v % 64))) }
        ensures better { IfOk result (λ taken. IfSome taken (λ v.
            GetsBetter self.old.intervals self.new.intervals v row)) }
        ensures others { IfOk result (λ taken. IfSome taken (λ v. (x : ℕ) (side : Side) → x ≢ v
            → bound_at self.new.intervals x side ≡ bound_at self.old.intervals x side)) }
        ensures known { IfOk result (λ taken. IfNone taken (IsBoundOf (length self.old.intervals) form.now
            → (s : List ℤ) → Within self.old.intervals s → Holds form.now s)) }
        ensures back { LeadsBack self.new self.old }
        ensures kept { IfOk result (λ taken. IfNone taken (self.new ≡ self.old)) }
        ensures err { OnErr result (self.new ≡ self.old) }
    {
        let Some((var, limit)) = limit_of(form) else {
            return Ok(None);
        };
        if var as usize >= self.intervals.len() {
            return Ok(None);
        }
        if !self.is_improved_by(var, limit) {
            return Ok(None);
        }
        let value = limit.value;
        self.set(var, limit.side, Bound { value, row })?;
        Ok(Some(var))
    }
}
