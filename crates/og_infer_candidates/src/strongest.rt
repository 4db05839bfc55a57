//! The strongest candidates of a place, which imply all the others.

use crate::bits::Bits;
use crate::candidate::Candidate;
use crate::candidates::{Candidates, Extent};
use crate::order::clause_order;
use crate::triples::{Triple, in_order, is_among};
use crate::universe::Universe;
use og_infer_literals::{Relation, Sum};
use og_search_rows::Inequality;
use std::alloc::{AllocError, Global};
use std::cmp::Ordering;

/// The greatest coefficient, in magnitude, of an equation that is a candidate.
const COEFFICIENT_LIMIT: u128 = 1_000;

/// The same under a flag.
const FLAGGED_LIMIT: u128 = 100;

/// The most variables of an equation under a flag.
const FLAGGED_TERMS: usize = 4;

/// The greatest constant, in magnitude, of an equation that is a candidate.
const CONSTANT_LIMIT: u128 = 1 << 40;

// Whether no coefficient is beyond the limit, and the constant is no larger than it may be.
fn fits(form: &Inequality, limit: u128) -> bool {
    for term in &form.terms {
        if term.coefficient.unsigned_abs() > limit {
            return false;
        }
    }
    form.constant.unsigned_abs() < CONSTANT_LIMIT
}

// Whether a clause with a literal that implies the first one, in its place, is among these, which
// rise.
fn is_weaker_triple(
    universe: &Universe,
    rising: &[Triple],
    first: u32,
    second: u32,
    third: u32,
) -> bool {
    let Some(sum) = universe.literals.sum(first) else {
        return false;
    };
    for other in &sum.literals {
        if universe.implies(*other, first) && is_among(rising, Triple::of(*other, second, third)) {
            return true;
        }
    }
    false
}

// Whether that is so for one of its literals.
fn is_weaker(universe: &Universe, rising: &[Triple], triple: Triple) -> bool {
    let (a, b, c) = triple.literals();
    is_weaker_triple(universe, rising, a, b, c)
        || is_weaker_triple(universe, rising, b, a, c)
        || is_weaker_triple(universe, rising, c, a, b)
}

impl Candidates {
    // Adds the equations.
    fn put_equations(&self, out: &mut Vec<Candidate>) -> Result<(), AllocError> {
        for row in &self.hull.rows {
            if fits(row, COEFFICIENT_LIMIT) {
                out.push(Candidate::Equation(row.copy()?))?;
            }
        }
        Ok(())
    }

    // The literals of clauses that were true of all states.
    fn singles(&self, alloc: Global, universe: &Universe) -> Result<Bits, AllocError> {
        let mut singles = Bits::none(alloc, universe.literals.clausal)?;
        for literal in 0..universe.literals.clausal {
            let row = self.pairs.get(literal as usize);
            if matches!(row, Some(row) if row.has(literal)) {
                singles.add(literal);
            }
        }
        Ok(singles)
    }

    // Whether the bounds of the sum of a literal, which is no bound itself, say more.
    fn is_excluded(&self, universe: &Universe, literal: u32) -> bool {
        let (Some(sum), Some(number), Some(comparison)) = (
            universe.literals.sum(literal),
            universe.literals.sum_number(literal),
            universe.literals.comparison(literal),
        ) else {
            return false;
        };
        let Some(extent) = self.extents.get(number as usize) else {
            return false;
        };
        let most = sum.bounds.get(extent.above);
        let least = sum.bounds.get(extent.below.wrapping_sub(1));
        matches!(most, Some(most) if *most < comparison.bound)
            || matches!(least, Some(least) if *least > comparison.bound)
    }

    // Whether something else says more than a literal that was true of all states.
    fn is_said(&self, universe: &Universe, singles: &Bits, literal: u32) -> bool {
        let (Some(sum), Some(comparison)) = (
            universe.literals.sum(literal),
            universe.literals.comparison(literal),
        ) else {
            return true;
        };
        let is_bounded = !sum.bounds.is_empty();
        universe.is_implied(literal, singles)
            || is_bounded && comparison.is_limit()
            || is_bounded && self.is_excluded(universe, literal)
            || self.hull.says(&sum.terms)
    }

    // Adds the literals of clauses that were true of all states.
    fn put_singles(
        &self,
        alloc: Global,
        universe: &Universe,
        singles: &Bits,
        clauses: &mut Vec<Vec<u32>>,
    ) -> Result<(), AllocError> {
        for literal in 0..universe.literals.clausal {
            if singles.has(literal) && !self.is_said(universe, singles, literal) {
                clauses.push(vec![in alloc; literal]?)?;
            }
        }
        Ok(())
    }

    // Adds the tightest bounds of the sums.
    fn put_bounds(
        &self,
        alloc: Global,
        universe: &Universe,
        clauses: &mut Vec<Vec<u32>>,
    ) -> Result<(), AllocError> {
        for (sum, extent) in universe.literals.sums.iter().zip(&self.extents) {
            if !sum.bounds.is_empty() && !self.hull.says(&sum.terms) {
                put_bounds_of(alloc, sum, *extent, clauses)?;
            }
        }
        Ok(())
    }

    // Whether a clause with a literal that implies the first one, in its place, was true of all
    // states.
    fn is_weaker(&self, universe: &Universe, first: u32, second: u32) -> bool {
        match self.pairs.get(second as usize) {
            Some(row) => universe.is_implied(first, row),
            None => false,
        }
    }

    // Adds the clauses of the literal and one below it.
    fn put_pairs_of(
        &self,
        alloc: Global,
        universe: &Universe,
        singles: &Bits,
        high: u32,
        clauses: &mut Vec<Vec<u32>>,
    ) -> Result<(), AllocError> {
        let Some(row) = self.pairs.get(high as usize) else {
            return Ok(());
        };
        for low in 0..high {
            let is_clause = row.has(low)
                && !singles.has(low)
                && !self.is_weaker(universe, low, high)
                && !self.is_weaker(universe, high, low);
            if is_clause && clauses.len() < universe.room.clauses {
                clauses.push(vec![in alloc; low, high]?)?;
            }
        }
        Ok(())
    }

    // Adds the clauses of two literals.
    fn put_pairs(
        &self,
        alloc: Global,
        universe: &Universe,
        singles: &Bits,
        clauses: &mut Vec<Vec<u32>>,
    ) -> Result<(), AllocError> {
        for high in 0..universe.literals.clausal {
            if !singles.has(high) {
                self.put_pairs_of(alloc, universe, singles, high, clauses)?;
            }
        }
        Ok(())
    }

    // Adds the clauses of three literals.
    fn put_triples(
        &self,
        alloc: Global,
        universe: &Universe,
        clauses: &mut Vec<Vec<u32>>,
    ) -> Result<(), AllocError> {
        let rising = in_order(alloc, &self.triples)?;
        for triple in &rising {
            if !is_weaker(universe, &rising, *triple) {
                let (a, b, c) = triple.literals();
                clauses.push(vec![in alloc; a, b, c]?)?;
            }
        }
        Ok(())
    }

    // Adds the clauses of the text, as far as no part of them was true of all states.
    fn put_texts(
        &self,
        alloc: Global,
        universe: &Universe,
        clauses: &mut Vec<Vec<u32>>,
    ) -> Result<(), AllocError> {
        for (number, text) in (0..u32::MAX).zip(&universe.literals.texts) {
            if self.texts.has(number) && !self.has_part(text) {
                clauses.push(Vec::from_slice(alloc, text)?)?;
            }
        }
        Ok(())
    }

    // Whether no equation without a flag and no clause says what this one does under a flag, and it
    // is small enough.
    fn is_new(&self, universe: &Universe, row: &Inequality) -> bool {
        let is_led = matches!(row.terms.first(), Some(first) if self.hull.leads(first.var));
        let is_clause = row.terms.len() == 1 && universe.has_small(&row.terms);
        let is_short = row.terms.len() <= FLAGGED_TERMS;
        !is_led && !is_clause && is_short && fits(row, FLAGGED_LIMIT)
    }

    // Adds the equations under a flag that no equation without it and no clause says.
    fn put_rows(
        &self,
        universe: &Universe,
        literal: u32,
        rows: &[Inequality],
        out: &mut Vec<Candidate>,
    ) -> Result<(), AllocError> {
        let own = universe.literals.terms(literal);
        for row in rows {
            if row.terms.as_slice() != own && self.is_new(universe, row) {
                let equation = row.copy()?;
                out.push(Candidate::Under { literal, equation })?;
            }
        }
        Ok(())
    }

    // Adds the equations under each flag.
    fn put_under(&self, universe: &Universe, out: &mut Vec<Candidate>) -> Result<(), AllocError> {
        for (literal, hull) in universe.flags.iter().zip(&self.under) {
            self.put_rows(universe, *literal, &hull.rows, out)?;
        }
        Ok(())
    }

    // All clauses, in order.
    fn clauses(&self, alloc: Global, universe: &Universe) -> Result<Vec<Vec<u32>>, AllocError> {
        let mut clauses = Vec::new(alloc);
        let singles = self.singles(alloc, universe)?;
        self.put_pairs(alloc, universe, &singles, &mut clauses)?;
        self.put_triples(alloc, universe, &mut clauses)?;
        self.put_singles(alloc, universe, &singles, &mut clauses)?;
        self.put_bounds(alloc, universe, &mut clauses)?;
        self.put_texts(alloc, universe, &mut clauses)?;
        clauses.sort_unstable_by(order_of);
        Ok(clauses)
    }

    /// The strongest candidates, which imply all the others: equations, clauses by their length, and
    /// equations under flags. Of a place that admitted no state `False` alone.
    ///
    /// # Errors
    ///
    /// An allocation was refused.
    pub fn strongest(
        &self,
        alloc: Global,
        universe: &Universe,
    ) -> Result<Vec<Candidate>, AllocError> {
        let mut out = Vec::new(alloc);
        if !self.hull.is_begun {
            out.push(Candidate::False)?;
            return Ok(out);
        }
        self.put_equations(&mut out)?;
        put_clauses(self.clauses(alloc, universe)?, &mut out)?;
        self.put_under(universe, &mut out)?;
        Ok(out)
    }
}

// Adds the clauses.
fn put_clauses(clauses: Vec<Vec<u32>>, out: &mut Vec<Candidate>) -> Result<(), AllocError> {
    for clause in clauses {
        out.push(Candidate::Clause(clause))?;
    }
    Ok(())
}

// Adds the tightest bounds of a sum.
fn put_bounds_of(
    alloc: Global,
    sum: &Sum,
    extent: Extent,
    clauses: &mut Vec<Vec<u32>>,
) -> Result<(), AllocError> {
    if extent.above < sum.bounds.len() {
        let literal = sum.bound_literal(extent.above, Relation::AtMost);
        put_single(alloc, literal, clauses)?;
    }
    match extent.below.checked_sub(1) {
        Some(place) => put_single(alloc, sum.bound_literal(place, Relation::AtLeast), clauses),
        None => Ok(()),
    }
}

// The order of two clauses.
fn order_of(first: &Vec<u32>, second: &Vec<u32>) -> Ordering {
    clause_order(first, second)
}

// Adds the clause of a literal, if there is one.
fn put_single(
    alloc: Global,
    literal: Option<u32>,
    clauses: &mut Vec<Vec<u32>>,
) -> Result<(), AllocError> {
    if let Some(literal) = literal {
        clauses.push(vec![in alloc; literal]?)?;
    }
    Ok(())
}
