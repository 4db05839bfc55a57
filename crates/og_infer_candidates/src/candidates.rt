//! What was true of all states so far at one place.

use crate::bits::Bits;
use crate::candidate::Candidate;
use crate::hull::Hull;
use crate::triples::{Ground, Triple};
use crate::universe::Universe;
use og_infer_literals::{Relation, Sum, count, sum_at};
use std::alloc::{AllocError, Global};

/// How far the bounds of a sum that stand alone are true.
#[derive(Clone, Copy, PartialEq)]
pub(crate) struct Extent {
    /// The place of the first bound that the sum never exceeded.
    pub(crate) above: usize,
    /// How many bounds, the first ones, the sum was never below.
    pub(crate) below: usize,
}

/// The candidates of one place: what was true of all states that it admitted.
#[derive(Drop)]
pub struct Candidates {
    alloc: Global,
    version: u64,
    /// For each literal of clauses those with which it makes a clause that was true. A literal that
    /// was true alone makes one with itself.
    pub(crate) pairs: Vec<Bits>,
    /// The clauses of three literals of which no two make one, as many as there is room for.
    pub(crate) triples: Vec<Triple>,
    /// By sums.
    pub(crate) extents: Vec<Extent>,
    /// Which clauses of the text were true.
    pub(crate) texts: Bits,
    pub(crate) hull: Hull,
    /// The equations under each flag.
    pub(crate) under: Vec<Hull>,
}

// The rows of all literals before the first state.
fn all_pairs(alloc: Global, universe: &Universe) -> Result<Vec<Bits>, AllocError> {
    let mut rows = Vec::with_capacity(alloc, universe.literals.clausal as usize)?;
    for literal in 0..universe.literals.clausal {
        rows.push(match universe.partners(literal) {
            Some(partners) => partners.copy()?,
            None => Bits::none(alloc, 0)?,
        })?;
    }
    Ok(rows)
}

// All bounds of each sum.
fn all_extents(alloc: Global, sums: &[Sum]) -> Result<Vec<Extent>, AllocError> {
    let mut extents = Vec::with_capacity(alloc, sums.len())?;
    for sum in sums {
        extents.push(Extent {
            above: 0,
            below: sum.bounds.len(),
        })?;
    }
    Ok(extents)
}

// Whether one of the literals is in the set.
fn any_of(literals: &[u32], mask: &Bits) -> bool {
    for literal in literals {
        if mask.has(*literal) {
            return true;
        }
    }
    false
}

// Whether each of the literals is one of these.
fn are_among(literals: &[u32], clause: &[u32]) -> bool {
    for literal in literals {
        if !clause.contains(literal) {
            return false;
        }
    }
    true
}

// How many of the bounds, which rise, are below the value.
fn count_below(bounds: &[i64], value: i128) -> usize {
    let mut count = 0usize;
    for bound in bounds {
        if i128::from(*bound) >= value {
            break;
        }
        count = count.saturating_add(1);
    }
    count
}

impl Extent {
    // Whether the sum may have this value already.
    fn has(self, sum: &Sum, value: i128) -> bool {
        let is_below = match sum.bounds.get(self.above) {
            Some(bound) => value <= i128::from(*bound),
            None => true,
        };
        let is_above = match sum.bounds.get(self.below.wrapping_sub(1)) {
            Some(bound) => i128::from(*bound) <= value,
            None => true,
        };
        is_below && is_above
    }

    // The extent where the sum has this value too.
    fn with(self, sum: &Sum, value: i128) -> Extent {
        if self.has(sum, value) {
            return self;
        }
        let least = count_below(&sum.bounds, value);
        let most = count_below(&sum.bounds, value.saturating_add(1));
        Extent {
            above: self.above.max(least),
            below: self.below.min(most),
        }
    }
}

impl Candidates {
    /// All candidates: no state was admitted yet.
    ///
    /// # Errors
    ///
    /// An allocation was refused.
    pub fn new(alloc: Global, universe: &Universe) -> Result<Candidates, AllocError> {
        let mut under = Vec::new(alloc);
        for _ in &universe.flags {
            under.push(Hull::new(alloc))?;
        }
        Ok(Candidates {
            alloc,
            version: 0,
            pairs: all_pairs(alloc, universe)?,
            triples: Vec::new(alloc),
            extents: all_extents(alloc, &universe.literals.sums)?,
            texts: Bits::all(alloc, count(&universe.literals.texts))?,
            hull: Hull::new(alloc),
            under,
        })
    }

    /// Those that are true of all these states.
    ///
    /// # Errors
    ///
    /// An allocation was refused.
    pub fn of_states(
        alloc: Global,
        universe: &Universe,
        states: &[Vec<i64>],
    ) -> Result<Candidates, AllocError> {
        let mut candidates = Candidates::new(alloc, universe)?;
        let masks = candidates.admit_all(universe, states)?;
        candidates.make_triples(universe, &masks)?;
        Ok(candidates)
    }

    // Weakens the candidates by these states. Gives their masks.
    fn admit_all(
        &mut self,
        universe: &Universe,
        states: &[Vec<i64>],
    ) -> Result<Vec<Bits>, AllocError> {
        let mut masks = Vec::new(self.alloc);
        for values in states {
            let mask = universe.mask(self.alloc, values)?;
            let _ = self.admit(universe, values, &mask)?;
            masks.push(mask)?;
        }
        Ok(masks)
    }

    // Makes the clauses of three literals that are true of the states with these masks, if there
    // may be some.
    fn make_triples(&mut self, universe: &Universe, masks: &[Bits]) -> Result<(), AllocError> {
        if universe.most_triples() > 0 {
            let ground = Ground {
                universe,
                pairs: &self.pairs,
            };
            self.triples = ground.triples(self.alloc, masks)?;
        }
        Ok(())
    }

    /// How often they changed.
    pub fn version(&self) -> u64 {
        self.version
    }

    // Takes the clauses of two literals out that the state makes false. Whether there were some.
    fn admit_pairs(&mut self, universe: &Universe, mask: &Bits) -> bool {
        let mut changed = false;
        for (literal, row) in (0..universe.literals.clausal).zip(self.pairs.iter_mut()) {
            if !mask.has(literal) {
                changed |= row.keep(mask);
            }
        }
        changed
    }

    // Takes the clauses of three literals out that the state makes false, and adds those that it
    // leaves of clauses of two. Whether there were some that it makes false.
    fn admit_triples(&mut self, universe: &Universe, mask: &Bits) -> Result<bool, AllocError> {
        let before = self.triples.len();
        self.triples.retain(|triple| triple.is_true(mask));
        let changed = self.triples.len() < before;
        let ground = Ground {
            universe,
            pairs: &self.pairs,
        };
        for literal in 0..universe.literals.clausal {
            if !mask.has(literal) {
                ground.add_widened(literal, mask, &mut self.triples)?;
            }
        }
        Ok(changed)
    }

    // Takes the bounds out that the values exceed. Whether there were some.
    fn admit_bounds(&mut self, universe: &Universe, values: &[i64]) -> bool {
        let mut changed = false;
        for (sum, extent) in universe.literals.sums.iter().zip(self.extents.iter_mut()) {
            if !sum.bounds.is_empty() {
                let wider = match sum_at(&sum.terms, values) {
                    Some(value) => extent.with(sum, value),
                    None => Extent {
                        above: sum.bounds.len(),
                        below: 0,
                    },
                };
                changed |= wider != *extent;
                *extent = wider;
            }
        }
        changed
    }

    // The clauses of the text that the state makes true.
    fn true_texts(&self, universe: &Universe, mask: &Bits) -> Result<Bits, AllocError> {
        let texts = &universe.literals.texts;
        let mut kept = Bits::none(self.alloc, count(texts))?;
        for (number, text) in (0..count(texts)).zip(texts) {
            if any_of(text, mask) {
                kept.add(number);
            }
        }
        Ok(kept)
    }

    // Weakens the equations under each flag that is true.
    fn admit_under(
        &mut self,
        universe: &Universe,
        values: &[i64],
        mask: &Bits,
    ) -> Result<bool, AllocError> {
        let mut changed = false;
        for (flag, hull) in universe.flags.iter().zip(self.under.iter_mut()) {
            if mask.has(*flag) {
                changed |= hull.admit(self.alloc, values, universe.room)?;
            }
        }
        Ok(changed)
    }

    /// Weakens the candidates so that they are true of the values, whose mask is given. Whether
    /// something changed.
    ///
    /// # Errors
    ///
    /// An allocation was refused. The candidates may be weakened in part then.
    pub fn admit(
        &mut self,
        universe: &Universe,
        values: &[i64],
        mask: &Bits,
    ) -> Result<bool, AllocError> {
        let mut changed = self.hull.admit(self.alloc, values, universe.room)?;
        changed |= self.admit_under(universe, values, mask)?;
        let texts = self.true_texts(universe, mask)?;
        changed |= self.texts.keep(&texts);
        changed |= self.admit_bounds(universe, values);
        if self.hull.is_begun && universe.most_triples() > 0 {
            changed |= self.admit_triples(universe, mask)?;
        }
        changed |= self.admit_pairs(universe, mask);
        if changed {
            self.version = self.version.saturating_add(1);
        }
        Ok(changed)
    }

    // Whether no clause of two literals is false.
    fn admits_pairs(&self, universe: &Universe, mask: &Bits) -> bool {
        for (literal, row) in (0..universe.literals.clausal).zip(&self.pairs) {
            if !mask.has(literal) && !row.is_within(mask) {
                return false;
            }
        }
        true
    }

    // Whether no clause of three literals is false.
    fn admits_triples(&self, mask: &Bits) -> bool {
        for triple in &self.triples {
            if !triple.is_true(mask) {
                return false;
            }
        }
        true
    }

    // Whether no bound is exceeded.
    fn admits_bounds(&self, universe: &Universe, values: &[i64]) -> bool {
        for (sum, extent) in universe.literals.sums.iter().zip(&self.extents) {
            if !sum.bounds.is_empty() {
                match sum_at(&sum.terms, values) {
                    Some(value) if extent.with(sum, value) == *extent => {}
                    _ => return false,
                }
            }
        }
        true
    }

    // Whether no clause of the text is false.
    fn admits_texts(&self, universe: &Universe, mask: &Bits) -> bool {
        let texts = &universe.literals.texts;
        for (number, text) in (0..count(texts)).zip(texts) {
            if self.texts.has(number) && !any_of(text, mask) {
                return false;
            }
        }
        true
    }

    // Whether the equations under each flag that is true are.
    fn admits_under(&self, universe: &Universe, values: &[i64], mask: &Bits) -> bool {
        for (flag, hull) in universe.flags.iter().zip(&self.under) {
            if mask.has(*flag) && !hull.admits(values) {
                return false;
            }
        }
        true
    }

    /// Whether all candidates are true of the values, whose mask is given.
    pub fn admits(&self, universe: &Universe, values: &[i64], mask: &Bits) -> bool {
        self.hull.admits(values)
            && self.admits_pairs(universe, mask)
            && self.admits_triples(mask)
            && self.admits_bounds(universe, values)
            && self.admits_texts(universe, mask)
            && self.admits_under(universe, values, mask)
    }

    // Whether a bound that stands alone was true of all states.
    fn has_bound(&self, universe: &Universe, literal: u32) -> bool {
        let (Some(number), Some(sum), Some(comparison)) = (
            universe.literals.sum_number(literal),
            universe.literals.sum(literal),
            universe.literals.comparison(literal),
        ) else {
            return false;
        };
        match (
            sum.bound_place(comparison.bound),
            self.extents.get(number as usize),
        ) {
            (Some(place), Some(extent)) => match comparison.relation {
                Relation::AtMost => place >= extent.above,
                _ => place < extent.below,
            },
            _ => false,
        }
    }

    /// Whether a clause of one or two of these literals was true of all states.
    pub(crate) fn has_part(&self, clause: &[u32]) -> bool {
        for literal in clause {
            if let Some(row) = self.pairs.get(*literal as usize) {
                if any_of(clause, row) {
                    return true;
                }
            }
        }
        false
    }

    // Whether a clause of the text with no other literals was true of all states.
    fn has_text(&self, universe: &Universe, clause: &[u32]) -> bool {
        let texts = &universe.literals.texts;
        for (number, text) in (0..count(texts)).zip(texts) {
            if self.texts.has(number) && are_among(text, clause) {
                return true;
            }
        }
        false
    }

    // Whether it is one of three literals that was true of all states.
    fn has_triple(&self, clause: &[u32]) -> bool {
        match clause {
            [low, middle, high] => self.triples.contains(&Triple::of(*low, *middle, *high)),
            _ => false,
        }
    }

    // Whether the clause was true of all states.
    fn has_clause(&self, universe: &Universe, clause: &[u32]) -> bool {
        match clause {
            [only] if *only >= universe.literals.clausal => self.has_bound(universe, *only),
            _ => {
                self.has_part(clause) || self.has_text(universe, clause) || self.has_triple(clause)
            }
        }
    }

    // The equations under this flag.
    fn hull_under(&self, universe: &Universe, literal: u32) -> Option<&Hull> {
        for (flag, hull) in universe.flags.iter().zip(&self.under) {
            if *flag == literal {
                return Some(hull);
            }
        }
        None
    }

    /// Whether the candidate was true of all states that were admitted, as far as these candidates
    /// say.
    ///
    /// # Errors
    ///
    /// An allocation was refused.
    pub fn has(
        &self,
        alloc: Global,
        universe: &Universe,
        candidate: &Candidate,
    ) -> Result<bool, AllocError> {
        match candidate {
            Candidate::False => Ok(!self.hull.is_begun),
            Candidate::Equation(equation) => self.hull.implies(alloc, equation),
            Candidate::Clause(clause) => Ok(self.has_clause(universe, clause)),
            Candidate::Under { literal, equation } => match self.hull_under(universe, *literal) {
                Some(hull) => hull.implies(alloc, equation),
                None => Ok(false),
            },
        }
    }
}
