//! One candidate.

use crate::bits::Bits;
use crate::hull::{tidied, value_at};
use crate::universe::Universe;
use og_infer_literals::{Atom, Comparison, Relation, exchanged, form_of, mentions, turn};
use og_search_rows::{Inequality, Term};
use og_typed::Assert;
use std::alloc::{AllocError, Global};

/// What may be true at a place. Of an equation the sum and the constant are 0 together; its numbers
/// have no common divisor, and its first coefficient is above 0.
#[derive(Drop)]
pub enum Candidate {
    /// Nothing is true.
    False,
    /// An equation is.
    Equation(Inequality),
    /// One of these literals of the universe is. They rise.
    Clause(Vec<u32>),
    /// The equation is, or the literal, a value of a variable, is not.
    Under { literal: u32, equation: Inequality },
}

// How much each of these terms adds to a cost: one, and two more for a coefficient other than 1 and
// -1.
fn cost_of_terms(terms: &[Term]) -> u32 {
    let mut cost = 0u32;
    for term in terms {
        let more = if term.coefficient.unsigned_abs() == 1 {
            1
        } else {
            3
        };
        cost = cost.saturating_add(more);
    }
    cost
}

// Of the terms, and one more for a constant beyond 1.
fn cost_of_equation(equation: &Inequality) -> u32 {
    let beyond = if equation.constant.unsigned_abs() > 1 {
        1
    } else {
        0
    };
    cost_of_terms(&equation.terms).saturating_add(beyond)
}

// Of a value of a variable 2, of another literal of one variable 3; of one of several variables two
// and what its terms add, one more for a bound beyond 1, three more for a bound of small variables.
fn cost_of_literal(universe: &Universe, literal: u32) -> u32 {
    let terms = universe.literals.terms(literal);
    let Some(comparison) = universe.literals.comparison(literal) else {
        return 0;
    };
    if terms.len() == 1 {
        return if comparison.relation == Relation::Equal {
            2
        } else {
            3
        };
    }
    let cost = cost_of_terms(terms).saturating_add(2);
    if !comparison.is_limit() {
        return cost;
    }
    let beyond = if comparison.bound.unsigned_abs() > 1 {
        1
    } else {
        0
    };
    let small = if universe.has_small(terms) { 3 } else { 0 };
    cost.saturating_add(beyond).saturating_add(small)
}

// Of the literals, and two for each `or`.
fn cost_of_clause(universe: &Universe, clause: &[u32]) -> u32 {
    let mut cost = 0u32;
    for literal in clause {
        cost = cost
            .saturating_add(cost_of_literal(universe, *literal))
            .saturating_add(2);
    }
    cost.saturating_sub(2)
}

// Whether a literal of the clause is true of the values, whose mask is given.
fn is_clause_true(universe: &Universe, clause: &[u32], values: &[i64], mask: &Bits) -> bool {
    for literal in clause {
        if universe.is_true(*literal, values, mask) {
            return true;
        }
    }
    false
}

// Whether the variable occurs in the clause.
fn clause_mentions(universe: &Universe, clause: &[u32], variable: u32) -> bool {
    for literal in clause {
        if mentions(universe.literals.terms(*literal), variable) {
            return true;
        }
    }
    false
}

// Whether the two are equal.
fn are_same(first: &Inequality, second: &Inequality) -> bool {
    first.constant == second.constant && first.is_parallel(second)
}

// The assertion that an equation is true.
fn equation_assertion(alloc: Global, equation: &Inequality) -> Result<Assert, AllocError> {
    let form = form_of(alloc, &equation.terms, equation.constant)?;
    Ok(Assert::Eq(form))
}

// The assertion that the sum is in this relation to the number.
fn comparison_assertion(
    alloc: Global,
    terms: &[Term],
    comparison: Comparison,
) -> Result<Assert, AllocError> {
    let mut form = Inequality {
        terms: Vec::from_slice(alloc, terms)?,
        constant: i128::from(comparison.bound).wrapping_neg(),
    };
    if comparison.relation == Relation::AtLeast {
        turn(&mut form);
    }
    let form = form_of(alloc, &form.terms, form.constant)?;
    match comparison.relation {
        Relation::Equal => Ok(Assert::Eq(form)),
        Relation::NotEqual => Ok(Assert::Ne(form)),
        Relation::AtLeast | Relation::AtMost => Ok(Assert::Le(form)),
    }
}

// The assertion of a literal, or of its negation; false where there is none.
fn literal_assertion(
    alloc: Global,
    universe: &Universe,
    literal: u32,
    yes: bool,
) -> Result<Assert, AllocError> {
    let comparison = match universe.literals.comparison(literal) {
        Some(comparison) if yes => Some(comparison),
        Some(comparison) => comparison.negation(),
        None => None,
    };
    match comparison {
        Some(known) => comparison_assertion(alloc, universe.literals.terms(literal), known),
        None => Ok(Assert::False),
    }
}

// The assertion that one of these literals is true.
fn clause_assertion(
    alloc: Global,
    universe: &Universe,
    clause: &[u32],
) -> Result<Assert, AllocError> {
    if let [only] = clause {
        return literal_assertion(alloc, universe, *only, true);
    }
    let mut parts = Vec::with_capacity(alloc, clause.len())?;
    for literal in clause {
        parts.push(literal_assertion(alloc, universe, *literal, true)?)?;
    }
    Ok(Assert::Or(parts))
}

// The equation with variables exchanged; none where a number is too large.
fn renamed_equation(
    alloc: Global,
    equation: &Inequality,
    exchange: &[u32],
) -> Result<Option<Inequality>, AllocError> {
    tidied(alloc, exchanged(equation, exchange)?)
}

// The literal with variables exchanged, where the universe has it: one that stands alone, if it may.
fn renamed_literal(
    alloc: Global,
    universe: &Universe,
    literal: u32,
    exchange: &[u32],
    is_alone: bool,
) -> Result<Option<u32>, AllocError> {
    let Some(atom) = universe.literals.atom(alloc, literal)? else {
        return Ok(None);
    };
    match atom.renamed(alloc, exchange)? {
        Some(renamed) => Ok(universe.literals.find(&renamed, is_alone)),
        None => Ok(None),
    }
}

// The clause with variables exchanged, where the universe has its literals.
fn renamed_clause(
    alloc: Global,
    universe: &Universe,
    clause: &[u32],
    exchange: &[u32],
) -> Result<Option<Candidate>, AllocError> {
    let is_alone = clause.len() == 1;
    let mut renamed = Vec::with_capacity(alloc, clause.len())?;
    for literal in clause {
        match renamed_literal(alloc, universe, *literal, exchange, is_alone)? {
            Some(literal) => renamed.push(literal)?,
            None => return Ok(None),
        }
    }
    renamed.sort_unstable();
    Ok(Some(Candidate::Clause(renamed)))
}

// Whether the assertion is a comparison that implies this atom.
fn says(alloc: Global, assertion: &Assert, atom: &Atom) -> Result<bool, AllocError> {
    match Atom::of_assertion(alloc, assertion)? {
        Some(known) => Ok(
            known.terms.as_slice() == atom.terms.as_slice()
                && known.comparison.implies(atom.comparison),
        ),
        None => Ok(false),
    }
}

// Whether one of the assertions is a comparison that implies this atom.
fn says_among(alloc: Global, all: &[Assert], atom: &Atom) -> Result<bool, AllocError> {
    for assertion in all {
        if says(alloc, assertion, atom)? {
            return Ok(true);
        }
    }
    Ok(false)
}

impl Candidate {
    /// An equal candidate.
    ///
    /// # Errors
    ///
    /// An allocation was refused.
    pub fn copy(&self, alloc: Global) -> Result<Candidate, AllocError> {
        match self {
            Candidate::False => Ok(Candidate::False),
            Candidate::Equation(equation) => Ok(Candidate::Equation(equation.copy()?)),
            Candidate::Clause(clause) => Ok(Candidate::Clause(Vec::from_slice(alloc, clause)?)),
            Candidate::Under { literal, equation } => Ok(Candidate::Under {
                literal: *literal,
                equation: equation.copy()?,
            }),
        }
    }

    /// Whether the two are equal.
    pub fn is_same(&self, other: &Candidate) -> bool {
        match (self, other) {
            (Candidate::False, Candidate::False) => true,
            (Candidate::Equation(a), Candidate::Equation(b)) => are_same(a, b),
            (Candidate::Clause(a), Candidate::Clause(b)) => a.as_slice() == b.as_slice(),
            (
                Candidate::Under { literal, equation },
                Candidate::Under {
                    literal: number,
                    equation: second,
                },
            ) => *literal == *number && are_same(equation, second),
            _ => false,
        }
    }

    /// Whether the candidate is true of the values, whose mask is given.
    pub fn is_true(&self, universe: &Universe, values: &[i64], mask: &Bits) -> bool {
        match self {
            Candidate::False => false,
            Candidate::Equation(equation) => value_at(equation, values) == Some(0),
            Candidate::Clause(clause) => is_clause_true(universe, clause, values, mask),
            Candidate::Under { literal, equation } => {
                !mask.has(*literal) || value_at(equation, values) == Some(0)
            }
        }
    }

    /// Whether the variable occurs.
    pub fn mentions(&self, universe: &Universe, variable: u32) -> bool {
        let literals = &universe.literals;
        match self {
            Candidate::False => false,
            Candidate::Equation(equation) => mentions(&equation.terms, variable),
            Candidate::Clause(clause) => clause_mentions(universe, clause, variable),
            Candidate::Under { literal, equation } => {
                mentions(literals.terms(*literal), variable) || mentions(&equation.terms, variable)
            }
        }
    }

    /// How hard it is to read: of a literal 2 or 3, and more with its variables and coefficients; of
    /// a clause the sum, and 2 for each `or`; of an equation by its variables and coefficients, 4
    /// more under a flag.
    pub fn cost(&self, universe: &Universe) -> u32 {
        match self {
            Candidate::False => 0,
            Candidate::Equation(equation) => cost_of_equation(equation),
            Candidate::Clause(clause) => cost_of_clause(universe, clause),
            Candidate::Under { equation, .. } => cost_of_equation(equation).saturating_add(4),
        }
    }

    /// The assertion that the candidate stands for.
    ///
    /// # Errors
    ///
    /// An allocation was refused.
    pub fn assertion(&self, alloc: Global, universe: &Universe) -> Result<Assert, AllocError> {
        match self {
            Candidate::False => Ok(Assert::False),
            Candidate::Equation(equation) => equation_assertion(alloc, equation),
            Candidate::Clause(clause) => clause_assertion(alloc, universe, clause),
            Candidate::Under { literal, equation } => {
                let mut parts = Vec::new(alloc);
                parts.push(literal_assertion(alloc, universe, *literal, false)?)?;
                parts.push(equation_assertion(alloc, equation)?)?;
                Ok(Assert::Or(parts))
            }
        }
    }

    /// The candidate with another variable for each, by its number; none where the universe lacks a
    /// literal of it.
    ///
    /// # Errors
    ///
    /// An allocation was refused.
    pub fn renamed(
        &self,
        alloc: Global,
        universe: &Universe,
        exchange: &[u32],
    ) -> Result<Option<Candidate>, AllocError> {
        match self {
            Candidate::False => Ok(Some(Candidate::False)),
            Candidate::Equation(equation) => match renamed_equation(alloc, equation, exchange)? {
                Some(renamed) => Ok(Some(Candidate::Equation(renamed))),
                None => Ok(None),
            },
            Candidate::Clause(clause) => renamed_clause(alloc, universe, clause, exchange),
            Candidate::Under { literal, equation } => {
                let flag = renamed_literal(alloc, universe, *literal, exchange, false)?;
                match (flag, renamed_equation(alloc, equation, exchange)?) {
                    (Some(literal), Some(equation)) => {
                        Ok(Some(Candidate::Under { literal, equation }))
                    }
                    _ => Ok(None),
                }
            }
        }
    }

    // The comparison that the candidate is, if it is one.
    fn atom(&self, alloc: Global, universe: &Universe) -> Result<Option<Atom>, AllocError> {
        match self {
            Candidate::Equation(equation) => Atom::of(alloc, equation.copy()?, Relation::Equal),
            Candidate::Clause(clause) => match clause.as_slice() {
                [only] => universe.literals.atom(alloc, *only),
                _ => Ok(None),
            },
            _ => Ok(None),
        }
    }

    /// Whether a conjunct of the assertion is a comparison that implies the candidate, by itself.
    ///
    /// # Errors
    ///
    /// An allocation was refused.
    pub fn is_said(
        &self,
        alloc: Global,
        universe: &Universe,
        assertion: &Assert,
    ) -> Result<bool, AllocError> {
        let Some(atom) = self.atom(alloc, universe)? else {
            return Ok(false);
        };
        match assertion {
            Assert::And(all) => says_among(alloc, all, &atom),
            _ => says(alloc, assertion, &atom),
        }
    }
}
