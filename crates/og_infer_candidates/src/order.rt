//! The order in which the conjuncts of an assertion are printed: values, bounds, equations,
//! comparisons of sums, clauses, and equations under flags; of each kind by the variables.

use crate::candidate::Candidate;
use crate::universe::Universe;
use std::cmp::Ordering;

/// The order of clauses: by their length, and then by their greatest literals.
pub(crate) fn clause_order(first: &[u32], second: &[u32]) -> Ordering {
    if first.len() != second.len() {
        return first.len().cmp(&second.len());
    }
    for i in (0..first.len()).rev() {
        if first[i] != second[i] {
            return first[i].cmp(&second[i]);
        }
    }
    Ordering::Equal
}

// The order of a list to another one that goes on with a greater variable, or not at all.
fn later(goes_on: bool) -> Ordering {
    if goes_on {
        Ordering::Less
    } else {
        Ordering::Greater
    }
}

impl Candidate {
    // The kind of the conjunct, and its size.
    fn kind(&self, universe: &Universe) -> (u8, usize) {
        match self {
            Candidate::False => (0, 0),
            Candidate::Equation(equation) => match equation.terms.len() {
                1 => (1, 0),
                count => (3, count),
            },
            Candidate::Clause(clause) => match clause.as_slice() {
                [only] if universe.literals.terms(*only).len() == 1 => (2, 0),
                [_] => (4, 0),
                _ => (5, clause.len()),
            },
            Candidate::Under { .. } => (6, 0),
        }
    }

    // Whether a variable above this one occurs.
    fn mentions_above(&self, universe: &Universe, variable: u32) -> bool {
        for other in variable.saturating_add(1)..universe.variables {
            if self.mentions(universe, other) {
                return true;
            }
        }
        false
    }

    // The order of the lists of variables that occur.
    fn variable_order(&self, other: &Candidate, universe: &Universe) -> Ordering {
        for variable in 0..universe.variables {
            let is_here = self.mentions(universe, variable);
            let is_there = other.mentions(universe, variable);
            if is_here && !is_there {
                return later(other.mentions_above(universe, variable));
            }
            if is_there && !is_here {
                return later(self.mentions_above(universe, variable)).reverse();
            }
        }
        Ordering::Equal
    }

    // The literals of a clause.
    fn literals(&self) -> &[u32] {
        match self {
            Candidate::Clause(clause) => clause,
            _ => &[],
        }
    }

    /// The order in which the two are printed, as conjuncts of one assertion.
    pub fn print_order(&self, other: &Candidate, universe: &Universe) -> Ordering {
        let kinds = self.kind(universe).cmp(&other.kind(universe));
        if kinds != Ordering::Equal {
            return kinds;
        }
        self.variable_order(other, universe)
            .then(clause_order(self.literals(), other.literals()))
    }

    /// Whether it is printed before the other one.
    pub fn printed_before(&self, other: &Candidate, universe: &Universe) -> bool {
        self.print_order(other, universe).is_lt()
    }
}
