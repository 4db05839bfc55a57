//! The text of candidates, as in a source.

use crate::candidate::Candidate;
use crate::universe::Universe;
use og_infer_literals::{Comparison, Relation};
use og_search_rows::{Inequality, Term};
use og_text::Name;
use std::alloc::AllocError;

/// How a comparison is written: the variables above, and those below 0, and a constant.
#[derive(Clone, Copy)]
enum Layout {
    /// The variables above 0, and the others with the constant.
    Above(&'static [u8], i64),
    /// The variables below 0 with the constant, and the others.
    Below(&'static [u8], i64),
}

fn put_number(text: &mut Vec<u8>, magnitude: u128) -> Result<(), AllocError> {
    let number = u64::try_from(magnitude).unwrap_or(u64::MAX);
    let digits = number.to_string(*text.allocator())?;
    text.extend_from_slice(digits.as_bytes())
}

// A multiple of a variable, without its sign.
fn put_multiple(text: &mut Vec<u8>, names: &[Name], term: Term) -> Result<(), AllocError> {
    let magnitude = term.coefficient.unsigned_abs();
    if magnitude != 1 {
        put_number(text, magnitude)?;
        text.extend_from_slice(b"*")?;
    }
    match names.get(term.var as usize) {
        Some(name) => text.extend_from_slice(name.as_slice()),
        None => Ok(()),
    }
}

// A constant behind variables, if there are some; 0 only alone.
fn put_constant(text: &mut Vec<u8>, constant: i128, is_alone: bool) -> Result<(), AllocError> {
    if constant == 0 && !is_alone {
        return Ok(());
    }
    match (is_alone, constant < 0) {
        (true, true) => text.extend_from_slice(b"-")?,
        (true, false) => {}
        (false, true) => text.extend_from_slice(b" - ")?,
        (false, false) => text.extend_from_slice(b" + ")?,
    }
    put_number(text, constant.unsigned_abs())
}

// The sum of the terms with this sign, without it, and of the constant.
fn put_side(
    text: &mut Vec<u8>,
    names: &[Name],
    terms: &[Term],
    is_above: bool,
    constant: i128,
) -> Result<(), AllocError> {
    let mut is_alone = true;
    for term in terms {
        if (term.coefficient > 0) == is_above {
            if !is_alone {
                text.extend_from_slice(b" + ")?;
            }
            put_multiple(text, names, *term)?;
            is_alone = false;
        }
    }
    put_constant(text, constant, is_alone)
}

// Whether a coefficient is below 0.
fn has_below(terms: &[Term]) -> bool {
    for term in terms {
        if term.coefficient < 0 {
            return true;
        }
    }
    false
}

// How a comparison of a sum is written: without minus signs where the other side can take them, and
// with the lesser side first where it is a bound from below of one variable or of a difference.
fn layout_of(terms: &[Term], comparison: Comparison) -> Layout {
    let Comparison { relation, bound } = comparison;
    let has_below = has_below(terms);
    match relation {
        Relation::Equal => Layout::Above(b" = ", bound),
        Relation::NotEqual => Layout::Above(b" <> ", bound),
        Relation::AtMost if has_below && bound == -1 => Layout::Above(b" < ", 0),
        Relation::AtMost => Layout::Above(b" <= ", bound),
        Relation::AtLeast if has_below && bound == 1 => Layout::Below(b" < ", 0),
        Relation::AtLeast if has_below || terms.len() == 1 => Layout::Below(b" <= ", bound),
        Relation::AtLeast => Layout::Above(b" >= ", bound),
    }
}

fn put_comparison(
    text: &mut Vec<u8>,
    names: &[Name],
    terms: &[Term],
    comparison: Comparison,
) -> Result<(), AllocError> {
    match layout_of(terms, comparison) {
        Layout::Above(sign, constant) => {
            put_side(text, names, terms, true, 0)?;
            text.extend_from_slice(sign)?;
            put_side(text, names, terms, false, i128::from(constant))
        }
        Layout::Below(sign, constant) => {
            put_side(text, names, terms, false, i128::from(constant))?;
            text.extend_from_slice(sign)?;
            put_side(text, names, terms, true, 0)
        }
    }
}

// Whether the term has another sign than all others.
fn stands_alone(terms: &[Term], term: Term) -> bool {
    let is_above = term.coefficient > 0;
    for other in terms {
        if other.var != term.var && (other.coefficient > 0) == is_above {
            return false;
        }
    }
    true
}

// Whether a variable stands on the other side than those with coefficients above 0, or than the
// others.
fn has_other_side(terms: &[Term], is_above: bool) -> bool {
    for term in terms {
        if (term.coefficient > 0) != is_above {
            return true;
        }
    }
    false
}

// Whether the variables with coefficients above 0 are on the left of the equation, and whether one
// variable stands alone there: one without a coefficient that has another sign than all others, if
// there is one.
fn left_side(terms: &[Term]) -> (bool, bool) {
    let mut single = None;
    for term in terms {
        if term.coefficient.unsigned_abs() == 1 {
            if stands_alone(terms, *term) {
                return (term.coefficient > 0, true);
            }
            single = single.or(Some(term));
        }
    }
    match single.or(terms.first()) {
        Some(term) => (term.coefficient > 0, false),
        None => (true, true),
    }
}

fn put_equation(
    text: &mut Vec<u8>,
    names: &[Name],
    equation: &Inequality,
) -> Result<(), AllocError> {
    let terms = equation.terms.as_slice();
    let (is_above, is_alone) = left_side(terms);
    let right = if is_above {
        equation.constant.wrapping_neg()
    } else {
        equation.constant
    };
    let has_right = has_other_side(terms, is_above);
    let is_moved = right < 0 && has_right && !is_alone;
    let left = if is_moved { right.wrapping_neg() } else { 0 };
    put_side(text, names, terms, is_above, left)?;
    text.extend_from_slice(b" = ")?;
    put_side(
        text,
        names,
        terms,
        !is_above,
        if is_moved { 0 } else { right },
    )
}

// A literal, or its negation.
fn put_literal(
    text: &mut Vec<u8>,
    universe: &Universe,
    names: &[Name],
    literal: u32,
    yes: bool,
) -> Result<(), AllocError> {
    let comparison = match universe.literals.comparison(literal) {
        Some(comparison) if yes => Some(comparison),
        Some(comparison) => comparison.negation(),
        None => None,
    };
    match comparison {
        Some(known) => put_comparison(text, names, universe.literals.terms(literal), known),
        None => text.extend_from_slice(b"false"),
    }
}

fn put_clause(
    text: &mut Vec<u8>,
    universe: &Universe,
    names: &[Name],
    clause: &[u32],
) -> Result<(), AllocError> {
    for (place, literal) in clause.iter().enumerate() {
        if place > 0 {
            text.extend_from_slice(b" or ")?;
        }
        put_literal(text, universe, names, *literal, true)?;
    }
    Ok(())
}

impl Candidate {
    // Its text, without parentheses.
    fn put(
        &self,
        text: &mut Vec<u8>,
        universe: &Universe,
        names: &[Name],
    ) -> Result<(), AllocError> {
        match self {
            Candidate::False => text.extend_from_slice(b"false"),
            Candidate::Equation(equation) => put_equation(text, names, equation),
            Candidate::Clause(clause) => put_clause(text, universe, names, clause),
            Candidate::Under { literal, equation } => {
                put_literal(text, universe, names, *literal, false)?;
                text.extend_from_slice(b" or ")?;
                put_equation(text, names, equation)
            }
        }
    }

    /// Adds its text, as in a source, with these names of the variables; in parentheses where it has
    /// an `or` and is to be wrapped.
    ///
    /// # Errors
    ///
    /// An allocation was refused. Part of the text may be added then.
    pub fn write(
        &self,
        text: &mut Vec<u8>,
        universe: &Universe,
        names: &[Name],
        wrapped: bool,
    ) -> Result<(), AllocError> {
        let has_or = match self {
            Candidate::False | Candidate::Equation(_) => false,
            Candidate::Clause(clause) => clause.len() > 1,
            Candidate::Under { .. } => true,
        };
        if wrapped && has_or {
            text.extend_from_slice(b"(")?;
            self.put(text, universe, names)?;
            return text.extend_from_slice(b")");
        }
        self.put(text, universe, names)
    }
}
