//! The literals of an outline, and how they stand to one another in clauses.

use crate::bits::Bits;
use og_infer_literals::{Comparison, Literals, Relation, Room, Sum, count, sum_at};
use og_infer_places::{Places, Samples};
use og_search_rows::Term;
use std::alloc::{AllocError, Global};

/// With more values than this, a clause may have several values of a variable.
const FEW: usize = 3;

/// The most values of a small variable.
const SMALL: usize = 6;

/// With more literals there are no clauses of three.
const MOST_OF_TRIPLES: u32 = 300;

/// How a literal of clauses stands to the others.
#[derive(Drop)]
struct Relatives {
    // Those that may stand in a clause with it, and itself.
    partners: Bits,
    // Those that imply it.
    stronger: Bits,
}

/// The literals of an outline, of which candidates are made.
#[derive(Drop)]
pub struct Universe {
    tier: u8,
    pub(crate) variables: u32,
    pub(crate) room: Room,
    pub(crate) literals: Literals,
    relatives: Vec<Relatives>,
    /// The literals, each of a value of a variable, under which there are equations of their own.
    pub(crate) flags: Vec<u32>,
}

// Whether a clause may have two values of this sum: it is a variable with many of them.
fn allows_several(literals: &Literals, sum: &Sum) -> bool {
    match sum.terms.as_slice() {
        [only] => matches!(literals.sizes.get(only.var as usize), Some(size) if *size > FEW),
        _ => false,
    }
}

impl Relatives {
    // Notes how another literal of the sum stands to the own one, which may stand in a clause with
    // other values of the sum where it is one of many.
    fn relate(&mut self, other: u32, known: Comparison, own: Comparison, is_value: bool) {
        if !is_value || known.relation != Relation::Equal {
            self.partners.remove(other);
        }
        if known.implies(own) {
            self.stronger.add(other);
        }
    }
}

// How a literal stands to the others of its sum, where all these may stand in a clause with others.
fn relatives_of(
    alloc: Global,
    literals: &Literals,
    all: &Bits,
    literal: u32,
) -> Result<Relatives, AllocError> {
    let partners = all.copy()?;
    let stronger = Bits::none(alloc, literals.clausal)?;
    let (Some(sum), Some(own)) = (literals.sum(literal), literals.comparison(literal)) else {
        return Ok(Relatives { partners, stronger });
    };
    let is_value = own.relation == Relation::Equal && allows_several(literals, sum);
    let mut relatives = Relatives { partners, stronger };
    for other in &sum.literals {
        if *other != literal {
            if let Some(known) = literals.comparison(*other) {
                relatives.relate(*other, known, own, is_value);
            }
        }
    }
    Ok(relatives)
}

// How each literal of clauses stands to the others.
fn all_relatives(alloc: Global, literals: &Literals) -> Result<Vec<Relatives>, AllocError> {
    let all = Bits::all(alloc, literals.clausal)?;
    let mut relatives = Vec::with_capacity(alloc, literals.clausal as usize)?;
    for literal in 0..literals.clausal {
        relatives.push(relatives_of(alloc, literals, &all, literal)?)?;
    }
    Ok(relatives)
}

// The first literals of clauses that say that a variable has a value.
fn flags(alloc: Global, literals: &Literals, most: u64) -> Result<Vec<u32>, AllocError> {
    let mut flags = Vec::new(alloc);
    for literal in 0..literals.clausal {
        let is_single = literals.terms(literal).len() == 1;
        let comparison = literals.comparison(literal);
        let is_value = matches!(
            comparison,
            Some(Comparison {
                relation: Relation::Equal,
                ..
            })
        );
        if is_single && is_value && (flags.len() as u64) < most {
            flags.push(literal)?;
        }
    }
    Ok(flags)
}

impl Universe {
    /// The literals of the outline of these places, by its text and by the states that were seen at
    /// the places. Tier 1 has equations, bounds and clauses of two literals; tiers above also
    /// equations under the value of a variable, and tier 3 clauses of three.
    ///
    /// # Errors
    ///
    /// An allocation was refused.
    pub fn of(
        alloc: Global,
        places: &Places,
        samples: &Samples,
        tier: u8,
    ) -> Result<Universe, AllocError> {
        let variables = count(places.outline().names());
        let room = Room::of(count(places.as_slice()), variables);
        let literals = Literals::of(alloc, places, samples, room)?;
        Ok(Universe {
            tier,
            variables,
            room,
            relatives: all_relatives(alloc, &literals)?,
            flags: flags(alloc, &literals, if tier >= 2 { room.flags } else { 0 })?,
            literals,
        })
    }

    /// The tier.
    pub fn tier(&self) -> u8 {
        self.tier
    }

    /// How much there is to look through to tell whether all candidates of a place are true: the
    /// sums, and the words of the sets of literals.
    pub fn size(&self) -> u64 {
        let literals = u64::from(self.literals.clausal);
        let words = literals.saturating_mul(literals.div_ceil(64));
        words.saturating_add(self.literals.sums.len() as u64)
    }

    /// The most clauses of three literals of a place.
    pub(crate) fn most_triples(&self) -> usize {
        if self.tier >= 3 && self.literals.clausal <= MOST_OF_TRIPLES {
            self.room.triples
        } else {
            0
        }
    }

    /// Which literals of clauses are true of the values.
    ///
    /// # Errors
    ///
    /// An allocation was refused.
    pub fn mask(&self, alloc: Global, values: &[i64]) -> Result<Bits, AllocError> {
        let mut mask = Bits::none(alloc, self.literals.clausal)?;
        for sum in &self.literals.sums {
            self.put_true(sum, values, &mut mask);
        }
        Ok(mask)
    }

    // Adds the literals of clauses of a sum that are true of the values.
    fn put_true(&self, sum: &Sum, values: &[i64], mask: &mut Bits) {
        if sum.literals.is_empty() {
            return;
        }
        let Some(value) = sum_at(&sum.terms, values) else {
            return;
        };
        for literal in &sum.literals {
            let comparison = self.literals.comparison(*literal);
            if matches!(comparison, Some(known) if known.holds(value)) {
                mask.add(*literal);
            }
        }
    }

    /// Whether the literal is true of the values, whose mask is given.
    pub(crate) fn is_true(&self, literal: u32, values: &[i64], mask: &Bits) -> bool {
        if literal < self.literals.clausal {
            mask.has(literal)
        } else {
            self.literals.is_true(literal, values)
        }
    }

    /// The literals that may stand in a clause with this one, and itself.
    pub(crate) fn partners(&self, literal: u32) -> Option<&Bits> {
        Some(&self.relatives.get(literal as usize)?.partners)
    }

    /// Whether some literal of the set implies this one, which is another one.
    pub(crate) fn is_implied(&self, literal: u32, by: &Bits) -> bool {
        match self.relatives.get(literal as usize) {
            Some(relatives) => relatives.stronger.meets(by),
            None => false,
        }
    }

    /// Whether the first literal implies the second one, another one of the same sum.
    pub(crate) fn implies(&self, first: u32, second: u32) -> bool {
        match self.relatives.get(second as usize) {
            Some(relatives) => relatives.stronger.has(first),
            None => false,
        }
    }

    /// Whether one of these variables has a few values alone.
    pub(crate) fn has_small(&self, terms: &[Term]) -> bool {
        for term in terms {
            let size = self.literals.sizes.get(term.var as usize);
            if matches!(size, Some(size) if *size > 1 && *size <= SMALL) {
                return true;
            }
        }
        false
    }
}
