//! Marks of facts: numbers that are the same for equal facts, whatever the order of terms, of the
//! facts of a part and of the parts of a choice. A label stands for each variable.

use og_facts::{Atom, Fact, Signed};
use og_search_rows::{last_bits, next_mark};

/// Choices that have this many choices round them count as equal.
pub(crate) const NESTING_LIMIT: u32 = 200;

/// The mark of nothing.
const START: u64 = 0x62b8_2175_6295_c58d;

/// The terms of an inequality, each coefficient by its last bits.
#[derive(Clone, Copy)]
pub(crate) struct Terms<'a> {
    signed: Signed<'a>,
}

impl<'a> Terms<'a> {
    pub(crate) fn of(atom: &'a Atom) -> Terms<'a> {
        Terms {
            signed: atom.signed(),
        }
    }

    /// The variable of the i-th term, counted from 0, and its coefficient.
    pub(crate) fn get(self, i: usize) -> Option<(u32, u64)> {
        let (var, coefficient) = self.signed.form.term(i)?;
        let bits = last_bits(coefficient);
        let is_negated = self.signed.is_negated;
        Some((
            var,
            if is_negated {
                bits.wrapping_neg()
            } else {
                bits
            },
        ))
    }
}

/// The label of a variable.
pub(crate) fn label(labels: &[u64], var: u32) -> u64 {
    labels.get(var as usize).copied().unwrap_or(START)
}

/// The mark of an inequality.
pub(crate) fn atom_mark(labels: &[u64], atom: &Atom) -> u64 {
    let terms = Terms::of(atom);
    let mut sum = START;
    for i in 0..usize::MAX {
        let Some((var, coefficient)) = terms.get(i) else {
            break;
        };
        sum = sum.wrapping_add(next_mark(label(labels, var), coefficient));
    }
    next_mark(sum, last_bits(atom.offset()))
}

/// The mark of a fact with this many levels of choices.
#[cycle(marks)]
pub(crate) fn fact_mark(labels: &[u64], fact: &Fact, depth: u32) -> u64 {
    match fact {
        Fact::Atom(atom) => atom_mark(labels, atom),
        Fact::Split(parts) => match depth.checked_sub(1) {
            Some(below) => choice_mark(labels, parts, below),
            None => START,
        },
    }
}

#[cycle(marks)]
fn choice_mark(labels: &[u64], parts: &[Vec<Fact>], depth: u32) -> u64 {
    let mut sum = START;
    for part in parts {
        sum = sum.wrapping_add(part_mark(labels, part, depth));
    }
    next_mark(START, sum)
}

/// The mark of a part with this many levels of choices.
#[cycle(marks)]
pub(crate) fn part_mark(labels: &[u64], part: &[Fact], depth: u32) -> u64 {
    let mut sum = START;
    for fact in part {
        sum = sum.wrapping_add(fact_mark(labels, fact, depth));
    }
    next_mark(START, sum)
}
