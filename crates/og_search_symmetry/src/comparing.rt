//! Which variables of one list of facts stand for those of another.

use crate::marks::Terms;
use crate::renaming::Renaming;
use og_facts::{Atom, Fact};

/// Inequalities of more variables are not compared: in one of many, which an action changes, the
/// variables stand at other places.
const MOST_TERMS: usize = 2;

// Notes which variables the inequalities have at the same places, where they differ.
fn compare_atoms(renaming: &mut Renaming, from: &Atom, to: &Atom) {
    let (from, to) = (Terms::of(from), Terms::of(to));
    if from.get(MOST_TERMS).is_some() || to.get(MOST_TERMS).is_some() {
        return;
    }
    for i in 0..MOST_TERMS {
        match (from.get(i), to.get(i)) {
            (Some((one, _)), Some((other, _))) if one != other => renaming.note(one, other),
            _ => {}
        }
    }
}

#[cycle(comparing)]
fn compare(renaming: &mut Renaming, from: &Fact, to: &Fact, depth: u32) {
    match (from, to) {
        (Fact::Atom(one), Fact::Atom(other)) => compare_atoms(renaming, one, other),
        (Fact::Split(one), Fact::Split(other)) => {
            if let Some(below) = depth.checked_sub(1) {
                compare_parts(renaming, one, other, below);
            }
        }
        _ => {}
    }
}

#[cycle(comparing)]
fn compare_parts(renaming: &mut Renaming, from: &[Vec<Fact>], to: &[Vec<Fact>], depth: u32) {
    for i in 0..from.len() {
        if let Some(part) = to.get(i) {
            compare_facts(renaming, &from[i], part, depth);
        }
    }
}

/// Notes which variables the facts have at the same places, where they differ: the first facts
/// holds.
#[cycle(comparing)]
pub(crate) fn compare_facts(renaming: &mut Renaming, from: &[Fact], to: &[Fact], depth: u32) {
    for i in 0..from.len() {
        if let Some(fact) = to.get(i) {
            compare(renaming, &from[i], fact, depth);
        }
    }
}
