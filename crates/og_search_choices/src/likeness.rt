//! Equal facts.

use crate::part::{Atom, Choice, Part};
use og_search_rows::{Term, last_bits, next_mark};

fn mark_terms(mark: u64, terms: &[Term]) -> u64 {
    let mut next = next_mark(mark, terms.len() as u64);
    for term in terms {
        next = next_mark(next, u64::from(term.var));
        next = next_mark(next, last_bits(term.coefficient));
    }
    next
}

// The mark with the terms of an inequality: by their direction and the sign of the first one, where
// they have a direction.
fn mark_terms_of(mark: u64, atom: &Atom) -> u64 {
    let terms = &atom.form.terms;
    let Some(direction) = atom.direction else {
        return mark_terms(mark, terms);
    };
    let is_turned = matches!(terms.first(), Some(first) if first.coefficient < 0);
    next_mark(mark, if is_turned { !direction } else { direction })
}

/// A number that is the same for equal inequalities, wherever they stand.
pub fn mark_of_atom(atom: &Atom) -> u64 {
    mark_terms_of(next_mark(2, last_bits(atom.form.constant)), atom)
}

fn mark_atoms(mark: u64, atoms: &[Atom]) -> u64 {
    let mut next = next_mark(mark, atoms.len() as u64);
    for atom in atoms {
        next = next_mark(next, atom.index as u64);
        next = next_mark(next, last_bits(atom.form.constant));
        next = mark_terms_of(next, atom);
    }
    next
}

fn mark_part(mark: u64, part: &Part) -> u64 {
    let mut next = mark_atoms(next_mark(mark, part.count as u64), &part.atoms);
    next = next_mark(next, part.choices.len() as u64);
    for choice in &part.choices {
        next = next_mark(next_mark(next, choice.index as u64), choice.mark);
    }
    next
}

/// A number that is the same for equal parts, and for others only by a chance of the hash.
pub fn mark_parts(parts: &[Part]) -> u64 {
    let mut next = next_mark(0, parts.len() as u64);
    for part in parts {
        next = mark_part(next, part);
    }
    next
}

fn is_same_atom(a: &Atom, b: &Atom) -> bool {
    a.index == b.index && a.form.constant == b.form.constant && a.form.is_parallel(&b.form)
}

fn are_same_atoms(a: &[Atom], b: &[Atom]) -> bool {
    if a.len() != b.len() {
        return false;
    }
    for i in 0..a.len() {
        if !is_same_atom(&a[i], &b[i]) {
            return false;
        }
    }
    true
}

#[cycle(likeness)]
fn is_same_part(a: &Part, b: &Part) -> bool {
    a.count == b.count
        && are_same_atoms(&a.atoms, &b.atoms)
        && are_same_choices(&a.choices, &b.choices)
}

#[cycle(likeness)]
fn are_same_choices(a: &[Choice], b: &[Choice]) -> bool {
    if a.len() != b.len() {
        return false;
    }
    for i in 0..a.len() {
        if a[i].index != b[i].index || !are_same_parts(&a[i].parts, &b[i].parts) {
            return false;
        }
    }
    true
}

#[cycle(likeness)]
fn are_same_parts(a: &[Part], b: &[Part]) -> bool {
    if a.len() != b.len() {
        return false;
    }
    for i in 0..a.len() {
        if !is_same_part(&a[i], &b[i]) {
            return false;
        }
    }
    true
}

impl Part {
    /// Whether the facts are equal.
    pub fn is_same(&self, other: &Part) -> bool {
        is_same_part(self, other)
    }
}
