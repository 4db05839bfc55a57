//! Marks of facts: numbers that are the same for equal facts, and tell others apart but for a
//! chance of the hash.

use og_facts::{Atom, Fact};
use og_search_rows::{last_bits, next_mark};

// The mark of a list with an inequality more.
fn mark_with_atom(mark: u64, atom: &Atom) -> u64 {
    let mut next = next_mark(mark, last_bits(atom.offset()));
    for i in 0..usize::MAX {
        let Some((var, coefficient)) = atom.term(i) else {
            break;
        };
        next = next_mark(next_mark(next, u64::from(var)), last_bits(coefficient));
    }
    next
}

// The mark of a list with a fact more.
#[cycle(marks)]
fn mark_with_fact(mark: u64, fact: &Fact) -> u64 {
    let parts = match fact {
        Fact::Atom(atom) => return mark_with_atom(mark, atom),
        Fact::Split(parts) => parts,
    };
    let mut next = next_mark(mark, parts.len() as u64);
    for part in parts {
        next = mark_with_facts(next, part);
    }
    next
}

/// The mark of a list with these facts more.
#[cycle(marks)]
pub(crate) fn mark_with_facts(mark: u64, facts: &[Fact]) -> u64 {
    let mut next = next_mark(mark, facts.len() as u64);
    for fact in facts {
        next = mark_with_fact(next, fact);
    }
    next
}
