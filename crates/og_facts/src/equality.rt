//! Equality of facts. Takes no memory.

ghost use Rattle.std.specs.Prelude.{◌≡◌, ◌↔◌, Some, map, slice_get, IsTrue};
ghost use Rattle.og_facts.specs.Plain.{plain_fact};

use crate::atom::Atom;
use crate::fact::Fact;

// Whether this is the i-th term of the inequality.
fn has_term(atom: &Atom, i: usize, term: (u32, i128)) -> bool
    ensures { IsTrue result ↔ (slice_get atom.now.terms i ≡ Some term) }
{
    match atom.term(i) {
        Some((var, coefficient)) => var == term.0 && coefficient == term.1,
        None => false,
    }
}

fn same_atoms(a: &Atom, b: &Atom) -> bool
    ensures { IsTrue result ↔ (a.now ≡ b.now) }
{
    let mut i = 0;
    while let Some(term) = a.term(i) {
        if !has_term(b, i, term) {
            return false;
        }
        i += 1;
    }
    b.term(i).is_none() && a.offset() == b.offset()
}

#[cycle(equality)]
fn same_fact(a: &Fact, b: &Fact) -> bool
    ensures { IsTrue result ↔ (plain_fact a.now ≡ plain_fact b.now) }
{
    let (parts, others) = match (a, b) {
        (Fact::Atom(atom), Fact::Atom(other)) => return same_atoms(atom, other),
        (Fact::Split(parts), Fact::Split(others)) => (parts, others),
        _ => return false,
    };
    if parts.len() != others.len() {
        return false;
    }
    for i in 0..parts.len() {
        if !same_facts(&parts[i], &others[i]) {
            return false;
        }
    }
    true
}

/// Whether the facts are equal, one by one.
#[cycle(equality)]
pub(crate) fn same_facts(a: &[Fact], b: &[Fact]) -> bool
    ensures { IsTrue result ↔ (map plain_fact a.now ≡ map plain_fact b.now) }
{
    if a.len() != b.len() {
        return false;
    }
    for i in 0..a.len() {
        if !same_fact(&a[i], &b[i]) {
            return false;
        }
    }
    true
}
