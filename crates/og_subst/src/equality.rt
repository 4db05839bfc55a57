//! Equality of forms and of the statements of an await. Takes no memory.

ghost use Rattle.std.specs.Prelude.{◌≡◌, ◌↔◌, map, IsTrue};
ghost use Rattle.og_typed.specs.Plain.{simple};

use og_linear::Form;
use og_typed::Basic;

fn same_numbers(a: i128, b: i128) -> bool
    ensures { IsTrue result ↔ (a ≡ b) }
{
    a == b
}

fn same_terms(a: (u32, i128), b: (u32, i128)) -> bool
    ensures { IsTrue result ↔ (a ≡ b) }
{
    a.0 == b.0 && same_numbers(a.1, b.1)
}

pub(crate) fn same_forms(a: &Form, b: &Form) -> bool
    ensures { IsTrue result ↔ (a.now ≡ b.now) }
{
    let mut i = 0;
    while let Some(term) = a.term(i) {
        match b.term(i) {
            Some(other) if same_terms(term, other) => i += 1,
            _ => return false,
        }
    }
    b.term(i).is_none() && same_numbers(a.offset(), b.offset())
}

fn same_basics(a: &Basic, b: &Basic) -> bool
    ensures { IsTrue result ↔ (simple a.now ≡ simple b.now) }
{
    match (a, b) {
        (Basic::Skip, Basic::Skip) => true,
        (Basic::Assign(x, form), Basic::Assign(y, other)) => *x == *y && same_forms(form, other),
        _ => false,
    }
}

pub(crate) fn same_bodies(a: &[Basic], b: &[Basic]) -> bool
    ensures { IsTrue result ↔ (map simple a.now ≡ map simple b.now) }
{
    if a.len() != b.len() {
        return false;
    }
    for (i, basic) in a.iter().enumerate() {
        if !same_basics(basic, &b[i]) {
            return false;
        }
    }
    true
}
