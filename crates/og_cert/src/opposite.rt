//! Closing lines of two facts of one variable, which are seen to be closed without a sum.

ghost use Rattle.std.specs.Prelude.{◌≡◌, [], ◌∷◌, pos, ◌+ℤ◌, ◌*ℤ◌, IfSome, IsTrue, Ok};
ghost use Rattle.og_linear.specs.Linear.{form_value};
ghost use Rattle.og_cert_text.specs.Plain.{combination_of};
ghost use Rattle.og_cert.specs.Checks as check;
ghost use Rattle.og_cert.specs.Held.{facts_held};
ghost use Rattle.og_cert.specs.Opposite.{single_form, IsMixed, Opposes};

use crate::held::{Held, atom_at};
use crate::sum::{plus_product, product_of};
use og_cert_text::{Source, Term};
use og_facts::Atom;

/// A form of one variable.
#[derive(Clone, Copy)]
pub(crate) struct Single {
    pub(crate) var: u32,
    pub(crate) coefficient: i128,
    pub(crate) constant: i128,
}

// The form of the inequality, where it has one variable.
fn form_of_one(atom: &Atom) -> Option<Single>
    ensures { IfSome result (λ s. atom.now ≡ single_form s) }
{
    let constant = atom.offset();
    match (atom.term(0), atom.term(1)) {
        (Some((var, coefficient)), None) => Some(Single {
            var,
            coefficient,
            constant,
        }),
        _ => None,
    }
}

// The sum of both multiples, where each of them and the sum fits.
fn mixed(k: u64, c: i128, m: u64, d: i128) -> Option<i128>
    ensures { IfSome result (IsMixed k c m d) }
{
    let first = product_of(i128::from(k), c).ok()?;
    plus_product(first, i128::from(m), d).ok()
}

// Whether the sum of these multiples of the two is a constant above 0.
fn opposes(k: u64, x: Single, m: u64, y: Single) -> bool
    ensures { IsTrue result → Opposes k x m y }
{
    if x.var != y.var {
        return false;
    }
    let coefficient = mixed(k, x.coefficient, m, y.coefficient);
    let constant = mixed(k, x.constant, m, y.constant);
    match (coefficient, constant) {
        (Some(coefficient), Some(constant)) => coefficient == 0 && constant > 0,
        _ => false,
    }
}

/// Whether the sum of these two multiples is a constant above 0, as far as that is seen at once: of
/// two facts of one variable. Takes no memory.
pub(crate) fn is_closed(variables: u32, held: &[Held], a: Term, b: Term) -> bool
    ensures { IsTrue result
        → check.closing variables (facts_held held.now) (combination_of (a ∷ b ∷ [])) ≡ Ok tt }
{
    let (Source::Known(i), Source::Known(j)) = (a.source, b.source) else {
        return false;
    };
    let (Ok(first), Ok(second)) = (atom_at(held, i), atom_at(held, j)) else {
        return false;
    };
    match (form_of_one(first), form_of_one(second)) {
        (Some(x), Some(y)) => opposes(a.times, x, b.times, y),
        _ => false,
    }
}
