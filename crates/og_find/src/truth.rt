//! Whether facts are true of values.

ghost use Rattle.std.specs.Prelude.{◌≡◌, map, true, ◌+ℤ◌, ◌*ℤ◌, IsTrue, IfSome};
ghost use Rattle.og_linear.specs.Linear.{val};
ghost use Rattle.og_facts.specs.Answer.{shown};
ghost use Rattle.og_facts.specs.Facts as plain;
ghost use Rattle.og_facts.specs.Facts.{parts_of_list};
ghost use Rattle.og_facts.specs.Truth.{fact_true, some_part_true, all_true_at};
ghost use Rattle.og_facts.specs.Plain.{plain_fact};

use og_facts::{Atom, Fact};
use og_subst::Values;

/// A choice that has this many choices round it counts as false.
pub(crate) const NESTING_LIMIT: u32 = 200;

// The sum with a term more, where it fits.
fn with_term(sum: i128, coefficient: i128, value: i128) -> Option<i128>
    ensures { IfSome result (λ next. next ≡ sum +ℤ coefficient *ℤ value) }
{
    sum.checked_add(coefficient.checked_mul(value)?)
}

// The value of the form, where each product and each partial sum fits.
fn value_of(atom: &Atom, values: &Values) -> Option<i128>
    ensures { IfSome result (λ value. value ≡ val atom.now values.now) }
{
    let mut sum = atom.offset();
    for i in 0..usize::MAX {
        match atom.term(i) {
            Some((var, c)) => sum = with_term(sum, c, values.at(var))?,
            None => return Some(sum),
        }
    }
    None
}

fn is_at_most_zero(atom: &Atom, values: &Values) -> bool
    ensures { IsTrue result → fact_true values.now (plain.Atom atom.now) ≡ true }
{
    match value_of(atom, values) {
        Some(value) => value <= 0,
        None => false,
    }
}

#[cycle(truth)]
fn is_true(fact: &Fact, values: &Values, depth: u32) -> bool
    ensures { IsTrue result → fact_true values.now (plain_fact fact.now) ≡ true }
{
    match fact {
        Fact::Atom(atom) => is_at_most_zero(atom, values),
        Fact::Split(parts) => match depth.checked_sub(1) {
            Some(below) => some_true(parts, values, below),
            None => false,
        },
    }
}

#[cycle(truth)]
fn some_true(parts: &[Vec<Fact>], values: &Values, depth: u32) -> bool
    ensures { IsTrue result → some_part_true values.now (parts_of_list (map shown parts.now))
        ≡ true }
{
    for part in parts {
        if all_true(part, values, depth) {
            return true;
        }
    }
    false
}

/// Whether all facts are true of the values. One whose value leaves `i128` counts as false, and so
/// does a choice that has this many choices round it.
#[cycle(truth)]
pub(crate) fn all_true(facts: &[Fact], values: &Values, depth: u32) -> bool
    ensures { IsTrue result → all_true_at values.now (map plain_fact facts.now) ≡ true }
{
    for fact in facts {
        if !is_true(fact, values, depth) {
            return false;
        }
    }
    true
}
