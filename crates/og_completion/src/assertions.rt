//! Equal assertions, and stronger ones. Takes no memory.

ghost use Rattle.std.specs.Prelude.{◌≡◌, [], ◌∷◌, true, map, take, length};
ghost use Rattle.og_typed.specs.Plain.{formula};
ghost use Rattle.og_completion.specs.Completes.{Implies};

use og_linear::Form;
use og_subst::Action;
use og_typed::Assert;

/// Whether the forms are equal.
pub(crate) fn same_form(a: &Form, b: &Form) -> bool
    ensures { result ≡ true → a.now ≡ b.now }
{
    Action::Assign(0, a).equals(&Action::Assign(0, b))
}

// Whether the first assertions of the list are equal to those of the other one, in order.
#[cycle(equality)]
fn begins_with(all: &[Assert], first: &[Assert]) -> bool
    ensures { result ≡ true
        → take (length first.now) (map formula all.now) ≡ map formula first.now }
{
    if all.len() < first.len() {
        return false;
    }
    for i in 0..first.len() {
        if !same_assertion(&all[i], &first[i]) {
            return false;
        }
    }
    true
}

/// Whether the assertions are equal as trees.
#[cycle(equality)]
pub(crate) fn same_assertion(a: &Assert, b: &Assert) -> bool
    ensures { result ≡ true → formula a.now ≡ formula b.now }
{
    match (a, b) {
        (Assert::True, Assert::True) => true,
        (Assert::False, Assert::False) => true,
        (Assert::Le(form), Assert::Le(other)) => same_form(form, other),
        (Assert::Eq(form), Assert::Eq(other)) => same_form(form, other),
        (Assert::Ne(form), Assert::Ne(other)) => same_form(form, other),
        (Assert::Not(inner), Assert::Not(other)) => same_assertion(inner, other),
        (Assert::And(all), Assert::And(others)) => {
            all.len() == others.len() && begins_with(all, others)
        }
        (Assert::Or(all), Assert::Or(others)) => {
            all.len() == others.len() && begins_with(all, others)
        }
        (Assert::Imp(p, q), Assert::Imp(r, s)) => same_assertion(p, r) && same_assertion(q, s),
        _ => false,
    }
}

// Whether the first assertion of the list is equal to this one.
fn begins_with_one(all: &[Assert], first: &Assert) -> bool
    ensures { result ≡ true
        → take 1 (map formula all.now) ≡ formula first.now ∷ [] }
{
    match all.first() {
        Some(assertion) => same_assertion(assertion, first),
        None => false,
    }
}

/// Whether the new assertion is equal to the old one, or the old one is `true`, or the conjuncts of
/// the new one begin with those of the old one. Each such one implies the old one.
pub(crate) fn is_stronger(new: &Assert, old: &Assert) -> bool
    ensures { result ≡ true → Implies (formula new.now) (formula old.now) }
{
    match (new, old) {
        (_, Assert::True) => true,
        (Assert::And(all), Assert::And(first)) => begins_with(all, first),
        (Assert::And(all), _) => begins_with_one(all, old),
        _ => same_assertion(new, old),
    }
}
