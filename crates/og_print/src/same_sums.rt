//! Comparing names and sums.

ghost use Rattle.std.specs.Prelude.{◌≡◌, true, map};
ghost use Rattle.og_parse.specs.TreeOf.{sum_of};
ghost use Rattle.og_print.specs.Plain.{plain_name, plain_factor, plain_term, plain_sum};

use og_parse::{RawFactor, RawName, RawSum, RawTerm};

pub(crate) fn same_name(one: &RawName, other: &RawName) -> bool
    ensures { result ≡ true → plain_name one.now ≡ plain_name other.now }
{
    one.name.as_slice() == other.name.as_slice()
}

fn same_factor(one: &RawFactor, other: &RawFactor) -> bool
    ensures { result ≡ true → plain_factor one.now ≡ plain_factor other.now }
{
    match (one, other) {
        (RawFactor::Number(a), RawFactor::Number(b)) => a == b,
        (RawFactor::Variable(x), RawFactor::Variable(y)) => same_name(x, y),
        (RawFactor::Product(a, x), RawFactor::Product(b, y)) => a == b && same_name(x, y),
        _ => false,
    }
}

fn same_term(one: &RawTerm, other: &RawTerm) -> bool
    ensures { result ≡ true → plain_term one.now ≡ plain_term other.now }
{
    one.sign == other.sign && same_factor(&one.factor, &other.factor)
}

fn same_terms(one: &[RawTerm], other: &[RawTerm]) -> bool
    ensures { result ≡ true → map plain_term one.now ≡ map plain_term other.now }
{
    if one.len() != other.len() {
        return false;
    }
    for (i, a) in one.iter().enumerate() {
        if !same_term(a, &other[i]) {
            return false;
        }
    }
    true
}

pub(crate) fn same_sum(one: &RawSum, other: &RawSum) -> bool
    ensures { result ≡ true → plain_sum (sum_of one.now) ≡ plain_sum (sum_of other.now) }
{
    same_terms(&one.terms, &other.terms)
}
