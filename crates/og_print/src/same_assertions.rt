//! Comparing assertions.

ghost use Rattle.std.specs.Prelude.{◌≡◌, true, map};
ghost use Rattle.og_parse.specs.Trees.{listed};
ghost use Rattle.og_parse.specs.TreeOf.{assertion_of, note_of};
ghost use Rattle.og_print.specs.Plain.{plain_assertion, plain_assertions, plain_note};

use crate::same_sums::same_sum;
use og_parse::{RawAssert, RawNote};

#[cycle(assertions)]
pub(crate) fn same_assertion(one: &RawAssert, other: &RawAssert) -> bool
    ensures { result ≡ true → plain_assertion (assertion_of one.now)
        ≡ plain_assertion (assertion_of other.now) }
{
    match (one, other) {
        (RawAssert::True, RawAssert::True) => true,
        (RawAssert::False, RawAssert::False) => true,
        (RawAssert::Compare(a, r, b), RawAssert::Compare(c, s, d)) => {
            r == s && same_sum(a, c) && same_sum(b, d)
        }
        (RawAssert::Not(a), RawAssert::Not(b)) => same_assertion(a, b),
        (RawAssert::And(all), RawAssert::And(others)) => same_assertions(all, others),
        (RawAssert::Or(all), RawAssert::Or(others)) => same_assertions(all, others),
        (RawAssert::Implies(a, b), RawAssert::Implies(c, d)) => {
            same_assertion(a, c) && same_assertion(b, d)
        }
        _ => false,
    }
}

#[cycle(assertions)]
fn same_assertions(one: &[RawAssert], other: &[RawAssert]) -> bool
    ensures { result ≡ true → plain_assertions (listed (map assertion_of one.now))
        ≡ plain_assertions (listed (map assertion_of other.now)) }
{
    if one.len() != other.len() {
        return false;
    }
    for (i, a) in one.iter().enumerate() {
        if !same_assertion(a, &other[i]) {
            return false;
        }
    }
    true
}

pub(crate) fn same_note(one: &RawNote, other: &RawNote) -> bool
    ensures { result ≡ true → plain_note (note_of one.now) ≡ plain_note (note_of other.now) }
{
    same_assertion(&one.assertion, &other.assertion)
}
