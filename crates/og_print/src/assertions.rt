//! Printing assertions.

ghost use Rattle.std.specs.Prelude.{◌≡◌, ◌++◌, ◌≤◌, map, OnOk, IsTrue, nat_le};
ghost use Rattle.og_text.specs.declared.token.TokenKind.TheVariants as kinds;
ghost use Rattle.og_parse.specs.Trees.{listed, Comparison};
ghost use Rattle.og_parse.specs.TreeOf.{assertion_of, sum_of};
ghost use Rattle.og_print.specs.Print.{written, relation_word, looseness, fitted_in, assertion_in, joined_in, later_in};

use crate::terms::put_sum;
use og_parse::{RawAssert, RawSum, Relation};
use std::alloc::AllocError;

fn put_relation(text: &mut Vec<u8>, relation: Relation) -> Result<(), AllocError>
    ensures { OnOk result (text.new.items ≡ text.old.items ++ written.word (relation_word relation)) }
{
    match relation {
        Relation::LessEqual => text.extend_from_slice(b"<="),
        Relation::Less => text.extend_from_slice(b"<"),
        Relation::GreaterEqual => text.extend_from_slice(b">="),
        Relation::Greater => text.extend_from_slice(b">"),
        Relation::Equal => text.extend_from_slice(b"="),
        Relation::NotEqual => text.extend_from_slice(b"<>"),
    }
}

// How loosely an assertion binds.
fn looseness(a: &RawAssert) -> u8
    ensures { result ≡ looseness (assertion_of a.now) }
{
    match a {
        RawAssert::And(_) => 1,
        RawAssert::Or(_) => 2,
        RawAssert::Implies(_, _) => 3,
        _ => 0,
    }
}

fn put_comparison(
    text: &mut Vec<u8>,
    left: &RawSum,
    relation: Relation,
    right: &RawSum,
) -> Result<(), AllocError>
    ensures { OnOk result (text.new.items ≡ text.old.items
        ++ assertion_in written (Comparison (sum_of left.now) relation (sum_of right.now))) }
{
    put_sum(text, left)?;
    text.extend_from_slice(b" ")?;
    put_relation(text, relation)?;
    text.extend_from_slice(b" ")?;
    put_sum(text, right)
}

#[cycle(assertions)]
pub(crate) fn put_assertion(text: &mut Vec<u8>, a: &RawAssert) -> Result<(), AllocError>
    ensures { OnOk result (text.new.items ≡ text.old.items
        ++ assertion_in written (assertion_of a.now)) }
{
    match a {
        RawAssert::True => text.extend_from_slice(b"true"),
        RawAssert::False => text.extend_from_slice(b"false"),
        RawAssert::Compare(left, relation, right) => put_comparison(text, left, *relation, right),
        RawAssert::Not(a) => {
            text.extend_from_slice(b"not ")?;
            put_fitted(text, 0, a)
        }
        RawAssert::And(all) => put_conjunction(text, all),
        RawAssert::Or(all) => put_disjunction(text, all),
        RawAssert::Implies(left, right) => {
            put_fitted(text, 2, left)?;
            text.extend_from_slice(b" -> ")?;
            put_assertion(text, right)
        }
    }
}

// In parentheses, where it binds more loosely than it may.
#[cycle(assertions)]
fn put_fitted(text: &mut Vec<u8>, limit: u8, a: &RawAssert) -> Result<(), AllocError>
    ensures { OnOk result (text.new.items ≡ text.old.items ++ fitted_in written limit
        (assertion_of a.now) (assertion_in written (assertion_of a.now))) }
{
    if looseness(a) <= limit {
        return put_assertion(text, a);
    }
    text.extend_from_slice(b"(")?;
    put_assertion(text, a)?;
    text.extend_from_slice(b")")
}

#[cycle(assertions)]
fn put_conjunction(text: &mut Vec<u8>, all: &[RawAssert]) -> Result<(), AllocError>
    ensures { OnOk result (text.new.items ≡ text.old.items
        ++ joined_in written kinds.And 0 (listed (map assertion_of all.now))) }
{
    let [first, later @ ..] = all else {
        return Ok(());
    };
    put_fitted(text, 0, first)?;
    for a in later {
        text.extend_from_slice(b" and ")?;
        put_fitted(text, 0, a)?;
    }
    Ok(())
}

#[cycle(assertions)]
fn put_disjunction(text: &mut Vec<u8>, all: &[RawAssert]) -> Result<(), AllocError>
    ensures { OnOk result (text.new.items ≡ text.old.items
        ++ joined_in written kinds.Or 1 (listed (map assertion_of all.now))) }
{
    let [first, later @ ..] = all else {
        return Ok(());
    };
    put_fitted(text, 1, first)?;
    for a in later {
        text.extend_from_slice(b" or ")?;
        put_fitted(text, 1, a)?;
    }
    Ok(())
}
