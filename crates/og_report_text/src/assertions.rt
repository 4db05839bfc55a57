//! Assertions.

ghost use Rattle.std.specs.Prelude.{◌≡◌, ◌++◌, [], map, OnOk};
ghost use Rattle.og_typed.specs.Plain.{formula};
ghost use Rattle.og_typed.specs.Lists.{formula_list};
ghost use Rattle.og_report_text.specs.Assertions.{rank, assertion_text, operand_text, joined_text};

use crate::relations::{Relation, put_relation};
use og_text::Name;
use og_typed::Assert;
use std::alloc::AllocError;

// How tightly an assertion binds.
fn rank(assert: &Assert) -> u8
    ensures { result ≡ rank (formula assert.now) }
{
    match assert {
        Assert::Imp(..) => 0,
        Assert::Or(_) => 1,
        Assert::And(_) => 2,
        _ => 3,
    }
}

/// Adds the assertion to the text, with parentheses where the grammar needs them.
///
/// # Errors
///
/// An allocation was refused; the text has what it had, and perhaps a part of this.
#[cycle(assertions)]
#[tactic(auto, using(og_typed::proofs::Lists::formula_and, og_typed::proofs::Lists::formula_or))]
pub fn put_assertion(text: &mut Vec<u8>, names: &[Name], assert: &Assert) -> Result<(), AllocError>
    ensures { OnOk result (text.new.items ≡ text.old.items
        ++ assertion_text names.now (formula assert.now)) }
{
    match assert {
        Assert::True => text.extend_from_slice(b"true"),
        Assert::False => text.extend_from_slice(b"false"),
        Assert::Le(form) => put_relation(text, names, Relation::AtMost, form),
        Assert::Eq(form) => put_relation(text, names, Relation::Equal, form),
        Assert::Ne(form) => put_relation(text, names, Relation::Unequal, form),
        Assert::Not(a) => {
            text.extend_from_slice(b"not ")?;
            put_operand(text, names, 3, a)
        }
        Assert::And(all) => put_joined(text, names, b" and ", 3, all),
        Assert::Or(all) => put_joined(text, names, b" or ", 2, all),
        Assert::Imp(a, b) => {
            put_operand(text, names, 1, a)?;
            text.extend_from_slice(b" -> ")?;
            put_assertion(text, names, b)
        }
    }
}

/// Adds the assertion to the text, in parentheses where it binds less tightly than this: 0 for
/// `->`, 1 for `or`, 2 for `and`, 3 for all others.
///
/// # Errors
///
/// An allocation was refused; the text has what it had, and perhaps a part of this.
#[cycle(assertions)]
pub fn put_operand(
    text: &mut Vec<u8>,
    names: &[Name],
    least: u8,
    assert: &Assert,
) -> Result<(), AllocError>
    ensures { OnOk result (text.new.items ≡ text.old.items
        ++ operand_text names.now least (formula assert.now)) }
{
    if rank(assert) < least {
        text.extend_from_slice(b"(")?;
        put_assertion(text, names, assert)?;
        text.extend_from_slice(b")")
    } else {
        put_assertion(text, names, assert)
    }
}

// Assertions with a word between two.
#[cycle(assertions)]
fn put_joined(
    text: &mut Vec<u8>,
    names: &[Name],
    word: &[u8],
    least: u8,
    all: &[Assert],
) -> Result<(), AllocError>
    ensures { OnOk result (text.new.items ≡ text.old.items
        ++ joined_text names.now [] word.now least (formula_list (map formula all.now))) }
{
    let mut between: &[u8] = b"";
    for assert in all {
        text.extend_from_slice(between)?;
        put_operand(text, names, least, assert)?;
        between = word;
    }
    Ok(())
}
