//! The conjuncts of an assertion.

ghost use Rattle.std.specs.Prelude.{◌≡◌, ◌++◌, [], codes, if◌then◌else◌, IfOk, OnOk};
ghost use Rattle.og_typed.specs.Plain.{formula};
ghost use Rattle.og_report_text.specs.Conjuncts.{conjuncts, speaks_of, chosen, conjuncts_text, nothing_text, known_text, chosen_text};
ghost use Rattle.og_report_text.specs.Seen.{formulas_of};
ghost use Rattle.og_report_text.specs.Values.{names_text};

use crate::assertions::{put_assertion, put_operand};
use crate::values::put_names;
use og_text::Name;
use og_typed::Assert;
use std::alloc::{AllocError, Global};

/// Adds the conjuncts of an assertion to the list: also those of the conjunctions in it; else the
/// assertion alone.
///
/// # Errors
///
/// An allocation was refused; the list has what it had, and perhaps some of these.
#[tactic(auto, using(og_typed::proofs::Lists::formula_and))]
pub fn add_conjuncts<'a>(list: &mut Vec<&'a Assert>, assert: &'a Assert) -> Result<(), AllocError>
    ensures { OnOk result (formulas_of list.new.items ≡ formulas_of list.old.items
        ++ conjuncts (formula assert.now)) }
{
    let Assert::And(all) = assert else {
        list.push(assert)?;
        return Ok(());
    };
    for a in all {
        add_conjuncts(list, a)?;
    }
    Ok(())
}

/// Whether one of the variables occurs in the assertion. Takes no memory.
pub fn speaks_of(vars: &[u32], assert: &Assert) -> bool
    ensures { result ≡ speaks_of vars.now (formula assert.now) }
{
    vars.iter().any(|var| assert.mentions(*var))
}

// Those in which one of the variables occurs.
fn chosen<'a>(
    alloc: Global,
    vars: &[u32],
    all: &[&'a Assert],
) -> Result<Vec<&'a Assert>, AllocError>
    ensures { IfOk result (λ list. formulas_of list.items ≡ chosen vars.now (formulas_of all.now)) }
{
    let mut list = Vec::new(alloc);
    for assert in all {
        if speaks_of(vars, assert) {
            list.push(*assert)?;
        }
    }
    Ok(list)
}

/// Adds the assertions to the text with `and` between two, each `or` and `->` in parentheses.
///
/// # Errors
///
/// An allocation was refused; the text has what it had, and perhaps a part of this.
pub fn put_conjuncts(text: &mut Vec<u8>, names: &[Name], all: &[&Assert]) -> Result<(), AllocError>
    ensures { OnOk result (text.new.items ≡ text.old.items
        ++ conjuncts_text names.now [] (formulas_of all.now)) }
{
    let mut between: &[u8] = b"";
    for assert in all {
        text.extend_from_slice(between)?;
        put_operand(text, names, 2, assert)?;
        between = b" and ";
    }
    Ok(())
}

// These variables, of which nothing is said.
fn put_unknown(text: &mut Vec<u8>, names: &[Name], vars: &[u32]) -> Result<(), AllocError>
    ensures { OnOk result (text.new.items ≡ text.old.items
        ++ (codes "nothing about " ++ names_text names.now [] vars.now)) }
{
    text.extend_from_slice(b"nothing about ")?;
    put_names(text, names, vars)
}

// That nothing is said of these variables.
fn put_nothing(text: &mut Vec<u8>, names: &[Name], vars: &[u32]) -> Result<(), AllocError>
    ensures { OnOk result (text.new.items ≡ text.old.items ++ nothing_text names.now vars.now) }
{
    if vars.is_empty() {
        return text.extend_from_slice(b"..");
    }
    put_unknown(text, names, vars)
}

// That some conjuncts are left out.
fn put_more(text: &mut Vec<u8>, more: bool) -> Result<(), AllocError>
    ensures { OnOk result (text.new.items ≡ text.old.items
        ++ (if more then codes " and .." else [])) }
{
    if more {
        text.extend_from_slice(b" and ..")?;
    }
    Ok(())
}

// The text of conjuncts, these of which are chosen.
fn put_chosen(
    text: &mut Vec<u8>,
    names: &[Name],
    vars: &[u32],
    all: &[&Assert],
    chosen_ones: &[&Assert],
) -> Result<(), AllocError>
    ensures { OnOk result (text.new.items ≡ text.old.items
        ++ chosen_text names.now vars.now (formulas_of all.now) (formulas_of chosen_ones.now)) }
{
    if chosen_ones.is_empty() {
        return put_nothing(text, names, vars);
    }
    put_conjuncts(text, names, chosen_ones)?;
    put_more(text, chosen_ones.len() < all.len())
}

/// Adds what an assertion says of these variables to the text: of a conjunction the conjuncts in
/// which one of them occurs, of any other assertion all of it.
///
/// # Errors
///
/// An allocation was refused; the text has what it had, and perhaps a part of this.
pub fn put_known(
    text: &mut Vec<u8>,
    names: &[Name],
    vars: &[u32],
    assert: &Assert,
) -> Result<(), AllocError>
    ensures { OnOk result (text.new.items ≡ text.old.items
        ++ known_text names.now vars.now (formula assert.now)) }
{
    let Assert::And(_) = assert else {
        return put_assertion(text, names, assert);
    };
    let alloc = *text.allocator();
    let mut all = Vec::new(alloc);
    add_conjuncts(&mut all, assert)?;
    let chosen_ones = chosen(alloc, vars, &all)?;
    put_chosen(text, names, vars, &all, &chosen_ones)
}
