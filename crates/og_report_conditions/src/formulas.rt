//! Assertions.

ghost use Rattle.std.specs.Prelude.{◌≡◌, ◌++◌, codes, map, OnOk};
ghost use Rattle.og_typed.specs.Plain.{formula};
ghost use Rattle.og_typed.specs.Lists.{formula_list};
ghost use Rattle.og_report_conditions.specs.Script.{form_text, formula_text, formulas_text};

use crate::terms::put_form;
use og_linear::Form;
use og_text::Name;
use og_typed::Assert;
use std::alloc::AllocError;

// A form after these words and before these.
fn put_compared(
    text: &mut Vec<u8>,
    names: &[Name],
    opening: &[u8],
    form: &Form,
    closing: &[u8],
) -> Result<(), AllocError>
    ensures { OnOk result (text.new.items ≡ text.old.items
        ++ (opening.now ++ (form_text names.now form.now ++ closing.now))) }
{
    text.extend_from_slice(opening)?;
    put_form(text, names, form)?;
    text.extend_from_slice(closing)
}

/// Adds an assertion to the text.
#[cycle(formulas)]
#[tactic(auto, using(og_typed::proofs::Lists::formula_and, og_typed::proofs::Lists::formula_or))]
pub(crate) fn put_formula(
    text: &mut Vec<u8>,
    names: &[Name],
    assert: &Assert,
) -> Result<(), AllocError>
    ensures { OnOk result (text.new.items ≡ text.old.items
        ++ formula_text names.now (formula assert.now)) }
{
    match assert {
        Assert::True => text.extend_from_slice(b"true"),
        Assert::False => text.extend_from_slice(b"false"),
        Assert::Le(form) => put_compared(text, names, b"(<= ", form, b" 0)"),
        Assert::Eq(form) => put_compared(text, names, b"(= ", form, b" 0)"),
        Assert::Ne(form) => put_compared(text, names, b"(not (= ", form, b" 0))"),
        Assert::Not(a) => put_negated(text, names, a),
        Assert::And(all) => put_listed(text, names, b"(and true true", all),
        Assert::Or(all) => put_listed(text, names, b"(or false false", all),
        Assert::Imp(a, b) => {
            text.extend_from_slice(b"(=> ")?;
            put_formula(text, names, a)?;
            text.extend_from_slice(b" ")?;
            put_formula(text, names, b)?;
            text.extend_from_slice(b")")
        }
    }
}

/// Adds that an assertion is false to the text.
#[cycle(formulas)]
pub(crate) fn put_negated(
    text: &mut Vec<u8>,
    names: &[Name],
    assert: &Assert,
) -> Result<(), AllocError>
    ensures { OnOk result (text.new.items ≡ text.old.items
        ++ (codes "(not " ++ (formula_text names.now (formula assert.now) ++ codes ")"))) }
{
    text.extend_from_slice(b"(not ")?;
    put_formula(text, names, assert)?;
    text.extend_from_slice(b")")
}

// Assertions after a word.
#[cycle(formulas)]
fn put_listed(
    text: &mut Vec<u8>,
    names: &[Name],
    word: &[u8],
    all: &[Assert],
) -> Result<(), AllocError>
    ensures { OnOk result (text.new.items ≡ text.old.items ++
        (word.now ++ (formulas_text names.now (formula_list (map formula all.now)) ++ codes ")"))) }
{
    text.extend_from_slice(word)?;
    put_formulas(text, names, all)?;
    text.extend_from_slice(b")")
}

#[cycle(formulas)]
fn put_formulas(text: &mut Vec<u8>, names: &[Name], all: &[Assert]) -> Result<(), AllocError>
    ensures { OnOk result (text.new.items ≡ text.old.items
        ++ formulas_text names.now (formula_list (map formula all.now))) }
{
    for assert in all {
        text.extend_from_slice(b" ")?;
        put_formula(text, names, assert)?;
    }
    Ok(())
}
