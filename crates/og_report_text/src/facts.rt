//! Facts, as they are printed.

ghost use Rattle.std.specs.Prelude.{◌≡◌, ◌++◌, map, OnOk};
ghost use Rattle.og_facts.specs.Plain.{plain_fact};
ghost use Rattle.og_facts.specs.Facts as plain;
ghost use Rattle.og_facts.specs.Facts.{facts_of_list};
ghost use Rattle.og_report_text.specs.Listing.{fact_text, part_text, inner_text};

use crate::forms::put_form;
use og_facts::{Atom, Fact};
use og_text::Name;
use std::alloc::AllocError;

fn put_atom(text: &mut Vec<u8>, names: &[Name], form: &Atom) -> Result<(), AllocError>
    ensures { OnOk result (text.new.items ≡ text.old.items
        ++ fact_text names.now (plain.Atom form.now)) }
{
    put_form(text, names, form)?;
    text.extend_from_slice(b" <= 0")
}

/// Adds the fact to the text: a split as its parts, each in parentheses.
#[cycle(facts)]
pub(crate) fn put_fact(text: &mut Vec<u8>, names: &[Name], fact: &Fact) -> Result<(), AllocError>
    ensures { OnOk result (text.new.items ≡ text.old.items
        ++ fact_text names.now (plain_fact fact.now)) }
{
    let parts = match fact {
        Fact::Atom(form) => return put_atom(text, names, form),
        Fact::Split(parts) => parts,
    };
    let mut between: &[u8] = b"(";
    for part in parts {
        text.extend_from_slice(between)?;
        put_part(text, names, part)?;
        text.extend_from_slice(b")")?;
        between = b" or (";
    }
    Ok(())
}

// A fact of a part: a split in parentheses.
#[cycle(facts)]
fn put_inner(text: &mut Vec<u8>, names: &[Name], fact: &Fact) -> Result<(), AllocError>
    ensures { OnOk result (text.new.items ≡ text.old.items
        ++ inner_text names.now (plain_fact fact.now)) }
{
    match fact {
        Fact::Atom(form) => put_atom(text, names, form),
        Fact::Split(_) => {
            text.extend_from_slice(b"(")?;
            put_fact(text, names, fact)?;
            text.extend_from_slice(b")")
        }
    }
}

// The facts of a part, or `true` where it has none.
#[cycle(facts)]
fn put_part(text: &mut Vec<u8>, names: &[Name], facts: &[Fact]) -> Result<(), AllocError>
    ensures { OnOk result (text.new.items ≡ text.old.items
        ++ part_text names.now (facts_of_list (map plain_fact facts.now))) }
{
    let [first, later @ ..] = facts else {
        return text.extend_from_slice(b"true");
    };
    put_inner(text, names, first)?;
    for fact in later {
        text.extend_from_slice(b" and ")?;
        put_inner(text, names, fact)?;
    }
    Ok(())
}
