//! Conditions that are false as an earlier one is: the same action makes the same conjuncts false.

ghost use Rattle.std.specs.Prelude.{◌≡◌, ◌++◌, ℕ, List, option_map, IfOk, OnErr, OnOk};
ghost use Rattle.std.specs.BTreeMap.{IsUnchanged};
ghost use Rattle.og_cert_read.specs.Firsts.{found as number_of, or_this};
ghost use Rattle.og_report_text.specs.Seen.{formulas_of};
ghost use Rattle.og_report_prove.specs.Effects.{effect_of, together, alike_line, effect_text};

use og_report_explain::{Explanation, Fault};
use og_report_text::{Origins, put_assertion, put_conjuncts, put_number_between};
use og_text::Name;
use og_typed::Assert;
use std::alloc::{AllocError, Global};
use std::collections::BTreeMap;

/// The place of the action and the conjuncts that are false after it, where there are such.
pub fn effect_of<'b, 'a>(explanation: &'b Explanation<'a>) -> Option<(u32, &'b [&'a Assert])>
    ensures { option_map (λ e. (e.0, formulas_of e.1.now)) result
        ≡ effect_of explanation.now.action explanation.now.fault }
{
    let site = explanation.action.as_ref()?;
    match &explanation.fault {
        Fault::False(_, found) => Some((site.item.at, found.as_slice())),
        _ => None,
    }
}

// One conjunct as it is, several with `and` between two.
fn put_together(text: &mut Vec<u8>, names: &[Name], found: &[&Assert]) -> Result<(), AllocError>
    ensures { OnOk result (text.new.items ≡ text.old.items
        ++ together names.now (formulas_of found.now)) }
{
    match found {
        [only] => put_assertion(text, names, only),
        _ => put_conjuncts(text, names, found),
    }
}

/// Adds that the condition is as condition k.
pub(crate) fn put_alike(
    text: &mut Vec<u8>,
    names: &[Name],
    k: u128,
    found: &[&Assert],
) -> Result<(), AllocError>
    ensures { OnOk result (text.new.items ≡ text.old.items
        ++ alike_line names.now k (formulas_of found.now)) }
{
    put_number_between(text, b"  as condition ", k, b": ")?;
    put_together(text, names, found)?;
    text.extend_from_slice(b"\n")
}

/// The text of an effect, by which effects are held against one another.
///
/// # Errors
///
/// An allocation was refused.
pub fn effect_text(
    alloc: Global,
    names: &[Name],
    origins: &Origins,
    at: u32,
    found: &[&Assert],
) -> Result<Vec<u8>, AllocError>
    requires { origins.now.places.now ≡ origins.now.source.now }
    ensures { IfOk result (λ text. text.items ≡ effect_text names.now origins.now.source.now
        origins.now.rows (at, formulas_of found.now)) }
{
    let mut text = Vec::new(alloc);
    origins.put_place(&mut text, at)?;
    text.extend_from_slice(b" ")?;
    put_together(&mut text, names, found)?;
    Ok(text)
}

/// The numbers of the conditions that had an effect first, by its text.
pub type Firsts = BTreeMap<Vec<u8>, u128>;

/// The number that the text has; else none, and it has this one from now on.
///
/// # Errors
///
/// An allocation was refused; the numbers are as they were.
pub fn number_or_add(
    firsts: &mut Firsts,
    text: Vec<u8>,
    number: u128,
) -> Result<Option<u128>, AllocError>
    ensures found { IfOk result (λ found. found ≡ number_of text.items firsts.old) }
    ensures firsts { OnOk result ((t : List ℕ) → number_of t firsts.new
        ≡ or_this (number_of t firsts.old) t text.items number) }
    ensures kept { OnErr result (IsUnchanged firsts.old firsts.new) }
{
    if let Some(first) = firsts.get(text.as_slice()).copied() {
        return Ok(Some(first));
    }
    firsts.insert(text, number)?;
    Ok(None)
}
