//! How many conditions are asked at each part of a text.

ghost use Rattle.std.specs.Prelude.{◌≡◌, ◌==◌, ◌<◌, ◌≤◌, ◌^◌, ◌+◌, ℕ, None, length, map, IfOk, OnOk, IfSome};
ghost use Rattle.std.specs.BTreeMap.{IsOrdered};
ghost use Rattle.std.specs.Ordering.{nat_cmp};
ghost use Rattle.og_cond.specs.Seen.{seen};
ghost use Rattle.og_lsp_document.specs.Parts.{asked, found, with_one, counted, with_all, part_of, AreIn, AreParts};
ghost use Rattle.og_lsp_diagnostics.specs.Said.{text_of, rows_of, IsSheet};

use crate::judged::PartCount;
use og_cond::Condition;
use og_lsp_diagnostics::{Teller, part_at};
use og_report_prove::Diagnosis;
use std::alloc::AllocError;
use std::collections::BTreeMap;

/// How many conditions are asked at a part, and how many of them are not proved.
#[derive(Clone, Copy, Drop)]
pub(crate) struct Counts {
    pub(crate) conditions: usize,
    pub(crate) unproved: usize,
}

/// The counts at places, by byte offsets of the given text.
pub(crate) type Asked = BTreeMap<u32, Counts>;

// The counts with one condition more.
fn with_one(known: Option<Counts>, is_proved: bool) -> Counts
    requires { IfSome known (λ c. (c.conditions < 2 ^ 32) × (c.unproved < 2 ^ 32)) }
    ensures { result ≡ with_one is_proved known }
{
    let one = if is_proved { 0 } else { 1 };
    match known {
        Some(counts) => Counts {
            conditions: counts.conditions + 1,
            unproved: counts.unproved + one,
        },
        None => Counts {
            conditions: 1,
            unproved: one,
        },
    }
}

/// A condition that is asked at a place.
pub(crate) fn add_one(asked: &mut Asked, at: u32, is_proved: bool) -> Result<(), AllocError>
    requires { IfSome (found at asked.old) (λ c. (c.conditions < 2 ^ 32) × (c.unproved < 2 ^ 32)) }
    ensures { OnOk result ((p : ℕ) → found p asked.new ≡ counted (p == at) is_proved (found p asked.old)) }
{
    let known = asked.get(&at).copied();
    asked.insert(at, with_one(known, is_proved))?;
    Ok(())
}

// The counts of all conditions.
fn asked_of(
    teller: &Teller,
    conditions: &[Condition],
    diagnoses: &[Diagnosis],
) -> Result<Asked, AllocError>
    requires each { length diagnoses.now ≡ length conditions.now }
    requires few { length diagnoses.now < 2 ^ 32 }
    ensures { IfOk result (λ m. (p : ℕ) → found p m
        ≡ with_all p None (asked (rows_of teller.now.page) (map seen conditions.now) diagnoses.now)) }
{
    let mut asked = Asked::new(teller.alloc);
    for index in 0..conditions.len() {
        let at = teller.place(conditions[index].at);
        add_one(&mut asked, at, diagnoses[index].is_proved())?;
    }
    Ok(asked)
}

// The parts at these places.
fn parts_at(teller: &Teller, asked: &Asked) -> Result<Vec<PartCount>, AllocError>
    requires { IsSheet teller.now.page }
    ensures order { IsOrdered nat_cmp asked.now }
    ensures parts { IfOk result (λ v. v.items ≡ map (part_of (text_of teller.now.page)) asked.now.entries) }
    ensures lies { IfOk result (λ v. AreIn (text_of teller.now.page) v.items) }
{
    let mut parts = Vec::with_capacity(teller.alloc, asked.len())?;
    for (at, counts) in asked {
        parts.push(PartCount {
            span: part_at(teller.page.origins.source, *at),
            conditions: counts.conditions,
            unproved: counts.unproved,
        })?;
    }
    Ok(parts)
}

/// How many conditions are asked at each part of the given text, and how many of them are not
/// proved, in the order of the text.
///
/// # Errors
///
/// An allocation was refused.
pub(crate) fn parts_of(
    teller: &Teller,
    conditions: &[Condition],
    diagnoses: &[Diagnosis],
) -> Result<Vec<PartCount>, AllocError>
    requires sheet { IsSheet teller.now.page }
    requires each { length diagnoses.now ≡ length conditions.now }
    requires few { length diagnoses.now < 2 ^ 32 }
    ensures parts { IfOk result (λ v. AreParts (text_of teller.now.page)
        (asked (rows_of teller.now.page) (map seen conditions.now) diagnoses.now) v.items) }
    ensures lies { IfOk result (λ v. AreIn (text_of teller.now.page) v.items) }
{
    let asked = asked_of(teller, conditions, diagnoses)?;
    parts_at(teller, &asked)
}
