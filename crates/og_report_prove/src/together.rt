//! Which false conditions of a template's outline are reported together: those that differ in their
//! instances alone.

ghost use Rattle.std.specs.Prelude.{◌≡◌, ◌<◌, ◌^◌, ◌++◌, ℕ, List, [], length, map, option_map, unwrap_or, count_by, sum_by, Some, IfOk, OnOk};
ghost use Rattle.std.specs.Str.{bytes_eq};
ghost use Rattle.og_cond.specs.Seen.{seen};
ghost use Rattle.og_cert_read.specs.Firsts.{found};
ghost use Rattle.og_report_text.specs.Origins.{row_at, from_of};
ghost use Rattle.og_report_prove.specs.Together.{conjunct_at, with_place, with_places, false_places, places_key, action_key, key_text, key_of, key_seen, has_key, total, counted, more_left, without, told, repeats};

use crate::block::Block;
use crate::diagnosis::Diagnosis;
use og_cond::Condition;
use og_report_explain::Fault;
use og_report_text::{Row, Rows, put_number};
use std::alloc::{AllocError, Global};
use std::collections::BTreeMap;

// The byte offset in the template of the conjunct with this number.
fn conjunct_at(row: Option<&Row>, number: usize) -> Option<u32>
    ensures { result ≡ conjunct_at (option_map (λ r. r.now) row.entry) number }
{
    *row?.conjuncts.get(number)?
}

// One place more, if it is not among these.
fn add_place(places: &mut Vec<u32>, place: Option<u32>) -> Result<(), AllocError>
    ensures { OnOk result (places.new.items ≡ with_place place places.old.items) }
{
    let Some(at) = place else {
        return Ok(());
    };
    if places.contains(&at) {
        return Ok(());
    }
    places.push(at)?;
    Ok(())
}

// The places of conjuncts, each once.
fn places_of(alloc: Global, row: Option<&Row>, numbers: &[usize]) -> Result<Vec<u32>, AllocError>
    ensures { IfOk result (λ v.
        v.items ≡ with_places (option_map (λ r. r.now) row.entry) [] numbers.now) }
{
    let mut places = Vec::new(alloc);
    for number in numbers {
        add_place(&mut places, conjunct_at(row, *number))?;
    }
    Ok(places)
}

// Those of the false conjuncts.
fn false_places(alloc: Global, rows: &Rows, block: &Block) -> Result<Vec<u32>, AllocError>
    ensures { IfOk result (λ v. v.items ≡ false_places (Some rows.entry)
        block.now.details.value.explanation.fault block.now.details.value.conjuncts.items) }
{
    match &block.details.explanation.fault {
        Fault::False(note, _) => places_of(alloc, rows.get(&note.at), &block.details.conjuncts),
        Fault::TooLarge(..) | Fault::Blocked(_) => Ok(Vec::new(alloc)),
    }
}

// Where a part comes from.
fn from(rows: &Rows, at: u32) -> u32
    ensures { result ≡ from_of (row_at (Some rows.entry) at) at }
{
    match rows.get(&at) {
        Some(row) => row.from,
        None => at,
    }
}

fn put_places(text: &mut Vec<u8>, places: &[u32]) -> Result<(), AllocError>
    ensures { OnOk result (text.new.items ≡ text.old.items ++ places_key places.now) }
{
    for at in places {
        text.extend_from_slice(b" ")?;
        put_number(text, *at as u128)?;
    }
    Ok(())
}

fn put_action(text: &mut Vec<u8>, rows: &Rows, at: Option<u32>) -> Result<(), AllocError>
    ensures { OnOk result (text.new.items ≡ text.old.items ++ action_key (Some rows.entry) at) }
{
    let Some(at) = at else {
        return Ok(());
    };
    text.extend_from_slice(b" with ")?;
    put_number(text, from(rows, at) as u128)
}

// The key of a false condition: those with the same one are reported together.
fn key_text(
    alloc: Global,
    rows: &Rows,
    condition: &Condition,
    block: &Block,
) -> Result<Vec<u8>, AllocError>
    ensures { IfOk result (λ text.
        text.items ≡ key_text (Some rows.entry) (seen condition.now) block.now) }
{
    let places = false_places(alloc, rows, block)?;
    let mut text = Vec::new(alloc);
    put_number(&mut text, from(rows, condition.at) as u128)?;
    text.extend_from_slice(b" ")?;
    text.extend_from_slice(condition.kind.name().as_bytes())?;
    put_action(&mut text, rows, condition.action_at)?;
    put_places(&mut text, &places)?;
    Ok(text)
}

/// The key of the finding on a condition, if others may be reported with it: of a template's outline
/// those false conditions have the same one that differ in their instances alone.
///
/// # Errors
///
/// An allocation was refused.
pub fn key_of(
    alloc: Global,
    rows: Option<&Rows>,
    condition: &Condition,
    diagnosis: &Diagnosis,
) -> Result<Option<Vec<u8>>, AllocError>
    ensures { IfOk result (λ key. key_seen key ≡ key_of rows.entry (seen condition.now) diagnosis.now) }
{
    let Some(rows) = rows else {
        return Ok(None);
    };
    match diagnosis {
        Diagnosis::False(block) => Ok(Some(key_text(alloc, rows, condition, block)?)),
        Diagnosis::Proved | Diagnosis::Open => Ok(None),
    }
}

// How often each key occurs.
type Counts = BTreeMap<Vec<u8>, usize>;

// A text once more.
fn count(alloc: Global, counts: &mut Counts, text: &[u8]) -> Result<(), AllocError>
    requires { unwrap_or (found text.now counts.old) 0 < 2 ^ 32 }
    ensures { OnOk result ((t : List ℕ) → found t counts.new
        ≡ counted (bytes_eq t text.now) (found t counts.old)) }
{
    let number = counts.get(text).copied().unwrap_or(0);
    let key = Vec::from_slice(alloc, text)?;
    counts.insert(key, number + 1)?;
    Ok(())
}

// A key once more, if there is one.
fn count_key(alloc: Global, counts: &mut Counts, key: &Option<Vec<u8>>) -> Result<(), AllocError>
    requires { (t : List ℕ) → unwrap_or (found t counts.old) 0 < 2 ^ 32 }
    ensures { OnOk result ((t : List ℕ) → found t counts.new
        ≡ counted (has_key t (key_seen key.now)) (found t counts.old)) }
{
    match key {
        None => Ok(()),
        Some(key) => count(alloc, counts, key),
    }
}

// How often each of these keys occurs.
fn counts_of(alloc: Global, keys: &[Option<Vec<u8>>]) -> Result<Counts, AllocError>
    requires { length keys.now < 2 ^ 32 }
    ensures { IfOk result (λ counts.
        (t : List ℕ) → found t counts ≡ total (count_by (has_key t) (map key_seen keys.now))) }
{
    let mut counts = Counts::new(alloc);
    for index in 0..keys.len() {
        count_key(alloc, &mut counts, &keys[index])?;
    }
    Ok(counts)
}

// How many more are reported with this one; none where it is reported with an earlier one. Its key
// is taken out of the counts.
fn more_left(counts: &mut Counts, key: &Option<Vec<u8>>) -> Option<usize>
    ensures more { result ≡ more_left (λ t. found t counts.old) (key_seen key.now) }
    ensures counts { (t : List ℕ) → found t counts.new
        ≡ without (has_key t (key_seen key.now)) (found t counts.old) }
{
    let Some(key) = key else {
        return Some(0);
    };
    let number = counts.remove(key.as_slice())?;
    Some(number.saturating_sub(1))
}

/// How many more are reported with each of those that have these keys: with the first of those with
/// one key, and none with the others, which are reported with it; with one that has no key 0. So each
/// of them is reported once.
///
/// # Errors
///
/// An allocation was refused.
pub fn repeats(alloc: Global, keys: &[Option<Vec<u8>>]) -> Result<Vec<Option<usize>>, AllocError>
    requires { length keys.now < 2 ^ 32 }
    ensures more { IfOk result (λ v. v.items ≡ repeats (map key_seen keys.now)) }
    ensures all { IfOk result (λ v. sum_by told v.items ≡ length keys.now) }
{
    let mut counts = counts_of(alloc, keys)?;
    let mut repeats = Vec::with_capacity(alloc, keys.len())?;
    for index in 0..keys.len() {
        repeats.push(more_left(&mut counts, &keys[index]))?;
    }
    Ok(repeats)
}
