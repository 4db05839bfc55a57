//! Which conditions have a head of their own.

ghost use Rattle.std.specs.Prelude.{◌≡◌, ◌<◌, ◌^◌, ◌++◌, length, map, IfOk, OnOk};
ghost use Rattle.og_report_prove.specs.Together.{key_of, key_seen};
ghost use Rattle.og_report_findings.specs.Entries.{entry_of};
ghost use Rattle.og_report_findings.specs.Causes.{item_of, keys_of, if_shown, with_more, shown};

use crate::entry::Entry;
use og_report_prove::{key_of, repeats};
use og_report_text::Rows;
use std::alloc::{AllocError, Global};

/// A condition that is shown, and how many more of a template's outline are with it, which differ
/// from it in their instances alone.
#[derive(Clone, Copy)]
pub struct Item<'e, 'c, 'd> {
    pub entry: Entry<'e, 'c, 'd>,
    pub more: usize,
}

// A key for each.
fn keys_of(
    alloc: Global,
    rows: Option<&Rows>,
    entries: &[Entry],
) -> Result<Vec<Option<Vec<u8>>>, AllocError>
    ensures { IfOk result (λ keys.
        map key_seen keys.items ≡ keys_of rows.entry (map entry_of entries.now)) }
{
    let mut keys = Vec::with_capacity(alloc, entries.len())?;
    for entry in entries {
        keys.push(key_of(alloc, rows, entry.condition, entry.diagnosis)?)?;
    }
    Ok(keys)
}

// Adds one, unless it is with an earlier one.
fn add_shown<'e, 'c, 'd>(
    items: &mut Vec<Item<'e, 'c, 'd>>,
    entry: Entry<'e, 'c, 'd>,
    more: Option<usize>,
) -> Result<(), AllocError>
    ensures { OnOk result (map item_of items.new.items
        ≡ map item_of items.old.items ++ if_shown (entry_of entry.entry) more) }
{
    let Some(more) = more else {
        return Ok(());
    };
    items.push(Item { entry, more })?;
    Ok(())
}

// Those that have a number of others with them.
fn with_more<'e, 'c, 'd>(
    alloc: Global,
    entries: &[Entry<'e, 'c, 'd>],
    repeats: &[Option<usize>],
) -> Result<Vec<Item<'e, 'c, 'd>>, AllocError>
    requires { length repeats.now ≡ length entries.now }
    ensures { IfOk result (λ items.
        map item_of items.items ≡ with_more (map entry_of entries.now) repeats.now) }
{
    let mut items = Vec::new(alloc);
    for index in 0..entries.len() {
        add_shown(&mut items, entries[index], repeats[index])?;
    }
    Ok(items)
}

/// Those that are shown, in their order: of a template's outline each that differs in its instances
/// alone from no earlier one, else all.
///
/// # Errors
///
/// An allocation was refused.
pub(crate) fn shown<'e, 'c, 'd>(
    alloc: Global,
    rows: Option<&Rows>,
    entries: &[Entry<'e, 'c, 'd>],
) -> Result<Vec<Item<'e, 'c, 'd>>, AllocError>
    requires { length entries.now < 2 ^ 32 }
    ensures { IfOk result (λ items. map item_of items.items ≡ shown rows.entry (map entry_of entries.now)) }
{
    let keys = keys_of(alloc, rows, entries)?;
    let repeats = repeats(alloc, &keys)?;
    with_more(alloc, entries, &repeats)
}
