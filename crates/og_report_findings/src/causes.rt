//! Which conditions are false from one cause: the same action makes the same conjuncts false.

ghost use Rattle.std.specs.Prelude.{◌≡◌, ◌<◌, ◌++◌, ◌∷◌, [], length, map, IfOk, OnOk};
ghost use Rattle.og_report_prove.specs.Together.{key_seen};
ghost use Rattle.og_report_findings.specs.Causes.{item_of, groups_of, cause_of, with_item, pushed_at, AreKnown, groups};

use crate::shown::Item;
use og_report_prove::{Diagnosis, Firsts, Page, effect_of, effect_text, number_or_add};
use std::alloc::{AllocError, Global};

/// Those that are told together: a false condition, and behind it those that are false from the same
/// cause; any other one alone.
pub type Group<'e, 'c, 'd> = Vec<Item<'e, 'c, 'd>>;

// The text of the cause of a condition that an action makes false.
fn cause_of(alloc: Global, page: Page, diagnosis: &Diagnosis) -> Result<Option<Vec<u8>>, AllocError>
    requires { page.origins.now.places.now ≡ page.origins.now.source.now }
    ensures { IfOk result (λ cause. key_seen cause ≡ cause_of page.entry.names.now
        page.entry.origins.now.source.now page.entry.origins.now.rows diagnosis.now) }
{
    let Diagnosis::False(block) = diagnosis else {
        return Ok(None);
    };
    let Some((at, found)) = effect_of(&block.details.explanation) else {
        return Ok(None);
    };
    let text = effect_text(alloc, page.names, page.origins, at, found)?;
    Ok(Some(text))
}

// Begins a group.
fn begin<'e, 'c, 'd>(
    groups: &mut Vec<Group<'e, 'c, 'd>>,
    item: Item<'e, 'c, 'd>,
) -> Result<(), AllocError>
    ensures { OnOk result (groups_of groups.new.items
        ≡ groups_of groups.old.items ++ (item_of item.entry ∷ []) ∷ []) }
{
    let mut group = Vec::new(*groups.allocator());
    group.push(item)?;
    groups.push(group)?;
    Ok(())
}

// Adds to the group with this number.
fn join<'e, 'c, 'd>(
    groups: &mut Vec<Group<'e, 'c, 'd>>,
    number: usize,
    item: Item<'e, 'c, 'd>,
) -> Result<(), AllocError>
    requires { number < length groups.old.items }
    ensures { OnOk result (groups_of groups.new.items
        ≡ pushed_at number (item_of item.entry) (groups_of groups.old.items)) }
{
    if let Some(group) = groups.get_mut(number) {
        group.push(item)?;
    }
    Ok(())
}

// Adds to the group of its cause, or begins one.
fn add<'e, 'c, 'd>(
    groups: &mut Vec<Group<'e, 'c, 'd>>,
    firsts: &mut Firsts,
    page: Page,
    item: Item<'e, 'c, 'd>,
) -> Result<(), AllocError>
    requires places { page.origins.now.places.now ≡ page.origins.now.source.now }
    requires known { AreKnown page.names.now page.origins.now.source.now page.origins.now.rows
        firsts.old (groups_of groups.old.items) }
    ensures groups { OnOk result (groups_of groups.new.items ≡ with_item page.entry.names.now
        page.entry.origins.now.source.now page.entry.origins.now.rows
        (cause_of page.entry.names.now page.entry.origins.now.source.now page.entry.origins.now.rows
        item.entry.entry.diagnosis.now) (item_of item.entry) (groups_of groups.old.items)) }
    ensures known { OnOk result (AreKnown page.entry.names.now page.entry.origins.now.source.now
        page.entry.origins.now.rows firsts.new (groups_of groups.new.items)) }
{
    let cause = cause_of(*groups.allocator(), page, item.entry.diagnosis)?;
    let Some(cause) = cause else {
        return begin(groups, item);
    };
    match number_or_add(firsts, cause, groups.len() as u128)? {
        Some(number) => join(groups, number as usize, item),
        None => begin(groups, item),
    }
}

/// The groups of those that are shown, in the order of their first ones.
///
/// # Errors
///
/// An allocation was refused.
pub(crate) fn groups<'e, 'c, 'd>(
    alloc: Global,
    page: Page,
    items: &[Item<'e, 'c, 'd>],
) -> Result<Vec<Group<'e, 'c, 'd>>, AllocError>
    requires { page.origins.now.places.now ≡ page.origins.now.source.now }
    ensures { IfOk result (λ gs. groups_of gs.items ≡ groups page.entry.names.now
        page.entry.origins.now.source.now page.entry.origins.now.rows (map item_of items.now)) }
{
    let mut groups = Vec::new(alloc);
    let mut firsts = Firsts::new(alloc);
    for item in items {
        add(&mut groups, &mut firsts, page, *item)?;
    }
    Ok(groups)
}
