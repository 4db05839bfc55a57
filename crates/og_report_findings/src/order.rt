//! The order of the blocks.

ghost use Rattle.std.specs.Prelude.{◌≡◌, ◌++◌, [], ◌∷◌, if◌then◌else◌, filter, map, IfOk, OnOk};
ghost use Rattle.og_report_findings.specs.Entries.{entry_of};
ghost use Rattle.og_report_findings.specs.Order.{is_reached, is_never, is_open, in_order};

use crate::entry::Entry;
use og_report_runs::Run;
use std::alloc::{AllocError, Global};

// Whether a run gets there.
fn is_reached(run: &Run) -> bool
    ensures { result ≡ is_reached run.now }
{
    matches!(run, Run::Reached(_))
}

// Whether none gets there.
fn is_never(run: &Run) -> bool
    ensures { result ≡ is_never run.now }
{
    matches!(run, Run::Never)
}

// Whether nothing is known.
fn is_open(run: &Run) -> bool
    ensures { result ≡ is_open run.now }
{
    matches!(run, Run::Open)
}

// Adds an entry, if this is so.
fn add_if<'e, 'c, 'd>(
    chosen: &mut Vec<Entry<'e, 'c, 'd>>,
    is: bool,
    entry: Entry<'e, 'c, 'd>,
) -> Result<(), AllocError>
    ensures { OnOk result (chosen.new.items
        ≡ chosen.old.items ++ (if is then entry.entry ∷ [] else [])) }
{
    if is {
        chosen.push(entry)?;
    }
    Ok(())
}

// Those to which a run gets.
fn reached<'e, 'c, 'd>(
    alloc: Global,
    entries: &[Entry<'e, 'c, 'd>],
) -> Result<Vec<Entry<'e, 'c, 'd>>, AllocError>
    ensures { IfOk result (λ v. v.items ≡ filter (λ e. is_reached e.run.now) entries.now) }
{
    let mut chosen = Vec::new(alloc);
    for index in 0..entries.len() {
        let entry = entries[index];
        add_if(&mut chosen, is_reached(entry.run), entry)?;
    }
    Ok(chosen)
}

// Those of which nothing is known.
fn open<'e, 'c, 'd>(
    alloc: Global,
    entries: &[Entry<'e, 'c, 'd>],
) -> Result<Vec<Entry<'e, 'c, 'd>>, AllocError>
    ensures { IfOk result (λ v. v.items ≡ filter (λ e. is_open e.run.now) entries.now) }
{
    let mut chosen = Vec::new(alloc);
    for index in 0..entries.len() {
        let entry = entries[index];
        add_if(&mut chosen, is_open(entry.run), entry)?;
    }
    Ok(chosen)
}

// Those to which none gets.
fn never<'e, 'c, 'd>(
    alloc: Global,
    entries: &[Entry<'e, 'c, 'd>],
) -> Result<Vec<Entry<'e, 'c, 'd>>, AllocError>
    ensures { IfOk result (λ v. v.items ≡ filter (λ e. is_never e.run.now) entries.now) }
{
    let mut chosen = Vec::new(alloc);
    for index in 0..entries.len() {
        let entry = entries[index];
        add_if(&mut chosen, is_never(entry.run), entry)?;
    }
    Ok(chosen)
}

/// Those to which a run gets first, then those of which nothing is known, then those to which none
/// gets; of each in the order of their numbers.
///
/// # Errors
///
/// An allocation was refused.
pub fn in_order<'e, 'c, 'd>(
    alloc: Global,
    entries: &[Entry<'e, 'c, 'd>],
) -> Result<Vec<Entry<'e, 'c, 'd>>, AllocError>
    ensures { IfOk result (λ v. map entry_of v.items ≡ in_order (map entry_of entries.now)) }
{
    let mut ordered = reached(alloc, entries)?;
    let open = open(alloc, entries)?;
    let never = never(alloc, entries)?;
    ordered.extend_from_slice(&open)?;
    ordered.extend_from_slice(&never)?;
    Ok(ordered)
}
