//! Conditions that are told together.

ghost use Rattle.std.specs.Prelude.{◌≡◌, ◌<◌, ◌^◌, length, map, IfOk};
ghost use Rattle.og_report_findings.specs.Causes.{groups_of, groups, shown};
ghost use Rattle.og_report_findings.specs.Entries.{entry_of};

use crate::causes::{Group, groups};
use crate::entry::Entry;
use crate::shown::shown;
use og_report_prove::Page;
use std::alloc::{AllocError, Global};

/// The groups of conditions that are told together, in the order of their first ones. Of a template's
/// outline conditions that differ in their instances alone count as one.
///
/// # Errors
///
/// An allocation was refused.
pub fn grouped<'e, 'c, 'd>(
    alloc: Global,
    page: Page,
    entries: &[Entry<'e, 'c, 'd>],
) -> Result<Vec<Group<'e, 'c, 'd>>, AllocError>
    requires places { page.origins.now.places.now ≡ page.origins.now.source.now }
    requires few { length entries.now < 2 ^ 32 }
    ensures { IfOk result (λ gs. groups_of gs.items ≡ groups page.entry.names.now
        page.entry.origins.now.source.now page.entry.origins.now.rows
        (shown page.entry.origins.now.rows (map entry_of entries.now))) }
{
    let items = shown(alloc, page.origins.rows, entries)?;
    groups(alloc, page, &items)
}
