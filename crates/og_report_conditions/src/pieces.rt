//! Conditions that are written as they are made.

ghost use Rattle.std.specs.Prelude.{◌≡◌, ◌≤◌, ◌+◌, ◌^◌, ◌<◌, ◌++◌, [], length, map, OnOk, IfErr};
ghost use Rattle.og_cond.specs.Groups.{rest};
ghost use Rattle.og_cond.specs.Limits.{condition_limit};
ghost use Rattle.og_cond.specs.Seen.{seen};
ghost use Rattle.og_report_conditions.specs.Listings.{numbers_in, wanted_text, wanted_lines};
ghost use Rattle.og_io.specs.Written.{AppendsFront, Passes};

use crate::lines::{Lines, put_wanted};
use og_cond::{Condition, Groups};
use og_io::{OutputFault, write_long};
use std::alloc::Global;
use std::io::Write;

// A condition, where its number is asked for.
fn write_wanted<W: Write>(
    out: &mut W,
    text: &mut Vec<u8>,
    lines: &Lines<'_>,
    number: u32,
    condition: &Condition,
) -> Result<(), OutputFault>
    ensures written { OnOk result (Passes (W.contents out.old) (W.contents out.new) text.old.items text.new.items
        (wanted_text lines.now.form (numbers_in lines.now.only) lines.now.names.now lines.now.places.now number (seen condition.now))) }
    ensures unfinished { IfErr result (λ _. AppendsFront (W.contents out.old) (W.contents out.new) (text.old.items ++
        wanted_text lines.now.form (numbers_in lines.now.only) lines.now.names.now lines.now.places.now number (seen condition.now))) }
{
    put_wanted(text, lines, number, condition)?;
    write_long(out, text)?;
    Ok(())
}

// Those of a group that are asked for; its first condition has this number.
fn write_group<W: Write>(
    out: &mut W,
    text: &mut Vec<u8>,
    lines: &Lines<'_>,
    first: u32,
    group: &[Condition],
) -> Result<(), OutputFault>
    requires { first + length group.now < 2 ^ 32 }
    ensures written { OnOk result (Passes (W.contents out.old) (W.contents out.new) text.old.items text.new.items
        (wanted_lines lines.now.form (numbers_in lines.now.only) lines.now.names.now lines.now.places.now first (map seen group.now))) }
    ensures unfinished { IfErr result (λ _. AppendsFront (W.contents out.old) (W.contents out.new) (text.old.items ++
        wanted_lines lines.now.form (numbers_in lines.now.only) lines.now.names.now lines.now.places.now first (map seen group.now))) }
{
    let mut number = first;
    for condition in group {
        write_wanted(out, text, lines, number, condition)?;
        number += 1;
    }
    Ok(())
}

/// Writes the text and after it the conditions that are asked for, of those that are still to come,
/// which are numbered from 1; but for an end, which is the text then.
///
/// # Errors
///
/// An allocation was refused, or the writer failed: a front was written.
pub(crate) fn write_groups<W: Write>(
    out: &mut W,
    text: &mut Vec<u8>,
    lines: &Lines<'_>,
    alloc: Global,
    groups: &mut Groups<'_>,
) -> Result<(), OutputFault>
    requires { length (rest groups.old) ≤ condition_limit }
    ensures written { OnOk result (Passes (W.contents out.old) (W.contents out.new) text.old.items text.new.items
        (wanted_lines lines.now.form (numbers_in lines.now.only) lines.now.names.now lines.now.places.now 1 (rest groups.old))) }
    ensures unfinished { IfErr result (λ _. AppendsFront (W.contents out.old) (W.contents out.new) (text.old.items ++
        wanted_lines lines.now.form (numbers_in lines.now.only) lines.now.names.now lines.now.places.now 1 (rest groups.old))) }
{
    let mut number = 1;
    while let Some(group) = groups.next(alloc)? {
        write_group(out, text, lines, number, &group)?;
        number += group.len() as u32;
    }
    Ok(())
}
