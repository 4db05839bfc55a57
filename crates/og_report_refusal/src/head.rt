//! The first line of advice: where a refusal stands, and which it is.

ghost use Rattle.std.specs.Prelude.{◌≡◌, ◌≤◌, ◌^◌, ◌++◌, OnOk, IsSome, length};
ghost use Rattle.og_report_text.specs.Faults.{place_of_input};
ghost use Rattle.og_report_refusal.specs.Advice.{place_text, line_text, refusal_text, head_text};
ghost use Rattle.og_report_refusal.specs.Names.{shown_name};

use crate::advice::Names;
use crate::names::put_name;
use og_report_text::{InputFault, Position, put_number, put_opening, put_position};
use og_text::line_col;
use std::alloc::AllocError;

// The place in the source, where there is one.
fn put_place(text: &mut Vec<u8>, source: &[u8], place: Option<u32>) -> Result<(), AllocError>
    requires { IsSome place → length source.now ≤ 2 ^ 20 }
    ensures { OnOk result (text.new.items ≡ text.old.items ++ place_text source.now place) }
{
    let Some(at) = place else {
        return Ok(());
    };
    let end = source.len() as u32;
    let (line, column) = line_col(source, at.min(end));
    text.extend_from_slice(b":")?;
    put_position(text, Position { line, column })
}

// The line of the certificates, where there is one.
fn put_line(text: &mut Vec<u8>, line: Option<u32>) -> Result<(), AllocError>
    ensures { OnOk result (text.new.items ≡ text.old.items ++ line_text line) }
{
    let Some(line) = line else {
        return Ok(());
    };
    text.extend_from_slice(b":")?;
    put_number(text, line as u128)
}

// The refusal, and the line's end.
fn put_refusal(text: &mut Vec<u8>, number: u8, name: &str) -> Result<(), AllocError>
    ensures { OnOk result (text.new.items ≡ text.old.items ++ refusal_text number name.now) }
{
    text.extend_from_slice(b": ")?;
    put_opening(text, number, name)?;
    text.extend_from_slice(b"\n")
}

// The file, the place in it where there is one, and the refusal.
fn put_placed(
    text: &mut Vec<u8>,
    file: &str,
    source: &[u8],
    place: Option<u32>,
    number: u8,
    name: &str,
) -> Result<(), AllocError>
    requires { IsSome place → length source.now ≤ 2 ^ 20 }
    ensures { OnOk result (text.new.items ≡ text.old.items
        ++ (shown_name file.now ++ (place_text source.now place ++ refusal_text number name.now))) }
{
    put_name(text, file)?;
    put_place(text, source, place)?;
    put_refusal(text, number, name)
}

// The file, the line in it where there is one, and the refusal.
fn put_lined(
    text: &mut Vec<u8>,
    file: &str,
    line: Option<u32>,
    number: u8,
    name: &str,
) -> Result<(), AllocError>
    ensures { OnOk result (text.new.items ≡ text.old.items
        ++ (shown_name file.now ++ (line_text line ++ refusal_text number name.now))) }
{
    put_name(text, file)?;
    put_line(text, line)?;
    put_refusal(text, number, name)
}

/// Adds the file, the place and the refusal to the text.
///
/// # Errors
///
/// An allocation was refused; the text has what it had, and perhaps a part of this.
pub(crate) fn put_head(
    text: &mut Vec<u8>,
    names: Names<'_>,
    fault: &InputFault,
    source: &[u8],
) -> Result<(), AllocError>
    requires { IsSome (place_of_input fault.now) → length source.now ≤ 2 ^ 20 }
    ensures { OnOk result (text.new.items ≡ text.old.items
        ++ head_text names.entry.source.now names.entry.certs.now source.now fault.now) }
{
    match fault {
        InputFault::Source(why) => {
            let place = why.place();
            put_placed(text, names.source, source, place, why.number(), why.name())
        }
        InputFault::Conditions(why) => {
            put_placed(text, names.source, source, None, why.number(), why.name())
        }
        InputFault::Certs(why) => {
            put_lined(text, names.certs, why.line(), why.number(), why.name())
        }
        InputFault::Stray(_) => put_lined(text, names.certs, None, 25, "Stray"),
    }
}
