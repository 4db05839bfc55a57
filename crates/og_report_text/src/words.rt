//! Numbers and places, as they are printed.

ghost use Rattle.std.specs.Prelude.{◌≡◌, ◌++◌, OnOk, OnErr};
ghost use Rattle.std.specs.Fmt.{decimal};
ghost use Rattle.og_report_text.specs.Places.{position_text, with_text};

use crate::places::{Places, Position};
use std::alloc::AllocError;

/// Adds the number in decimal to the text.
///
/// # Errors
///
/// An allocation was refused; the text is as it was.
pub fn put_number(text: &mut Vec<u8>, number: u128) -> Result<(), AllocError>
    ensures ok { OnOk result (text.new.items ≡ text.old.items ++ decimal number) }
    ensures err { OnErr result (text.new.items ≡ text.old.items) }
{
    let digits = number.to_string(*text.allocator())?;
    text.extend_from_slice(digits.as_bytes())
}

/// Adds the number in decimal to the text, between these words.
///
/// # Errors
///
/// An allocation was refused; the text has what it had, and perhaps a part of this.
pub fn put_number_between(
    text: &mut Vec<u8>,
    before: &[u8],
    number: u128,
    after: &[u8],
) -> Result<(), AllocError>
    ensures { OnOk result (text.new.items ≡ text.old.items
        ++ (before.now ++ (decimal number ++ after.now))) }
{
    text.extend_from_slice(before)?;
    put_number(text, number)?;
    text.extend_from_slice(after)
}

/// Adds the line and the column to the text, with a colon between them.
///
/// # Errors
///
/// An allocation was refused; the text is as it was.
pub fn put_position(text: &mut Vec<u8>, position: Position) -> Result<(), AllocError>
    ensures ok { OnOk result (text.new.items ≡ text.old.items ++ position_text position) }
    ensures err { OnErr result (text.new.items ≡ text.old.items) }
{
    let mut place = Vec::new(*text.allocator());
    put_number(&mut place, position.line as u128)?;
    place.extend_from_slice(b":")?;
    put_number(&mut place, position.column as u128)?;
    text.extend_from_slice(&place)
}

/// Adds the place of an action to the text, where there is one.
///
/// # Errors
///
/// An allocation was refused; the text is as it was.
pub fn put_action_place(
    text: &mut Vec<u8>,
    places: &Places,
    at: Option<u32>,
) -> Result<(), AllocError>
    ensures ok { OnOk result (text.new.items ≡ text.old.items ++ with_text places.now at) }
    ensures err { OnErr result (text.new.items ≡ text.old.items) }
{
    let Some(at) = at else {
        return Ok(());
    };
    let mut place = Vec::from_slice(*text.allocator(), b" with ")?;
    put_position(&mut place, places.position(at))?;
    text.extend_from_slice(&place)
}
