//! The heading of a condition in a listing: its number, its kind and its places.

ghost use Rattle.std.specs.Prelude.{◌≡◌, ◌++◌, OnOk};
ghost use Rattle.og_cond.specs.Seen.{seen};
ghost use Rattle.og_report_text.specs.Listing.{header_text, places_text};

use crate::places::Places;
use crate::words::{put_action_place, put_number_between, put_position};
use og_cond::Condition;
use std::alloc::AllocError;

fn put_places(text: &mut Vec<u8>, places: &Places, condition: &Condition) -> Result<(), AllocError>
    ensures { OnOk result (text.new.items ≡ text.old.items
        ++ places_text places.now (seen condition.now)) }
{
    text.extend_from_slice(b" at ")?;
    put_position(text, places.position(condition.at))?;
    put_action_place(text, places, condition.action_at)?;
    text.extend_from_slice(b"\n")
}

/// Adds the line of a condition with this number to the text, as `conditions` prints it: its
/// number, its kind and its places.
///
/// # Errors
///
/// An allocation was refused; the text has what it had, and perhaps a part of this.
pub fn put_heading(
    text: &mut Vec<u8>,
    places: &Places,
    number: u128,
    condition: &Condition,
) -> Result<(), AllocError>
    ensures { OnOk result (text.new.items ≡ text.old.items
        ++ header_text places.now number (seen condition.now)) }
{
    put_number_between(text, b"cond ", number, b" ")?;
    text.extend_from_slice(condition.kind.name().as_bytes())?;
    put_places(text, places, condition)
}
