//! Elements that have a number twice: links by it, with it as their text, and what they lead to; and
//! what stands between two texts.

ghost use Rattle.std.specs.Prelude.{◌≡◌, ◌++◌, OnOk};
ghost use Rattle.std.specs.Fmt.{decimal};

use og_report_text::{put_number, put_number_between};
use std::alloc::AllocError;

/// Adds the number twice to the text, among these words.
pub(crate) fn put_twice(
    text: &mut Vec<u8>,
    opening: &[u8],
    number: u128,
    between: &[u8],
    closing: &[u8],
) -> Result<(), AllocError>
    ensures { OnOk result (text.new.items ≡ text.old.items ++ (opening.now
        ++ (decimal number ++ (between.now ++ (decimal number ++ closing.now))))) }
{
    put_number_between(text, opening, number, between)?;
    put_number(text, number)?;
    text.extend_from_slice(closing)
}

/// Adds a text between two others.
pub(crate) fn put_between(
    text: &mut Vec<u8>,
    before: &[u8],
    middle: &[u8],
    after: &[u8],
) -> Result<(), AllocError>
    ensures { OnOk result (text.new.items ≡ text.old.items
        ++ (before.now ++ (middle.now ++ after.now))) }
{
    text.extend_from_slice(before)?;
    text.extend_from_slice(middle)?;
    text.extend_from_slice(after)
}
