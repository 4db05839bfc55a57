//! A line of a source with a mark below it.

ghost use Rattle.std.specs.Prelude.{◌≡◌, ◌≤◌, ◌+◌, ◌^◌, ◌++◌, OnOk, length, map};
ghost use Rattle.std.specs.List.{prefix_len, suffix_len};
ghost use Rattle.og_report_refusal.specs.Quotes.{is_printable, shown_byte, below_byte, in_line, line_before, line_after, marked, quote_text};

use crate::bytes::{front_of, rest_of};
use std::alloc::AllocError;

// How long a line may be that is shown.
const SHOWN: usize = 160;

/// Whether the byte can be printed.
pub(crate) fn is_printable(byte: u8) -> bool
    ensures { result ≡ is_printable byte }
{
    b' ' <= byte && byte <= b'~'
}

// A byte as it is shown.
fn shown_byte(byte: u8) -> u8
    ensures { result ≡ shown_byte byte }
{
    if is_printable(byte) || byte == b'\t' {
        byte
    } else if byte == b'\r' {
        b' '
    } else {
        b'?'
    }
}

// What stands below a byte.
fn below_byte(byte: u8) -> u8
    ensures { result ≡ below_byte byte }
{
    if byte == b'\t' { b'\t' } else { b' ' }
}

/// Adds bytes as they are shown to the text.
///
/// # Errors
///
/// An allocation was refused; the text has what it had, and perhaps a part of this.
pub(crate) fn put_shown(text: &mut Vec<u8>, bytes: &[u8]) -> Result<(), AllocError>
    ensures { OnOk result (text.new.items ≡ text.old.items ++ map shown_byte bytes.now) }
{
    for byte in bytes {
        text.push(shown_byte(*byte))?;
    }
    Ok(())
}

// Adds what stands below bytes.
fn put_below(text: &mut Vec<u8>, bytes: &[u8]) -> Result<(), AllocError>
    ensures { OnOk result (text.new.items ≡ text.old.items ++ map below_byte bytes.now) }
{
    for byte in bytes {
        text.push(below_byte(*byte))?;
    }
    Ok(())
}

// How many bytes stand before the first line end.
fn line_len(bytes: &[u8]) -> usize
    ensures { result ≡ prefix_len in_line bytes.now }
{
    bytes.iter().take_while(|b| **b != b'\n').count()
}

// How many bytes stand behind the last line end.
fn last_len(bytes: &[u8]) -> usize
    ensures count { result ≡ suffix_len in_line bytes.now }
    ensures within { result ≤ length bytes.now }
{
    bytes.iter().rev().take_while(|b| **b != b'\n').count()
}

// The bytes of the line before a place.
fn line_before(source: &[u8], at: usize) -> &[u8]
    ensures line { result.now ≡ line_before source.now at }
    ensures within { length result.now ≤ length source.now }
{
    let front = front_of(source, at);
    &front[front.len() - last_len(front)..]
}

// The bytes of the line from a place on.
fn line_after(source: &[u8], at: usize) -> &[u8]
    ensures line { result.now ≡ line_after source.now at }
    ensures within { length result.now ≤ length source.now }
{
    let rest = rest_of(source, at);
    &rest[..line_len(rest)]
}

// Adds a line with a mark below it.
fn put_marked(text: &mut Vec<u8>, before: &[u8], after: &[u8]) -> Result<(), AllocError>
    requires before { length before.now ≤ 2 ^ 20 }
    requires after { length after.now ≤ 2 ^ 20 }
    ensures { OnOk result (text.new.items ≡ text.old.items ++ marked before.now after.now) }
{
    if before.len() + after.len() > SHOWN {
        return text.extend_from_slice(b"  ");
    }
    put_shown(text, before)?;
    put_shown(text, after)?;
    text.extend_from_slice(b"\n")?;
    put_below(text, before)?;
    text.extend_from_slice(b"^ ")
}

/// Adds the line of a place, a byte offset, and below it a mark at the place, to the text: the line
/// is said of the place may follow in the same line. A line of more than 160 bytes is left out.
///
/// # Errors
///
/// An allocation was refused; the text has what it had, and perhaps a part of this.
pub fn put_quote(text: &mut Vec<u8>, source: &[u8], at: u32) -> Result<(), AllocError>
    requires { length source.now ≤ 2 ^ 20 }
    ensures { OnOk result (text.new.items ≡ text.old.items ++ quote_text source.now at) }
{
    let place = at as usize;
    put_marked(text, line_before(source, place), line_after(source, place))
}
