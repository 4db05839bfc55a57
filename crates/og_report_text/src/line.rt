//! The line of a refusal.

ghost use Rattle.std.specs.Prelude.{◌≡◌, ◌++◌, ◌≤◌, ◌^◌, length, IfOk, OnOk, OnErr, IsSome};
ghost use Rattle.og_report_text.specs.Faults.{place_of_input};
ghost use Rattle.og_report_text.specs.Line.{opening_text, place_text, line_text, stray_text, refused_line};

use crate::fault::InputFault;
use crate::places::Position;
use crate::words::{put_number, put_position};
use og_text::line_col;
use std::alloc::{AllocError, Global};

/// Adds `refused: ` with the number and the name of a refusal to the text.
///
/// # Errors
///
/// An allocation was refused; the text is as it was.
pub fn put_opening(text: &mut Vec<u8>, number: u8, name: &str) -> Result<(), AllocError>
    ensures ok { OnOk result (text.new.items ≡ text.old.items ++ opening_text number name.now) }
    ensures err { OnErr result (text.new.items ≡ text.old.items) }
{
    let mut opening = Vec::from_slice(*text.allocator(), b"refused: ")?;
    put_number(&mut opening, number as u128)?;
    opening.extend_from_slice(b" ")?;
    opening.extend_from_slice(name.as_bytes())?;
    text.extend_from_slice(&opening)
}

// The place of a refusal in the source, where it has one.
fn put_place(text: &mut Vec<u8>, source: &[u8], place: Option<u32>) -> Result<(), AllocError>
    requires { IsSome place → length source.now ≤ 2 ^ 20 }
    ensures { OnOk result (text.new.items ≡ text.old.items ++ place_text source.now place) }
{
    match place {
        None => text.extend_from_slice(b"\n"),
        Some(at) => {
            let end = source.len() as u32;
            let (line, column) = line_col(source, at.min(end));
            text.extend_from_slice(b" at ")?;
            put_position(text, Position { line, column })?;
            text.extend_from_slice(b"\n")
        }
    }
}

// The line of a refusal, where it has one.
fn put_line(text: &mut Vec<u8>, line: Option<u32>) -> Result<(), AllocError>
    ensures { OnOk result (text.new.items ≡ text.old.items ++ line_text line) }
{
    match line {
        None => text.extend_from_slice(b"\n"),
        Some(line) => {
            text.extend_from_slice(b" at line ")?;
            put_number(text, line as u128)?;
            text.extend_from_slice(b"\n")
        }
    }
}

// A refusal with a place in the source.
fn put_placed(
    text: &mut Vec<u8>,
    source: &[u8],
    number: u8,
    name: &str,
    place: Option<u32>,
) -> Result<(), AllocError>
    requires { IsSome place → length source.now ≤ 2 ^ 20 }
    ensures { OnOk result (text.new.items ≡ text.old.items
        ++ (opening_text number name.now ++ place_text source.now place)) }
{
    put_opening(text, number, name)?;
    put_place(text, source, place)
}

// A refusal with a line of the certificates.
fn put_lined(
    text: &mut Vec<u8>,
    number: u8,
    name: &str,
    line: Option<u32>,
) -> Result<(), AllocError>
    ensures { OnOk result (text.new.items ≡ text.old.items
        ++ (opening_text number name.now ++ line_text line)) }
{
    put_opening(text, number, name)?;
    put_line(text, line)
}

// A certificate without a condition.
fn put_stray(text: &mut Vec<u8>, condition: u32) -> Result<(), AllocError>
    ensures { OnOk result (text.new.items ≡ text.old.items ++ stray_text condition) }
{
    put_opening(text, 25, "Stray")?;
    text.extend_from_slice(b" condition ")?;
    put_number(text, condition as u128)?;
    text.extend_from_slice(b"\n")
}

// The line of a fault.
fn put_fault(text: &mut Vec<u8>, fault: &InputFault, source: &[u8]) -> Result<(), AllocError>
    requires { IsSome (place_of_input fault.now) → length source.now ≤ 2 ^ 20 }
    ensures { OnOk result (text.new.items ≡ text.old.items ++ refused_line source.now fault.now) }
{
    match fault {
        InputFault::Source(fault) => {
            put_placed(text, source, fault.number(), fault.name(), fault.place())
        }
        InputFault::Conditions(fault) => {
            put_placed(text, source, fault.number(), fault.name(), None)
        }
        InputFault::Certs(fault) => put_lined(text, fault.number(), fault.name(), fault.line()),
        InputFault::Stray(condition) => put_stray(text, *condition),
    }
}

/// The line of a refusal: the number and the name of the fault, and its place in the source, its
/// line in the certificates, or its condition. A source in which the fault has a place has at most
/// 1,048,576 bytes.
///
/// # Errors
///
/// An allocation was refused.
pub fn refused_line(alloc: Global, fault: &InputFault, source: &[u8]) -> Result<Vec<u8>, AllocError>
    requires { IsSome (place_of_input fault.now) → length source.now ≤ 2 ^ 20 }
    ensures { IfOk result (λ t. t.items ≡ refused_line source.now fault.now) }
{
    let mut text = Vec::new(alloc);
    put_fault(&mut text, fault, source)?;
    Ok(text)
}
