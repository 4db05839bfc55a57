//! The line of a refusal.

ghost use Rattle.std.specs.Prelude.{◌≡◌, ◌++◌, ◌≤◌, ◌^◌, length, IfOk, IsSome, OnOk};
ghost use Rattle.og_report_text.specs.Places.{position_of, position_text};
ghost use Rattle.og_report_text.specs.Line.{opening_text};
ghost use Rattle.og_template_outline.specs.Faults.{place_of_fault};
ghost use Rattle.og_template_outline.specs.Expanded.{IsFaultAnswer, fault_line, placed_line, unplaced_line};

use crate::fault::ExpandFault;
use og_report_text::{Answer, InputFault, Position, put_opening, put_position, refused_line};
use og_text::line_col;
use og_typed::SourceFault;
use std::alloc::{AllocError, Global};

// A line with a place in the template.
fn placed(
    alloc: Global,
    source: &[u8],
    number: u8,
    name: &str,
    at: u32,
) -> Result<Vec<u8>, AllocError>
    requires { length source.now ≤ 2 ^ 20 }
    ensures { IfOk result (λ text. text.items ≡ placed_line source.now number name.now at) }
{
    let mut text = Vec::new(alloc);
    put_opening(&mut text, number, name)?;
    let end = source.len() as u32;
    let (line, column) = line_col(source, at.min(end));
    text.extend_from_slice(b" at ")?;
    put_position(&mut text, Position { line, column })?;
    text.extend_from_slice(b"\n")?;
    Ok(text)
}

// A line without a place.
fn plain(alloc: Global, number: u8, name: &str) -> Result<Vec<u8>, AllocError>
    ensures { IfOk result (λ text. text.items ≡ unplaced_line number name.now) }
{
    let mut text = Vec::new(alloc);
    put_opening(&mut text, number, name)?;
    text.extend_from_slice(b"\n")?;
    Ok(text)
}

// The line of a fault: its number, its name, and its place in the template where it has one.
fn fault_line(alloc: Global, fault: &ExpandFault, source: &[u8]) -> Result<Vec<u8>, AllocError>
    requires { IsSome (place_of_fault fault.now) → length source.now ≤ 2 ^ 20 }
    ensures { IfOk result (λ text. text.items ≡ fault_line source.now fault.now) }
{
    match fault {
        ExpandFault::Words(fault) => {
            refused_line(alloc, &InputFault::Source(SourceFault::Lex(*fault)), source)
        }
        ExpandFault::Template(fault) => {
            placed(
                alloc,
                source,
                fault.kind.number(),
                fault.kind.name(),
                fault.at,
            )
        }
        ExpandFault::Outline(fault) => {
            refused_line(
                alloc,
                &InputFault::Source(SourceFault::Resolve(*fault)),
                source,
            )
        }
        ExpandFault::ExpansionTooLong | ExpandFault::NotReadBack => {
            plain(alloc, fault.number(), fault.name())
        }
    }
}

impl ExpandFault {
    /// The answer to the fault of a template: its line, and status 2. A template in which the fault
    /// has a place has at most 1,048,576 bytes.
    ///
    /// # Errors
    ///
    /// An allocation was refused.
    pub fn answer(&self, alloc: Global, template: &[u8]) -> Result<Answer, AllocError>
        requires { IsSome (place_of_fault self.now) → length template.now ≤ 2 ^ 20 }
        ensures { IfOk result (IsFaultAnswer template.now self.now) }
    {
        let text = fault_line(alloc, self, template)?;
        Ok(Answer { text, status: 2 })
    }
}
