//! The layout of a source, as a report.

ghost use Rattle.std.specs.Prelude.{◌≡◌, Ok, None, IfOk, IfErr};
ghost use Rattle.og_layout.specs.Pieces.{HaveSamePieces};
ghost use Rattle.og_report_text.specs.Answers.{Says};
ghost use Rattle.og_program.specs.World.{named};
ghost use Rattle.og_program.specs.Failing.{IsWant};
ghost use Rattle.og_program.specs.Layout.{layout_text, TellsWhy, IsPrintedOrTold, IsFormatted};

use crate::beside::alone;
use crate::fault::Fault;
use crate::outcome::Report;
use og_layout::{LayoutError, laid_out};
use og_report_refusal::put_name;
use og_report_text::Answer;
use og_words::Format;
use std::alloc::{AllocError, Global};

const OTHERWISE: &str = " is not laid out\n";

const TOO_LONG: &str = ": laid out it is longer than a source may be\n";

const FAILED: &str = " cannot be laid out\n";

// The line that says this of a source.
fn layout_line(alloc: Global, name: &str, why: &str) -> Result<Vec<u8>, AllocError>
    ensures { IfOk result (λ text. text.items ≡ layout_text name.now why.now) }
{
    let mut text = Vec::from_slice(alloc, b"og: ")?;
    put_name(&mut text, name)?;
    text.extend_from_slice(why.as_bytes())?;
    Ok(text)
}

// The report that prints nothing, with status 1 and this line beside it.
fn told(alloc: Global, name: &str, why: &str) -> Report
    ensures { TellsWhy name.now why.now result }
{
    let answer = Answer {
        text: Vec::new(alloc),
        status: 1,
    };
    let note = layout_line(alloc, name, why).map(Some);
    Report { answer, note }
}

// The report that prints this text, with status 0.
fn printed(text: Vec<u8>) -> Report
    ensures answer { Says text.items 0 result.answer }
    ensures note { result.note ≡ Ok None }
{
    alone(Answer { text, status: 0 })
}

// What is reported of a source whose layout is this text.
fn of_layout(alloc: Global, format: &Format<'_>, text: &[u8], written: Vec<u8>) -> Report
    requires { HaveSamePieces text.now written.items }
    ensures { IsPrintedOrTold format.now.check (named format.now.source.now text.now) result }
{
    if !format.check {
        return printed(written);
    }
    if written.as_slice() == text {
        return printed(Vec::new(alloc));
    }
    told(alloc, format.source, OTHERWISE)
}

/// The source laid out, or with `--check` whether it is.
pub(crate) fn formatted<'a>(
    alloc: Global,
    format: &Format<'a>,
    text: &[u8],
) -> Result<Report, Fault<'a>>
    ensures report { IfOk result
        (IsFormatted format.now.check (named format.now.source.now text.now)) }
    ensures want { IfErr result (IsWant ⊥) }
{
    match laid_out(alloc, text) {
        Ok(written) => Ok(of_layout(alloc, format, text, written)),
        Err(LayoutError::Memory) => Err(Fault::Memory),
        Err(LayoutError::TooLong) => Ok(told(alloc, format.source, TOO_LONG)),
        Err(_) => Ok(told(alloc, format.source, FAILED)),
    }
}
