//! Why a case fails.

use crate::part::Part;
use std::fmt;

// How many bytes of a line are shown at most.
const SHOWN: usize = 160;

/// The first line in which two texts differ.
#[derive(Clone, Copy)]
pub(crate) struct Difference<'a> {
    /// The line's number, from 1.
    pub(crate) number: usize,
    /// The line that came, with its line end; empty where there is none.
    pub(crate) got: &'a [u8],
    /// The line that was expected, likewise.
    pub(crate) expected: &'a [u8],
}

/// Why a case fails.
#[derive(Clone, Copy)]
pub(crate) enum Failure<'a> {
    /// A file of the case is not there, or cannot be read.
    Unread(Part),
    /// A file of the case does not have the form that it needs.
    Malformed(Part),
    /// The status is another one.
    Status { got: u8, expected: u8 },
    /// Another text was written to standard output.
    Output(Difference<'a>),
    /// Another text was written to standard error.
    Error(Difference<'a>),
}

// The front of a line, as it is shown.
fn shown(line: &[u8]) -> &[u8] {
    line.get(..SHOWN).unwrap_or(line)
}

// Writes in which line of what the difference is.
fn write_difference<W: fmt::Write>(
    f: &mut fmt::Formatter<W>,
    stream: &str,
    difference: &Difference<'_>,
) -> fmt::Result {
    let number = difference.number;
    let got = shown(difference.got).escape_ascii();
    let expected = shown(difference.expected).escape_ascii();
    write!(
        f,
        "line {number} of {stream} is \"{got}\", expected \"{expected}\""
    )
}

impl<'a> fmt::Display for Failure<'a> {
    fn fmt<W: fmt::Write>(&self, f: &mut fmt::Formatter<W>) -> fmt::Result {
        match self {
            Failure::Unread(part) => {
                let ending = part.ending();
                write!(f, "its file {ending} cannot be read")
            }
            Failure::Malformed(part) => {
                let ending = part.ending();
                write!(f, "its file {ending} is malformed")
            }
            Failure::Status { got, expected } => write!(f, "status {got}, expected {expected}"),
            Failure::Output(difference) => write_difference(f, "standard output", difference),
            Failure::Error(difference) => write_difference(f, "standard error", difference),
        }
    }
}
