//! What a program writes, and its status.

ghost use Rattle.std.specs.Prelude.{◌≡◌, ◌↔◌, IsNone, IfSome};

use crate::failure::{Difference, Failure};

/// What a program wrote, and its status.
#[derive(Drop)]
pub(crate) struct Ends {
    pub(crate) status: u8,
    pub(crate) out: Vec<u8>,
    pub(crate) err: Vec<u8>,
}

/// What it was to write, and the status that was expected.
#[derive(Drop)]
pub(crate) struct Expected {
    pub(crate) status: u8,
    pub(crate) out: Vec<u8>,
    /// None where it is not compared.
    pub(crate) err: Option<Vec<u8>>,
}

// The first line in which two texts differ; none where they are equal.
fn difference<'a>(got: &'a [u8], expected: &'a [u8]) -> Option<Difference<'a>>
    ensures { IsNone result ↔ (got.now ≡ expected.now) }
{
    if got == expected {
        return None;
    }
    Some(first_difference(got, expected))
}

// A line of a text, with its line end, counted from 0; empty where there is none.
fn line(text: &[u8], index: usize) -> &[u8] {
    text.split_inclusive(|byte| *byte == b'\n')
        .nth(index)
        .unwrap_or(b"")
}

// The first line in which two texts differ, or the one after both.
fn first_difference<'a>(got: &'a [u8], expected: &'a [u8]) -> Difference<'a> {
    let expected_lines = expected.split_inclusive(|byte| *byte == b'\n');
    let equal = got
        .split_inclusive(|byte| *byte == b'\n')
        .zip(expected_lines)
        .take_while(|(got, expected)| got == expected)
        .count();
    Difference {
        number: equal.saturating_add(1),
        got: line(got, equal),
        expected: line(expected, equal),
    }
}

impl Expected {
    /// Why what came is not what was expected; none where it is.
    pub(crate) fn failure<'a>(&'a self, ends: &'a Ends) -> Option<Failure<'a>>
        ensures { IsNone result ↔ ((ends.now.status ≡ self.now.status) × (ends.now.out.items ≡ self.now.out.items)
            × IfSome self.now.err (λ text. ends.now.err.items ≡ text.items)) }
    {
        if ends.status != self.status {
            return Some(Failure::Status {
                got: ends.status,
                expected: self.status,
            });
        }
        if let Some(found) = difference(&ends.out, &self.out) {
            return Some(Failure::Output(found));
        }
        match &self.err {
            None => None,
            Some(text) => match difference(&ends.err, text) {
                None => None,
                Some(found) => Some(Failure::Error(found)),
            },
        }
    }
}
