//! Writing parts with the white space in front of them.

use crate::between::between;
use crate::spaced::{Gap, Spaced};
use og_text::SOURCE_LIMIT;
use std::alloc::{AllocError, Global};

// Ends the line before, if there is one, and begins another one.
fn begin_line(written: &mut Vec<u8>, part: &Spaced) -> Result<(), AllocError> {
    if !written.is_empty() {
        written.push(b'\n')?;
        if part.after_blank_line {
            written.push(b'\n')?;
        }
    }
    for _ in 0..part.level {
        written.extend_from_slice(b"  ")?;
    }
    Ok(())
}

fn put_gap(written: &mut Vec<u8>, part: &Spaced) -> Result<(), AllocError> {
    match part.gap {
        Gap::None => Ok(()),
        Gap::Blank => written.extend_from_slice(b" "),
        Gap::TwoBlanks => written.extend_from_slice(b"  "),
        Gap::Line => begin_line(written, part),
    }
}

/// The parts of a text, each behind its white space, and a line end. It stops once what is written
/// is longer than a source may be.
pub(crate) fn written(alloc: Global, text: &[u8], parts: &[Spaced]) -> Result<Vec<u8>, AllocError> {
    let mut written = Vec::new(alloc);
    for part in parts {
        if written.len() > SOURCE_LIMIT {
            return Ok(written);
        }
        put_gap(&mut written, part)?;
        written.extend_from_slice(between(text, part.start, part.end))?;
    }
    if !written.is_empty() {
        written.push(b'\n')?;
    }
    Ok(written)
}
