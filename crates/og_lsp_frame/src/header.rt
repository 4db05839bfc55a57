//! The header at the front of a stream.

ghost use Rattle.std.specs.Prelude.{◌≡◌, ◌≤◌, ◌<◌, length};
ghost use Rattle.std.specs.List.{prefix_len};
ghost use Rattle.og_lsp_frame.specs.Front.{in_line, first_line, header_from};
ghost use Rattle.og_lsp_frame.specs.Headers.{GivesLine, GivesHeader};

use crate::fault::FrameFault;
use crate::field::{is_blank, length_told};
use crate::limits::LINE_LIMIT;

// A header that is whole.
#[derive(Clone, Copy)]
pub(crate) struct Header<'a> {
    // What it tells of the body's length.
    pub length: Option<u32>,
    // What comes behind it.
    pub rest: &'a [u8],
}

// How many bytes stand in front of the first LF.
fn line_len(bytes: &[u8]) -> usize
    ensures { result ≡ prefix_len in_line bytes.now }
{
    bytes.iter().take_while(|b| **b != b'\n').count()
}

// The first line without its LF, and what comes behind it; nothing where no LF has come.
#[tactic(auto, using(crate::proofs::Within::prefix_within))]
fn first_line(bytes: &[u8]) -> Result<Option<(&[u8], &[u8])>, FrameFault>
    ensures { GivesLine (λ p. (p.0.now, p.1.now)) result (first_line bytes.now) }
{
    let len = line_len(bytes);
    if len > LINE_LIMIT {
        return Err(FrameFault::LineTooLong);
    }
    if len == bytes.len() {
        return Ok(None);
    }
    Ok(Some((&bytes[..len], &bytes[len + 1..])))
}

// The header at the front of some bytes, of so many lines at most; nothing where more has to come.
pub(crate) fn read_header(bytes: &[u8], lines: u32) -> Result<Option<Header<'_>>, FrameFault>
    ensures { GivesHeader (λ h. (h.length, h.rest.now)) result (header_from lines None bytes.now) }
{
    let mut rest = bytes;
    let mut length = None;
    for _ in 0..lines {
        let Some((line, behind)) = first_line(rest)? else {
            return Ok(None);
        };
        if is_blank(line) {
            return Ok(Some(Header {
                length,
                rest: behind,
            }));
        }
        length = length.or(length_told(line));
        rest = behind;
    }
    Err(FrameFault::TooManyLines)
}
