//! Reading a whole text.

ghost use Rattle.std.specs.Prelude.{◌≤◌, ◌<◌, length, IsErrOf};
ghost use Rattle.og_cert_text.specs.declared.fault.CertTextError.TheVariants.{Memory};
ghost use Rattle.og_cert_read.specs.Text.{most_text};
ghost use Rattle.og_cert_read.specs.Reading.{read_lines, nothing_read};
ghost use Rattle.og_cert_read.specs.Answered.{IsRead};
ghost use Rattle.og_cert_read.specs.Reader.{version_of, lines_of, IsFile};

use crate::limits::TEXT_LIMIT;
use crate::reader::{Reader, Version};
use crate::words::after;
use og_cert_text::{CertFile, CertTextError, CertTextFault};
use std::alloc::Global;

// Reads the lines after the first one.
fn read_rest(alloc: Global, version: Version, text: &[u8]) -> Result<CertFile, CertTextError>
    requires { length text.now ≤ most_text }
    ensures file { IsFile result
        (read_lines (version_of version) 2 nothing_read (lines_of text.now)) }
    ensures memory { IsErrOf result Memory → 0 < length text.now }
{
    let mut reader = Reader::new(alloc);
    let mut rest = text;
    let mut at: u32 = 2;
    while !rest.is_empty() {
        rest = reader.next(alloc, version, rest, at)?;
        at += 1;
    }
    reader.end(at)
}

/// The file of certificates that the text is, in version 1 or 2.
///
/// The first that applies: `CertsTooLong` where the text is longer than 67108864 bytes;
/// `BadVersion` where the first line is neither `og-cert 1` nor `og-cert 2`, with its LF; then the
/// first line that is wrong, counted from 1: `BadLine` where it is no line of a certificate, has a
/// number outside the limits, lacks its LF, stands out of place or is missing; `Twice` where it
/// begins a second certificate of its condition; `TooDeep` where it is a branch or a split with 200
/// of them round it. `Memory` where an allocation was refused, which none of the first two can be,
/// nor a text without a line after its first.
pub fn read_certs(alloc: Global, text: &[u8]) -> Result<CertFile, CertTextError>
    ensures { IsRead text.now result }
{
    if text.len() > TEXT_LIMIT {
        return Err(CertTextError::Fault(CertTextFault::CertsTooLong));
    }
    if let Some(rest) = after(b"og-cert 1\n", text) {
        return read_rest(alloc, Version::One, rest);
    }
    if let Some(rest) = after(b"og-cert 2\n", text) {
        return read_rest(alloc, Version::Two, rest);
    }
    Err(CertTextError::Fault(CertTextFault::BadVersion))
}
