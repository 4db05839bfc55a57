//! Lines of a source.

ghost use Rattle.std.specs.Prelude.{◌≡◌, ◌++◌, OnOk};
ghost use Rattle.og_report_text.specs.Quotes.{ends_line, is_blank, line_of, trimmed, cut_text, quote_text};

use std::alloc::AllocError;

fn ends_line(byte: u8) -> bool
    ensures { result ≡ ends_line byte }
{
    byte == b'\n' || byte == b'#'
}

pub(crate) fn is_blank(byte: u8) -> bool
    ensures { result ≡ is_blank byte }
{
    byte == b'\t' || byte == b'\r' || byte == b' '
}

// The bytes up to the end of the line.
fn line_of(bytes: &[u8]) -> &[u8]
    ensures { result.now ≡ line_of bytes.now }
{
    for i in 0..bytes.len() {
        if ends_line(bytes[i]) {
            return &bytes[..i];
        }
    }
    bytes
}

/// The bytes without the blanks at their end.
pub(crate) fn trimmed(bytes: &[u8]) -> &[u8]
    ensures { result.now ≡ trimmed bytes.now }
{
    let mut length = bytes.len();
    while 0 < length && is_blank(bytes[length - 1]) {
        length -= 1;
    }
    &bytes[..length]
}

// At most this many bytes of a line.
fn put_cut(text: &mut Vec<u8>, limit: usize, line: &[u8]) -> Result<(), AllocError>
    ensures { OnOk result (text.new.items ≡ text.old.items ++ cut_text limit line.now) }
{
    if line.len() <= limit {
        return text.extend_from_slice(line);
    }
    text.extend_from_slice(trimmed(&line[..limit]))?;
    text.extend_from_slice(b" ..")
}

/// Adds the source from the byte offset `at` up to the end of the line or to a comment, without
/// blanks at the end, to the text: at most this many bytes, and then ` ..`.
///
/// # Errors
///
/// An allocation was refused; the text has what it had, and perhaps a part of this.
pub fn put_quote(text: &mut Vec<u8>, limit: usize, source: &[u8], at: u32) -> Result<(), AllocError>
    ensures { OnOk result (text.new.items ≡ text.old.items ++ quote_text limit source.now at) }
{
    let start = source.len().min(at as usize);
    put_cut(text, limit, trimmed(line_of(&source[start..])))
}
