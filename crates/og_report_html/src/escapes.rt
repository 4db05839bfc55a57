//! How bytes are written within HTML.

ghost use Rattle.std.specs.Prelude.{◌≡◌, ◌++◌, OnOk};
ghost use Rattle.std.specs.Str.{is_utf8};
ghost use Rattle.og_report_html.specs.Escapes.{is_printed, plain_byte, escaped, escaped_text};

use std::alloc::AllocError;
use std::str;

/// Whether a text is UTF-8. Takes no memory.
pub fn is_utf8(bytes: &[u8]) -> bool
    ensures { result ≡ is_utf8 bytes.now }
{
    match str::from_utf8(bytes) {
        Ok(_) => true,
        Err(_) => false,
    }
}

fn is_printed(utf8: bool, byte: u8) -> bool
    ensures { result ≡ is_printed utf8 byte }
{
    byte == b'\t' || byte == b'\n' || 31 < byte && byte < 127 || utf8 && 127 < byte
}

// A byte that HTML does not take for its own.
fn put_plain(text: &mut Vec<u8>, utf8: bool, byte: u8) -> Result<(), AllocError>
    ensures { OnOk result (text.new.items ≡ text.old.items ++ plain_byte utf8 byte) }
{
    if is_printed(utf8, byte) {
        return text.extend_from_slice(&[byte]);
    }
    if byte == b'\r' {
        text.extend_from_slice(b" ")
    } else {
        text.extend_from_slice(b"?")
    }
}

/// Adds a byte to a text of HTML; `utf8` says whether it is one of a text that is UTF-8.
pub(crate) fn put_byte(text: &mut Vec<u8>, utf8: bool, byte: u8) -> Result<(), AllocError>
    ensures { OnOk result (text.new.items ≡ text.old.items ++ escaped utf8 byte) }
{
    if byte == b'&' {
        text.extend_from_slice(b"&amp;")
    } else if byte == b'<' {
        text.extend_from_slice(b"&lt;")
    } else if byte == b'>' {
        text.extend_from_slice(b"&gt;")
    } else if byte == b'"' {
        text.extend_from_slice(b"&quot;")
    } else {
        put_plain(text, utf8, byte)
    }
}

/// Adds bytes to a text of HTML; `utf8` says whether they are of a text that is UTF-8.
///
/// # Errors
///
/// An allocation was refused; the text has what it had, and perhaps a part of this.
pub fn put_escaped(text: &mut Vec<u8>, utf8: bool, bytes: &[u8]) -> Result<(), AllocError>
    ensures { OnOk result (text.new.items ≡ text.old.items ++ escaped_text utf8 bytes.now) }
{
    for byte in bytes {
        put_byte(text, utf8, *byte)?;
    }
    Ok(())
}
