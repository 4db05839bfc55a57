//! A message is written.

ghost use Rattle.std.specs.Prelude.{◌≡◌, OnOk, IfOk, IfErr};
ghost use Rattle.std.specs.Io.KnownBytes.{Appends};
ghost use Rattle.og_lsp_frame.specs.Front.{message_text};
ghost use Rattle.og_lsp_frame.specs.Writes.{WritesFront};

use og_io::{OutputFault, write_whole};
use std::alloc::{AllocError, Global};
use std::io::Write;

/// A header that tells the length of a body, and the body.
///
/// # Errors
///
/// An allocation was refused.
pub fn message_text(alloc: Global, body: &[u8]) -> Result<Vec<u8>, AllocError>
    ensures { IfOk result (λ text. text.items ≡ message_text body.now) }
{
    let mut text = Vec::new(alloc);
    text.extend_from_slice(b"Content-Length: ")?;
    text.extend_from_slice(body.len().to_string(alloc)?.as_bytes())?;
    text.extend_from_slice(b"\r\n\r\n")?;
    text.extend_from_slice(body)?;
    Ok(text)
}

/// Writes the message of a body, so that nothing of it is left in the writer.
///
/// # Errors
///
/// `Memory` where an allocation was refused, and nothing was written; else as `write_whole`.
pub fn write_message<W: Write>(alloc: Global, out: &mut W, body: &[u8]) -> Result<(), OutputFault>
    ensures written { OnOk result (Appends (W.contents out.old) (W.contents out.new)
        (message_text body.now)) }
    ensures unfinished { IfErr result (WritesFront (W.contents out.old) (W.contents out.new)
        (message_text body.now)) }
{
    let text = message_text(alloc, body)?;
    write_whole(out, text.as_slice())?;
    Ok(())
}
