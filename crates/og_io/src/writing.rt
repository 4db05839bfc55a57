//! A text is written as a whole.

ghost use Rattle.std.specs.Prelude.{◌≤◌, OnOk, IfOk, IfErr, length, take};
ghost use Rattle.std.specs.Io.KnownBytes.{Appends, Keeps};
ghost use Rattle.og_io.specs.Written.{AppendsFront};

use crate::fault::WriteFault;
use std::io::{ErrorKind, Write};

// Writes once. How many bytes went out: none where the write was interrupted.
fn write_once<W: Write>(out: &mut W, rest: &[u8]) -> Result<usize, WriteFault>
    ensures within { IfOk result (λ count. count ≤ length rest.now) }
    ensures written { IfOk result (λ count.
        Appends (W.contents out.old) (W.contents out.new) (take count rest.now)) }
    ensures kept { IfErr result (λ _. Keeps (W.contents out.old) (W.contents out.new)) }
{
    match out.write(rest) {
        Ok(count) => {
            if count == 0 {
                return Err(WriteFault::Failed);
            }
            Ok(count)
        }
        Err(error) => {
            if error.kind() == ErrorKind::Interrupted {
                Ok(0)
            } else {
                Err(WriteFault::of(&error))
            }
        }
    }
}

/// Writes a text, by as many writes as it takes.
///
/// # Errors
///
/// The writer failed; a front of the text may have been written then.
pub fn write_text<W: Write>(out: &mut W, text: &[u8]) -> Result<(), WriteFault>
    ensures written { OnOk result (Appends (W.contents out.old) (W.contents out.new) text.now) }
    ensures unfinished { IfErr result
        (λ _. AppendsFront (W.contents out.old) (W.contents out.new) text.now) }
{
    let mut rest = text;
    for _ in 0..u64::MAX {
        if rest.is_empty() {
            return Ok(());
        }
        let count = write_once(out, rest)?;
        rest = &rest[count..];
    }
    Err(WriteFault::Failed)
}

/// Writes a text after which nothing is written, so that nothing of it is left in the writer.
///
/// # Errors
///
/// As `write_text`.
pub fn write_whole<W: Write>(out: &mut W, text: &[u8]) -> Result<(), WriteFault>
    ensures written { OnOk result (Appends (W.contents out.old) (W.contents out.new) text.now) }
    ensures unfinished { IfErr result
        (λ _. AppendsFront (W.contents out.old) (W.contents out.new) text.now) }
{
    write_text(out, text)?;
    match out.flush() {
        Ok(()) => Ok(()),
        Err(error) => Err(WriteFault::of(&error)),
    }
}
