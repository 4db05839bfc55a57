//! A text is written piece by piece, as it is made.

ghost use Rattle.std.specs.Prelude.{[], OnOk, IfErr};
ghost use Rattle.og_io.specs.Written.{AppendsFront, Passes};

use crate::fault::WriteFault;
use crate::writing::write_text;
use std::io::Write;

// How many bytes are made before they are written.
const PIECE: usize = 8_192;

/// Writes the text made so far, where it is long; a short one is held back.
///
/// # Errors
///
/// As `write_text`.
pub fn write_long<W: Write>(out: &mut W, text: &mut Vec<u8>) -> Result<(), WriteFault>
    ensures written { OnOk result (Passes (W.contents out.old) (W.contents out.new) text.old.items
        text.new.items []) }
    ensures unfinished { IfErr result
        (λ _. AppendsFront (W.contents out.old) (W.contents out.new) text.old.items) }
{
    if text.len() < PIECE {
        return Ok(());
    }
    write_text(out, text.as_slice())?;
    text.clear();
    Ok(())
}
