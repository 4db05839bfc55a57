//! Writing an answer.

ghost use Rattle.std.specs.Prelude.{◌≡◌, OnOk, IfOk, IfErr};
ghost use Rattle.std.specs.Io.KnownBytes.{Appends};
ghost use Rattle.og_io.specs.Written.{AppendsFront};

use og_io::{WriteFault, write_whole};
use og_report_text::Answer;
use std::io::Write;

/// Writes the answer's text and returns its status.
///
/// # Errors
///
/// The writer failed; a front of the text may have been written then.
pub fn write_answer<W: Write>(out: &mut W, answer: &Answer) -> Result<u8, WriteFault>
    ensures written { OnOk result
        (Appends (W.contents out.old) (W.contents out.new) answer.now.text.items) }
    ensures status { IfOk result (λ status. status ≡ answer.now.status) }
    ensures unfinished { IfErr result (λ _.
        AppendsFront (W.contents out.old) (W.contents out.new) answer.now.text.items) }
{
    write_whole(out, &answer.text)?;
    Ok(answer.status)
}
