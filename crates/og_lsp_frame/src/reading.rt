//! Messages are read from an input.

ghost use Rattle.std.specs.Prelude.{◌≡◌, ◌<◌, ◌≢◌, [], false, None, OnOk, IfOk, IfErr, IfSome, IfNone, length};
ghost use Rattle.std.specs.Io.KnownBytes.{IsAtEnd};
ghost use Rattle.og_lsp_frame.specs.Read.{ReadsOn, ReadsMessage, IsEnd, FailsWith};
ghost use Rattle.og_lsp_frame.specs.declared.fault.InputError.TheVariants.{Unfinished};

use crate::fault::InputError;
use crate::frames::Frames;
use std::alloc::Global;
use std::io::{ErrorKind, Read};

// How many bytes are asked for at once.
const CHUNK: usize = 65_536;

// Reads once. Whether more may come; a read that was interrupted gave nothing, and is tried again.
fn read_more<R: Read>(
    reader: &mut R,
    chunk: &mut [u8],
    frames: &mut Frames,
) -> Result<bool, InputError>
    requires { 0 < length chunk.old }
    ensures on { OnOk result (ReadsOn (R.remaining reader.old) (R.remaining reader.new)
        frames.old frames.new) }
    ensures end { IfOk result (λ more. more ≡ false → IsAtEnd (R.remaining reader.new)
        × (frames.new ≡ frames.old)) }
    ensures error { IfErr result (FailsWith (R.remaining reader.old) (R.remaining reader.new)
        frames.old frames.new) }
{
    match reader.read(chunk) {
        Ok(count) => {
            frames.add(&chunk[..count])?;
            Ok(count > 0)
        }
        Err(error) => {
            if error.kind() == ErrorKind::Interrupted {
                Ok(true)
            } else {
                Err(InputError::Failed)
            }
        }
    }
}

// What the end of the input is.
fn ended(frames: &Frames) -> Result<Option<Vec<u8>>, InputError>
    ensures end { IfOk result (λ body. (body ≡ None) × (frames.now ≡ [])) }
    ensures error { IfErr result (λ e. (e ≡ Unfinished) × (frames.now ≢ [])) }
{
    if frames.is_empty() {
        Ok(None)
    } else {
        Err(InputError::Unfinished)
    }
}

/// The next message of an input, as soon as its last byte has come; nothing where the input ends
/// behind a message. What is read behind the message is held in the frames.
///
/// # Errors
///
/// `Fault` of a header, `Unfinished` where the input ends within a message, `Failed` where the
/// reader failed: the frames then hold all that was read. `Memory` where an allocation was refused:
/// what was read last may be lost.
pub fn read_message<R: Read>(
    alloc: Global,
    reader: &mut R,
    frames: &mut Frames,
) -> Result<Option<Vec<u8>>, InputError>
    ensures message { IfOk result (λ body. IfSome body (λ body.
        ReadsMessage (R.remaining reader.old) (R.remaining reader.new) frames.old frames.new
        body.items)) }
    ensures end { IfOk result (λ body. IfNone body
        (IsEnd (R.remaining reader.old) (R.remaining reader.new) frames.old frames.new)) }
    ensures error { IfErr result (FailsWith (R.remaining reader.old) (R.remaining reader.new)
        frames.old frames.new) }
{
    let mut chunk = vec![in alloc; 0; CHUNK]?;
    for _ in 0..u64::MAX {
        if let Some(body) = frames.take(alloc)? {
            return Ok(Some(body));
        }
        if !read_more(reader, chunk.as_mut_slice(), frames)? {
            return ended(frames);
        }
    }
    Err(InputError::Failed)
}
