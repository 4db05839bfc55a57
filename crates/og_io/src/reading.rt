//! Reading an input up to a limit.

ghost use Rattle.std.specs.Prelude.{◌≡◌, ◌≤◌, ◌<◌, ◌≢◌, ◌++◌, OnOk, IfOk, IsOk, IsErrOf, IsErrAnd, IfSome, Ok, length, take, false, vec_len};
ghost use Rattle.std.specs.Io.KnownBytes.{Consumes, IsAtEnd};
ghost use Rattle.std.specs.IoError.{error_kind};
ghost use Rattle.og_io.specs.Reading.{Takes, given};
ghost use Rattle.og_io.specs.declared.reading.ReadFault.TheVariants.{Failed, Memory};

use std::alloc::{AllocError, AllocFailed, Global};
use std::io::{Error, ErrorKind, Read};

/// Why an input was not read.
#[derive(Clone, Copy, PartialEq, Eq)]
pub enum ReadFault {
    /// The reader failed, or was read 100,000,000 times and had not ended.
    Failed,
    /// An allocation was refused.
    Memory,
}

impl From<AllocError> for ReadFault {
    ghost from_gives = { λ _ e. e ≡ Memory };

    fn from(_: AllocError) -> ReadFault {
        ReadFault::Memory
    }
}

impl<T: Drop> From<AllocFailed<T>> for ReadFault {
    ghost from_gives = { λ _ e. e ≡ Memory };

    fn from(_: AllocFailed<T>) -> ReadFault {
        ReadFault::Memory
    }
}

// How often a reader is read at most.
const MOST_READS: u32 = 100_000_000;

// How many bytes are asked for at once.
const CHUNK: usize = 65536;

// Adds what one read of the chunk gave. Whether more may come; a read that was interrupted gave
// nothing, and is tried again.
fn add_read(text: &mut Vec<u8>, chunk: &[u8], read: Result<usize, Error>) -> Result<bool, ReadFault>
    requires { IfOk read (λ count. count ≤ length chunk.now) }
    ensures text { OnOk result (text.new.items ≡ text.old.items ++ given read chunk.now) }
    ensures more { IfOk result (λ more. more ≡ false → read ≡ Ok 0) }
    ensures failed { IsErrOf result Failed
        → IsErrAnd read (λ e. error_kind e ≢ ErrorKind.Interrupted) }
    ensures memory { IsErrOf result Memory → IsOk read }
{
    match read {
        Ok(count) => {
            text.extend_from_slice(&chunk[..count])?;
            Ok(count > 0)
        }
        Err(error) => {
            if error.kind() == ErrorKind::Interrupted {
                Ok(true)
            } else {
                Err(ReadFault::Failed)
            }
        }
    }
}

// Reads once, and adds what came. Whether more may come.
fn read_once<R: Read>(
    reader: &mut R,
    chunk: &mut [u8],
    text: &mut Vec<u8>,
) -> Result<bool, ReadFault>
    requires { 0 < length chunk.old }
    ensures takes { OnOk result (Takes (R.remaining reader.old) (R.remaining reader.new)
        text.old.items text.new.items (length chunk.old)) }
    ensures end { IfOk result (λ more. more ≡ false → IsAtEnd (R.remaining reader.new)) }
{
    let read = reader.read(chunk);
    add_read(text, chunk, read)
}

// Room for one read.
fn zeros(alloc: Global, count: usize) -> Result<Vec<u8>, AllocError>
    ensures { IfOk result (λ v. vec_len v ≡ count) }
{
    vec![in alloc; 0; count]
}

/// The bytes of an input up to its end, or the first `most` of them. No more than these are taken
/// from the reader.
///
/// # Errors
///
/// `Failed` where the reader failed, or had not ended after 100,000,000 reads; never where nothing
/// is to be read. `Memory` where an allocation was refused.
pub fn read_up_to<R: Read>(alloc: Global, reader: &mut R, most: usize) -> Result<Vec<u8>, ReadFault>
    ensures text { IfOk result (λ text.
        IfSome (R.remaining reader.old) (λ input. text.items ≡ take most input)) }
    ensures consumed { IfOk result (λ text.
        Consumes (R.remaining reader.old) (R.remaining reader.new) text.items) }
    ensures failed { IsErrOf result Failed → 0 < most }
{
    let mut chunk = zeros(alloc, CHUNK)?;
    let mut text = Vec::new(alloc);
    for _ in 0..MOST_READS {
        let room = most - text.len();
        if room == 0 {
            return Ok(text);
        }
        let size = room.min(chunk.len());
        if !read_once(reader, &mut chunk[..size], &mut text)? {
            return Ok(text);
        }
    }
    Err(ReadFault::Failed)
}
