//! Reading sources and certificates, each to one byte past its limit.

ghost use Rattle.std.specs.Prelude.{◌≡◌, IfOk, IfSome};
ghost use Rattle.std.specs.Io.KnownBytes.{Consumes};
ghost use Rattle.og_command_check.specs.Inputs.{source_of, certs_of, joined_of};

use og_io::{ReadFault, read_up_to};
use std::alloc::Global;
use std::io::Read;

// The limit of a source, and one byte.
const SOURCE_BYTES: usize = 1_048_577;

/// How many bytes a text of certificates may have.
pub const CERTS_LIMIT: usize = 67_108_864;

// The limit of certificates, and one byte.
const CERTS_BYTES: usize = 67_108_865;

// Both limits, and one byte.
const JOINED_BYTES: usize = 68_157_441;

/// The bytes of a source, up to one past its limit of 1,048,576.
///
/// # Errors
///
/// `Failed` where the reader failed, or had not ended after 100,000,000 reads. `Memory` where
/// an allocation was refused.
#[tactic(auto, unfolding(crate::specs::Inputs::source_of))]
pub fn read_source<R: Read>(alloc: Global, reader: &mut R) -> Result<Vec<u8>, ReadFault>
    ensures text { IfOk result (λ text.
        IfSome (R.remaining reader.old) (λ input. text.items ≡ source_of input)) }
    ensures consumed { IfOk result (λ text.
        Consumes (R.remaining reader.old) (R.remaining reader.new) text.items) }
{
    read_up_to(alloc, reader, SOURCE_BYTES)
}

/// The bytes of a text of certificates, up to one past its limit of 67,108,864.
///
/// # Errors
///
/// As `read_source`.
#[tactic(auto, unfolding(crate::specs::Inputs::certs_of))]
pub fn read_certificates<R: Read>(alloc: Global, reader: &mut R) -> Result<Vec<u8>, ReadFault>
    ensures text { IfOk result (λ text.
        IfSome (R.remaining reader.old) (λ input. text.items ≡ certs_of input)) }
    ensures consumed { IfOk result (λ text.
        Consumes (R.remaining reader.old) (R.remaining reader.new) text.items) }
{
    read_up_to(alloc, reader, CERTS_BYTES)
}

/// The bytes of a source and certificates in one, up to 68,157,441.
///
/// # Errors
///
/// As `read_source`.
#[tactic(auto, unfolding(crate::specs::Inputs::joined_of))]
pub fn read_joined<R: Read>(alloc: Global, reader: &mut R) -> Result<Vec<u8>, ReadFault>
    ensures text { IfOk result (λ text.
        IfSome (R.remaining reader.old) (λ input. text.items ≡ joined_of input)) }
    ensures consumed { IfOk result (λ text.
        Consumes (R.remaining reader.old) (R.remaining reader.new) text.items) }
{
    read_up_to(alloc, reader, JOINED_BYTES)
}
