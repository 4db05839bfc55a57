//! The bytes of sources and certificates, by the names of their files.

ghost use Rattle.std.specs.Prelude.{◌≡◌, true, IfErr, IfOk, IfSome};
ghost use Rattle.og_command_check.specs.Inputs.{source_of, certs_of, joined_of};
ghost use Rattle.og_program.specs.World.{world_of, bytes_in, certs_in};
ghost use Rattle.og_program.specs.Opened.{One, Both, LeavesInput, lacks};
ghost use Rattle.og_program.specs.Failing.{IsFault, IsUnread};

use crate::fault::{Fault, Why};
use crate::files::Files;
use crate::program::Program;
use og_command_check::{read_certificates, read_joined, read_source};
use og_io::ReadFault;
use og_report_refusal::Names;
use std::alloc::Global;
use std::io::Read;

/// The name of standard input.
pub(crate) const INPUT: &str = "-";

// Opens a file.
fn open<'a, F: Files>(files: &F, name: &'a str) -> Result<F::File, Fault<'a>>
    ensures bytes { IfOk result (λ file. F.File.remaining file ≡ F.contents files.now name.now) }
    ensures fault { IfErr result (IsFault (One name.now) ⊥) }
    ensures missing { F.is_missing files.now name.now ≡ true → IsUnread result }
    ensures failed { IfErr result (λ _. IsUnread result) }
{
    match files.open(name) {
        Ok(file) => Ok(file),
        Err(error) => Err(Fault::NotRead(name, Why::of(&error))),
    }
}

// A fault of reading a file.
fn not_read(name: &str, fault: ReadFault) -> Fault<'_>
    ensures { IsFault (One name.now) ⊥ result }
{
    match fault {
        ReadFault::Failed => Fault::NotRead(name, Why::Failed),
        ReadFault::Memory => Fault::Memory,
    }
}

// The bytes of a source that a reader gives.
fn source_from<'a, R: Read>(
    alloc: Global,
    name: &'a str,
    reader: &mut R,
) -> Result<Vec<u8>, Fault<'a>>
    ensures text { IfOk result
        (λ text. IfSome (R.remaining reader.old) (λ s. text.items ≡ source_of s)) }
    ensures fault { IfErr result (IsFault (One name.now) ⊥) }
{
    match read_source(alloc, reader) {
        Ok(text) => Ok(text),
        Err(fault) => Err(not_read(name, fault)),
    }
}

// The bytes of certificates that a reader gives.
fn certificates_from<'a, R: Read>(
    alloc: Global,
    name: &'a str,
    reader: &mut R,
) -> Result<Vec<u8>, Fault<'a>>
    ensures text { IfOk result
        (λ text. IfSome (R.remaining reader.old) (λ c. text.items ≡ certs_of c)) }
    ensures fault { IfErr result (IsFault (One name.now) ⊥) }
{
    match read_certificates(alloc, reader) {
        Ok(text) => Ok(text),
        Err(fault) => Err(not_read(name, fault)),
    }
}

/// The bytes of a source and certificates in one.
pub(crate) fn joined_from<'a, R: Read>(
    alloc: Global,
    name: &'a str,
    reader: &mut R,
) -> Result<Vec<u8>, Fault<'a>>
    ensures text { IfOk result
        (λ text. IfSome (R.remaining reader.old) (λ i. text.items ≡ joined_of i)) }
    ensures fault { IfErr result (IsFault (One name.now) ⊥) }
{
    match read_joined(alloc, reader) {
        Ok(text) => Ok(text),
        Err(fault) => Err(not_read(name, fault)),
    }
}

// The bytes of a source that a reader gives, and then those of certificates that another one gives.
fn both_from<'a, S: Read, C: Read>(
    alloc: Global,
    names: Names<'a>,
    source: &mut S,
    certs: &mut C,
) -> Result<(Vec<u8>, Vec<u8>), Fault<'a>>
    ensures source { IfOk result
        (λ texts. IfSome (S.remaining source.old) (λ s. texts.0.items ≡ source_of s)) }
    ensures certs { IfOk result
        (λ texts. IfSome (C.remaining certs.old) (λ c. texts.1.items ≡ certs_of c)) }
    ensures fault { IfErr result (IsFault (Both names.entry.source.now names.entry.certs.now) ⊥) }
{
    let text = source_from(alloc, names.source, source)?;
    let cert_text = certificates_from(alloc, names.certs, certs)?;
    Ok((text, cert_text))
}

impl<'r, F: Files, G, H> Program<'r, F, G, H> {
    /// The bytes of a source.
    pub(crate) fn source_bytes<'a, I: Read>(
        &self,
        name: &'a str,
        input: &mut I,
    ) -> Result<Vec<u8>, Fault<'a>>
        ensures text { IfOk result
            (λ text. IfSome
            (bytes_in (world_of F.contents F.is_missing I.remaining self.now input.old) name.now)
            (λ s. text.items ≡ source_of s)) }
        ensures fault { IfErr result (IsFault (One name.now) ⊥) }
        ensures missing { lacks (F.is_missing self.now.files.now) (One name.now) ≡ true
            → IsUnread result }
        ensures kept { LeavesInput (One name.now) → I.remaining input.new ≡ I.remaining input.old }
    {
        if name == INPUT {
            return source_from(self.alloc, name, input);
        }
        let mut file = open(self.files, name)?;
        source_from(self.alloc, name, &mut file)
    }

    /// The bytes of certificates.
    pub(crate) fn certificate_bytes<'a, I: Read>(
        &self,
        name: &'a str,
        input: &mut I,
    ) -> Result<Vec<u8>, Fault<'a>>
        ensures text { IfOk result
            (λ text. IfSome
            (bytes_in (world_of F.contents F.is_missing I.remaining self.now input.old) name.now)
            (λ c. text.items ≡ certs_of c)) }
        ensures fault { IfErr result (IsFault (One name.now) ⊥) }
        ensures missing { lacks (F.is_missing self.now.files.now) (One name.now) ≡ true
            → IsUnread result }
        ensures kept { LeavesInput (One name.now) → I.remaining input.new ≡ I.remaining input.old }
    {
        if name == INPUT {
            return certificates_from(self.alloc, name, input);
        }
        let mut file = open(self.files, name)?;
        certificates_from(self.alloc, name, &mut file)
    }

    /// The bytes of a source and of its certificates; both files are opened before one is read.
    pub(crate) fn both_bytes<'a, I: Read>(
        &self,
        names: Names<'a>,
        input: &mut I,
    ) -> Result<(Vec<u8>, Vec<u8>), Fault<'a>>
        ensures source { IfOk result
            (λ texts. IfSome
            (bytes_in (world_of F.contents F.is_missing I.remaining self.now input.old)
            names.entry.source.now) (λ s. texts.0.items ≡ source_of s)) }
        ensures certs { IfOk result
            (λ texts. IfSome
            (certs_in (world_of F.contents F.is_missing I.remaining self.now input.old)
            names.entry.source.now names.entry.certs.now) (λ c. texts.1.items ≡ certs_of c)) }
        ensures fault { IfErr result
            (IsFault (Both names.entry.source.now names.entry.certs.now) ⊥) }
        ensures missing { lacks (F.is_missing self.now.files.now)
            (Both names.entry.source.now names.entry.certs.now) ≡ true → IsUnread result }
        ensures kept { LeavesInput (Both names.entry.source.now names.entry.certs.now)
            → I.remaining input.new ≡ I.remaining input.old }
    {
        if names.source == INPUT {
            let mut certs = open(self.files, names.certs)?;
            return both_from(self.alloc, names, input, &mut certs);
        }
        let mut source = open(self.files, names.source)?;
        if names.certs == INPUT {
            return both_from(self.alloc, names, &mut source, input);
        }
        let mut certs = open(self.files, names.certs)?;
        both_from(self.alloc, names, &mut source, &mut certs)
    }
}
