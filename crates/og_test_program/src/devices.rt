//! Readers and writers that fail.

ghost use Rattle.std.specs.Prelude.{◌≡◌, IfOk};

use std::alloc::Global;
use std::io::{Error, ErrorKind, Read, Write};

/// Gives one byte at each read, and fails in this way at the read of this number, counted from 1.
#[derive(Drop)]
pub(crate) struct OneByOne<'a> {
    bytes: &'a [u8],
    fails_at: usize,
    kind: ErrorKind,
    pub(crate) reads: usize,
}

impl<'a> OneByOne<'a> {
    /// One that fails at this read; at none where that is 0.
    pub(crate) fn new(bytes: &'a [u8], fails_at: usize, kind: ErrorKind) -> OneByOne<'a> {
        OneByOne {
            bytes,
            fails_at,
            kind,
            reads: 0,
        }
    }
}

impl<'a> Read for OneByOne<'a> {
    fn read(&mut self, buffer: &mut [u8]) -> Result<usize, Error> {
        self.reads = self.reads.saturating_add(1);
        if self.reads == self.fails_at {
            return Err(Error::from(self.kind));
        }
        if buffer.is_empty() || self.bytes.is_empty() {
            return Ok(0);
        }
        buffer[0] = self.bytes[0];
        self.bytes = &self.bytes[1..];
        Ok(1)
    }
}

/// Gives spaces without end.
#[derive(Drop)]
pub(crate) struct Spaces;

impl Read for Spaces {
    fn read(&mut self, buffer: &mut [u8]) -> Result<usize, Error> {
        buffer.fill(b' ');
        Ok(buffer.len())
    }
}

/// Is interrupted at each read, and counts them.
#[derive(Drop)]
pub(crate) struct Restless {
    pub(crate) reads: u64,
}

impl Read for Restless {
    fn read(&mut self, _buffer: &mut [u8]) -> Result<usize, Error> {
        self.reads = self.reads.saturating_add(1);
        Err(Error::from(ErrorKind::Interrupted))
    }
}

/// What a writer does in place of its work.
#[derive(Clone, Copy)]
pub(crate) enum Failure {
    Fails,
    IsInterrupted,
    TakesNothing,
}

/// Takes one byte at each write, but for a failure at the write of this number, counted from 1; or
/// fails at the flush.
#[derive(Drop)]
pub(crate) struct Capture {
    pub(crate) bytes: Vec<u8>,
    fails_at: usize,
    failure: Failure,
    pub(crate) writes: usize,
    pub(crate) fails_flush: bool,
}

impl Capture {
    /// One that lapses at this write; at none where that is 0.
    pub(crate) fn new(alloc: Global, fails_at: usize, failure: Failure) -> Capture {
        Capture {
            bytes: Vec::new(alloc),
            fails_at,
            failure,
            writes: 0,
            fails_flush: false,
        }
    }

    // The answer of the failure.
    fn failed(&self) -> Result<usize, Error>
        ensures { IfOk result (λ count. count ≡ 0) }
    {
        match self.failure {
            Failure::Fails => Err(Error::from(ErrorKind::Other)),
            Failure::IsInterrupted => Err(Error::from(ErrorKind::Interrupted)),
            Failure::TakesNothing => Ok(0),
        }
    }
}

impl Write for Capture {
    fn write(&mut self, buf: &[u8]) -> Result<usize, Error> {
        self.writes = self.writes.saturating_add(1);
        let Some(first) = buf.first() else {
            return Ok(0);
        };
        if self.writes == self.fails_at {
            return self.failed();
        }
        if self.bytes.push(*first).is_err() {
            return Err(Error::from(ErrorKind::Other));
        }
        Ok(1)
    }

    fn flush(&mut self) -> Result<(), Error> {
        if self.fails_flush {
            return Err(Error::from(ErrorKind::Other));
        }
        Ok(())
    }
}
