//! Inputs and outputs that pass this many bytes at each call.

use std::alloc::Global;
use std::io;
use std::io::{Read, Write};

/// An input that gives at most this many bytes at each read.
#[derive(Drop)]
pub(crate) struct Input<'a> {
    rest: &'a [u8],
    size: usize,
}

impl<'a> Input<'a> {
    pub(crate) fn new(bytes: &'a [u8], size: usize) -> Input<'a> {
        Input { rest: bytes, size }
    }
}

impl<'a> Read for Input<'a> {
    fn read(&mut self, buffer: &mut [u8]) -> io::Result<usize> {
        let size = self.size.min(buffer.len());
        self.rest.read(&mut buffer[..size])
    }
}

/// An output that takes at most this many bytes at each write.
#[derive(Drop)]
pub(crate) struct Output {
    bytes: Vec<u8>,
    size: usize,
}

impl Output {
    pub(crate) fn new(alloc: Global, size: usize) -> Output {
        Output {
            bytes: Vec::new(alloc),
            size,
        }
    }

    /// What was written.
    pub(crate) fn into_bytes(self) -> Vec<u8> {
        self.bytes
    }
}

impl Write for Output {
    fn write(&mut self, bytes: &[u8]) -> io::Result<usize> {
        let size = self.size.min(bytes.len());
        self.bytes.write(&bytes[..size])
    }

    fn flush(&mut self) -> io::Result<()> {
        Ok(())
    }
}
