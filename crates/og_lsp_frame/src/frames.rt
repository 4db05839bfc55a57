//! What has come of a stream, and its messages.

ghost use Rattle.std.specs.Prelude.{◌≡◌, ◌==◌, [], ◌++◌, length, OnOk, OnErr};
ghost use Rattle.og_lsp_frame.specs.Front.{front, front_within, body_told};
ghost use Rattle.og_lsp_frame.specs.Headers.{GivesFront, Takes};

use crate::fault::{FrameError, FrameFault};
use crate::header::{Header, read_header};
use crate::limits::{BODY_LIMIT, HEADER_LINES};
use std::alloc::{AllocError, Global};
use std::marker::Model;

/// What has come of a stream and is in no message yet. Contracts see it as these bytes.
#[derive(Drop)]
pub struct Frames {
    held: Vec<u8>,
}

impl Model for Frames {
    ghost use Rattle.std.specs.Prelude.{List, ℕ};

    ghost Value = { List ℕ };

    ghost view = { λ f. f.held.items };
}

// The body behind a header and what comes behind it; nothing where more of it has to come.
fn body<'a>(header: Header<'a>) -> Result<Option<(&'a [u8], &'a [u8])>, FrameFault>
    ensures { GivesFront (λ p. (p.0.now, p.1.now)) result (body_told header.entry.length header.entry.rest.now) }
{
    let Some(length) = header.length else {
        return Err(FrameFault::NoLength);
    };
    if length > BODY_LIMIT {
        return Err(FrameFault::BodyTooLong);
    }
    let length = length as usize;
    if header.rest.len() < length {
        return Ok(None);
    }
    Ok(Some(header.rest.split_at(length)))
}

// The body of the message at the front and what comes behind it, where a header has so many lines at
// most; nothing where more has to come.
#[tactic(auto, unfolding(crate::specs::Front::front_within))]
fn message_within(held: &[u8], lines: u32) -> Result<Option<(&[u8], &[u8])>, FrameFault>
    ensures { GivesFront (λ p. (p.0.now, p.1.now)) result (front_within lines held.now) }
{
    match read_header(held, lines)? {
        Some(header) => body(header),
        None => Ok(None),
    }
}

// The same, where a header has as many lines as it may have.
#[tactic(auto, unfolding(crate::specs::Front::front))]
fn message(held: &[u8]) -> Result<Option<(&[u8], &[u8])>, FrameFault>
    ensures { GivesFront (λ p. (p.0.now, p.1.now)) result (front held.now) }
{
    message_within(held, HEADER_LINES)
}

impl Frames {
    /// Nothing has come yet.
    pub fn new(alloc: Global) -> Frames
        ensures { result ≡ [] }
    {
        Frames {
            held: Vec::new(alloc),
        }
    }

    /// Whether nothing is held: the stream may end here.
    pub fn is_empty(&self) -> bool
        ensures { result ≡ (length self.now == 0) }
    {
        self.held.is_empty()
    }

    /// Takes the next piece of the stream.
    ///
    /// # Errors
    ///
    /// An allocation was refused; then nothing was taken.
    pub fn add(&mut self, piece: &[u8]) -> Result<(), AllocError>
        ensures ok { OnOk result (self.new ≡ self.old ++ piece.now) }
        ensures err { OnErr result (self.new ≡ self.old) }
    {
        self.held.extend_from_slice(piece)
    }

    /// The body of the message at the front, which is taken away with its header; nothing where
    /// more of it has to come.
    ///
    /// # Errors
    ///
    /// `Fault` of the header at the front, and of it again at each call; `Memory` where there is a
    /// message and an allocation was refused. Either leaves what is held as it was.
    pub fn take(&mut self, alloc: Global) -> Result<Option<Vec<u8>>, FrameError>
        ensures { Takes (λ v. v.items) result self.old self.new }
    {
        let (body, rest) = match message(self.held.as_slice()) {
            Ok(Some(parts)) => parts,
            Ok(None) => return Ok(None),
            Err(fault) => return Err(FrameError::Fault(fault)),
        };
        let body = Vec::from_slice(alloc, body)?;
        let rest = Vec::from_slice(alloc, rest)?;
        self.held = rest;
        Ok(Some(body))
    }
}
