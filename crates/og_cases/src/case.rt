//! Cases: the words and bytes given, and the expected outcome.

use crate::ends::{Ends, Expected};
use crate::failure::Failure;
use crate::folder::Folder;
use crate::implementation::{Implementation, WRONG, ways};
use crate::part::Part;
use crate::pieces::{Input, Output};
use og_pool::OpenGate;
use og_program::{Program, Streams, serve_words};
use std::alloc::{AllocError, Global};
use std::sync::Wait;
use std::thread::Threads;

/// A case: the words and bytes given, and the expected outcome.
#[derive(Drop)]
pub(crate) struct Case {
    // Each word has its line end.
    words: String,
    input: Vec<u8>,
    expected: Expected,
}

// A file that need not be there.
fn optional(
    folder: &Folder<'_>,
    name: &str,
    part: Part,
) -> Result<Option<Vec<u8>>, Failure<'static>> {
    match folder.read(name, part) {
        Ok(bytes) => Ok(bytes),
        Err(_) => Err(Failure::Unread(part)),
    }
}

// A file that has to be there.
fn needed(folder: &Folder<'_>, name: &str, part: Part) -> Result<Vec<u8>, Failure<'static>> {
    match optional(folder, name, part)? {
        Some(bytes) => Ok(bytes),
        None => Err(Failure::Unread(part)),
    }
}

// A file that has to be a text.
fn text(folder: &Folder<'_>, name: &str, part: Part) -> Result<String, Failure<'static>> {
    match String::from_utf8(needed(folder, name, part)?) {
        Ok(text) => Ok(text),
        Err(_) => Err(Failure::Malformed(part)),
    }
}

fn read_words(folder: &Folder<'_>, name: &str) -> Result<String, Failure<'static>> {
    let words = text(folder, name, Part::Args)?;
    if words.is_empty() || words.ends_with('\n') {
        Ok(words)
    } else {
        Err(Failure::Malformed(Part::Args))
    }
}

fn read_status(folder: &Folder<'_>, name: &str) -> Result<u8, Failure<'static>> {
    let text = text(folder, name, Part::Status)?;
    match text.trim_end().parse::<u8>() {
        Ok(status) => Ok(status),
        Err(_) => Err(Failure::Malformed(Part::Status)),
    }
}

// The expected standard error. Where a case does not say, a command that did its work writes
// nothing.
fn read_err(
    folder: &Folder<'_>,
    name: &str,
    status: u8,
) -> Result<Option<Vec<u8>>, Failure<'static>> {
    match optional(folder, name, Part::Stderr)? {
        Some(text) => Ok(Some(text)),
        None if status < WRONG => Ok(Some(Vec::new(folder.alloc()))),
        None => Ok(None),
    }
}

fn read_expected(folder: &Folder<'_>, name: &str) -> Result<Expected, Failure<'static>> {
    let status = read_status(folder, name)?;
    let out = needed(folder, name, Part::Stdout)?;
    let err = read_err(folder, name, status)?;
    Ok(Expected { status, out, err })
}

impl Case {
    /// The case of this name.
    ///
    /// # Errors
    ///
    /// `Unread` or `Malformed`.
    pub(crate) fn read(folder: &Folder<'_>, name: &str) -> Result<Case, Failure<'static>> {
        let words = read_words(folder, name)?;
        let input = optional(folder, name, Part::Stdin)?;
        let expected = read_expected(folder, name)?;
        Ok(Case {
            words,
            input: input.unwrap_or(Vec::new(folder.alloc())),
            expected,
        })
    }

    /// The ways in which it is run.
    pub(crate) fn ways(&self) -> &'static [Implementation] {
        ways(self.words.as_str(), self.expected.status)
    }

    // The words of a run.
    fn words(
        &self,
        alloc: Global,
        implementation: Implementation,
    ) -> Result<Vec<String>, AllocError> {
        let mut words = Vec::new(alloc);
        for word in self.words.split_terminator('\n') {
            words.push(String::from_str(alloc, word)?)?;
        }
        if let Some(count) = implementation.workers() {
            words.push(String::from_str(alloc, "--workers")?)?;
            words.push(String::from_str(alloc, count)?)?;
        }
        Ok(words)
    }

    /// What comes of a run.
    ///
    /// # Errors
    ///
    /// An allocation was refused.
    pub(crate) fn run<H: Threads + Wait + Sync>(
        &self,
        threads: &H,
        folder: &Folder<'_>,
        implementation: Implementation,
    ) -> Result<Ends, AllocError> {
        let (alloc, size) = (folder.alloc(), implementation.size());
        let words = Ok(self.words(alloc, implementation)?);
        let program = Program {
            rt: threads,
            alloc,
            files: folder,
            gate: &OpenGate,
        };
        let mut streams = Streams {
            input: Input::new(&self.input, size),
            out: Output::new(alloc, size),
            err: Output::new(alloc, size),
        };
        let ended = serve_words(&program, words, &mut streams);
        let Streams { out, err, .. } = streams;
        Ok(Ends {
            status: ended.status,
            out: out.into_bytes(),
            err: err.into_bytes(),
        })
    }

    /// Why this is not what was expected; none where it is.
    pub(crate) fn failure<'a>(&'a self, ends: &'a Ends) -> Option<Failure<'a>> {
        self.expected.failure(ends)
    }
}
