//! Answers of commands.

ghost use Rattle.std.specs.Prelude.{◌≡◌, ◌≤◌, ◌^◌, length, IfOk, IsSome};
ghost use Rattle.og_report_text.specs.Faults.{place_of_input};
ghost use Rattle.og_report_text.specs.Answers.{IsFaultAnswer, IsUnread};
ghost use Rattle.og_typed.specs.Refused.{IsNotRead};

use crate::fault::InputFault;
use crate::line::refused_line;
use og_typed::SourceError;
use std::alloc::{AllocError, Global};

/// The printed text, and the status with which the program ends.
#[derive(Drop)]
pub struct Answer {
    /// The printed text.
    pub text: Vec<u8>,
    /// The status.
    pub status: u8,
}

impl Answer {
    /// The answer to a refusal: its line, and status 2. A source in which the fault has a place has
    /// at most 1,048,576 bytes.
    ///
    /// # Errors
    ///
    /// An allocation was refused.
    pub fn refused(alloc: Global, fault: &InputFault, source: &[u8]) -> Result<Answer, AllocError>
        requires { IsSome (place_of_input fault.now) → length source.now ≤ 2 ^ 20 }
        ensures { IfOk result (IsFaultAnswer source.now fault.now) }
    {
        let text = refused_line(alloc, fault, source)?;
        Ok(Answer { text, status: 2 })
    }

    /// The answer where a source was not read: the refusal of its fault.
    ///
    /// # Errors
    ///
    /// An allocation was refused, here or when the source was read.
    pub fn unread(alloc: Global, error: &SourceError, source: &[u8]) -> Result<Answer, AllocError>
        requires { IsNotRead source.now error.now }
        ensures { IfOk result (IsUnread source.now) }
    {
        match error {
            SourceError::Fault(fault) => {
                Answer::refused(alloc, &InputFault::Source(*fault), source)
            }
            SourceError::Memory => Err(AllocError),
        }
    }
}
