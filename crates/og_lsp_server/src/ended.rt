//! How a session ends.

ghost use Rattle.std.specs.Prelude.{◌≡◌};
ghost use Rattle.og_lsp_server.specs.Ends.{status_of, input_end, judge_end, output_end};
ghost use Rattle.og_lsp_server.specs.declared.ended.SessionEnd.TheVariants.{Memory};

use og_io::{OutputFault, WriteFault};
use og_lsp_document::JudgeError;
use og_lsp_frame::{FrameFault, InputError};
use std::alloc::AllocError;

/// How a session with an editor ends.
#[derive(Clone, Copy, PartialEq, Eq)]
pub enum SessionEnd {
    /// The client said `exit`, after `shutdown` or not.
    Exited { after_shutdown: bool },
    /// The input ended before.
    InputEnded,
    /// The input was not read.
    Input(InputError),
    /// The output was not written.
    Output(OutputFault),
    /// An allocation was refused.
    Memory,
    /// A thread could not be started.
    Spawn,
}

impl SessionEnd {
    /// The status of the program: 0 after `shutdown` and `exit`; 1 where the session ends
    /// otherwise, by the client or by what it sent; 4 where the machine refused something.
    pub fn status(self) -> u8
        ensures { result ≡ status_of self }
    {
        match self {
            SessionEnd::Exited { after_shutdown } => { if after_shutdown { 0 } else { 1 } }
            SessionEnd::InputEnded => 1,
            SessionEnd::Input(InputError::Fault(_) | InputError::Unfinished) => 1,
            SessionEnd::Input(InputError::Memory | InputError::Failed) => 4,
            SessionEnd::Output(_) | SessionEnd::Memory | SessionEnd::Spawn => 4,
        }
    }

    /// The line for standard error; nothing where the client ended the session, or reads no more.
    pub fn line(self) -> &'static str {
        match self {
            SessionEnd::Exited { .. } | SessionEnd::InputEnded => "",
            SessionEnd::Input(error) => input_line(error),
            SessionEnd::Output(OutputFault::NotWritten(WriteFault::Closed)) => "",
            SessionEnd::Output(_) => "og: write failed\n",
            SessionEnd::Memory => "og: out of memory\n",
            SessionEnd::Spawn => "og: no thread\n",
        }
    }
}

// The line of an input that was not read.
fn input_line(error: InputError) -> &'static str {
    match error {
        InputError::Memory => "og: out of memory\n",
        InputError::Failed => "og: -: cannot be read\n",
        InputError::Unfinished => "og: the input ends within a message\n",
        InputError::Fault(FrameFault::LineTooLong) => {
            "og: a header of a message has a line of more than 4096 bytes\n"
        }
        InputError::Fault(FrameFault::TooManyLines) => {
            "og: a header of a message has more than 16 lines\n"
        }
        InputError::Fault(FrameFault::NoLength) => {
            "og: a header of a message has no Content-Length\n"
        }
        InputError::Fault(FrameFault::BodyTooLong) => {
            "og: a message has more than 16777216 bytes\n"
        }
    }
}

impl From<AllocError> for SessionEnd {
    ghost from_gives = { λ _ e. e ≡ Memory };

    fn from(_: AllocError) -> SessionEnd {
        SessionEnd::Memory
    }
}

impl From<InputError> for SessionEnd {
    ghost from_gives = { λ error e. e ≡ input_end error };

    fn from(error: InputError) -> SessionEnd {
        match error {
            InputError::Memory => SessionEnd::Memory,
            InputError::Fault(_) | InputError::Unfinished | InputError::Failed => {
                SessionEnd::Input(error)
            }
        }
    }
}

impl From<JudgeError> for SessionEnd {
    ghost from_gives = { λ error e. e ≡ judge_end error };

    fn from(error: JudgeError) -> SessionEnd {
        match error {
            JudgeError::Memory => SessionEnd::Memory,
            JudgeError::Spawn => SessionEnd::Spawn,
        }
    }
}

impl From<OutputFault> for SessionEnd {
    ghost from_gives = { λ fault e. e ≡ output_end fault };

    fn from(fault: OutputFault) -> SessionEnd {
        match fault {
            OutputFault::Memory => SessionEnd::Memory,
            OutputFault::NotWritten(_) => SessionEnd::Output(fault),
        }
    }
}
