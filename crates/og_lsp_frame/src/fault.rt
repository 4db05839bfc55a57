//! Why a stream gives no message.

ghost use Rattle.std.specs.Prelude.{◌≡◌};
ghost use Rattle.og_lsp_frame.specs.declared.fault.FrameError.TheVariants as frame_errors;
ghost use Rattle.og_lsp_frame.specs.declared.fault.InputError.TheVariants as input_errors;
ghost use Rattle.og_lsp_frame.specs.Errors.{input_error};

use std::alloc::{AllocError, AllocFailed};
use thiserror::Error;

/// What is wrong with a header. Nothing behind it can be read.
#[derive(Clone, Copy, Debug, Drop, PartialEq, Eq, Error)]
pub enum FrameFault {
    /// A line has more than 4,096 bytes.
    #[error("a header line has more than 4,096 bytes")]
    LineTooLong,
    /// The header has more than 16 lines.
    #[error("a header has more than 16 lines")]
    TooManyLines,
    /// No line tells the length of the body.
    #[error("a header has no Content-Length")]
    NoLength,
    /// The body has more than 16,777,216 bytes.
    #[error("a body has more than 16,777,216 bytes")]
    BodyTooLong,
}

/// Why no message was taken.
#[derive(Clone, Copy, Debug, Drop, PartialEq, Eq, Error)]
pub enum FrameError {
    /// An allocation was refused.
    #[error("out of memory")]
    Memory,
    /// The header at the front has this fault.
    #[error("{0}")]
    Fault(FrameFault),
}

impl From<AllocError> for FrameError {
    ghost from_gives = { λ _ e. e ≡ frame_errors.Memory };

    fn from(_: AllocError) -> FrameError {
        FrameError::Memory
    }
}

impl<T: Drop> From<AllocFailed<T>> for FrameError {
    ghost from_gives = { λ _ e. e ≡ frame_errors.Memory };

    fn from(_: AllocFailed<T>) -> FrameError {
        FrameError::Memory
    }
}

/// Why no message was read.
#[derive(Clone, Copy, Debug, Drop, PartialEq, Eq, Error)]
pub enum InputError {
    /// An allocation was refused.
    #[error("out of memory")]
    Memory,
    /// The reader failed.
    #[error("read failed")]
    Failed,
    /// The input ends within a message.
    #[error("the input ends within a message")]
    Unfinished,
    /// A header has this fault.
    #[error("{0}")]
    Fault(FrameFault),
}

impl From<AllocError> for InputError {
    ghost from_gives = { λ _ e. e ≡ input_errors.Memory };

    fn from(_: AllocError) -> InputError {
        InputError::Memory
    }
}

impl From<FrameError> for InputError {
    ghost from_gives = { λ f e. e ≡ input_error f };

    fn from(error: FrameError) -> InputError {
        match error {
            FrameError::Memory => InputError::Memory,
            FrameError::Fault(fault) => InputError::Fault(fault),
        }
    }
}
