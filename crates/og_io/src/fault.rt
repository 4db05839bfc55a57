//! Why a text was not written whole.

ghost use Rattle.std.specs.Prelude.{◌≡◌};
ghost use Rattle.og_io.specs.declared.fault.OutputFault.TheVariants.{Memory, NotWritten};

use std::alloc::AllocError;
use std::io;
use std::io::ErrorKind;
use thiserror::Error;

/// Why a text was not written whole; some bytes of it may have been written.
#[derive(Clone, Copy, Debug, PartialEq, Eq, Error)]
pub enum WriteFault {
    /// Nobody reads the text any more: the other end of the pipe is closed.
    #[error("nobody reads")]
    Closed,
    /// The writer failed.
    #[error("write failed")]
    Failed,
}

impl WriteFault {
    // Why a write failed.
    pub(crate) fn of(error: &io::Error) -> WriteFault {
        match error.kind() {
            ErrorKind::BrokenPipe => WriteFault::Closed,
            _ => WriteFault::Failed,
        }
    }
}

/// Why a text that is written as it is made was not written whole; a front of it may have been
/// written.
#[derive(Clone, Copy, Debug, PartialEq, Eq, Error)]
pub enum OutputFault {
    /// An allocation was refused.
    #[error("out of memory")]
    Memory,
    /// The writer failed.
    #[error(transparent)]
    NotWritten(WriteFault),
}

impl From<AllocError> for OutputFault {
    ghost from_gives = { λ _ fault. fault ≡ Memory };

    fn from(_: AllocError) -> OutputFault {
        OutputFault::Memory
    }
}

impl From<WriteFault> for OutputFault {
    ghost from_gives = { λ why fault. fault ≡ NotWritten why };

    fn from(why: WriteFault) -> OutputFault {
        OutputFault::NotWritten(why)
    }
}
