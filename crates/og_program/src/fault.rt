//! Why a job cannot be done.

ghost use Rattle.std.specs.Prelude.{◌≡◌};
ghost use Rattle.og_program.specs.Failing.{why_text, of_output, of_pool};
ghost use Rattle.og_program.specs.declared.fault.Fault.TheVariants.{Memory};

use og_io::{OutputFault, WriteFault};
use og_pool::PoolFault;
use std::alloc::{AllocError, AllocFailed};
use std::io::{Error, ErrorKind};

/// Why a file was not read.
#[derive(Clone, Copy, PartialEq, Eq)]
pub enum Why {
    /// There is none of this name.
    Missing,
    /// The system does not let it be read.
    Forbidden,
    /// The name is that of a directory.
    Directory,
    /// It could not be opened, or reading it failed or did not end.
    Failed,
}

impl Why {
    /// Why a file was not opened.
    pub(crate) fn of(error: &Error) -> Why {
        match error.kind() {
            ErrorKind::NotFound => Why::Missing,
            ErrorKind::PermissionDenied => Why::Forbidden,
            ErrorKind::IsADirectory => Why::Directory,
            _ => Why::Failed,
        }
    }

    /// In words.
    pub(crate) fn text(self) -> &'static str
        ensures { result.now ≡ why_text self }
    {
        match self {
            Why::Missing => "no such file",
            Why::Forbidden => "permission denied",
            Why::Directory => "is a directory",
            Why::Failed => "cannot be read",
        }
    }
}

/// Why a job cannot be done.
#[derive(Clone, Copy, PartialEq, Eq)]
pub enum Fault<'a> {
    /// The file of this name was not read; `-` is standard input.
    NotRead(&'a str, Why),
    /// Standard output was not written whole.
    NotWritten(WriteFault),
    /// An allocation was refused.
    Memory,
    /// A thread could not be started.
    Spawn,
}

impl<'a> From<AllocError> for Fault<'a> {
    ghost from_gives = { λ _ fault. fault ≡ Memory };

    fn from(_: AllocError) -> Fault<'a> {
        Fault::Memory
    }
}

impl<'a> From<PoolFault> for Fault<'a> {
    ghost from_gives = { λ from fault. fault ≡ of_pool from };

    fn from(fault: PoolFault) -> Fault<'a> {
        match fault {
            PoolFault::Memory => Fault::Memory,
            PoolFault::Spawn => Fault::Spawn,
        }
    }
}

impl<'a> From<OutputFault> for Fault<'a> {
    ghost from_gives = { λ from fault. fault ≡ of_output from };

    fn from(fault: OutputFault) -> Fault<'a> {
        match fault {
            OutputFault::Memory => Fault::Memory,
            OutputFault::NotWritten(why) => Fault::NotWritten(why),
        }
    }
}
