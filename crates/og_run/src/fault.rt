//! Why a program does not run.

ghost use Rattle.std.specs.Prelude.{◌≡◌};
ghost use Rattle.og_run.specs.Faults.{number_of_fault, name_of_fault};
ghost use Rattle.og_run.specs.Errors.{error_of_start, error_of_thread};

use og_pool::ThreadFault;
use og_step::{StartError, StartFault};
use std::alloc::AllocError;
use thiserror::Error;

/// Why a program does not run.
#[derive(Clone, Copy, Debug, Drop, PartialEq, Eq, Error)]
pub enum RunFault {
    /// The number of values is not that of the variables that are no auxiliaries.
    #[error("there must be one value for each variable")]
    WrongLength,
    /// The precondition is false at the values.
    #[error("the precondition is false")]
    NotPre,
    /// A thread could not be started. No process has moved.
    #[error("a thread could not be started")]
    Spawn,
}

impl RunFault {
    /// The number under which the refusal is printed: 50 NotPre, 51 WrongLength, 52 Spawn.
    pub fn number(&self) -> u8
        ensures { result ≡ number_of_fault self.now }
    {
        match self {
            RunFault::NotPre => 50,
            RunFault::WrongLength => 51,
            RunFault::Spawn => 52,
        }
    }

    /// The name under which the refusal is printed, in ASCII.
    pub fn name(&self) -> &'static str
        ensures { result.now ≡ name_of_fault self.now }
    {
        match self {
            RunFault::NotPre => "NotPre",
            RunFault::WrongLength => "WrongLength",
            RunFault::Spawn => "Spawn",
        }
    }
}

/// Why there is no outcome.
#[derive(Debug, Drop, Error)]
pub enum RunError {
    /// An allocation was refused.
    #[error("out of memory")]
    Memory,
    /// The program does not run.
    #[error(transparent)]
    Fault(RunFault),
}

impl From<AllocError> for RunError {
    ghost use Rattle.og_run.specs.declared.fault.RunError.TheVariants as errors;
    ghost use Rattle.std.specs.Prelude.{◌≡◌};

    ghost from_gives = { λ _ e. e ≡ errors.Memory };

    fn from(_: AllocError) -> RunError {
        RunError::Memory
    }
}

impl From<StartError> for RunError {
    ghost from_gives = { λ e r. r ≡ error_of_start e };

    fn from(e: StartError) -> RunError {
        match e {
            StartError::Memory => RunError::Memory,
            StartError::Fault(StartFault::WrongLength) => RunError::Fault(RunFault::WrongLength),
            StartError::Fault(StartFault::NotPre) => RunError::Fault(RunFault::NotPre),
        }
    }
}

impl From<ThreadFault> for RunError {
    ghost from_gives = { λ e r. r ≡ error_of_thread e };

    fn from(e: ThreadFault) -> RunError {
        match e {
            ThreadFault::Memory => RunError::Memory,
            ThreadFault::Spawn => RunError::Fault(RunFault::Spawn),
        }
    }
}
