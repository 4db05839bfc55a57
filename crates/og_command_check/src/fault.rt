//! Why there is no answer.

ghost use Rattle.std.specs.Prelude.{◌≡◌};
ghost use Rattle.og_command_check.specs.Names.{number_of_fault, name_of_fault, of_read, of_pool};
ghost use Rattle.og_command_check.specs.declared.fault.EngineFault.TheVariants.{Memory, WriteFailed};

use og_io::{ReadFault, WriteFault};
use og_pool::PoolFault;
use std::alloc::{AllocError, AllocFailed};
use thiserror::Error;

/// Why nothing was answered, or the answer was not written.
#[derive(Clone, Copy, Debug, PartialEq, Eq, Error)]
pub enum EngineFault {
    /// A reader failed, or had not ended after 100,000,000 reads.
    #[error("read failed")]
    ReadFailed,
    /// The writer failed; some bytes may have been written.
    #[error("write failed")]
    WriteFailed,
    /// A thread could not be started.
    #[error("no thread")]
    Spawn,
    /// An allocation was refused.
    #[error("out of memory")]
    Memory,
}

impl EngineFault {
    /// The number of the fault; `Memory` has none.
    pub fn number(&self) -> Option<u8>
        ensures { result ≡ number_of_fault self.now }
    {
        match self {
            EngineFault::ReadFailed => Some(60),
            EngineFault::WriteFailed => Some(61),
            EngineFault::Spawn => Some(40),
            EngineFault::Memory => None,
        }
    }

    /// The name of the fault, in ASCII.
    pub fn name(&self) -> &'static str
        ensures { result.now ≡ name_of_fault self.now }
    {
        match self {
            EngineFault::ReadFailed => "ReadFailed",
            EngineFault::WriteFailed => "WriteFailed",
            EngineFault::Spawn => "Spawn",
            EngineFault::Memory => "Memory",
        }
    }
}

impl From<ReadFault> for EngineFault {
    ghost from_gives = { λ fault e. e ≡ of_read fault };

    fn from(fault: ReadFault) -> EngineFault {
        match fault {
            ReadFault::Failed => EngineFault::ReadFailed,
            ReadFault::Memory => EngineFault::Memory,
        }
    }
}

impl From<PoolFault> for EngineFault {
    ghost from_gives = { λ fault e. e ≡ of_pool fault };

    fn from(fault: PoolFault) -> EngineFault {
        match fault {
            PoolFault::Spawn => EngineFault::Spawn,
            PoolFault::Memory => EngineFault::Memory,
        }
    }
}

impl From<WriteFault> for EngineFault {
    ghost from_gives = { λ _ e. e ≡ WriteFailed };

    fn from(_: WriteFault) -> EngineFault {
        EngineFault::WriteFailed
    }
}

impl From<AllocError> for EngineFault {
    ghost from_gives = { λ _ e. e ≡ Memory };

    fn from(_: AllocError) -> EngineFault {
        EngineFault::Memory
    }
}

impl<T: Drop> From<AllocFailed<T>> for EngineFault {
    ghost from_gives = { λ _ e. e ≡ Memory };

    fn from(_: AllocFailed<T>) -> EngineFault {
        EngineFault::Memory
    }
}
