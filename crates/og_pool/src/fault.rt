//! Why there are no statuses.

ghost use Rattle.std.specs.Prelude.{◌≡◌};
ghost use Rattle.og_pool.specs.Names.{number_of_fault, name_of_fault, fault_of_threads};
ghost use Rattle.og_pool.specs.declared.fault.PoolFault.TheVariants.{Memory};

use crate::ThreadFault;
use std::alloc::AllocError;
use thiserror::Error;

/// Why there are no statuses.
#[derive(Clone, Copy, Debug, PartialEq, Eq, Error)]
pub enum PoolFault {
    /// An allocation was refused.
    #[error("out of memory")]
    Memory,
    /// A thread could not be started.
    #[error("a thread could not be started")]
    Spawn,
}

impl PoolFault {
    /// The number of the fault: 40 for `Spawn`; `Memory` has none.
    pub fn number(&self) -> Option<u8>
        ensures { result ≡ number_of_fault self.now }
    {
        match self {
            PoolFault::Memory => None,
            PoolFault::Spawn => Some(40),
        }
    }

    /// The name of the fault, in ASCII.
    pub fn name(&self) -> &'static str
        ensures { result.now ≡ name_of_fault self.now }
    {
        match self {
            PoolFault::Memory => "Memory",
            PoolFault::Spawn => "Spawn",
        }
    }
}

impl From<AllocError> for PoolFault {
    ghost from_gives = { λ _ e. e ≡ Memory };

    fn from(_: AllocError) -> PoolFault {
        PoolFault::Memory
    }
}

impl From<ThreadFault> for PoolFault {
    ghost from_gives = { λ e r. r ≡ fault_of_threads e };

    fn from(fault: ThreadFault) -> PoolFault {
        match fault {
            ThreadFault::Memory => PoolFault::Memory,
            ThreadFault::Spawn => PoolFault::Spawn,
        }
    }
}
