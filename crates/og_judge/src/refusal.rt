//! Why there is no judgement.

ghost use Rattle.std.specs.Prelude.{◌≡◌, ◌≤◌, ◌^◌, length, IsSome};
ghost use Rattle.og_judge.specs.Answered.{place_of_refusal, IsAnswered};
ghost use Rattle.og_judge.specs.Names.{number_of_refusal, name_of_refusal};
ghost use Rattle.og_judge.specs.Errors.{of_source, of_conditions, of_certs, of_input, of_pool};
ghost use Rattle.og_judge.specs.declared.refusal.Refusal.TheVariants.{Memory};

use og_cert_text::CertTextError;
use og_cond::ConditionsError;
use og_pool::PoolFault;
use og_report_text::{Answer, InputError, InputFault};
use og_typed::SourceError;
use std::alloc::{AllocError, AllocFailed, Global};
use thiserror::Error;

/// Why an outline and its certificates are not judged. `Spawn` and `Memory` say nothing of the
/// texts.
#[derive(Clone, Copy, Debug, PartialEq, Eq, Error)]
pub enum Refusal {
    /// This is wrong with the source or the certificates.
    #[error(transparent)]
    Input(InputFault),
    /// A thread could not be started.
    #[error("a thread could not be started")]
    Spawn,
    /// An allocation was refused.
    #[error("out of memory")]
    Memory,
}

impl Refusal {
    /// The number of the refusal; `Memory` has none.
    pub fn number(&self) -> Option<u8>
        ensures { result ≡ number_of_refusal self.now }
    {
        match self {
            Refusal::Input(fault) => Some(fault.number()),
            Refusal::Spawn => Some(40),
            Refusal::Memory => None,
        }
    }

    /// The name of the refusal, in ASCII.
    pub fn name(&self) -> &'static str
        ensures { result.now ≡ name_of_refusal self.now }
    {
        match self {
            Refusal::Input(fault) => fault.name(),
            Refusal::Spawn => "Spawn",
            Refusal::Memory => "Memory",
        }
    }

    /// What a command answers to it: the line of a fault, with status 2. A source in which the
    /// fault has a place has at most 1,048,576 bytes.
    ///
    /// # Errors
    ///
    /// `Spawn` and `Memory` stay what they are. `Memory` too where an allocation was refused.
    pub fn answer(&self, alloc: Global, source: &[u8]) -> Result<Answer, PoolFault>
        requires { IsSome (place_of_refusal self.now) → length source.now ≤ 2 ^ 20 }
        ensures { IsAnswered source.now self.now result }
    {
        match self {
            Refusal::Input(fault) => Ok(Answer::refused(alloc, fault, source)?),
            Refusal::Spawn => Err(PoolFault::Spawn),
            Refusal::Memory => Err(PoolFault::Memory),
        }
    }
}

impl From<SourceError> for Refusal {
    ghost from_gives = { λ error refusal. refusal ≡ of_source error };

    fn from(error: SourceError) -> Refusal {
        match error {
            SourceError::Fault(fault) => Refusal::Input(InputFault::Source(fault)),
            SourceError::Memory => Refusal::Memory,
        }
    }
}

impl From<ConditionsError> for Refusal {
    ghost from_gives = { λ error refusal. refusal ≡ of_conditions error };

    fn from(error: ConditionsError) -> Refusal {
        match error {
            ConditionsError::Fault(fault) => Refusal::Input(InputFault::Conditions(fault)),
            ConditionsError::Memory => Refusal::Memory,
        }
    }
}

impl From<CertTextError> for Refusal {
    ghost from_gives = { λ error refusal. refusal ≡ of_certs error };

    fn from(error: CertTextError) -> Refusal {
        match error {
            CertTextError::Fault(fault) => Refusal::Input(InputFault::Certs(fault)),
            CertTextError::Memory => Refusal::Memory,
        }
    }
}

impl From<InputError> for Refusal {
    ghost from_gives = { λ error refusal. refusal ≡ of_input error };

    fn from(error: InputError) -> Refusal {
        match error {
            InputError::Fault(fault) => Refusal::Input(fault),
            InputError::Memory => Refusal::Memory,
        }
    }
}

impl From<PoolFault> for Refusal {
    ghost from_gives = { λ fault refusal. refusal ≡ of_pool fault };

    fn from(fault: PoolFault) -> Refusal {
        match fault {
            PoolFault::Spawn => Refusal::Spawn,
            PoolFault::Memory => Refusal::Memory,
        }
    }
}

impl From<AllocError> for Refusal {
    ghost from_gives = { λ _ e. e ≡ Memory };

    fn from(_: AllocError) -> Refusal {
        Refusal::Memory
    }
}

impl<T: Drop> From<AllocFailed<T>> for Refusal {
    ghost from_gives = { λ _ e. e ≡ Memory };

    fn from(_: AllocFailed<T>) -> Refusal {
        Refusal::Memory
    }
}
