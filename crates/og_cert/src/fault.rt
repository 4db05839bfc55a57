//! Why a certificate does not close its facts.

ghost use Rattle.std.specs.Prelude.{◌≡◌};
ghost use Rattle.og_linear.specs.declared.fault.FormError.{FormError as LinearError};
ghost use Rattle.og_cert.specs.declared.fault.ReplayError.TheVariants as errors;
ghost use Rattle.og_cert.specs.declared.fault.CheckError.TheVariants as check_errors;
ghost use Rattle.og_cert.specs.Names.{number_of_kind, name_of_kind};

use std::alloc::{AllocError, AllocFailed};
use thiserror::Error;

/// The fault of a line of a certificate.
#[derive(Clone, Copy, Debug, PartialEq, Eq, Error)]
pub enum FaultKind {
    /// There is no fact of this number, or no such variable.
    #[error("there is no such fact")]
    NoSuchFact,
    /// The fact that is split is no split.
    #[error("the fact is no split")]
    NotSplit,
    /// The divisor of a cut is 0, or does not divide each coefficient.
    #[error("the divisor does not divide the fact")]
    NotDivisible,
    /// The combination is no constant above 0, or a part of a split has no certificate.
    #[error("the facts are not closed")]
    NotClosed,
    /// A product, a partial sum or a negation leaves the range of `i128`.
    #[error("a coefficient or a constant is too large")]
    TooLarge,
    /// There are more than `FACT_LIMIT` facts.
    #[error("there are too many facts")]
    TooManyFacts,
    /// A split has more certificates than its fact has parts.
    #[error("there are more certificates than parts")]
    LeftOver,
    /// The fact is a split, where a form is needed.
    #[error("the fact is a split")]
    NotAtom,
}

impl FaultKind {
    /// The number of the refusal, from 30 NoSuchFact to 37 NotAtom in the order above.
    pub fn number(&self) -> u8
        ensures { result ≡ number_of_kind self.now }
    {
        match self {
            FaultKind::NoSuchFact => 30,
            FaultKind::NotSplit => 31,
            FaultKind::NotDivisible => 32,
            FaultKind::NotClosed => 33,
            FaultKind::TooLarge => 34,
            FaultKind::TooManyFacts => 35,
            FaultKind::LeftOver => 36,
            FaultKind::NotAtom => 37,
        }
    }

    /// The name under which the refusal is printed, in ASCII.
    pub fn name(&self) -> &'static str
        ensures { result.now ≡ name_of_kind self.now }
    {
        match self {
            FaultKind::NoSuchFact => "NoSuchFact",
            FaultKind::NotSplit => "NotSplit",
            FaultKind::NotDivisible => "NotDivisible",
            FaultKind::NotClosed => "NotClosed",
            FaultKind::TooLarge => "TooLarge",
            FaultKind::TooManyFacts => "TooManyFacts",
            FaultKind::LeftOver => "LeftOver",
            FaultKind::NotAtom => "NotAtom",
        }
    }
}

/// The first fault of a certificate.
#[derive(Clone, Copy, Debug, PartialEq, Eq, Error)]
#[error("{kind} at step {step}")]
pub struct ReplayFault {
    /// The fault.
    pub kind: FaultKind,
    /// The line of the certificate, counted from 1.
    pub step: u64,
}

impl ReplayFault {
    /// The number of its kind.
    pub fn number(&self) -> u8
        ensures { result ≡ number_of_kind self.now.kind }
    {
        self.kind.number()
    }

    /// The name of its kind, in ASCII.
    pub fn name(&self) -> &'static str
        ensures { result.now ≡ name_of_kind self.now.kind }
    {
        self.kind.name()
    }
}

/// Why a replay does not end well.
#[derive(Clone, Copy, Debug, PartialEq, Eq, Error)]
pub enum ReplayError {
    /// An allocation was refused. A certificate of more than `u64::MAX` lines, which no memory
    /// holds, has this answer too.
    #[error("out of memory")]
    Memory,
    /// The certificate does not close the facts.
    #[error(transparent)]
    Fault(ReplayFault),
}

impl From<AllocError> for ReplayError {
    ghost from_gives = { λ _ e. e ≡ errors.Memory };

    fn from(_: AllocError) -> ReplayError {
        ReplayError::Memory
    }
}

impl<T: Drop> From<AllocFailed<T>> for ReplayError {
    ghost from_gives = { λ _ e. e ≡ errors.Memory };

    fn from(_: AllocFailed<T>) -> ReplayError {
        ReplayError::Memory
    }
}

/// Why a single check has no answer.
#[derive(Clone, Copy, PartialEq, Eq)]
pub(crate) enum CheckError {
    Memory,
    Fault(FaultKind),
}

impl From<FaultKind> for CheckError {
    ghost from_gives = { λ kind e. e ≡ check_errors.Fault kind };

    fn from(kind: FaultKind) -> CheckError {
        CheckError::Fault(kind)
    }
}

impl From<AllocError> for CheckError {
    ghost from_gives = { λ _ e. e ≡ check_errors.Memory };

    fn from(_: AllocError) -> CheckError {
        CheckError::Memory
    }
}

impl<T: Drop> From<AllocFailed<T>> for CheckError {
    ghost from_gives = { λ _ e. e ≡ check_errors.Memory };

    fn from(_: AllocFailed<T>) -> CheckError {
        CheckError::Memory
    }
}
