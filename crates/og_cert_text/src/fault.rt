//! Why a certificate is not added to a file, and why a text is not read.

ghost use Rattle.std.specs.Prelude.{◌≡◌};
ghost use Rattle.og_cert_text.specs.declared.fault.CertFileError.TheVariants as file_error;
ghost use Rattle.og_cert_text.specs.declared.fault.CertTextError.TheVariants as text_error;
ghost use Rattle.og_cert_text.specs.Faults.{file_fault_number, file_fault_name, text_fault_number, text_fault_name, text_fault_line};

use std::alloc::{AllocError, AllocFailed};
use thiserror::Error;

/// The fault of an entry that is to be added to a file.
#[derive(Clone, Copy, Debug, PartialEq, Eq, Error)]
pub enum CertFileFault {
    /// A number is outside its limits, of the entry or in its certificate, or a combination has no
    /// term, or a split too many certificates.
    #[error("a number is outside its limits")]
    BadNumber,
    /// The condition has a certificate.
    #[error("the condition has a certificate")]
    Twice,
    /// A branch or a split has 200 of them round it.
    #[error("the certificate is too deep")]
    TooDeep,
    /// The condition whose certificate is to be taken has none.
    #[error("there is no such certificate")]
    NoSuchCertificate,
}

impl CertFileFault {
    /// The number of the refusal: 19, 21, 22 or 26.
    pub fn number(&self) -> u8
        ensures { result ≡ file_fault_number self.now }
    {
        match self {
            CertFileFault::BadNumber => 19,
            CertFileFault::Twice => 21,
            CertFileFault::TooDeep => 22,
            CertFileFault::NoSuchCertificate => 26,
        }
    }

    /// The name of the refusal.
    pub fn name(&self) -> &'static str
        ensures { result.now ≡ file_fault_name self.now }
    {
        match self {
            CertFileFault::BadNumber => "BadNumber",
            CertFileFault::Twice => "Twice",
            CertFileFault::TooDeep => "TooDeep",
            CertFileFault::NoSuchCertificate => "NoSuchCertificate",
        }
    }
}

/// Why an entry was not added to a file.
#[derive(Clone, Copy, Debug, PartialEq, Eq, Error)]
pub enum CertFileError {
    /// An allocation was refused.
    #[error("out of memory")]
    Memory,
    /// The entry is refused.
    #[error(transparent)]
    Fault(CertFileFault),
}

impl From<AllocError> for CertFileError {
    ghost from_gives = { λ _ e. e ≡ file_error.Memory };

    fn from(_: AllocError) -> CertFileError {
        CertFileError::Memory
    }
}

impl<T: Drop> From<AllocFailed<T>> for CertFileError {
    ghost from_gives = { λ _ e. e ≡ file_error.Memory };

    fn from(_: AllocFailed<T>) -> CertFileError {
        CertFileError::Memory
    }
}

/// The fault of a text of certificates. Lines are counted from 1.
#[derive(Clone, Copy, Debug, PartialEq, Eq, Error)]
pub enum CertTextFault {
    /// The text is longer than 67108864 bytes.
    #[error("the text is too long")]
    CertsTooLong,
    /// The first line is neither `og-cert 1` nor `og-cert 2`, with its LF.
    #[error("the first line names no version")]
    BadVersion,
    /// This line is no line of a certificate, or stands out of place, or is missing.
    #[error("line {0} is no line of a certificate, or out of place, or missing")]
    BadLine(u32),
    /// This line begins a second certificate of its condition.
    #[error("line {0} begins a second certificate of its condition")]
    Twice(u32),
    /// The branch or split of this line has 200 of them round it.
    #[error("line {0} is too deep")]
    TooDeep(u32),
}

impl CertTextFault {
    /// The number of the refusal: 20 to 24.
    pub fn number(&self) -> u8
        ensures { result ≡ text_fault_number self.now }
    {
        match self {
            CertTextFault::CertsTooLong => 23,
            CertTextFault::BadVersion => 24,
            CertTextFault::BadLine(_) => 20,
            CertTextFault::Twice(_) => 21,
            CertTextFault::TooDeep(_) => 22,
        }
    }

    /// The name of the refusal.
    pub fn name(&self) -> &'static str
        ensures { result.now ≡ text_fault_name self.now }
    {
        match self {
            CertTextFault::CertsTooLong => "CertsTooLong",
            CertTextFault::BadVersion => "BadVersion",
            CertTextFault::BadLine(_) => "BadLine",
            CertTextFault::Twice(_) => "Twice",
            CertTextFault::TooDeep(_) => "TooDeep",
        }
    }

    /// The line of the fault, where it has one.
    pub fn line(&self) -> Option<u32>
        ensures { result ≡ text_fault_line self.now }
    {
        match self {
            CertTextFault::CertsTooLong | CertTextFault::BadVersion => None,
            CertTextFault::BadLine(line)
            | CertTextFault::Twice(line)
            | CertTextFault::TooDeep(line) => Some(*line),
        }
    }
}

/// Why a text of certificates was not read.
#[derive(Clone, Copy, Debug, PartialEq, Eq, Error)]
pub enum CertTextError {
    /// An allocation was refused.
    #[error("out of memory")]
    Memory,
    /// The text is refused.
    #[error(transparent)]
    Fault(CertTextFault),
}

impl From<AllocError> for CertTextError {
    ghost from_gives = { λ _ e. e ≡ text_error.Memory };

    fn from(_: AllocError) -> CertTextError {
        CertTextError::Memory
    }
}

impl<T: Drop> From<AllocFailed<T>> for CertTextError {
    ghost from_gives = { λ _ e. e ≡ text_error.Memory };

    fn from(_: AllocFailed<T>) -> CertTextError {
        CertTextError::Memory
    }
}
