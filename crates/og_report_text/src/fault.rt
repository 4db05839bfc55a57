//! Why a source and certificates are refused.

ghost use Rattle.std.specs.Prelude.{◌≡◌};
ghost use Rattle.og_report_text.specs.Faults.{number_of_input, name_of_input};
ghost use Rattle.og_report_text.specs.declared.fault.InputFault.TheVariants as faults;

use og_cert_text::CertTextFault;
use og_cond::TooMany;
use og_typed::SourceFault;
use thiserror::Error;

/// The fault of a source and its certificates: the first of these that applies, in this
/// order.
#[derive(Clone, Copy, Debug, PartialEq, Eq, Error)]
pub enum InputFault {
    /// The source has no outline.
    #[error(transparent)]
    Source(SourceFault),
    /// The outline has too many conditions.
    #[error(transparent)]
    Conditions(TooMany),
    /// The text of the certificates is not read.
    #[error(transparent)]
    Certs(CertTextFault),
    /// This number has a certificate and no condition; it is the least such number.
    #[error("there is no condition {0}")]
    Stray(u32),
}

impl InputFault {
    /// The number under which the refusal is printed, from 1 to 25.
    pub fn number(&self) -> u8
        ensures { result ≡ number_of_input self.now }
    {
        match self {
            InputFault::Source(fault) => fault.number(),
            InputFault::Conditions(fault) => fault.number(),
            InputFault::Certs(fault) => fault.number(),
            InputFault::Stray(_) => 25,
        }
    }

    /// The name under which the refusal is printed, in ASCII.
    pub fn name(&self) -> &'static str
        ensures { result.now ≡ name_of_input self.now }
    {
        match self {
            InputFault::Source(fault) => fault.name(),
            InputFault::Conditions(fault) => fault.name(),
            InputFault::Certs(fault) => fault.name(),
            InputFault::Stray(_) => "Stray",
        }
    }
}

impl From<SourceFault> for InputFault {
    ghost from_gives = { λ fault e. e ≡ faults.Source fault };

    fn from(fault: SourceFault) -> InputFault {
        InputFault::Source(fault)
    }
}

impl From<TooMany> for InputFault {
    ghost from_gives = { λ fault e. e ≡ faults.Conditions fault };

    fn from(fault: TooMany) -> InputFault {
        InputFault::Conditions(fault)
    }
}

impl From<CertTextFault> for InputFault {
    ghost from_gives = { λ fault e. e ≡ faults.Certs fault };

    fn from(fault: CertTextFault) -> InputFault {
        InputFault::Certs(fault)
    }
}
