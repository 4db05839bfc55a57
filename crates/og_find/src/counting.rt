//! How many conditions of an outline have no certificate.

ghost use Rattle.std.specs.Prelude.{◌≡◌, ◌≤◌};
ghost use Rattle.og_cert_text.specs.Shown.{shown};
ghost use Rattle.og_find.specs.Missing.{lacks, missing_up_to};

use og_cert_text::CertFile;

/// How many of the conditions of an outline have no certificate.
#[derive(Clone, Copy, Debug, PartialEq, Eq)]
pub struct Missing {
    /// How many have none.
    pub count: u32,
    /// How many conditions there are.
    pub conditions: u32,
}

// Whether a condition has no certificate.
fn lacks(file: &CertFile, number: u32) -> bool
    ensures { result ≡ lacks (shown file.now) number }
{
    file.certificate(number).is_none()
}

// How many of the conditions up to this one have no certificate.
fn missing_up_to(file: &CertFile, conditions: u32) -> u32
    ensures missing { result ≡ missing_up_to (shown file.now) conditions }
    ensures within { result ≤ conditions }
{
    let mut missing = 0;
    for before in 0..conditions {
        if lacks(file, before + 1) {
            missing += 1;
        }
    }
    missing
}

impl Missing {
    /// How many of this many conditions, numbered from 1, have no certificate in the file. Takes no
    /// memory.
    pub fn of(file: &CertFile, conditions: u32) -> Missing
        ensures count { result.count ≡ missing_up_to (shown file.now) conditions }
        ensures conditions { result.conditions ≡ conditions }
    {
        let count = missing_up_to(file, conditions);
        Missing { count, conditions }
    }
}
