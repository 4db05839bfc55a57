//! The finding on a condition that is not proved.

ghost use Rattle.std.specs.Prelude.{◌≡◌};
ghost use Rattle.og_report_html.specs.Findings.{finding_of, is_found, word, sign};

use og_report_prove::Diagnosis;

/// The finding on a condition that is not proved.
#[derive(Clone, Copy, PartialEq, Eq, Drop)]
pub(crate) enum Finding {
    /// It is false in a state.
    False,
    /// Nothing is known.
    Open,
}

impl Finding {
    /// The finding on a condition, where it is not that it is proved.
    pub(crate) fn of(diagnosis: &Diagnosis) -> Option<Finding>
        ensures { result ≡ finding_of diagnosis.now }
    {
        match diagnosis {
            Diagnosis::Proved => None,
            Diagnosis::False(_) => Some(Finding::False),
            Diagnosis::Open => Some(Finding::Open),
        }
    }

    /// Whether this is the finding on a condition.
    pub(crate) fn is_of(self, diagnosis: &Diagnosis) -> bool
        ensures { result ≡ is_found self diagnosis.now }
    {
        match self {
            Finding::False => diagnosis.is_false(),
            Finding::Open => diagnosis.is_open(),
        }
    }

    /// The word for it.
    pub(crate) fn word(self) -> &'static [u8]
        ensures { result.now ≡ word self }
    {
        match self {
            Finding::False => b"false",
            Finding::Open => b"open",
        }
    }

    /// The sign for it.
    pub(crate) fn sign(self) -> &'static [u8]
        ensures { result.now ≡ sign self }
    {
        match self {
            Finding::False => b"&#10007;",
            Finding::Open => b"?",
        }
    }
}
