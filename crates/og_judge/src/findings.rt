//! What was found of the conditions of an outline.

ghost use Rattle.std.specs.Prelude.{◌≡◌, is_some, IfSome};
ghost use Rattle.og_judge.specs.Entries.{is_safe, is_unblocked};

use crate::entry::Entry;
use crate::verdict::Verdict;
use og_theorem::Proved;
use og_typed::Outline;

/// What was found of each condition of an outline. All readers take no memory.
#[derive(Drop)]
pub struct Findings {
    verdict: Verdict,
    entries: Vec<Entry>,
    ghost safe: { verdict.safe ≡ is_safe entries.items },
    ghost unblocked: { verdict.unblocked ≡ is_unblocked entries.items },
}

impl Findings {
    ghost use Rattle.og_judge.specs.Shown.{looked_at, found_of};

    // What was found of the outline of this verdict.
    pub(crate) fn new(verdict: Verdict, entries: Vec<Entry>) -> Findings
        requires safe { verdict.safe ≡ is_safe entries.items }
        requires unblocked { verdict.unblocked ≡ is_unblocked entries.items }
        ensures outline { looked_at result ≡ verdict.outline }
        ensures entries { found_of result ≡ entries.items }
    {
        Findings { verdict, entries }
    }

    /// The conditions in order, each with what was found of it.
    pub fn entries(&self) -> &[Entry]
        ensures { result.now ≡ found_of self.now }
    {
        &self.entries
    }

    /// Whether every condition but the last is proved.
    pub fn safe(&self) -> bool
        ensures { result ≡ is_safe (found_of self.now) }
    {
        self.verdict.safe()
    }

    /// Whether the last condition is proved.
    pub fn unblocked(&self) -> bool
        ensures { result ≡ is_unblocked (found_of self.now) }
    {
        self.verdict.unblocked()
    }

    /// The outline, which is the one that was judged, as one that is proved: exactly where it is
    /// safe.
    pub fn proved<'a>(&self, outline: &'a Outline) -> Option<Proved<'a>>
        requires { outline.now ≡ looked_at self.now }
        ensures safe { is_some result ≡ is_safe (found_of self.now) }
        ensures proved { IfSome result (λ p. p ≡ (outline.now, is_unblocked (found_of self.now))) }
    {
        self.verdict.proved(outline)
    }
}
