//! An outline with what was found of it.

ghost use Rattle.std.specs.Prelude.{◌≡◌, true, is_some, IfSome};
ghost use Rattle.og_typed.specs.Erase.{erased};
ghost use Rattle.og_theorem.specs.Sound.{IsSound, IsSoundErased};
ghost use Rattle.og_theorem.specs.NeverStuck.{IsNeverStuck};
ghost use Rattle.og_judge.specs.Entries.{is_safe, is_unblocked};

use crate::entry::Entry;
use crate::findings::Findings;
use og_theorem::Proved;
use og_typed::Outline;

/// An outline, and what was found of each of its conditions. All readers take no memory.
#[derive(Drop)]
pub struct Judgement {
    outline: Outline,
    findings: Findings,
    ghost same: { outline ≡ findings.verdict.outline },
}

impl Judgement {
    ghost use Rattle.og_judge.specs.Shown.{looked_at, found_of, outline_of, entries_of};

    // The outline with what was found of it.
    pub(crate) fn new(outline: Outline, findings: Findings) -> Judgement
        requires { outline ≡ looked_at findings }
        ensures outline { outline_of result ≡ outline }
        ensures entries { entries_of result ≡ found_of findings }
    {
        Judgement { outline, findings }
    }

    /// The outline.
    pub fn outline(&self) -> &Outline
        ensures { result.now ≡ outline_of self.now }
    {
        &self.outline
    }

    /// The conditions in order, each with what was found of it.
    pub fn entries(&self) -> &[Entry]
        ensures { result.now ≡ entries_of self.now }
    {
        self.findings.entries()
    }

    /// Whether every condition but the last is proved. Then every run of the outline is as
    /// promised, with its auxiliaries and without them.
    pub fn safe(&self) -> bool
        ensures value { result ≡ is_safe (entries_of self.now) }
        ensures sound { result ≡ true → IsSound (outline_of self.now) }
        ensures erased { result ≡ true → IsSoundErased (outline_of self.now) }
    {
        match self.proved() {
            Some(proved) => {
                proved.outline();
                true
            }
            None => false,
        }
    }

    /// Whether the last condition is proved. Then no run of the outline gets stuck where it is safe
    /// too, with its auxiliaries or without them.
    pub fn unblocked(&self) -> bool
        ensures value { result ≡ is_unblocked (entries_of self.now) }
        ensures outline { result ≡ true → is_safe (entries_of self.now) ≡ true
            → IsNeverStuck (outline_of self.now) }
        ensures program { result ≡ true → is_safe (entries_of self.now) ≡ true
            → IsNeverStuck (erased (outline_of self.now)) }
    {
        match self.proved() {
            Some(proved) => proved.unblocked(),
            None => self.findings.unblocked(),
        }
    }

    /// The outline as one that is proved, exactly where it is safe.
    pub fn proved(&self) -> Option<Proved<'_>>
        ensures safe { is_some result ≡ is_safe (entries_of self.now) }
        ensures proved { IfSome result
            (λ p. p ≡ (outline_of self.now, is_unblocked (entries_of self.now))) }
    {
        self.findings.proved(&self.outline)
    }
}
