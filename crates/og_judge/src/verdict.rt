//! The facts known of an outline.

ghost use Rattle.std.specs.Prelude.{◌≡◌, true, is_some, IfSome};
ghost use Rattle.og_judge.specs.Judged.{judged};
ghost use Rattle.og_theorem.specs.Proved.{IsSafe, IsUnblocked};

use og_theorem::Proved;
use og_typed::Outline;
use std::marker::Model;
use std::snapshot::Snapshot;

/// The facts known of an outline, which clauses see: where `safe` says so, every condition but the
/// last is true, and where `unblocked` says so, the last one is.
#[derive(Drop)]
pub(crate) struct Verdict {
    outline: Snapshot<Outline>,
    safe: bool,
    unblocked: bool,
}

impl Model for Verdict {
    ghost use Rattle.std.specs.Prelude.{◌≡◌, true};
    ghost use Rattle.og_judge.specs.Judged.{Judged, judged, judged_code};
    ghost use Rattle.og_theorem.specs.Proved.{IsSafe, IsUnblocked};

    ghost Value = { Judged };

    ghost coded = { judged_code };

    ghost view = { λ v. judged v.outline.value v.safe v.unblocked };

    ghost invariant = { λ v. (v.safe ≡ true → IsSafe v.outline.value) × (v.unblocked ≡ true → IsUnblocked v.outline.value) };
}

impl Verdict {
    pub(crate) fn new(outline: &Outline, safe: bool, unblocked: bool) -> Verdict
        requires { (safe ≡ true → IsSafe outline.now)
            × (unblocked ≡ true → IsUnblocked outline.now) }
        ensures { result ≡ judged outline.now safe unblocked }
    {
        Verdict {
            outline: Snapshot::of(outline),
            safe,
            unblocked,
        }
    }

    pub(crate) fn safe(&self) -> bool
        ensures { result ≡ self.now.safe }
    {
        self.safe
    }

    pub(crate) fn unblocked(&self) -> bool
        ensures { result ≡ self.now.unblocked }
    {
        self.unblocked
    }

    pub(crate) fn proved<'a>(&self, outline: &'a Outline) -> Option<Proved<'a>>
        requires { outline.now ≡ self.now.outline }
        ensures safe { is_some result ≡ self.now.safe }
        ensures proved { IfSome result (λ p. p ≡ (outline.now, self.now.unblocked)) }
    {
        if self.safe {
            Some(Proved::new(outline, self.unblocked))
        } else {
            None
        }
    }
}
