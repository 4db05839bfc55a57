//! What holds of every run of an outline holds of every run of each outline that it completes.
//!
//! These functions do nothing: their clauses are laws about every two outlines.

ghost use Rattle.og_typed.specs.Syntax.{Program};
ghost use Rattle.og_typed.specs.Rule.{IsOutline};
ghost use Rattle.og_typed.specs.Erase.{erased};
ghost use Rattle.og_theorem.specs.Sound.{IsSound, IsSoundErased};
ghost use Rattle.og_theorem.specs.NeverStuck.{IsNeverStuck};
ghost use Rattle.og_completion.specs.Completes.{Completes};

/// Each outline completes itself.
pub fn completed_by_itself()
    ensures { (o : Program) → IsOutline o → Completes o o }
{}

/// Where an outline is sound, so is each one that it completes; and so is that one without its
/// auxiliaries.
pub fn soundness_of_completed()
    ensures outline { (new old : Program) → Completes new old → IsOutline new → IsOutline old
        → IsSound new → IsSound old }
    ensures program { (new old : Program) → Completes new old → IsOutline new → IsOutline old
        → IsSound new → IsSoundErased old }
{}

/// Where an outline never gets stuck, neither does one that it completes; and where it is sound too,
/// neither does that one without its auxiliaries.
pub fn progress_of_completed()
    ensures outline { (new old : Program) → Completes new old → IsOutline new → IsOutline old
        → IsNeverStuck new → IsNeverStuck old }
    ensures program { (new old : Program) → Completes new old → IsOutline new → IsOutline old
        → IsSound new → IsNeverStuck new → IsNeverStuck (erased old) }
{}
