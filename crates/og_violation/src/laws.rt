//! What a violation says of the conditions.
//!
//! These functions do nothing: their clauses are laws about every outline and every run.

ghost use Rattle.std.specs.Prelude.{◌≡◌};
ghost use Rattle.og_typed.specs.Syntax.{Program};
ghost use Rattle.og_theorem.specs.Proved.{IsSafe, IsUnblocked};
ghost use Rattle.og_violation.specs.Violations.{IsViolation};
ghost use Rattle.og_violation.specs.declared.violation.Violation.{Violation as Found};

use crate::violation::Wrong;

/// Where a run leads to anything that is wrong but a stuck moment, some condition but the last is
/// false.
pub fn refutes_safety()
    ensures { (o : Program) (v : Found) → IsViolation o v → (v.wrong ≡ Wrong.Stuck → ⊥) → IsSafe o
        → ⊥ }
{}

/// Where a run leads to a stuck moment, some condition is false.
pub fn refutes_progress()
    ensures { (o : Program) (v : Found) → IsViolation o v → v.wrong ≡ Wrong.Stuck → IsSafe o
        → IsUnblocked o → ⊥ }
{}
