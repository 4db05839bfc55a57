//! The theorem, of the definitions alone.
//!
//! These functions do nothing: their clauses are laws about every outline, every start and every
//! interleaving.

ghost use Rattle.og_typed.specs.Syntax.{Program};
ghost use Rattle.og_typed.specs.Rule.{IsOutline};
ghost use Rattle.og_typed.specs.Erase.{erased};
ghost use Rattle.og_theorem.specs.Sound.{IsSound, IsSoundErased};
ghost use Rattle.og_theorem.specs.Proved.{IsSafe, IsUnblocked};
ghost use Rattle.og_theorem.specs.NeverStuck.{IsNeverStuck};

/// Where every condition but the last is true, then at every moment that a run reaches each
/// current assertion is true, nothing overflows, and the postcondition is true at the end.
pub fn soundness()
    ensures { (o : Program) → IsSafe o → IsSound o }
{}

/// Then each moment that the program without its auxiliaries reaches is one of the outline's, and
/// nothing overflows there, and the postcondition is true at the end.
pub fn erased_soundness()
    ensures { (o : Program) → IsOutline o → IsSafe o → IsSoundErased o }
{}

/// Where the last condition is true too, neither the outline nor the program without its
/// auxiliaries gets stuck.
pub fn progress()
    ensures outline { (o : Program) → IsSafe o → IsUnblocked o → IsNeverStuck o }
    ensures program { (o : Program) → IsOutline o → IsSafe o → IsUnblocked o
        → IsNeverStuck (erased o) }
{}
