//! What the definitions of actions and of substitution mean.
//!
//! These functions do nothing: their clauses are laws about the definitions that other contracts
//! cite.

ghost use Rattle.std.specs.Prelude.{◌≡◌, ◌↔◌, ℕ, ℤ, List, Some, true, false, map, is_some};
ghost use Rattle.std.specs.List.{list_all};
ghost use Rattle.og_linear.specs.Linear.{FormValue, val, value_at, fits_i64};
ghost use Rattle.og_linear.specs.Bounded.{MapValue, image};
ghost use Rattle.og_typed.specs.Syntax.{Formula, Formulas, Simple};
ghost use Rattle.og_typed.specs.Truth.{truth, all_true};
ghost use Rattle.og_typed.specs.Occurs.{occurs, touches};
ghost use Rattle.og_typed.specs.Machine.{act, all_fit};
ghost use Rattle.og_subst.specs.Actions.{assigns, assigned_values};
ghost use Rattle.og_subst.specs.Subst.{forward, values, after, ranges, fits};

/// What an action assigns.
///
/// It touches an assertion exactly where some variable is assigned and occurs. A variable that is
/// not assigned keeps its value. The action fits exactly where each of its values is an `i64`.
pub fn action_laws()
    ensures touches { (body : List Simple) (a : Formula)
        → (touches body a ≡ true) ↔ ((x : ℕ) × (assigns x body ≡ true) × (occurs x a ≡ true)) }
    ensures kept { (body : List Simple) (s : List ℤ) (x : ℕ)
        → assigns x body ≡ false
        → value_at (act body s) x ≡ value_at s x }
    ensures fit { (body : List Simple) (s : List ℤ)
        → all_fit body s ≡ list_all fits_i64 (assigned_values body s) }
{}

/// What the forms and the assertions say, at every state.
///
/// The map gives each variable its value after the action, and the values are those that are
/// assigned. An assertion under the map is true exactly where it is true after the action. The
/// ranges of values are true exactly where each is an `i64`, and so those of an action where it
/// fits. There are values exactly where there is a map.
pub fn substitution_laws()
    ensures forward { (body : List Simple) (m : MapValue) (s : List ℤ) (x : ℕ)
        → forward body ≡ Some m
        → val (image m x) s ≡ value_at (act body s) x }
    ensures values { (body : List Simple) (vs : List FormValue) (s : List ℤ)
        → values body ≡ Some vs
        → map (λ v. val v s) vs ≡ assigned_values body s }
    ensures after { (body : List Simple) (m : MapValue) (a b : Formula) (s : List ℤ)
        → forward body ≡ Some m
        → after m a ≡ Some b
        → truth b s ≡ truth a (act body s) }
    ensures ranges { (vs : List FormValue) (all : Formulas) (s : List ℤ)
        → ranges vs ≡ Some all
        → all_true all s ≡ list_all fits_i64 (map (λ v. val v s) vs) }
    ensures fits { (body : List Simple) (b : Formula) (s : List ℤ)
        → fits body ≡ Some b
        → truth b s ≡ all_fit body s }
    ensures refused { (body : List Simple) → is_some (values body) ≡ is_some (forward body) }
{}
