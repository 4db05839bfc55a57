//! Laws of the definitions.

ghost use Rattle.std.specs.Prelude.{◌≡◌, ℕ, List};
ghost use Rattle.og_typed.specs.Syntax.{Program};
ghost use Rattle.og_typed.specs.Source.{IsSource};

/// A source has at most one outline. Does nothing.
pub fn one_outline()
    ensures { (source : List ℕ) (a b : Program) → IsSource source a → IsSource source b → a ≡ b }
{}
