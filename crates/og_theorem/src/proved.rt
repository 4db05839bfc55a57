//! An outline whose conditions are true.

ghost use Rattle.std.specs.Prelude.{◌≡◌, true};
ghost use Rattle.og_typed.specs.Erase.{erased};
ghost use Rattle.og_theorem.specs.Sound.{IsSound, IsSoundErased};
ghost use Rattle.og_theorem.specs.Proved.{IsProved, IsSafe, IsUnblocked};
ghost use Rattle.og_theorem.specs.NeverStuck.{IsNeverStuck};

use og_typed::Outline;
use std::marker::Model;

/// An outline every condition of which but the last is true in every state; and the last one too,
/// where `unblocked` answers so.
#[derive(Drop)]
pub struct Proved<'a> {
    outline: &'a Outline,
    unblocked: bool,
}

impl<'a> Model for Proved<'a> {
    ghost use Rattle.std.specs.Prelude.{Bool};
    ghost use Rattle.std.specs.Coded.{coded×, coded_bool};
    ghost use Rattle.og_typed.specs.Syntax.{Program};
    ghost use Rattle.og_typed.specs.Codes.{program_code};

    ghost Value = { Program × Bool };

    ghost coded = { coded× program_code coded_bool };

    ghost use Rattle.og_theorem.specs.Proved.{IsProved};

    ghost view = { λ p. (p.outline.now, p.unblocked) };

    ghost invariant = { λ p. IsProved p.outline.now p.unblocked };
}

impl<'a> Proved<'a> {
    /// The outline, whose conditions are true as `unblocked` says.
    pub fn new(outline: &'a Outline, unblocked: bool) -> Proved<'a>
        requires { IsProved outline.now unblocked }
        ensures { result ≡ (outline.now, unblocked) }
    {
        Proved { outline, unblocked }
    }

    /// The outline, of which every run is as promised, with its auxiliaries and without them.
    /// Takes no memory, like `unblocked`.
    pub fn outline(&self) -> &'a Outline
        ensures same { result.now ≡ self.now.0 }
        ensures safe { IsSafe result.now }
        ensures sound { IsSound result.now }
        ensures erased { IsSoundErased result.now }
    {
        let outline = self.outline;
        outline.follows_rule();
        outline
    }

    /// Whether the last condition was proved too. Then no run gets stuck, with the auxiliaries or
    /// without them.
    pub fn unblocked(&self) -> bool
        ensures value { result ≡ self.now.1 }
        ensures condition { result ≡ true → IsUnblocked self.now.0 }
        ensures outline { result ≡ true → IsNeverStuck self.now.0 }
        ensures program { result ≡ true → IsNeverStuck (erased self.now.0) }
    {
        self.outline.follows_rule();
        self.unblocked
    }
}
