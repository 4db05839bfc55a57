//! Laws of the definitions.

ghost use Rattle.std.specs.Prelude.{List, ◌++◌, ◌∷◌, []};
ghost use Rattle.og_text.specs.declared.token.Token.{Token};
ghost use Rattle.og_parse.specs.Expected.{IsFront, AreAlike};

/// Tokens of the same kinds begin outlines alike: which names and numbers they are, and where they
/// stand, makes no difference. Does nothing.
pub fn alike()
    ensures { (tokens others : List Token) → AreAlike tokens others → IsFront tokens
        → IsFront others }
{}
