//! Laws of the cut of a text. Each is a contract alone: the functions do nothing.

ghost use Rattle.std.specs.Prelude.{◌≡◌, ℕ, ◌<◌, List, [], length, All, IfSome};
ghost use Rattle.og_text.specs.declared.fault.LexFault.{LexFault};
ghost use Rattle.og_text.specs.declared.token.Token.{Token};
ghost use Rattle.og_text.specs.Cut.{Piece, IsCut, AreTokensOf};
ghost use Rattle.og_text.specs.Lexed.{LiesWithin};
ghost use Rattle.og_text.specs.Refused.{IsFaultOf};
ghost use Rattle.og_text.specs.Faults.{place_of_fault};

/// A text has one cut into longest pieces. So it has one list of tokens at most and one fault at
/// most, and never both: what `lex` answers with memory enough is fixed by the text.
pub fn one_cut()
    ensures pieces { (text : List ℕ) (a b : List Piece) → IsCut text a [] → IsCut text b [] → a
        ≡ b }
    ensures tokens { (text : List ℕ) (a b : List Token) → AreTokensOf text a → AreTokensOf text b
        → a ≡ b }
    ensures fault { (text : List ℕ) (a b : LexFault) → IsFaultOf text a → IsFaultOf text b → a ≡ b }
    ensures apart { (text : List ℕ) (tokens : List Token) (fault : LexFault) →
        AreTokensOf text tokens → IsFaultOf text fault → ⊥ }
{}

/// The tokens of a text hold some bytes of it each, and its fault stands before its end.
pub fn places_within()
    ensures tokens { (text : List ℕ) (tokens : List Token) →
        AreTokensOf text tokens → All (LiesWithin (length text)) tokens }
    ensures fault { (text : List ℕ) (fault : LexFault) →
        IsFaultOf text fault → IfSome (place_of_fault fault) (λ at. at < length text) }
{}
