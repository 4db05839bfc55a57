//! A cursor over tokens.

ghost use Rattle.std.specs.Prelude.{◌≡◌, List, ◌∷◌, [], Ok, drop, MatchOption};
ghost use Rattle.std.specs.Bool.{MatchBool};
ghost use Rattle.og_text.specs.declared.token.Token.{Token};
ghost use Rattle.og_parse.specs.Gives.{IsRead, OnMemory};
ghost use Rattle.og_parse.specs.Language.{first_place};
ghost use Rattle.og_parse.specs.Reading.{starts, is_a, symbol_at};

use crate::refusal::{FaultKind, Refusal};
use og_text::{Span, Token, TokenKind};
use std::marker::Model;

/// A place in a list of tokens, seen as the tokens from there on.
#[derive(Drop)]
pub struct Cursor<'a> {
    rest: &'a [Token],
}

impl<'a> Model for Cursor<'a> {
    ghost Value = { List Token };

    ghost view = { λ c. c.rest.now };
}

impl<'a> Cursor<'a> {
    /// A cursor at the first of these tokens.
    pub fn new(tokens: &'a [Token]) -> Cursor<'a>
        ensures { result ≡ tokens.now }
    {
        Cursor { rest: tokens }
    }

    /// The tokens from the place on.
    pub fn rest(&self) -> &'a [Token]
        ensures { result.now ≡ self.now }
    {
        self.rest
    }

    /// The next token's kind, if a token is left.
    pub fn peek(&self) -> Option<&'a TokenKind>
        ensures { MatchOption result (self.now ≡ []) (λ kind. (token : Token) × (rest : List Token)
            × (self.now ≡ token ∷ rest) × (kind.now ≡ token.kind)) }
    {
        match self.rest {
            [] => None,
            [token, ..] => Some(&token.kind),
        }
    }

    /// Where the next token stands, or `0..0` without one.
    pub fn span(&self) -> Span
        ensures { result ≡ first_place self.now }
    {
        match self.rest {
            [] => Span { start: 0, end: 0 },
            [token, ..] => token.span,
        }
    }

    /// Goes past the next token, if one is left.
    pub fn advance(&mut self)
        ensures { self.new ≡ drop 1 self.old }
    {
        if let [_, rest @ ..] = self.rest {
            self.rest = rest;
        }
    }

    /// Whether the next token is of this kind: a name, a number, or one keyword or symbol.
    pub fn is_at(&self, kind: &TokenKind) -> bool
        ensures { result ≡ starts (is_a kind.now) self.now }
    {
        match self.rest {
            [] => false,
            [token, ..] => token.kind.is_like(kind),
        }
    }

    /// Goes past the next token if it is of this kind, and says whether it was.
    #[tactic(auto, using(crate::proofs::Symbols::symbol_there))]
    pub fn eat(&mut self, kind: &TokenKind) -> bool
        ensures found { result ≡ starts (is_a kind.now) self.old }
        ensures left { MatchBool result (symbol_at kind.now self.old
            ≡ Ok (first_place self.old, self.new)) (self.new ≡ self.old) }
    {
        let found = self.is_at(kind);
        if found {
            self.advance();
        }
        found
    }

    /// Reads a keyword or symbol, and returns its place. A fault goes past nothing. Takes no
    /// memory.
    #[tactic(auto, using(crate::proofs::Symbols::no_symbol))]
    pub fn expect(&mut self, kind: &TokenKind) -> Result<Span, Refusal>
        ensures read { IsRead (λ span. span) result self.new (symbol_at kind.now self.old) }
        ensures memory { OnMemory result ⊥ }
    {
        let span = self.span();
        if !self.eat(kind) {
            return Err(Refusal::Fault(FaultKind::Expected));
        }
        Ok(span)
    }
}
