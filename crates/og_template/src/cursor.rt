//! A cursor over words, and reading single words.

ghost use Rattle.std.specs.Prelude.{◌≡◌, ◌<◌, ◌≤◌, drop, length, IfSome, OnOk};
ghost use Rattle.std.specs.Bool.{MatchBool};

use crate::{Special, Word, WordKind};
use og_parse::{FaultKind, RawName, Refusal, Relation, Sign, relation_of};
use og_text::{Name, Span, TokenKind};
use std::alloc::Global;
use std::marker::Model;

/// A place in a list of words, and the memory for what is read. Contracts see it as the words from
/// there on.
#[derive(Drop)]
pub(crate) struct Cursor<'a> {
    alloc: Global,
    rest: &'a [Word],
}

impl<'a> Model for Cursor<'a> {
    ghost use Rattle.std.specs.Prelude.{List};
    ghost use Rattle.og_template.specs.declared.word.Word.{Word};

    ghost Value = { List Word };

    ghost view = { λ c. c.rest.now };
}

impl<'a> Cursor<'a> {
    pub(crate) fn new(alloc: Global, words: &'a [Word]) -> Cursor<'a>
        ensures { result ≡ words.now }
    {
        Cursor { alloc, rest: words }
    }

    // The memory for what is read.
    pub(crate) fn alloc(&self) -> Global {
        self.alloc
    }

    // The words from the place on.
    pub(crate) fn rest(&self) -> &'a [Word]
        ensures { result.now ≡ self.now }
    {
        self.rest
    }

    // What the next word is.
    pub(crate) fn peek(&self) -> Option<&'a WordKind>
        ensures { IfSome result (λ _. 0 < length self.now) }
    {
        match self.rest {
            [] => None,
            [word, ..] => Some(&word.kind),
        }
    }

    // The next word, where it is one of outlines.
    pub(crate) fn lexeme(&self) -> Option<&'a TokenKind>
        ensures { IfSome result (λ _. 0 < length self.now) }
    {
        match self.peek() {
            Some(WordKind::Lexeme(kind)) => Some(kind),
            _ => None,
        }
    }

    // Where the next word stands, or `0..0` without one.
    pub(crate) fn span(&self) -> Span {
        match self.rest {
            [] => Span { start: 0, end: 0 },
            [word, ..] => word.span,
        }
    }

    // Goes past the next word, if one is left.
    pub(crate) fn advance(&mut self)
        ensures { self.new ≡ drop 1 self.old }
    {
        if let [_, rest @ ..] = self.rest {
            self.rest = rest;
        }
    }

    // Whether the next word is this symbol or keyword of outlines.
    pub(crate) fn is_at(&self, kind: &TokenKind) -> bool
        ensures { MatchBool result (0 < length self.now) (Unit {0}) }
    {
        match self.lexeme() {
            Some(next) => next.is_like(kind),
            None => false,
        }
    }

    // Whether the next word is this keyword or mark of templates.
    pub(crate) fn is_at_special(&self, special: Special) -> bool
        ensures { MatchBool result (0 < length self.now) (Unit {0}) }
    {
        match self.peek() {
            Some(WordKind::Special(next)) => *next == special,
            _ => false,
        }
    }

    // Goes past the next word if it is this symbol or keyword of outlines, and says whether it was.
    pub(crate) fn eat(&mut self, kind: &TokenKind) -> bool
        ensures { MatchBool result (length self.new < length self.old) (self.new ≡ self.old) }
    {
        let found = self.is_at(kind);
        if found {
            self.advance();
        }
        found
    }

    // Goes past the next word if it is this keyword or mark of templates, and says whether it was.
    pub(crate) fn eat_special(&mut self, special: Special) -> bool
        ensures { MatchBool result (length self.new < length self.old) (self.new ≡ self.old) }
    {
        let found = self.is_at_special(special);
        if found {
            self.advance();
        }
        found
    }

    // Reads this symbol or keyword of outlines, and returns its place.
    pub(crate) fn expect(&mut self, kind: &TokenKind) -> Result<Span, Refusal>
        ensures ok { OnOk result (length self.new < length self.old) }
        ensures less { length self.new ≤ length self.old }
    {
        let span = self.span();
        if !self.eat(kind) {
            return Err(Refusal::Fault(FaultKind::Expected));
        }
        Ok(span)
    }

    // Reads this keyword or mark of templates, and returns its place.
    pub(crate) fn expect_special(&mut self, special: Special) -> Result<Span, Refusal>
        ensures ok { OnOk result (length self.new < length self.old) }
        ensures less { length self.new ≤ length self.old }
    {
        let span = self.span();
        if !self.eat_special(special) {
            return Err(Refusal::Fault(FaultKind::Expected));
        }
        Ok(span)
    }

    // Reads a name.
    pub(crate) fn name(&mut self) -> Result<RawName, Refusal>
        ensures ok { OnOk result (length self.new < length self.old) }
        ensures less { length self.new ≤ length self.old }
    {
        match self.lexeme() {
            Some(TokenKind::Name(name)) => {
                let bytes = Vec::from_slice(self.alloc, name.as_slice())?;
                let span = self.span();
                self.advance();
                Ok(RawName {
                    name: Name::new(bytes),
                    span,
                })
            }
            _ => Err(Refusal::Fault(FaultKind::Expected)),
        }
    }

    // The next word, where it is a number. Goes past it.
    pub(crate) fn number(&mut self) -> Option<u64>
        ensures some { IfSome result (λ _. length self.new < length self.old) }
        ensures less { length self.new ≤ length self.old }
    {
        match self.lexeme() {
            Some(TokenKind::Number(n)) => {
                self.advance();
                Some(*n)
            }
            _ => None,
        }
    }

    // The sign between two terms, if one stands here. Goes past it.
    pub(crate) fn sign(&mut self) -> Option<Sign>
        ensures some { IfSome result (λ _. length self.new < length self.old) }
        ensures less { length self.new ≤ length self.old }
    {
        let sign = match self.lexeme() {
            Some(TokenKind::Plus) => Sign::Plus,
            Some(TokenKind::Minus) => Sign::Minus,
            _ => return None,
        };
        self.advance();
        Some(sign)
    }

    // Reads a relation, if one stands here.
    pub(crate) fn relation(&mut self) -> Option<Relation>
        ensures less { length self.new ≤ length self.old }
    {
        let relation = relation_of(self.lexeme()?)?;
        self.advance();
        Some(relation)
    }

    // Whether the next word is a name.
    pub(crate) fn is_at_name(&self) -> bool {
        matches!(self.lexeme(), Some(TokenKind::Name(_)))
    }
}
