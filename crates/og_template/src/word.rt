//! Words.

ghost use Rattle.std.specs.Prelude.{◌≡◌};
ghost use Rattle.og_template.specs.Words.{word_of, word_of_mark};

use crate::mask::Mark;
use crate::special::{Special, keyword};
use og_text::{Span, Token, TokenKind};

/// What a word is.
#[derive(Drop)]
pub enum WordKind {
    /// A word of outlines that is no keyword of templates.
    Lexeme(TokenKind),
    /// A keyword or a mark of templates.
    Special(Special),
}

/// A word and where it stands.
#[derive(Drop)]
pub struct Word {
    /// What the word is.
    pub kind: WordKind,
    /// The bytes that it is written with.
    pub span: Span,
}

impl Word {
    // The word that a mark is.
    pub(crate) fn of_mark(mark: Mark) -> Word
        ensures { result ≡ word_of_mark mark }
    {
        Word {
            kind: WordKind::Special(mark.special),
            span: mark.span,
        }
    }

    // The word that a lexeme is in a template.
    pub(crate) fn of_token(token: Token) -> Word
        ensures { result ≡ word_of token }
    {
        let Token { kind, span } = token;
        if let TokenKind::Name(name) = &kind {
            if let Some(special) = keyword(name.as_slice()) {
                return Word {
                    kind: WordKind::Special(special),
                    span,
                };
            }
        }
        Word {
            kind: WordKind::Lexeme(kind),
            span,
        }
    }
}
