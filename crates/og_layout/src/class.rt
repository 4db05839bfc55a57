//! What the layout knows of a part.

use crate::parts::PartKind;
use og_template::{Special, WordKind};
use og_text::TokenKind;

/// What a part is to the layout.
#[derive(Clone, Copy, Drop, PartialEq, Eq)]
pub(crate) enum Class {
    Comment,
    Name,
    Number,
    /// `var`, `aux` or `const`.
    Names,
    Let,
    Cobegin,
    Coend,
    Parallel,
    Await,
    Begin,
    End,
    Else,
    Where,
    And,
    Or,
    Arrow,
    Minus,
    Star,
    Dots,
    Comma,
    Semicolon,
    Colon,
    OpenBrace,
    CloseBrace,
    /// `(` or `[`.
    Open,
    /// `)` or `]`.
    Close,
    Other,
}

fn of_keyword(kind: &TokenKind) -> Class {
    match kind {
        TokenKind::Var | TokenKind::Aux => Class::Names,
        TokenKind::Cobegin => Class::Cobegin,
        TokenKind::Coend => Class::Coend,
        TokenKind::Await => Class::Await,
        TokenKind::Begin => Class::Begin,
        TokenKind::End => Class::End,
        TokenKind::Else => Class::Else,
        TokenKind::And => Class::And,
        TokenKind::Or => Class::Or,
        _ => Class::Other,
    }
}

fn of_token(kind: &TokenKind) -> Class {
    match kind {
        TokenKind::Name(_) => Class::Name,
        TokenKind::Number(_) => Class::Number,
        TokenKind::Parallel => Class::Parallel,
        TokenKind::Arrow => Class::Arrow,
        TokenKind::Minus => Class::Minus,
        TokenKind::Star => Class::Star,
        TokenKind::OpenParen => Class::Open,
        TokenKind::CloseParen => Class::Close,
        TokenKind::OpenBrace => Class::OpenBrace,
        TokenKind::CloseBrace => Class::CloseBrace,
        TokenKind::Semicolon => Class::Semicolon,
        TokenKind::Comma => Class::Comma,
        _ => of_keyword(kind),
    }
}

fn of_special(special: Special) -> Class {
    match special {
        Special::Const => Class::Names,
        Special::Let => Class::Let,
        Special::Where => Class::Where,
        Special::Dots => Class::Dots,
        Special::OpenBracket => Class::Open,
        Special::CloseBracket => Class::Close,
        Special::Colon => Class::Colon,
        _ => Class::Other,
    }
}

impl Class {
    /// The class of a part.
    pub(crate) fn of(kind: &PartKind) -> Class {
        match kind {
            PartKind::Comment => Class::Comment,
            PartKind::Word(WordKind::Lexeme(kind)) => of_token(kind),
            PartKind::Word(WordKind::Special(special)) => of_special(*special),
        }
    }

    /// Whether a `-` behind it stands between two terms.
    pub(crate) fn ends_term(self) -> bool {
        matches!(self, Class::Name | Class::Number | Class::Close)
    }

    /// Whether no blank follows it within a line.
    pub(crate) fn clings_to_next(self) -> bool {
        matches!(
            self,
            Class::OpenBrace | Class::Open | Class::Star | Class::Dots
        )
    }

    /// Whether no blank stands in front of it within a line.
    pub(crate) fn clings_to_previous(self) -> bool {
        matches!(
            self,
            Class::CloseBrace
                | Class::Close
                | Class::Star
                | Class::Dots
                | Class::Comma
                | Class::Semicolon
                | Class::Colon
        )
    }
}
