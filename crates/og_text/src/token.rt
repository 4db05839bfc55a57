//! Tokens.

ghost use Rattle.std.specs.Prelude.{◌≡◌, ◌==◌};
ghost use Rattle.og_text.specs.Kinds.{number_of};

use crate::name::Name;
use crate::place::Span;

/// What a lexeme is: a name, a number, a keyword or a symbol.
#[derive(Debug, Drop)]
pub enum TokenKind {
    /// A word that is no keyword, of at most 64 bytes.
    Name(Name),
    /// A row of digits, by its value, which is at most 2 to the power of 63.
    Number(u64),
    /// The keyword `var`.
    Var,
    /// The keyword `aux`.
    Aux,
    /// The keyword `cobegin`.
    Cobegin,
    /// The keyword `coend`.
    Coend,
    /// The keyword `await`.
    Await,
    /// The keyword `then`.
    Then,
    /// The keyword `begin`.
    Begin,
    /// The keyword `end`.
    End,
    /// The keyword `if`.
    If,
    /// The keyword `else`.
    Else,
    /// The keyword `while`.
    While,
    /// The keyword `do`.
    Do,
    /// The keyword `skip`.
    Skip,
    /// The keyword `true`.
    True,
    /// The keyword `false`.
    False,
    /// The keyword `not`.
    Not,
    /// The keyword `and`.
    And,
    /// The keyword `or`.
    Or,
    /// `:=`
    Assign,
    /// `//`
    Parallel,
    /// `<=`
    LessEqual,
    /// `>=`
    GreaterEqual,
    /// `<>`
    NotEqual,
    /// `<`
    Less,
    /// `>`
    Greater,
    /// `=`
    Equal,
    /// `+`
    Plus,
    /// `-`
    Minus,
    /// `->`
    Arrow,
    /// `*`
    Star,
    /// `(`
    OpenParen,
    /// `)`
    CloseParen,
    /// `{`
    OpenBrace,
    /// `}`
    CloseBrace,
    /// `;`
    Semicolon,
    /// `,`
    Comma,
}

/// A lexeme and where it stands.
#[derive(Drop)]
pub struct Token {
    /// What the lexeme is.
    pub kind: TokenKind,
    /// The bytes that it is written with.
    pub span: Span,
}

impl TokenKind {
    // The place of the variant among the variants.
    fn number(&self) -> u8
        ensures { result ≡ number_of self.now }
    {
        match self {
            TokenKind::Name(_) => 0,
            TokenKind::Number(_) => 1,
            TokenKind::Var => 2,
            TokenKind::Aux => 3,
            TokenKind::Cobegin => 4,
            TokenKind::Coend => 5,
            TokenKind::Await => 6,
            TokenKind::Then => 7,
            TokenKind::Begin => 8,
            TokenKind::End => 9,
            TokenKind::If => 10,
            TokenKind::Else => 11,
            TokenKind::While => 12,
            TokenKind::Do => 13,
            TokenKind::Skip => 14,
            TokenKind::True => 15,
            TokenKind::False => 16,
            TokenKind::Not => 17,
            TokenKind::And => 18,
            TokenKind::Or => 19,
            TokenKind::Assign => 20,
            TokenKind::Parallel => 21,
            TokenKind::LessEqual => 22,
            TokenKind::GreaterEqual => 23,
            TokenKind::NotEqual => 24,
            TokenKind::Less => 25,
            TokenKind::Greater => 26,
            TokenKind::Equal => 27,
            TokenKind::Plus => 28,
            TokenKind::Minus => 29,
            TokenKind::Arrow => 30,
            TokenKind::Star => 31,
            TokenKind::OpenParen => 32,
            TokenKind::CloseParen => 33,
            TokenKind::OpenBrace => 34,
            TokenKind::CloseBrace => 35,
            TokenKind::Semicolon => 36,
            TokenKind::Comma => 37,
        }
    }

    /// Whether both are names, both are numbers, or both are one keyword or symbol.
    pub fn is_like(&self, other: &TokenKind) -> bool
        ensures { result ≡ (number_of self.now == number_of other.now) }
    {
        self.number() == other.number()
    }
}
