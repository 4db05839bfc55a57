//! A token kind of each sort.

ghost use Rattle.std.specs.Prelude.{◌≡◌, IfOk};
ghost use Rattle.og_parse.specs.Expected.{all_kinds};

use og_text::{Name, TokenKind};
use std::alloc::{AllocError, Global};

/// A name, a number, and every keyword and symbol.
#[tactic(auto, unfolding(crate::specs::Expected::all_kinds))]
pub(crate) fn all_kinds(alloc: Global) -> Result<Vec<TokenKind>, AllocError>
    ensures { IfOk result (λ all. all.items ≡ all_kinds) }
{
    let name = Name::new(Vec::new(alloc));
    let all = [
        TokenKind::Name(name),
        TokenKind::Number(0),
        TokenKind::Var,
        TokenKind::Aux,
        TokenKind::Cobegin,
        TokenKind::Coend,
        TokenKind::Await,
        TokenKind::Then,
        TokenKind::Begin,
        TokenKind::End,
        TokenKind::If,
        TokenKind::Else,
        TokenKind::While,
        TokenKind::Do,
        TokenKind::Skip,
        TokenKind::True,
        TokenKind::False,
        TokenKind::Not,
        TokenKind::And,
        TokenKind::Or,
        TokenKind::Assign,
        TokenKind::Parallel,
        TokenKind::LessEqual,
        TokenKind::GreaterEqual,
        TokenKind::NotEqual,
        TokenKind::Less,
        TokenKind::Greater,
        TokenKind::Equal,
        TokenKind::Plus,
        TokenKind::Minus,
        TokenKind::Arrow,
        TokenKind::Star,
        TokenKind::OpenParen,
        TokenKind::CloseParen,
        TokenKind::OpenBrace,
        TokenKind::CloseBrace,
        TokenKind::Semicolon,
        TokenKind::Comma,
    ];
    Ok(Vec::from_array(alloc, all)?)
}
