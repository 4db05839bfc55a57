//! Symbols of two bytes and of one.

ghost use Rattle.std.specs.Prelude.{◌≡◌};
ghost use Rattle.og_text.specs.Fronts.{single_of, pair_of};

use crate::token::TokenKind;

// The symbol that two bytes are.
pub(crate) fn pair(b: u8, c: u8) -> Option<TokenKind>
    ensures { result ≡ pair_of b c }
{
    if b == b':' && c == b'=' {
        Some(TokenKind::Assign)
    } else if b == b'/' && c == b'/' {
        Some(TokenKind::Parallel)
    } else if b == b'<' && c == b'=' {
        Some(TokenKind::LessEqual)
    } else if b == b'>' && c == b'=' {
        Some(TokenKind::GreaterEqual)
    } else if b == b'<' && c == b'>' {
        Some(TokenKind::NotEqual)
    } else if b == b'-' && c == b'>' {
        Some(TokenKind::Arrow)
    } else {
        None
    }
}

// The symbol that one byte is.
pub(crate) fn single(b: u8) -> Option<TokenKind>
    ensures { result ≡ single_of b }
{
    match b {
        b'<' => Some(TokenKind::Less),
        b'>' => Some(TokenKind::Greater),
        b'=' => Some(TokenKind::Equal),
        b'+' => Some(TokenKind::Plus),
        b'-' => Some(TokenKind::Minus),
        b'*' => Some(TokenKind::Star),
        b'(' => Some(TokenKind::OpenParen),
        b')' => Some(TokenKind::CloseParen),
        b'{' => Some(TokenKind::OpenBrace),
        b'}' => Some(TokenKind::CloseBrace),
        b';' => Some(TokenKind::Semicolon),
        b',' => Some(TokenKind::Comma),
        _ => None,
    }
}
