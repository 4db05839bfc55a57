//! Keywords.

ghost use Rattle.std.specs.Prelude.{◌≡◌, ◌∷◌, if◌then◌else◌, Some, None};
ghost use Rattle.std.specs.Str.{bytes_eq};
ghost use Rattle.og_text.specs.Lexemes.{keyword_of};

use crate::token::TokenKind;

// The kind, where the bytes are these.
fn only(bytes: &[u8], these: &[u8], kind: TokenKind) -> Option<TokenKind>
    ensures { result ≡ (if bytes_eq bytes.now these.now then Some kind else None) }
{
    if bytes == these { Some(kind) } else { None }
}

// The keyword that `a` and these bytes are.
fn after_a(rest: &[u8]) -> Option<TokenKind>
    ensures { result ≡ keyword_of (97 ∷ rest.now) }
{
    if rest == b"ux".as_slice() {
        Some(TokenKind::Aux)
    } else if rest == b"wait".as_slice() {
        Some(TokenKind::Await)
    } else if rest == b"nd".as_slice() {
        Some(TokenKind::And)
    } else {
        None
    }
}

// The keyword that `c` and these bytes are.
fn after_c(rest: &[u8]) -> Option<TokenKind>
    ensures { result ≡ keyword_of (99 ∷ rest.now) }
{
    if rest == b"obegin".as_slice() {
        Some(TokenKind::Cobegin)
    } else if rest == b"oend".as_slice() {
        Some(TokenKind::Coend)
    } else {
        None
    }
}

// The keyword that `e` and these bytes are.
fn after_e(rest: &[u8]) -> Option<TokenKind>
    ensures { result ≡ keyword_of (101 ∷ rest.now) }
{
    if rest == b"nd".as_slice() {
        Some(TokenKind::End)
    } else if rest == b"lse".as_slice() {
        Some(TokenKind::Else)
    } else {
        None
    }
}

// The keyword that `t` and these bytes are.
fn after_t(rest: &[u8]) -> Option<TokenKind>
    ensures { result ≡ keyword_of (116 ∷ rest.now) }
{
    if rest == b"hen".as_slice() {
        Some(TokenKind::Then)
    } else if rest == b"rue".as_slice() {
        Some(TokenKind::True)
    } else {
        None
    }
}

// The keyword that a byte and those after it are.
fn keyword_from(first: u8, rest: &[u8]) -> Option<TokenKind>
    ensures { result ≡ keyword_of (first ∷ rest.now) }
{
    match first {
        b'a' => after_a(rest),
        b'b' => only(rest, b"egin".as_slice(), TokenKind::Begin),
        b'c' => after_c(rest),
        b'd' => only(rest, b"o".as_slice(), TokenKind::Do),
        b'e' => after_e(rest),
        b'f' => only(rest, b"alse".as_slice(), TokenKind::False),
        b'i' => only(rest, b"f".as_slice(), TokenKind::If),
        b'n' => only(rest, b"ot".as_slice(), TokenKind::Not),
        b'o' => only(rest, b"r".as_slice(), TokenKind::Or),
        b's' => only(rest, b"kip".as_slice(), TokenKind::Skip),
        b't' => after_t(rest),
        b'v' => only(rest, b"ar".as_slice(), TokenKind::Var),
        b'w' => only(rest, b"hile".as_slice(), TokenKind::While),
        _ => None,
    }
}

// The keyword that a word is.
pub(crate) fn keyword(word: &[u8]) -> Option<TokenKind>
    ensures { result ≡ keyword_of word.now }
{
    match word {
        [first, rest @ ..] => keyword_from(*first, rest),
        [] => None,
    }
}
