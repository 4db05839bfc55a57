//! Keywords, as they are written.

ghost use Rattle.std.specs.Prelude.{◌≡◌, option_map};
ghost use Rattle.og_lsp_names.specs.Choices.{keyword_of};

use og_template::{Special, WordKind};
use og_text::TokenKind;

/// A keyword of outlines, as it is written; nothing where the kind is none.
pub(crate) fn keyword_of(kind: &TokenKind) -> Option<&'static str>
    ensures { option_map (λ k. k.now) result ≡ keyword_of kind.now }
{
    match kind {
        TokenKind::Var => Some("var"),
        TokenKind::Aux => Some("aux"),
        TokenKind::Cobegin => Some("cobegin"),
        TokenKind::Coend => Some("coend"),
        TokenKind::Await => Some("await"),
        TokenKind::Then => Some("then"),
        TokenKind::Begin => Some("begin"),
        TokenKind::End => Some("end"),
        TokenKind::If => Some("if"),
        TokenKind::Else => Some("else"),
        TokenKind::While => Some("while"),
        TokenKind::Do => Some("do"),
        TokenKind::Skip => Some("skip"),
        TokenKind::True => Some("true"),
        TokenKind::False => Some("false"),
        TokenKind::Not => Some("not"),
        TokenKind::And => Some("and"),
        TokenKind::Or => Some("or"),
        _ => None,
    }
}

// A keyword that templates add, as it is written; nothing where it is a mark.
fn special_keyword(special: Special) -> Option<&'static str> {
    match special {
        Special::Template => Some("template"),
        Special::Const => Some("const"),
        Special::Let => Some("let"),
        Special::Process => Some("process"),
        Special::For => Some("for"),
        Special::In => Some("in"),
        Special::Where => Some("where"),
        Special::All => Some("all"),
        Special::Any => Some("some"),
        Special::Sum => Some("sum"),
        Special::Mod => Some("mod"),
        Special::Dots | Special::OpenBracket | Special::CloseBracket | Special::Colon => None,
    }
}

/// A keyword of templates, as it is written; nothing where the kind is none.
pub(crate) fn template_keyword(kind: &WordKind) -> Option<&'static str> {
    match kind {
        WordKind::Lexeme(kind) => keyword_of(kind),
        WordKind::Special(special) => special_keyword(*special),
    }
}
