//! The keywords and marks that templates add to the words of outlines.

ghost use Rattle.std.specs.Prelude.{◌≡◌};
ghost use Rattle.og_template.specs.Words.{inner_keyword_of, keyword_of};

/// A keyword or a mark of templates.
#[derive(Clone, Copy, Drop, PartialEq, Eq)]
pub enum Special {
    /// The keyword `template`.
    Template,
    /// The keyword `const`.
    Const,
    /// The keyword `let`.
    Let,
    /// The keyword `process`.
    Process,
    /// The keyword `for`.
    For,
    /// The keyword `in`.
    In,
    /// The keyword `where`.
    Where,
    /// The keyword `all`.
    All,
    /// The keyword `some`.
    Any,
    /// The keyword `sum`.
    Sum,
    /// The keyword `mod`.
    Mod,
    /// `..`
    Dots,
    /// `[`
    OpenBracket,
    /// `]`
    CloseBracket,
    /// `:`
    Colon,
}

// The keyword of ranges and of what is repeated that a name is spelt like.
fn inner_keyword(name: &[u8]) -> Option<Special>
    ensures { result ≡ inner_keyword_of name.now }
{
    if name == b"in".as_slice() {
        Some(Special::In)
    } else if name == b"where".as_slice() {
        Some(Special::Where)
    } else if name == b"all".as_slice() {
        Some(Special::All)
    } else if name == b"some".as_slice() {
        Some(Special::Any)
    } else if name == b"sum".as_slice() {
        Some(Special::Sum)
    } else if name == b"mod".as_slice() {
        Some(Special::Mod)
    } else {
        None
    }
}

// The keyword of templates that a name is spelt like.
pub(crate) fn keyword(name: &[u8]) -> Option<Special>
    ensures { result ≡ keyword_of name.now }
{
    if name == b"template".as_slice() {
        Some(Special::Template)
    } else if name == b"const".as_slice() {
        Some(Special::Const)
    } else if name == b"let".as_slice() {
        Some(Special::Let)
    } else if name == b"process".as_slice() {
        Some(Special::Process)
    } else if name == b"for".as_slice() {
        Some(Special::For)
    } else {
        inner_keyword(name)
    }
}
