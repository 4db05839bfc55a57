//! How far the conjuncts of an assertion were read.

ghost use Rattle.std.specs.Prelude.{◌≡◌, ◌<◌, ◌≤◌, ◌^◌, ◌+◌};
ghost use Rattle.og_text.specs.Lexemes.{is_word_byte};
ghost use Rattle.og_report_html.specs.Conjuncts.{byte_at, is_alone, is_and, is_or, is_arrow, is_blank, is_between, depth_after, extended, after_solid, after_code, next_cut, first_cut};

use og_text::Span;

/// The byte at an offset; 0 beyond the end.
fn byte_at(source: &[u8], at: usize) -> u8
    ensures { result ≡ byte_at source.now at }
{
    source.get(at).copied().unwrap_or(0)
}

// Whether the byte may stand in a name.
fn is_word_byte(byte: u8) -> bool
    ensures { result ≡ is_word_byte byte }
{
    let is_letter = b'a' <= byte && byte <= b'z' || b'A' <= byte && byte <= b'Z' || byte == b'_';
    is_letter || b'0' <= byte && byte <= b'9'
}

// Whether the byte separates words, or opens the assertion.
fn is_blank(byte: u8) -> bool
    ensures { result ≡ is_blank byte }
{
    byte == b' ' || byte == b'\t' || byte == b'\r' || byte == b'\n' || byte == b'{'
}

// Whether what stands there is no part of a name.
fn is_alone(source: &[u8], start: usize, end: usize) -> bool
    ensures { result ≡ is_alone source.now start end }
{
    !is_word_byte(byte_at(source, start.saturating_sub(1))) && !is_word_byte(byte_at(source, end))
}

fn is_and(source: &[u8], at: usize) -> bool
    requires { at < 2 ^ 32 }
    ensures { result ≡ is_and source.now at }
{
    byte_at(source, at) == b'a'
        && byte_at(source, at + 1) == b'n'
        && byte_at(source, at + 2) == b'd'
        && is_alone(source, at, at + 3)
}

fn is_or(source: &[u8], at: usize) -> bool
    requires { at < 2 ^ 32 }
    ensures { result ≡ is_or source.now at }
{
    byte_at(source, at) == b'o' && byte_at(source, at + 1) == b'r' && is_alone(source, at, at + 2)
}

fn is_arrow(source: &[u8], at: usize) -> bool
    requires { at < 2 ^ 32 }
    ensures { result ≡ is_arrow source.now at }
{
    byte_at(source, at) == b'-' && byte_at(source, at + 1) == b'>'
}

// With a byte more.
fn extended(conjunct: Option<Span>, at: u32) -> Span
    requires { at + 1 < 2 ^ 32 }
    ensures { result ≡ extended at conjunct }
{
    match conjunct {
        None => Span {
            start: at,
            end: at + 1,
        },
        Some(span) => Span {
            start: span.start,
            end: at + 1,
        },
    }
}

/// How far an assertion was read.
#[derive(Clone, Copy, PartialEq, Eq)]
pub(crate) struct Cut {
    /// Within a comment.
    pub(crate) comment: bool,
    /// How many levels are open.
    pub(crate) depth: u32,
    /// How many bytes of an `and` are left.
    pub(crate) left: u32,
    /// The conjunct that was begun.
    pub(crate) conjunct: Option<Span>,
}

impl Cut {
    /// Before the first byte.
    pub(crate) fn first() -> Cut
        ensures { result ≡ first_cut }
    {
        Cut {
            comment: false,
            depth: 0,
            left: 0,
            conjunct: None,
        }
    }

    /// Whether an `and` between two conjuncts begins there.
    pub(crate) fn is_between(self, source: &[u8], at: u32) -> bool
        ensures { result ≡ is_between source.now self at }
    {
        !self.comment && self.depth == 0 && is_and(source, at as usize)
    }

    fn depth_after(self, source: &[u8], at: u32) -> u32
        requires { self.depth + 1 < 2 ^ 32 }
        ensures { result ≡ depth_after source.now self.depth at }
    {
        let byte = byte_at(source, at as usize);
        if byte == b'(' {
            return self.depth + 1;
        }
        if byte == b')' {
            return self.depth.saturating_sub(1);
        }
        let is_open = is_or(source, at as usize) || is_arrow(source, at as usize);
        if self.depth == 0 && is_open {
            self.depth + 1
        } else {
            self.depth
        }
    }

    // Behind a byte of a conjunct.
    fn after_solid(self, source: &[u8], at: u32) -> Cut
        requires depth { self.depth ≤ at }
        requires short { at + 1 < 2 ^ 32 }
        ensures { result ≡ after_solid source.now self at }
    {
        Cut {
            comment: false,
            depth: self.depth_after(source, at),
            left: 0,
            conjunct: Some(extended(self.conjunct, at)),
        }
    }

    // Behind a byte that stands in no comment.
    fn after_code(self, source: &[u8], at: u32) -> Cut
        requires depth { self.depth ≤ at }
        requires short { at + 1 < 2 ^ 32 }
        ensures { result ≡ after_code source.now self at }
    {
        let byte = byte_at(source, at as usize);
        if byte == b'#' {
            return Cut {
                comment: true,
                ..self
            };
        }
        if self.is_between(source, at) {
            return Cut {
                comment: false,
                depth: 0,
                left: 2,
                conjunct: None,
            };
        }
        if self.left != 0 {
            return Cut {
                comment: false,
                left: self.left - 1,
                ..self
            };
        }
        if is_blank(byte) {
            self
        } else {
            self.after_solid(source, at)
        }
    }

    /// Behind the byte at an offset.
    pub(crate) fn next(self, source: &[u8], at: u32) -> Cut
        requires depth { self.depth ≤ at }
        requires short { at + 1 < 2 ^ 32 }
        ensures { result ≡ next_cut source.now self at }
    {
        if self.comment {
            return Cut {
                comment: byte_at(source, at as usize) != b'\n',
                ..self
            };
        }
        self.after_code(source, at)
    }
}
