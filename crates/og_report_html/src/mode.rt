//! What a byte of the source stands in.

ghost use Rattle.std.specs.Prelude.{◌≡◌, ◌<◌, ◌^◌, false};
ghost use Rattle.og_report_html.specs.Source.{mode_from, next, is_assertion, is_comment, is_statement, begins, line_after, next_spot, first_spot};

/// What a byte stands in.
#[derive(Clone, Copy, PartialEq, Eq, Drop)]
pub(crate) enum Mode {
    /// Nothing that is marked.
    Text,
    /// A statement with a mark.
    Statement,
    /// A comment.
    Comment,
    /// An assertion.
    Assertion,
    /// A comment within an assertion.
    Remark,
}

// Behind a byte outside assertions and comments.
fn mode_from(marked: bool, byte: u8, other: Mode) -> Mode
    ensures { result ≡ mode_from marked byte other }
{
    if byte == b'{' {
        Mode::Assertion
    } else if byte == b'#' {
        Mode::Comment
    } else if byte == b'\n' {
        Mode::Text
    } else if marked {
        Mode::Statement
    } else {
        other
    }
}

// Behind a byte of an assertion.
fn mode_within(byte: u8) -> Mode
    ensures { result ≡ next Mode.Assertion false byte }
{
    if byte == b'}' {
        Mode::Text
    } else if byte == b'#' {
        Mode::Remark
    } else {
        Mode::Assertion
    }
}

impl Mode {
    /// Behind a byte at a place with a mark or without one.
    pub(crate) fn next(self, marked: bool, byte: u8) -> Mode
        ensures { result ≡ next self marked byte }
    {
        match self {
            Mode::Text | Mode::Statement => mode_from(marked, byte, self),
            Mode::Comment if byte == b'\n' => Mode::Text,
            Mode::Comment => Mode::Comment,
            Mode::Assertion => mode_within(byte),
            Mode::Remark if byte == b'\n' => Mode::Assertion,
            Mode::Remark => Mode::Remark,
        }
    }

    fn is_assertion(self) -> bool
        ensures { result ≡ is_assertion self }
    {
        match self {
            Mode::Assertion | Mode::Remark => true,
            Mode::Text | Mode::Statement | Mode::Comment => false,
        }
    }

    fn is_comment(self) -> bool
        ensures { result ≡ is_comment self }
    {
        match self {
            Mode::Comment | Mode::Remark => true,
            Mode::Text | Mode::Statement | Mode::Assertion => false,
        }
    }

    fn is_statement(self) -> bool
        ensures { result ≡ is_statement self }
    {
        match self {
            Mode::Statement => true,
            Mode::Text | Mode::Comment | Mode::Assertion | Mode::Remark => false,
        }
    }

    /// Whether an assertion begins between this and the next mode.
    pub(crate) fn begins_assertion(self, new: Mode) -> bool
        ensures { result ≡ begins is_assertion self new }
    {
        new.is_assertion() && !self.is_assertion()
    }

    /// Whether a comment begins between this and the next mode.
    pub(crate) fn begins_comment(self, new: Mode) -> bool
        ensures { result ≡ begins is_comment self new }
    {
        new.is_comment() && !self.is_comment()
    }

    /// Whether a marked statement begins between this and the next mode.
    pub(crate) fn begins_statement(self, new: Mode) -> bool
        ensures { result ≡ begins is_statement self new }
    {
        new.is_statement() && !self.is_statement()
    }
}

/// Where a byte stands.
#[derive(Clone, Copy, PartialEq, Eq, Drop)]
pub(crate) struct Spot {
    /// The line, counted from 1.
    pub(crate) line: u32,
    /// Whether it is the first byte of its line.
    pub(crate) first: bool,
    /// What the byte before it stands in.
    pub(crate) mode: Mode,
}

// The line behind a byte.
fn line_after(line: u32, byte: u8) -> u32
    requires { line < 2 ^ 31 }
    ensures { result ≡ line_after line byte }
{
    if byte == b'\n' { line + 1 } else { line }
}

impl Spot {
    /// Where the first byte stands.
    pub(crate) fn first() -> Spot
        ensures { result ≡ first_spot }
    {
        Spot {
            line: 1,
            first: true,
            mode: Mode::Text,
        }
    }

    /// Where the byte behind this one stands.
    pub(crate) fn next(self, marked: bool, byte: u8) -> Spot
        requires { self.line < 2 ^ 31 }
        ensures { result ≡ next_spot self marked byte }
    {
        Spot {
            line: line_after(self.line, byte),
            first: byte == b'\n',
            mode: self.mode.next(marked, byte),
        }
    }
}
