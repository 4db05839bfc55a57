//! What a name at a place would be used for.

use crate::declaring::{Symbol, SymbolKind};
use crate::names::name_of;
use og_template::{Special, Word, WordKind};
use og_text::{Span, TokenKind};

/// What a name at a place would be used for.
#[derive(Clone, Copy, Drop, PartialEq, Eq)]
pub(crate) enum Use {
    /// To declare something, or bind a name.
    Declared,
    /// In a bound, an index or the value of a constant.
    Number,
    /// In an assertion, and whether that may name auxiliaries.
    Asserted { has_auxiliaries: bool },
    /// To be assigned.
    Assigned,
    /// In a test or a guard.
    Tested,
    /// In what the name there is assigned.
    Given(Span),
}

// Whether it is a number or a new name, which stand for no longer than their mark.
fn is_short(used: Use) -> bool {
    matches!(used, Use::Declared | Use::Number)
}

/// What is read of a text, up to a place.
#[derive(Clone, Copy)]
pub(crate) struct Reading {
    used: Use,
    // What it is again behind bounds or an index.
    outer: Use,
    // Whether declarations are read, and whether one of a named assertion.
    in_section: bool,
    in_named: bool,
    // Whether an assertion has been read, and whether the processes are being read.
    has_note: bool,
    in_processes: bool,
    last: Span,
}

impl Reading {
    /// Nothing is read.
    pub(crate) fn new() -> Reading {
        Reading {
            used: Use::Assigned,
            outer: Use::Assigned,
            in_section: false,
            in_named: false,
            has_note: false,
            in_processes: false,
            last: Span { start: 0, end: 0 },
        }
    }

    /// What a name would be used for behind what is read.
    pub(crate) fn used(&self) -> Use {
        self.used
    }

    // Declarations begin.
    fn begin_section(&mut self, is_named: bool) {
        self.in_section = !is_named;
        self.in_named = is_named;
        self.used = Use::Declared;
    }

    // Something else begins.
    fn begin(&mut self, used: Use) {
        self.in_section = false;
        self.in_named = false;
        self.used = used;
    }

    // An assertion begins. The precondition and what stands behind the processes name no auxiliaries.
    fn begin_note(&mut self) {
        let has_auxiliaries = self.has_note && self.in_processes;
        self.has_note = true;
        self.begin(Use::Asserted { has_auxiliaries });
    }

    // A number or a new name comes, behind which it is again what it was.
    fn begin_short(&mut self, used: Use) {
        if !is_short(self.used) {
            self.outer = self.used;
        }
        self.used = used;
    }

    // A keyword or mark of templates.
    fn take_special(&mut self, special: Special) {
        match special {
            Special::Const => self.begin_section(false),
            Special::Let => self.begin_section(true),
            Special::Process | Special::For | Special::All | Special::Any | Special::Sum => {
                self.begin_short(Use::Declared)
            }
            Special::In | Special::OpenBracket => self.begin_short(Use::Number),
            Special::Colon | Special::CloseBracket => self.used = self.outer,
            Special::Template | Special::Where | Special::Mod | Special::Dots => {}
        }
    }

    // A symbol of declarations.
    fn take_mark(&mut self, kind: &TokenKind) {
        match kind {
            TokenKind::Comma if self.in_section => self.used = Use::Declared,
            TokenKind::Equal if self.in_named => {
                self.used = Use::Asserted {
                    has_auxiliaries: true,
                }
            }
            TokenKind::Name(_) if self.in_section => self.used = Use::Number,
            _ => {}
        }
    }

    // A keyword or symbol of outlines.
    fn take_lexeme(&mut self, kind: &TokenKind) {
        match kind {
            TokenKind::Var | TokenKind::Aux => self.begin_section(false),
            TokenKind::OpenBrace => self.begin_note(),
            TokenKind::Cobegin => {
                self.in_processes = true;
                self.begin(Use::Assigned)
            }
            TokenKind::Coend => {
                self.in_processes = false;
                self.begin(Use::Assigned)
            }
            TokenKind::CloseBrace
            | TokenKind::Semicolon
            | TokenKind::Then
            | TokenKind::Do
            | TokenKind::Begin
            | TokenKind::Else
            | TokenKind::End
            | TokenKind::Parallel => self.begin(Use::Assigned),
            TokenKind::If | TokenKind::While | TokenKind::Await => self.begin(Use::Tested),
            TokenKind::Assign => self.begin(Use::Given(self.last)),
            kind => self.take_mark(kind),
        }
    }

    /// One word more.
    pub(crate) fn take(&mut self, word: &Word) {
        match &word.kind {
            WordKind::Lexeme(kind) => self.take_lexeme(kind),
            WordKind::Special(special) => self.take_special(*special),
        }
        if name_of(word).is_some() {
            self.last = word.span;
        }
    }
}

impl Use {
    /// Whether what is declared so may be used so, where the name that is assigned is an auxiliary
    /// or not.
    pub(crate) fn takes(self, kind: SymbolKind, to_auxiliary: bool) -> bool {
        match (self, kind) {
            (Use::Declared, _) | (_, SymbolKind::Process(_)) => false,
            (Use::Number, kind) => kind == SymbolKind::Constant,
            (Use::Asserted { has_auxiliaries }, SymbolKind::Auxiliary) => has_auxiliaries,
            (Use::Asserted { .. }, _) => true,
            (_, SymbolKind::Assertion) => false,
            (Use::Assigned, kind) => kind != SymbolKind::Constant,
            (Use::Tested, kind) => kind != SymbolKind::Auxiliary,
            (Use::Given(_), kind) => kind != SymbolKind::Auxiliary || to_auxiliary,
        }
    }

    /// Whether the name that is assigned is an auxiliary of these.
    pub(crate) fn is_to_auxiliary(self, text: &[u8], symbols: &[Symbol]) -> bool {
        let Use::Given(target) = self else {
            return false;
        };
        let name = bytes_at(text, target);
        symbols.iter().any(|symbol| {
            symbol.kind == SymbolKind::Auxiliary && bytes_at(text, symbol.name) == name
        })
    }
}

/// The bytes of a text there; none where it has no such bytes.
pub(crate) fn bytes_at(text: &[u8], span: Span) -> &[u8] {
    text.get(span.start as usize..span.end as usize)
        .unwrap_or(b"")
}
