//! What a text declares.

use crate::names::name_of;
use og_template::{Special, Word, WordKind};
use og_text::{Span, TokenKind};
use std::alloc::{AllocError, Global};

/// What is declared.
#[derive(Clone, Copy, Drop, PartialEq, Eq)]
pub enum SymbolKind {
    Variable,
    Auxiliary,
    Constant,
    /// A named assertion.
    Assertion,
    /// A process by its number, from 1.
    Process(usize),
}

/// What is declared, and where.
#[derive(Clone, Copy, Drop, PartialEq, Eq)]
pub struct Symbol {
    pub kind: SymbolKind,
    /// Its name, or the first word of a process.
    pub name: Span,
    /// All of it.
    pub whole: Span,
}

// What is read of a text so far.
#[derive(Drop)]
struct Reader {
    all: Vec<Symbol>,
    // What is being declared, and whether a name comes next.
    section: Option<SymbolKind>,
    wants_name: bool,
    // The number of the process that is read, and its first word once that has come.
    process: usize,
    first: Option<Span>,
    last: Span,
}

impl Reader {
    fn new(alloc: Global) -> Reader {
        Reader {
            all: Vec::new(alloc),
            section: None,
            wants_name: false,
            process: 0,
            first: None,
            last: Span { start: 0, end: 0 },
        }
    }

    // A declaration begins.
    fn declare(&mut self, kind: SymbolKind) {
        self.section = Some(kind);
        self.wants_name = true;
    }

    // The process that is read ends.
    fn end_process(&mut self) -> Result<(), AllocError> {
        if let Some(first) = self.first {
            let end = self.last.end;
            self.all.push(Symbol {
                kind: SymbolKind::Process(self.process),
                name: first,
                whole: Span {
                    start: first.start,
                    end,
                },
            })?;
        }
        self.first = None;
        Ok(())
    }

    // A name.
    fn take_name(&mut self, span: Span) -> Result<(), AllocError> {
        let Some(kind) = self.section else {
            return Ok(());
        };
        if self.wants_name {
            self.all.push(Symbol {
                kind,
                name: span,
                whole: span,
            })?;
        }
        self.wants_name = false;
        Ok(())
    }

    // A word that begins or ends something; whether it is such a one.
    fn take_mark(&mut self, kind: &WordKind) -> Result<bool, AllocError> {
        match kind {
            WordKind::Lexeme(TokenKind::Var) => self.declare(SymbolKind::Variable),
            WordKind::Lexeme(TokenKind::Aux) => self.declare(SymbolKind::Auxiliary),
            WordKind::Special(Special::Const) => self.declare(SymbolKind::Constant),
            WordKind::Special(Special::Let) => self.declare(SymbolKind::Assertion),
            WordKind::Lexeme(TokenKind::Comma) => {
                self.wants_name = self.section != Some(SymbolKind::Assertion);
                return Ok(false);
            }
            WordKind::Lexeme(TokenKind::Semicolon) => {
                self.section = None;
                return Ok(false);
            }
            WordKind::Lexeme(TokenKind::Cobegin) => {
                self.section = None;
                self.process = 1;
            }
            WordKind::Lexeme(TokenKind::Parallel) => {
                self.end_process()?;
                self.process = self.process.saturating_add(1);
            }
            WordKind::Lexeme(TokenKind::Coend) => {
                self.end_process()?;
                self.process = 0;
            }
            _ => return Ok(false),
        }
        Ok(true)
    }

    // One word more.
    fn take(&mut self, word: &Word) -> Result<(), AllocError> {
        if self.take_mark(&word.kind)? {
            return Ok(());
        }
        if self.process > 0 && self.first.is_none() {
            self.first = Some(word.span);
        }
        if name_of(word).is_some() {
            self.take_name(word.span)?;
        }
        self.last = word.span;
        Ok(())
    }
}

/// What the words of a text declare, in their order: names, and the processes between `cobegin`
/// and `coend`.
///
/// # Errors
///
/// An allocation was refused.
pub fn symbols(alloc: Global, words: &[Word]) -> Result<Vec<Symbol>, AllocError> {
    let mut reader = Reader::new(alloc);
    for word in words {
        reader.take(word)?;
    }
    Ok(reader.all)
}
