//! Where the conjuncts of a note stand.

use og_text::{LexError, Span, Token, TokenKind, lex};
use std::alloc::{AllocError, Global};

// What is read of a note so far: the conjuncts that have ended, the first token of the one that has
// not, where its last token ends, and how many parentheses are open.
#[derive(Drop)]
struct Conjuncts {
    all: Vec<Span>,
    start: Option<u32>,
    end: u32,
    open: usize,
}

impl Conjuncts {
    fn new(alloc: Global) -> Conjuncts {
        Conjuncts {
            all: Vec::new(alloc),
            start: None,
            end: 0,
            open: 0,
        }
    }

    // The conjunct that is read ends.
    fn close(&mut self) -> Result<(), AllocError> {
        if let Some(start) = self.start {
            let end = self.end;
            self.all.push(Span { start, end })?;
        }
        self.start = None;
        Ok(())
    }

    // One token more.
    fn take(&mut self, token: &Token) -> Result<(), AllocError> {
        match token.kind {
            TokenKind::OpenBrace => return Ok(()),
            TokenKind::CloseBrace => return self.close(),
            TokenKind::And => {
                if self.open == 0 {
                    return self.close();
                }
            }
            TokenKind::OpenParen => self.open = self.open.saturating_add(1),
            TokenKind::CloseParen => self.open = self.open.saturating_sub(1),
            _ => {}
        }
        self.start = Some(self.start.unwrap_or(token.span.start));
        self.end = token.span.end;
        Ok(())
    }
}

// The tokens of some bytes; none where they have a fault.
fn tokens_of(alloc: Global, bytes: &[u8]) -> Result<Vec<Token>, AllocError> {
    match lex(alloc, bytes) {
        Ok(tokens) => Ok(tokens),
        Err(LexError::Memory) => Err(AllocError),
        Err(LexError::Fault(_)) => Ok(Vec::new(alloc)),
    }
}

/// What stands between the `and`s of a note outside of parentheses, as byte offsets from the note's
/// first byte on; nothing where the note is no note of an outline.
///
/// # Errors
///
/// An allocation was refused.
pub(crate) fn conjunct_spans(alloc: Global, note: &[u8]) -> Result<Vec<Span>, AllocError> {
    let tokens = tokens_of(alloc, note)?;
    let mut found = Conjuncts::new(alloc);
    for token in &tokens {
        found.take(token)?;
    }
    Ok(found.all)
}
