//! What a name stands for.

use crate::declaring::{Symbol, SymbolKind, symbols};
use crate::names::spans_of;
use og_template::{Special, Word, WordKind};
use og_text::{Span, TokenKind};
use std::alloc::{AllocError, Global};

/// What a name stands for, and where it is assigned.
#[derive(Drop)]
pub struct Meaning {
    pub kind: SymbolKind,
    /// Its declaration behind the word that begins it, as `x`, `ghost = 0` or `wants[1 .. n]`.
    pub declaration: Span,
    /// The assignments to it, as `x := x + 1`, in their order.
    pub assignments: Vec<Span>,
}

// How many brackets are open behind a word.
fn depth_behind(depth: u32, word: &Word) -> u32 {
    match &word.kind {
        WordKind::Lexeme(TokenKind::OpenParen) | WordKind::Special(Special::OpenBracket) => {
            depth.saturating_add(1)
        }
        WordKind::Lexeme(TokenKind::CloseParen) | WordKind::Special(Special::CloseBracket) => {
            depth.saturating_sub(1)
        }
        _ => depth,
    }
}

// Whether a declaration ends in front of a word outside of brackets. A named assertion has commas.
fn ends_declaration(kind: SymbolKind, word: &Word) -> bool {
    match &word.kind {
        WordKind::Lexeme(TokenKind::Comma) => kind != SymbolKind::Assertion,
        WordKind::Lexeme(TokenKind::Semicolon) => true,
        _ => false,
    }
}

// Where a declaration ends, by the words from its name on.
fn declaration_end(kind: SymbolKind, words: &[Word]) -> u32 {
    let (mut depth, mut end): (u32, u32) = (0, 0);
    for word in words {
        if depth == 0 && ends_declaration(kind, word) {
            break;
        }
        depth = depth_behind(depth, word);
        end = word.span.end;
    }
    end
}

// Whether an assignment ends in front of a word.
fn ends_assignment(word: &Word) -> bool {
    matches!(
        &word.kind,
        WordKind::Lexeme(TokenKind::Semicolon | TokenKind::OpenBrace | TokenKind::End)
    )
}

// Where an assignment ends, by the words from what it assigns on.
fn assignment_end(words: &[Word]) -> u32 {
    let mut end: u32 = 0;
    for word in words {
        if ends_assignment(word) {
            break;
        }
        end = word.span.end;
    }
    end
}

// The words behind the index of a cell, if one comes first.
fn behind_index(words: &[Word]) -> &[Word] {
    let mut depth: u32 = 0;
    for (at, word) in words.iter().enumerate() {
        depth = depth_behind(depth, word);
        if depth == 0 {
            let is_closed = matches!(&word.kind, WordKind::Special(Special::CloseBracket));
            return if is_closed {
                &words[at + 1..]
            } else {
                &words[at..]
            };
        }
    }
    words
}

// Whether what the first word names is assigned there.
fn is_assigned(words: &[Word]) -> bool {
    let [_, rest @ ..] = words else {
        return false;
    };
    match behind_index(rest) {
        [mark, ..] => matches!(&mark.kind, WordKind::Lexeme(TokenKind::Assign)),
        [] => false,
    }
}

// The assignment that begins with the first word.
fn assignment_at(words: &[Word]) -> Option<Span> {
    if !is_assigned(words) {
        return None;
    }
    let start = words.first()?.span.start;
    let end = assignment_end(words);
    Some(Span { start, end })
}

// The words from a place on.
fn words_from(all: &[Word], start: u32) -> &[Word] {
    for (at, word) in all.iter().enumerate() {
        if word.span.start >= start {
            return &all[at..];
        }
    }
    &[]
}

// The assignments that begin at some places.
fn assignments_at(alloc: Global, all: &[Word], spans: &[Span]) -> Result<Vec<Span>, AllocError> {
    let (mut found, mut rest) = (Vec::new(alloc), all);
    for span in spans {
        rest = words_from(rest, span.start);
        if let Some(assignment) = assignment_at(rest) {
            found.push(assignment)?;
        }
    }
    Ok(found)
}

// Of what is declared that which has its name at one of these places.
fn declared_at(all: &[Symbol], spans: &[Span]) -> Option<Symbol> {
    for symbol in all {
        let is_process = matches!(symbol.kind, SymbolKind::Process(_));
        if !is_process && spans.contains(&symbol.name) {
            return Some(*symbol);
        }
    }
    None
}

/// What a name stands for in a text with these words; nothing where it is not declared, as the
/// parameters and the bound names of a template.
///
/// # Errors
///
/// An allocation was refused.
pub fn meaning_of(alloc: Global, all: &[Word], name: &[u8]) -> Result<Option<Meaning>, AllocError> {
    let spans = spans_of(alloc, all, name)?;
    let declared = symbols(alloc, all)?;
    let Some(symbol) = declared_at(&declared, &spans) else {
        return Ok(None);
    };
    let start = symbol.name.start;
    let end = declaration_end(symbol.kind, words_from(all, start));
    Ok(Some(Meaning {
        kind: symbol.kind,
        declaration: Span { start, end },
        assignments: assignments_at(alloc, all, &spans)?,
    }))
}
