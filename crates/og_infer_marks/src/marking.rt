//! Marks as edits of a text.

use crate::edit::Edit;
use crate::marks::Marks;
use og_infer_places::Places;
use og_text::{LexError, Token, TokenKind, lex};
use std::alloc::{AllocError, Global};

// The end of the last token in front of the first semicolon behind this index, and of that.
fn declaration(tokens: &[Token], index: usize) -> Option<(u32, u32)> {
    let behind = tokens.get(index..)?;
    let semicolon = behind
        .iter()
        .position(|token| matches!(token.kind, TokenKind::Semicolon))?;
    let last = behind.get(semicolon.checked_sub(1)?)?;
    Some((last.span.end, behind.get(semicolon)?.span.end))
}

// The end of the line on which the text goes on behind this place, if no word follows there.
fn line_end(text: &[u8], at: u32, next: u32) -> Option<u32> {
    let rest = text.get(at as usize..next as usize)?;
    let length = rest
        .iter()
        .position(|byte| *byte == b'\r' || *byte == b'\n')?;
    at.checked_add(u32::try_from(length).ok()?)
}

// `at1 = 0`, and the same of each other name, with commas between.
fn values_text(alloc: Global, names: &[&str]) -> Result<String, AllocError> {
    let mut text = String::new(alloc);
    for (index, name) in names.iter().enumerate() {
        let comma = if index == 0 { "" } else { ", " };
        text.push_str(&format!(in alloc; "{comma}{name} = 0")?)?;
    }
    Ok(text)
}

// How the text ends its lines.
fn newline(text: &[u8]) -> &'static str {
    if text.contains(&b'\r') { "\r\n" } else { "\n" }
}

fn insertion(at: u32, text: String) -> Edit {
    Edit {
        at,
        end: at,
        text: text.into_bytes(),
    }
}

// Where the declaration of the auxiliaries of the outline ends, in front of its semicolon.
fn auxiliaries_end(tokens: &[Token]) -> Option<u32> {
    let index = tokens
        .iter()
        .position(|token| matches!(token.kind, TokenKind::Aux))?;
    Some(declaration(tokens, index)?.0)
}

// Where the declaration of the variables ends, and where the next word begins.
fn variables_end(tokens: &[Token]) -> Option<(u32, u32)> {
    let index = tokens
        .iter()
        .position(|token| matches!(token.kind, TokenKind::Var))?;
    let end = declaration(tokens, index)?.1;
    let next = tokens.iter().find(|token| token.span.start >= end)?;
    Some((end, next.span.start))
}

// The edit that declares auxiliaries with these values: among the others, or behind the variables,
// or in front of this place.
fn declared(
    alloc: Global,
    text: &[u8],
    tokens: &[Token],
    values: &str,
    first: u32,
) -> Result<Edit, AllocError> {
    let newline = newline(text);
    if let Some(at) = auxiliaries_end(tokens) {
        return Ok(insertion(at, format!(in alloc; ", {values}")?));
    }
    let Some((end, next)) = variables_end(tokens) else {
        return Ok(insertion(first, format!(in alloc; "aux {values};{newline}")?));
    };
    Ok(match line_end(text, end, next) {
        Some(at) => insertion(at, format!(in alloc; "{newline}aux {values};")?),
        None => insertion(end, format!(in alloc; " aux {values};")?),
    })
}

// The words of the statement behind the note whose brace opens at a place.
fn statement(tokens: &[Token], open: u32) -> Option<&[Token]> {
    let note = tokens.get(tokens.partition_point(|token| token.span.start < open)..)?;
    let close = note
        .iter()
        .position(|token| matches!(token.kind, TokenKind::CloseBrace))?;
    let behind = note.get(close.checked_add(1)?..)?;
    let length = behind
        .iter()
        .position(|token| matches!(token.kind, TokenKind::OpenBrace))?;
    behind.get(..length)
}

// The first word of the body of an `await`; none of another statement.
fn body(words: &[Token]) -> Option<&Token> {
    let then = words
        .iter()
        .position(|token| matches!(token.kind, TokenKind::Then))?;
    words.get(then.checked_add(1)?)
}

// Adds the edits that put the action between these words, and these assignments behind it.
fn wrap(
    alloc: Global,
    at: u32,
    end: u32,
    start: &str,
    assignments: &str,
    edits: &mut Vec<Edit>,
) -> Result<(), AllocError> {
    edits.push(insertion(at, String::from_str(alloc, start)?))?;
    edits.push(insertion(end, format!(in alloc; "{assignments} end")?))?;
    Ok(())
}

// Adds the edits that add these assignments to the action with these words.
fn add_action(
    alloc: Global,
    words: &[Token],
    assignments: String,
    edits: &mut Vec<Edit>,
) -> Result<(), AllocError> {
    let [first, .., inner, last] = words else {
        return Ok(());
    };
    let (at, end) = (first.span.start, last.span.end);
    match body(words) {
        None => wrap(
            alloc,
            at,
            end,
            "await true then begin ",
            &assignments,
            edits,
        ),
        Some(body) if matches!(body.kind, TokenKind::Begin) => {
            Ok(edits.push(insertion(inner.span.end, assignments))?)
        }
        Some(body) => wrap(alloc, body.span.start, end, "begin ", &assignments, edits),
    }
}

impl Marks {
    // Adds the edits that make each action set its auxiliaries.
    fn add_actions(
        &self,
        alloc: Global,
        places: &Places,
        tokens: &[Token],
        edits: &mut Vec<Edit>,
    ) -> Result<(), AllocError> {
        for (number, assignments) in self.assignments(alloc)? {
            let words = match places.place(number) {
                Some(place) => statement(tokens, place.note.at),
                None => None,
            };
            if let Some(words) = words {
                add_action(alloc, words, assignments, edits)?;
            }
        }
        Ok(())
    }

    /// The edits, by rising places, that declare the auxiliaries in the text of the outline with
    /// these places, and make its actions set them. There are none where there is no auxiliary.
    ///
    /// # Errors
    ///
    /// An allocation was refused.
    pub fn edits(
        &self,
        alloc: Global,
        text: &[u8],
        places: &Places,
    ) -> Result<Vec<Edit>, AllocError> {
        let mut edits = Vec::new(alloc);
        let tokens = match lex(alloc, text) {
            Ok(tokens) => tokens,
            Err(LexError::Memory) => return Err(AllocError),
            Err(LexError::Fault(_)) => return Ok(edits),
        };
        let names = self.names(alloc)?;
        if let (Some(first), false) = (tokens.first(), names.is_empty()) {
            let values = values_text(alloc, &names)?;
            edits.push(declared(alloc, text, &tokens, &values, first.span.start)?)?;
            self.add_actions(alloc, places, &tokens, &mut edits)?;
        }
        Ok(edits)
    }
}
