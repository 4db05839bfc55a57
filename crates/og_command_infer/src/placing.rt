//! Conjuncts that are added to notes, as edits of the text.

ghost use Rattle.std.specs.Prelude.{◌≡◌, true, All, IfOk, OnOk};
ghost use Rattle.og_command_infer.specs.Edits.{AreInBraces, IsInBraces};

use og_infer::Addition;
use og_infer_marks::Edit;
use og_text::{LexError, Token, TokenKind, lex};
use std::alloc::{AllocError, Global};

// Whether the place and the end lie between this opening brace and the next closing one.
fn are_in_braces(text: &[u8], open: u32, at: u32, end: u32) -> bool
    ensures { result ≡ true → AreInBraces text.now at end }
{
    let Some(inside) = text.get(open as usize..end as usize) else {
        return false;
    };
    let begins = text.get(open as usize) == Some(&b'{');
    open < at && at <= end && begins && !inside.contains(&b'}')
}

// The tokens behind the one that begins at a place.
fn behind_token(tokens: &[Token], start: u32) -> Option<&[Token]> {
    for index in 0..tokens.len() {
        if tokens[index].span.start == start {
            return tokens.get(index + 1..);
        }
    }
    None
}

// The tokens of a note, those of its braces left out.
fn note_tokens(tokens: &[Token], open: u32) -> Option<&[Token]> {
    let behind = behind_token(tokens, open)?;
    for len in 0..behind.len() {
        if matches!(behind[len].kind, TokenKind::CloseBrace) {
            return behind.get(..len);
        }
    }
    None
}

// Whether an `or` or an arrow stands in no parentheses: as a conjunct the whole is to stand in some.
fn is_loose(tokens: &[Token]) -> bool {
    let mut depth = 0u32;
    for token in tokens {
        match token.kind {
            TokenKind::OpenParen => depth = depth.saturating_add(1),
            TokenKind::CloseParen => depth = depth.saturating_sub(1),
            TokenKind::Or | TokenKind::Arrow if depth == 0 => return true,
            _ => {}
        }
    }
    false
}

// The conjuncts, joined by `and`.
pub(crate) fn joined(alloc: Global, conjuncts: &[Vec<u8>]) -> Result<Vec<u8>, AllocError> {
    let mut text = Vec::new(alloc);
    for (index, conjunct) in conjuncts.iter().enumerate() {
        if index > 0 {
            text.extend_from_slice(b" and ")?;
        }
        text.extend_from_slice(conjunct)?;
    }
    Ok(text)
}

// The text between these two.
fn between(alloc: Global, before: &[u8], added: &[u8]) -> Result<Vec<u8>, AllocError> {
    let mut text = Vec::from_slice(alloc, before)?;
    text.extend_from_slice(added)?;
    Ok(text)
}

// The note of a text whose brace opens at a place.
#[derive(Clone, Copy)]
struct Noted<'t> {
    text: &'t [u8],
    open: u32,
}

impl<'t> Noted<'t> {
    // Adds the edit, if it lies within the braces.
    fn push(
        &self,
        edits: &mut Vec<Edit>,
        at: u32,
        end: u32,
        text: Vec<u8>,
    ) -> Result<(), AllocError>
        ensures { OnOk result (All (IsInBraces self.now.text.now) edits.old.items
            → All (IsInBraces self.now.text.now) edits.new.items) }
    {
        if are_in_braces(self.text, self.open, at, end) {
            edits.push(Edit { at, end, text })?;
        }
        Ok(())
    }

    // Adds the edits that add conjuncts to what these tokens say.
    fn complete(
        &self,
        alloc: Global,
        tokens: &[Token],
        conjuncts: &[Vec<u8>],
        edits: &mut Vec<Edit>,
    ) -> Result<(), AllocError>
        ensures { OnOk result (All (IsInBraces self.now.text.now) edits.old.items
            → All (IsInBraces self.now.text.now) edits.new.items) }
    {
        let (Some(first), Some(last)) = (tokens.first(), tokens.last()) else {
            return Ok(());
        };
        let (at, end) = (first.span.start, last.span.end);
        // A comment may hold braces: such a note stays as it is.
        if !are_in_braces(self.text, self.open, at, end) {
            return Ok(());
        }
        let added = joined(alloc, conjuncts)?;
        if tokens.len() == 1 && matches!(first.kind, TokenKind::True) {
            return self.push(edits, at, end, added);
        }
        if is_loose(tokens) {
            self.push(edits, at, at, Vec::from_slice(alloc, b"(")?)?;
            return self.push(edits, end, end, between(alloc, b") and ", &added)?);
        }
        self.push(edits, end, end, between(alloc, b" and ", &added)?)
    }
}

/// The edits that add these conjuncts to notes of a text, in their order. A note that is `true` is
/// replaced; the conjuncts of another one stay, and stand first, in parentheses where they need
/// some. Nothing is added to a note that is not found.
///
/// # Errors
///
/// An allocation was refused.
pub(crate) fn edits(
    alloc: Global,
    text: &[u8],
    additions: &[Addition],
) -> Result<Vec<Edit>, AllocError>
    ensures { IfOk result (λ edits. All (IsInBraces text.now) edits.items) }
{
    let mut edits = Vec::new(alloc);
    let tokens = match lex(alloc, text) {
        Ok(tokens) => tokens,
        Err(LexError::Memory) => return Err(AllocError),
        Err(LexError::Fault(_)) => return Ok(edits),
    };
    for addition in additions {
        let note = Noted {
            text,
            open: addition.at,
        };
        if let Some(inner) = note_tokens(&tokens, addition.at) {
            note.complete(alloc, inner, &addition.conjuncts, &mut edits)?;
        }
    }
    Ok(edits)
}
