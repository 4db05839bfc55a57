//! Names that are like one that is not declared.

use crate::bytes::{front_of, word_at};
use og_template::{Word, WordKind, words};
use og_text::{LexError, TokenKind};
use std::alloc::{AllocError, Global};
use strsim::generic_levenshtein;

// How long a name is that may be meant where one letter differs.
const LONG: usize = 4;

// The name that a word is.
fn name_of(word: &Word) -> Option<&[u8]> {
    match &word.kind {
        WordKind::Lexeme(TokenKind::Name(name)) => Some(name.as_slice()),
        _ => None,
    }
}

// Whether two different names are the same in other letters.
fn is_in_other_letters(one: &[u8], other: &[u8]) -> bool {
    one != other && one.eq_ignore_ascii_case(other)
}

// Whether one letter more, less or in another's place makes the other name of a long one.
fn is_near(alloc: Global, one: &[u8], other: &[u8]) -> Result<bool, AllocError> {
    if one.len() < LONG || other.len() < LONG {
        return Ok(false);
    }
    Ok(generic_levenshtein(alloc, one, other)? == 1)
}

// The first name among the words that is this one in other letters.
fn in_other_letters<'a>(words: &'a [Word], name: &[u8]) -> Option<&'a [u8]> {
    for word in words {
        if let Some(other) = name_of(word) {
            if is_in_other_letters(name, other) {
                return Some(other);
            }
        }
    }
    None
}

// The first name among the words that is near this one.
fn near<'a>(alloc: Global, words: &'a [Word], name: &[u8]) -> Result<Option<&'a [u8]>, AllocError> {
    for word in words {
        if let Some(other) = name_of(word) {
            if is_near(alloc, name, other)? {
                return Ok(Some(other));
            }
        }
    }
    Ok(None)
}

// The first name among the words that may be meant by this one.
fn like(alloc: Global, words: &[Word], name: &[u8]) -> Result<Option<Vec<u8>>, AllocError> {
    let found = match in_other_letters(words, name) {
        Some(found) => Some(found),
        None => near(alloc, words, name)?,
    };
    match found {
        Some(found) => Ok(Some(Vec::from_slice(alloc, found)?)),
        None => Ok(None),
    }
}

/// The first name before a place that is the one at the place in other letters, or else but for one
/// letter.
///
/// # Errors
///
/// An allocation was refused.
pub(crate) fn similar_name(
    alloc: Global,
    source: &[u8],
    at: u32,
) -> Result<Option<Vec<u8>>, AllocError> {
    let place = at as usize;
    match words(alloc, front_of(source, place)) {
        Ok(words) => like(alloc, &words, word_at(source, place)),
        Err(LexError::Memory) => Err(AllocError),
        Err(LexError::Fault(_)) => Ok(None),
    }
}
