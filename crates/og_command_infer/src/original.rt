//! The outline to which auxiliaries are added, and what is found of the outlines with them.

use crate::placing::joined;
use og_explore::Range;
use og_infer::{Addition, Inferred as Found};
use og_infer_marks::Edit;
use og_infer_places::Places;
use og_text::{LexError, Token, lex};
use std::alloc::{AllocError, Global};

/// An outline: its own text, its places, those of the actions of each process, and where its runs
/// start.
#[derive(Clone, Copy)]
pub(crate) struct Original<'s, 'o> {
    pub(crate) text: &'s [u8],
    pub(crate) places: &'s Places<'o>,
    pub(crate) actions: &'s [Vec<u32>],
    pub(crate) given: &'s [Option<Range>],
}

/// Where nothing is found.
pub(crate) fn not_found(alloc: Global) -> Found {
    Found {
        additions: Vec::new(alloc),
        unproved: None,
        is_final: false,
        tier: 0,
        questions: 0,
    }
}

// Which place has its note here.
fn index_of(places: &Places, at: u32) -> Option<usize> {
    let places = places.as_slice();
    for index in 0..places.len() {
        if places[index].note.at == at {
            return Some(index);
        }
    }
    None
}

/// What is added to notes of a changed outline, as what is added to those of the old one, which are
/// as many.
pub(crate) fn moved(
    alloc: Global,
    new: &Places,
    old: &Places,
    additions: Vec<Addition>,
) -> Result<Vec<Addition>, AllocError> {
    let mut moved = Vec::new(alloc);
    for addition in additions {
        let Some(index) = index_of(new, addition.at) else {
            continue;
        };
        if let Some(place) = old.as_slice().get(index) {
            moved.push(Addition {
                at: place.note.at,
                conjuncts: addition.conjuncts,
                assertions: addition.assertions,
            })?;
        }
    }
    Ok(moved)
}

/// The words of all these conjuncts.
pub(crate) fn words_of(alloc: Global, additions: &[Addition]) -> Result<Vec<Token>, AllocError> {
    let mut text = Vec::new(alloc);
    for addition in additions {
        text.extend_from_slice(&joined(alloc, &addition.conjuncts)?)?;
        text.extend_from_slice(b" ")?;
    }
    match lex(alloc, &text) {
        Ok(words) => Ok(words),
        Err(LexError::Memory) => Err(AllocError),
        Err(LexError::Fault(_)) => Ok(Vec::new(alloc)),
    }
}

/// All these edits, by rising places.
pub(crate) fn merged(mut some: Vec<Edit>, mut more: Vec<Edit>) -> Result<Vec<Edit>, AllocError> {
    some.append(&mut more)?;
    some.sort_by_key(|edit| edit.at)?;
    Ok(some)
}
