//! The texts of what is added.

use crate::limits::Addition;
use og_infer_candidates::{Candidate, Universe};
use og_infer_places::Places;
use og_infer_rounds::{Lists, Role, count_of};
use og_text::Name;
use og_typed::Assert;
use std::alloc::{AllocError, Global};

// Where the candidate comes among these, which are in the order of printing.
fn position(universe: &Universe, ordered: &[&Candidate], candidate: &Candidate) -> usize {
    for (index, other) in ordered.iter().enumerate() {
        if candidate.printed_before(other, universe) {
            return index;
        }
    }
    ordered.len()
}

// The candidates of a place that are left and that the author does not say, in the order of
// printing.
fn ordered<'l>(
    alloc: Global,
    universe: &Universe,
    lists: &'l Lists,
    place: u32,
    author: &Assert,
) -> Result<Vec<&'l Candidate>, AllocError> {
    let mut ordered = Vec::new(alloc);
    for listed in lists.at(place) {
        let candidate = &listed.candidate;
        if listed.role != Role::Out && !candidate.is_said(alloc, universe, author)? {
            let at = position(universe, &ordered, candidate);
            if at <= ordered.len() {
                ordered.insert(at, candidate)?;
            }
        }
    }
    Ok(ordered)
}

// The texts of these. One with an `or` is in parentheses where something stands beside it.
fn texts(
    alloc: Global,
    names: &[Name],
    universe: &Universe,
    candidates: &[&Candidate],
    author: &Assert,
) -> Result<Vec<Vec<u8>>, AllocError> {
    let is_alone = candidates.len() == 1 && matches!(author, Assert::True);
    let mut texts = Vec::with_capacity(alloc, candidates.len())?;
    for candidate in candidates {
        let mut text = Vec::new(alloc);
        candidate.write(&mut text, universe, names, !is_alone)?;
        texts.push(text)?;
    }
    Ok(texts)
}

// The same as assertions.
fn assertions(
    alloc: Global,
    universe: &Universe,
    candidates: &[&Candidate],
) -> Result<Vec<Assert>, AllocError> {
    let mut assertions = Vec::with_capacity(alloc, candidates.len())?;
    for candidate in candidates {
        assertions.push(candidate.assertion(alloc, universe)?)?;
    }
    Ok(assertions)
}

/// What is added to each place that has candidates which the author does not say.
pub(crate) fn additions(
    alloc: Global,
    places: &Places,
    universe: &Universe,
    lists: &Lists,
) -> Result<Vec<Addition>, AllocError> {
    let names = places.outline().names();
    let mut additions = Vec::new(alloc);
    for number in 0..count_of(places.as_slice().len()) {
        let Some(place) = places.place(number) else {
            break;
        };
        let author = &place.note.assertion;
        let candidates = ordered(alloc, universe, lists, number, author)?;
        if !candidates.is_empty() {
            additions.push(Addition {
                at: place.note.at,
                conjuncts: texts(alloc, names, universe, &candidates, author)?,
                assertions: assertions(alloc, universe, &candidates)?,
            })?;
        }
    }
    Ok(additions)
}
