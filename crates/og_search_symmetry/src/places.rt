//! Counterparts in another list, by their marks.

use std::alloc::{AllocError, AllocFailed, Global};
use std::collections::BTreeMap;

/// For each place of a list the place of its counterpart in another one, if there is one.
#[derive(Drop)]
pub(crate) struct Places {
    places: Vec<Option<usize>>,
}

// The places of the marks.
fn by_mark(alloc: Global, marks: &[Option<u64>]) -> Result<BTreeMap<u64, usize>, AllocError> {
    let mut places = BTreeMap::new(alloc);
    for place in 0..marks.len() {
        if let Some(mark) = marks[place] {
            match places.insert(mark, place) {
                Ok(_) => {}
                Err(AllocFailed { .. }) => return Err(AllocError),
            }
        }
    }
    Ok(places)
}

// The counterpart of what stands at the place with this mark: what stands at the same place, where
// that has the same.
fn counterpart_of(
    known: &BTreeMap<u64, usize>,
    others: &[Option<u64>],
    place: usize,
    mark: Option<u64>,
) -> Option<usize> {
    match others.get(place) {
        Some(other) if *other == mark => Some(place),
        _ => known.get(&mark?).copied(),
    }
}

// Whether the marks are the same at each place.
fn are_same(marks: &[Option<u64>], others: &[Option<u64>]) -> bool {
    marks.len() == others.len() && marks.iter().zip(others).all(|(mark, other)| mark == other)
}

impl Places {
    // Each of this many places is its own counterpart.
    fn same(alloc: Global, count: usize) -> Result<Places, AllocError> {
        let mut places = Vec::with_capacity(alloc, count)?;
        for place in 0..count {
            places.push(Some(place))?;
        }
        Ok(Places { places })
    }

    /// The places of what has these marks among what has others.
    pub(crate) fn of(
        alloc: Global,
        marks: &[Option<u64>],
        others: &[Option<u64>],
    ) -> Result<Places, AllocError> {
        if are_same(marks, others) {
            return Places::same(alloc, marks.len());
        }
        let known = by_mark(alloc, others)?;
        let mut places = Vec::with_capacity(alloc, marks.len())?;
        for place in 0..marks.len() {
            places.push(counterpart_of(&known, others, place, marks[place]))?;
        }
        Ok(Places { places })
    }

    /// How many places the list has.
    pub(crate) fn len(&self) -> usize {
        self.places.len()
    }

    /// The place of the counterpart of what stands at this one.
    pub(crate) fn counterpart(&self, place: usize) -> Option<usize> {
        *self.places.get(place)?
    }
}
