//! Refutations of a part by a choice each of whose parts is at odds with its facts, by themselves.

use crate::joined::Cases;
use crate::proof::{Multiple, Name, Proof, Tree};
use og_search_choices::{Choice, Part, denied_choice, is_denied};
use og_search_rows::{Levels, Place, TOP};
use std::alloc::{AllocError, Global};

/// A part whose facts stand at a level.
#[derive(Clone, Copy)]
pub struct Placed<'p> {
    pub part: &'p Part,
    pub level: u32,
}

// The fact at the place, once.
fn once(place: Place) -> Multiple {
    Multiple {
        times: 1,
        name: Name::Given(place),
    }
}

// The levels of two places.
fn levels_of(one: Place, other: Place) -> Levels {
    Levels::one(one.level).union(Levels::one(other.level))
}

// The leaf with the sum of two facts.
fn leaf_of(alloc: Global, first: Place, second: Place) -> Result<Proof, AllocError> {
    let lines = Vec::new(alloc);
    let end = vec![in alloc; once(first), once(second)]?;
    Ok(Proof {
        used: levels_of(first, second),
        tree: Tree::Leaf { lines, end },
    })
}

impl Placed<'_> {
    // The place of a fact of the part.
    fn place(self, index: usize) -> Place {
        let level = self.level;
        Place { level, index }
    }

    // The places of two inequalities, of the one part and of the other, that are at odds.
    fn odds(self, by: Placed) -> Option<(Place, Place)> {
        for atom in &self.part.atoms {
            let mut others = by.part.atoms.iter();
            if let Some(other) = others.find(|other| other.is_at_odds(atom)) {
                return Some((self.place(atom.index), by.place(other.index)));
            }
        }
        None
    }
}

// The refutation of a part by the facts of another one, where it has levels enough.
#[cycle(denial)]
fn denied(alloc: Global, one: Placed, by: Placed, below: u32) -> Result<Option<Proof>, AllocError> {
    if let Some((own, other)) = one.odds(by) {
        return Ok(Some(leaf_of(alloc, other, own)?));
    }
    match denied_choice(one.part, by.part) {
        Some(choice) => split(alloc, one.place(choice.index), &choice.parts, by, below),
        None => Ok(None),
    }
}

// The refutation of a choice at the place by the facts of a part.
#[cycle(denial)]
fn split(
    alloc: Global,
    choice: Place,
    parts: &[Part],
    by: Placed,
    below: u32,
) -> Result<Option<Proof>, AllocError> {
    let Some(level) = below.checked_sub(1) else {
        return Ok(None);
    };
    let mut cases = Cases::new(alloc, choice, parts.len())?;
    for part in parts {
        let Some(proof) = denied(alloc, Placed { part, level }, by, level)? else {
            return Ok(None);
        };
        cases.add(level, part.count, proof)?;
    }
    Ok(Some(cases.into_proof()))
}

// The refutation of two parts that are at odds.
fn opposed(
    alloc: Global,
    one: Placed,
    other: Placed,
    below: u32,
) -> Result<Option<Proof>, AllocError> {
    if is_denied(one.part, other.part) {
        return denied(alloc, one, other, below);
    }
    match denied_choice(other.part, one.part) {
        Some(choice) => split(alloc, other.place(choice.index), &choice.parts, one, below),
        None => Ok(None),
    }
}

/// The refutation of a part by this choice of the condition, if each part of that is at odds with
/// its facts, and there are levels enough below it.
pub fn denial(alloc: Global, choice: &Choice, part: Placed) -> Result<Option<Proof>, AllocError> {
    let Some(level) = part.level.checked_sub(1) else {
        return Ok(None);
    };
    let place = Place {
        level: TOP,
        index: choice.index,
    };
    let mut cases = Cases::new(alloc, place, choice.parts.len())?;
    for own in &choice.parts {
        let placed = Placed { part: own, level };
        let Some(proof) = opposed(alloc, placed, part, level)? else {
            return Ok(None);
        };
        cases.add(level, own.count, proof)?;
    }
    Ok(Some(cases.into_proof()))
}
