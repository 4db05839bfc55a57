//! Choices each of whose parts is at odds with the facts of a part of another choice, by
//! themselves.

use crate::chains::Chains;
use crate::part::{Atom, Choice, Part};
use og_search_rows::next_mark;
use std::alloc::{AllocError, Global};

/// The most choices with the same key that are looked at.
const LOOK_LIMIT: usize = 8;

/// The most facts of a choice that is looked at with others of its key.
const SIZE_LIMIT: usize = 64;

/// The most facts of a choice that is looked at whatever its key, and of the part.
const SMALL: usize = 24;

/// Whether an inequality of a part is at odds with one of the other, or so is each part of one of
/// its choices.
#[cycle(denying)]
pub fn is_denied(part: &Part, by: &Part) -> bool {
    if by.contradicts(part) {
        return true;
    }
    for choice in &part.choices {
        if are_denied(&choice.parts, by) {
            return true;
        }
    }
    false
}

// Whether each of the parts is at odds with the facts of the other one.
#[cycle(denying)]
fn are_denied(parts: &[Part], by: &Part) -> bool {
    for part in parts {
        if !is_denied(part, by) {
            return false;
        }
    }
    true
}

/// The first choice of a part each of whose parts is at odds with the facts of the other one.
pub fn denied_choice<'p>(part: &'p Part, by: &Part) -> Option<&'p Choice> {
    for choice in &part.choices {
        if are_denied(&choice.parts, by) {
            return Some(choice);
        }
    }
    None
}

// Whether the two parts are at odds.
fn are_opposite(part: &Part, other: &Part) -> bool {
    is_denied(part, other) || denied_choice(other, part).is_some()
}

// Whether each part of the choice is at odds with the facts of the other one.
fn is_refuted(choice: &Choice, other: &Part) -> bool {
    for part in &choice.parts {
        if !are_opposite(part, other) {
            return false;
        }
    }
    true
}

// A number that is the same for terms and those of the other sign.
fn key_of_atom(atom: &Atom) -> u64 {
    next_mark(1, atom.direction.unwrap_or(0))
}

#[cycle(keys)]
fn key_of_part(part: &Part) -> u64 {
    let mut sum = 0u64;
    for atom in &part.atoms {
        sum = sum.wrapping_add(key_of_atom(atom));
    }
    for choice in &part.choices {
        sum = sum.wrapping_add(key_of_parts(&choice.parts));
    }
    sum
}

#[cycle(keys)]
fn key_of_parts(parts: &[Part]) -> u64 {
    let mut sum = 0u64;
    for part in parts {
        sum = sum.wrapping_add(key_of_part(part));
    }
    sum
}

/// The choices of a condition, by keys that each has in common with its negation.
#[derive(Drop)]
pub struct Denials {
    keys: Chains,
}

impl Denials {
    /// Those of these choices. `AllocError` where an allocation was refused.
    pub fn new(alloc: Global, choices: &[Choice]) -> Result<Denials, AllocError> {
        let mut keys = Chains::new(alloc, choices.len())?;
        for number in (0..choices.len()).rev() {
            keys.put(key_of_parts(&choices[number].parts), number)?;
        }
        Ok(Denials { keys })
    }

    /// The first of these choices with the key of the part each of whose parts is at odds with its
    /// facts.
    pub fn opposite<'c>(&self, choices: &'c [Choice], part: &Part) -> Option<&'c Choice> {
        let mut walk = self.keys.walk(key_of_part(part));
        for _ in 0..LOOK_LIMIT {
            let choice = choices.get(walk.step()?)?;
            if choice.size <= SIZE_LIMIT && is_refuted(choice, part) {
                return Some(choice);
            }
        }
        None
    }
}

/// The first of these choices with the fewest parts each of which is at odds with the facts of the
/// other part, where they are small.
pub fn refuted_by<'c>(choices: &'c [Choice], part: &Part) -> Option<&'c Choice> {
    if part.size() > SMALL {
        return None;
    }
    let mut best: Option<&Choice> = None;
    for choice in choices {
        let is_shorter = match best {
            Some(best) => choice.parts.len() < best.parts.len(),
            None => true,
        };
        let is_small = choice.size <= SMALL && choice.variables.may_meet(part.variables);
        if is_shorter && is_small && is_refuted(choice, part) {
            best = Some(choice);
        }
    }
    best
}
