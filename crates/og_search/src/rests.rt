//! Choices whose parts have facts in common, and their parts without these.
//!
//! In a blocking condition each part of a choice is a whole assertion, so most of its facts stand
//! in the parts of all other choices too. Once the search is in a part of one of them, they are
//! known, and need not be looked at in the others.

use og_search_choices::{Atom, Chains, Choice, Part, mark_of_atom};
use std::alloc::{AllocError, Global};

/// The fewest facts of a choice that is looked at.
const LARGE: usize = 32;

/// The fewest facts in common for which it is worth it.
const FEWEST: usize = 8;

/// Choices of a condition that have facts in common, without these: by their numbers.
#[derive(Drop)]
pub(crate) struct Rests {
    rests: Vec<Option<Choice>>,
}

// Whether an inequality of the part is false of all values.
fn is_false(part: &Part) -> bool {
    let mut atoms = part.atoms.iter();
    atoms.any(|atom| atom.form.terms.is_empty() && atom.form.constant > 0)
}

// The marks of the facts of a part.
fn marks_of(alloc: Global, part: &Part) -> Result<Chains, AllocError> {
    let mut marks = Chains::new(alloc, part.atoms.len().saturating_add(part.choices.len()))?;
    for atom in &part.atoms {
        marks.put(mark_of_atom(atom), atom.index)?;
    }
    for choice in &part.choices {
        marks.put(choice.mark, choice.index)?;
    }
    Ok(marks)
}

// Whether a mark is among them.
fn has(marks: &Chains, mark: u64) -> bool {
    marks.walk(mark).step().is_some()
}

// Those of the marks that are those of facts of the part.
fn within(alloc: Global, marks: &[u64], part: &Part) -> Result<Vec<u64>, AllocError> {
    let own = marks_of(alloc, part)?;
    let mut both = Vec::with_capacity(alloc, marks.len())?;
    for mark in marks {
        if has(&own, *mark) {
            both.push(*mark)?;
        }
    }
    Ok(both)
}

// Those of the marks that are those of facts of each part of the choice but the false ones.
fn within_all(alloc: Global, marks: Vec<u64>, choice: &Choice) -> Result<Vec<u64>, AllocError> {
    let mut left = marks;
    for part in &choice.parts {
        if !is_false(part) {
            left = within(alloc, &left, part)?;
        }
    }
    Ok(left)
}

// The marks of the facts of the first part of a choice that is not false.
fn first_marks(alloc: Global, choice: &Choice) -> Result<Vec<u64>, AllocError> {
    let mut marks = Vec::new(alloc);
    if let Some(part) = choice.parts.iter().find(|part| !is_false(part)) {
        for atom in &part.atoms {
            marks.push(mark_of_atom(atom))?;
        }
        for own in &part.choices {
            marks.push(own.mark)?;
        }
    }
    Ok(marks)
}

// The marks of the facts in common of the first two large choices.
fn shared(alloc: Global, choices: &[Choice]) -> Result<Vec<u64>, AllocError> {
    let mut large = choices.iter().filter(|choice| choice.size >= LARGE);
    let (Some(first), Some(second)) = (large.next(), large.next()) else {
        return Ok(Vec::new(alloc));
    };
    let marks = within_all(alloc, first_marks(alloc, first)?, first)?;
    within_all(alloc, marks, second)
}

fn copy_of(atom: &Atom) -> Result<Atom, AllocError> {
    Ok(Atom {
        index: atom.index,
        form: atom.form.copy()?,
        direction: atom.direction,
    })
}

// A copy of the atoms whose marks are not among these.
fn atoms_without(
    alloc: Global,
    atoms: &[Atom],
    marks: Option<&Chains>,
) -> Result<Vec<Atom>, AllocError> {
    let mut copies = Vec::new(alloc);
    for atom in atoms {
        if !matches!(marks, Some(marks) if has(marks, mark_of_atom(atom))) {
            copies.push(copy_of(atom)?)?;
        }
    }
    Ok(copies)
}

// A copy of the choices whose marks are not among these.
#[cycle(rests)]
fn choices_without(
    alloc: Global,
    choices: &[Choice],
    marks: Option<&Chains>,
) -> Result<Vec<Choice>, AllocError> {
    let mut copies = Vec::new(alloc);
    for choice in choices {
        if !matches!(marks, Some(marks) if has(marks, choice.mark)) {
            copies.push(choice_without(alloc, choice, None)?)?;
        }
    }
    Ok(copies)
}

// A copy of a choice, whose parts lack the facts with these marks.
#[cycle(rests)]
fn choice_without(
    alloc: Global,
    choice: &Choice,
    marks: Option<&Chains>,
) -> Result<Choice, AllocError> {
    let mut parts = Vec::with_capacity(alloc, choice.parts.len())?;
    let mut size = 0usize;
    for part in &choice.parts {
        let atoms = atoms_without(alloc, &part.atoms, marks)?;
        let choices = choices_without(alloc, &part.choices, marks)?;
        let rest = part.with_facts(atoms, choices);
        size = size.saturating_add(rest.size_of_facts());
        parts.push(rest)?;
    }
    Ok(Choice {
        index: choice.index,
        parts,
        size,
        mark: choice.mark,
        variables: choice.variables,
    })
}

// The choice without the facts with these marks, if it is large and each of its parts but the false
// ones has them all.
fn rest_of(
    alloc: Global,
    choice: &Choice,
    shared: &[u64],
    marks: &Chains,
) -> Result<Option<Choice>, AllocError> {
    if choice.size < LARGE {
        return Ok(None);
    }
    for part in &choice.parts {
        if !is_false(part) && within(alloc, shared, part)?.len() < shared.len() {
            return Ok(None);
        }
    }
    Ok(Some(choice_without(alloc, choice, Some(marks))?))
}

impl Rests {
    /// Those of these choices. `AllocError` where an allocation was refused.
    pub(crate) fn new(alloc: Global, choices: &[Choice]) -> Result<Rests, AllocError> {
        let shared = shared(alloc, choices)?;
        let mut rests = Vec::new(alloc);
        if shared.len() >= FEWEST {
            let mut marks = Chains::new(alloc, shared.len())?;
            for mark in &shared {
                marks.put(*mark, 0)?;
            }
            for choice in choices {
                rests.push(rest_of(alloc, choice, &shared, &marks)?)?;
            }
        }
        Ok(Rests { rests })
    }

    /// The choice with this number without what the others have too, if it is one of these.
    pub(crate) fn of(&self, number: usize) -> Option<&Choice> {
        self.rests.get(number)?.as_ref()
    }
}
