//! The facts of a condition in the form in which they are searched.

use crate::chains::Chains;
use crate::likeness::mark_parts;
use og_search_rows::{Bounds, Inequality, Model, Variables};
use std::alloc::{AllocError, Global};

/// An inequality and its place among the facts that it stands with, from 0; and the direction of
/// its terms, where it becomes a row as it is.
#[derive(Drop)]
pub struct Atom {
    pub index: usize,
    pub form: Inequality,
    pub direction: Option<u64>,
}

/// Facts that stand together: those of a condition, or of a part of a choice.
#[cycle(part)]
#[derive(Drop)]
pub struct Part {
    alloc: Global,
    pub atoms: Vec<Atom>,
    pub choices: Vec<Choice>,
    pub count: usize,
    pub variables: Variables,
}

/// A choice of parts, its place among the facts that it stands with, from 0, how many facts there
/// are in its parts, in all, a number that is the same for equal parts, and the variables that
/// occur.
#[cycle(part)]
#[derive(Drop)]
pub struct Choice {
    pub index: usize,
    pub parts: Vec<Part>,
    pub size: usize,
    pub mark: u64,
    pub variables: Variables,
}

/// The facts known of the variables.
#[derive(Clone, Copy)]
pub enum Known<'a> {
    /// Their values.
    Values(&'a Model),
    /// Their bounds.
    Bounds(&'a Bounds),
}

impl Known<'_> {
    // Whether the inequality is then true.
    fn implies(self, form: &Inequality) -> bool {
        match self {
            Known::Values(model) => form.holds(model),
            Known::Bounds(bounds) => bounds.imply(form),
        }
    }
}

// The direction of the terms of an inequality of some variables that becomes a row as it is.
fn direction_of_row(form: &Inequality) -> Option<u64> {
    if form.is_large() || form.divisor() != 1 {
        return None;
    }
    Some(form.direction())
}

impl Atom {
    /// Whether the terms of the two are opposite, and their sum is above 0.
    pub fn is_at_odds(&self, other: &Atom) -> bool {
        let sum = self.form.constant.checked_add(other.form.constant);
        matches!(sum, Some(sum) if sum > 0) && self.form.is_opposite(&other.form)
    }
}

impl Part {
    /// The numbers of the inequalities by the directions of their terms, where they have one.
    /// `AllocError` where an allocation was refused.
    pub fn directions(&self) -> Result<Chains, AllocError> {
        let mut directions = Chains::new(self.alloc, self.atoms.len())?;
        for (number, atom) in self.atoms.iter().enumerate() {
            if let Some(direction) = atom.direction {
                directions.put(direction, number)?;
            }
        }
        Ok(directions)
    }

    /// No facts, with room for this many inequalities. `AllocError` where an allocation was
    /// refused.
    pub fn new(alloc: Global, room: usize) -> Result<Part, AllocError> {
        Ok(Part {
            alloc,
            atoms: Vec::with_capacity(alloc, room)?,
            choices: Vec::new(alloc),
            count: 0,
            variables: Variables::NONE,
        })
    }

    // The place of one fact more.
    fn next_place(&mut self) -> usize {
        let place = self.count;
        self.count = place.saturating_add(1);
        place
    }

    /// Adds the fact that the inequality holds. `AllocError` where an allocation was refused.
    pub fn add_inequality(&mut self, form: Inequality) -> Result<(), AllocError> {
        let index = self.next_place();
        let direction = direction_of_row(&form);
        self.variables = self.variables.union(Variables::of(&form.terms));
        self.atoms.push(Atom {
            index,
            form,
            direction,
        })?;
        Ok(())
    }

    /// Adds the fact that all facts of one of the parts are true. `AllocError` where an allocation
    /// was refused.
    pub fn add_choice(&mut self, parts: Vec<Part>) -> Result<(), AllocError> {
        let index = self.next_place();
        self.read_choice(index, parts)
    }

    /// Adds the same at the place of a fact that was left unread.
    pub fn read_choice(&mut self, index: usize, parts: Vec<Part>) -> Result<(), AllocError> {
        let mut size = 0usize;
        let mut variables = Variables::NONE;
        for part in &parts {
            size = size.saturating_add(part.size());
            variables = variables.union(part.variables);
        }
        let mark = mark_parts(&parts);
        self.variables = self.variables.union(variables);
        self.choices.push(Choice {
            index,
            parts,
            size,
            mark,
            variables,
        })?;
        Ok(())
    }

    /// Adds a fact that no search looks at, unless it is read.
    pub fn add_unread(&mut self) {
        self.next_place();
    }

    /// How many facts there are, with those in the parts of choices.
    pub fn size(&self) -> usize {
        let mut size = self.count;
        for choice in &self.choices {
            size = size.saturating_add(choice.size);
        }
        size
    }

    /// How many facts it holds, with those in the parts of choices.
    pub fn size_of_facts(&self) -> usize {
        let mut size = self.atoms.len();
        for choice in &self.choices {
            size = size.saturating_add(choice.size).saturating_add(1);
        }
        size
    }

    /// A part of as many facts, of which it holds these, which are some of its own.
    pub fn with_facts(&self, atoms: Vec<Atom>, choices: Vec<Choice>) -> Part {
        Part {
            alloc: self.alloc,
            atoms,
            choices,
            count: self.count,
            variables: self.variables,
        }
    }

    /// Whether one of its inequalities is at odds with this one.
    pub(crate) fn is_at_odds(&self, atom: &Atom) -> bool {
        for own in &self.atoms {
            if own.is_at_odds(atom) {
                return true;
            }
        }
        false
    }

    /// Whether one of its inequalities is at odds with one of the other's.
    pub(crate) fn contradicts(&self, other: &Part) -> bool {
        for atom in &other.atoms {
            if self.is_at_odds(atom) {
                return true;
            }
        }
        false
    }

    /// Whether some inequality is false within the bounds.
    pub fn is_barred(&self, bounds: &Bounds) -> bool {
        for atom in &self.atoms {
            if bounds.exclude(&atom.form) {
                return true;
            }
        }
        false
    }

    // Whether each inequality is true by the known facts.
    fn atoms_follow(&self, known: Known) -> bool {
        for atom in &self.atoms {
            if !known.implies(&atom.form) {
                return false;
            }
        }
        true
    }
}

/// How many ways the bounds leave open, counted up to this many: none where an inequality is false
/// or a choice has no way, those of the choice where the part is a single choice, and else one.
#[cycle(width)]
pub fn width(part: &Part, bounds: &Bounds, most: usize) -> usize {
    if part.is_barred(bounds) {
        return 0;
    }
    let mut last = 1;
    for choice in &part.choices {
        last = ways(
            &choice.parts,
            bounds,
            if part.count == 1 { most } else { 1 },
        );
        if last == 0 {
            return 0;
        }
    }
    if part.count == 1 { last } else { 1 }
}

/// How many ways the bounds leave open in all parts, counted up to this many or a few more.
#[cycle(width)]
pub fn ways(parts: &[Part], bounds: &Bounds, most: usize) -> usize {
    let mut sum = 0usize;
    for part in parts {
        sum = sum.saturating_add(width(part, bounds, most));
        if sum >= most {
            break;
        }
    }
    sum
}

#[cycle(following)]
fn follows(part: &Part, known: Known) -> bool {
    if !part.atoms_follow(known) {
        return false;
    }
    for choice in &part.choices {
        if !some_follows(&choice.parts, known) {
            return false;
        }
    }
    true
}

/// Whether all facts of some part are true by the known facts.
#[cycle(following)]
pub fn some_follows(parts: &[Part], known: Known) -> bool {
    for part in parts {
        if follows(part, known) {
            return true;
        }
    }
    false
}
