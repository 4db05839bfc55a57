//! The marks of facts that may be counterparts.

use crate::lost::Lost;
use crate::marks::{NESTING_LIMIT, Terms, fact_mark, part_mark};
use crate::renaming::Renaming;
use og_facts::{Atom, Fact};
use std::alloc::Global;

/// Which variables of one list of facts stand for others in another one, and the labels of the
/// variables of both: those that stand for one another have the same.
#[derive(Clone, Copy)]
pub(crate) struct Sides<'a> {
    pub(crate) renaming: &'a Renaming,
    pub(crate) from: &'a [u64],
    pub(crate) to: &'a [u64],
}

/// The marks of two lists. There is none where no variable of either is renamed, so that the two
/// have the same there.
#[derive(Drop)]
pub(crate) struct Marks {
    pub(crate) from: Vec<Option<u64>>,
    pub(crate) to: Vec<Option<u64>>,
}

// Whether a variable of the inequality is renamed.
fn changes_atom(renaming: &Renaming, atom: &Atom) -> bool {
    let terms = Terms::of(atom);
    for i in 0..usize::MAX {
        match terms.get(i) {
            Some((var, _)) if renaming.changes(var) => return true,
            Some(_) => {}
            None => return false,
        }
    }
    false
}

#[cycle(changes)]
fn changes_fact(renaming: &Renaming, fact: &Fact, depth: u32) -> bool {
    match fact {
        Fact::Atom(atom) => changes_atom(renaming, atom),
        Fact::Split(parts) => match depth.checked_sub(1) {
            Some(below) => changes_choice(renaming, parts, below),
            None => true,
        },
    }
}

#[cycle(changes)]
fn changes_choice(renaming: &Renaming, parts: &[Vec<Fact>], depth: u32) -> bool {
    for part in parts {
        if changes_part(renaming, part, depth) {
            return true;
        }
    }
    false
}

#[cycle(changes)]
fn changes_part(renaming: &Renaming, part: &[Fact], depth: u32) -> bool {
    for fact in part {
        if changes_fact(renaming, fact, depth) {
            return true;
        }
    }
    false
}

impl Sides<'_> {
    // The marks of two facts at the same place.
    fn of_facts(self, from: &Fact, to: &Fact) -> (Option<u64>, Option<u64>) {
        let (renaming, limit) = (self.renaming, NESTING_LIMIT);
        if changes_fact(renaming, from, limit) || changes_fact(renaming, to, limit) {
            let mark = fact_mark(self.from, from, limit);
            (Some(mark), Some(fact_mark(self.to, to, limit)))
        } else {
            (None, None)
        }
    }

    // The marks of two parts at the same place.
    fn of_parts(self, from: &[Fact], to: &[Fact]) -> (Option<u64>, Option<u64>) {
        let (renaming, limit) = (self.renaming, NESTING_LIMIT);
        if changes_part(renaming, from, limit) || changes_part(renaming, to, limit) {
            let mark = part_mark(self.from, from, limit);
            (Some(mark), Some(part_mark(self.to, to, limit)))
        } else {
            (None, None)
        }
    }
}

impl Marks {
    fn new(alloc: Global, count: usize) -> Result<Marks, Lost> {
        Ok(Marks {
            from: Vec::with_capacity(alloc, count)?,
            to: Vec::with_capacity(alloc, count)?,
        })
    }

    fn push(&mut self, marks: (Option<u64>, Option<u64>)) -> Result<(), Lost> {
        let (from, to) = marks;
        self.from.push(from)?;
        self.to.push(to)?;
        Ok(())
    }

    /// Those of the facts of two parts.
    ///
    /// # Errors
    ///
    /// `Counterpart` where the parts are not of the same length. `Memory` where an allocation was
    /// refused.
    pub(crate) fn of_part(
        alloc: Global,
        sides: Sides,
        from: &[Fact],
        to: &[Fact],
    ) -> Result<Marks, Lost> {
        if from.len() != to.len() {
            return Err(Lost::Counterpart);
        }
        let mut marks = Marks::new(alloc, from.len())?;
        for i in 0..from.len() {
            marks.push(sides.of_facts(&from[i], &to[i]))?;
        }
        Ok(marks)
    }

    /// Those of two lists of facts. Where a choice is the last one of both, as the choices of goals
    /// are, it has none.
    ///
    /// # Errors
    ///
    /// As `of_part`.
    pub(crate) fn of_lists(
        alloc: Global,
        sides: Sides,
        from: &[Fact],
        to: &[Fact],
    ) -> Result<Marks, Lost> {
        match (from.split_last(), to.split_last()) {
            (Some((Fact::Split(_), first)), Some((Fact::Split(_), others))) => {
                let mut marks = Marks::of_part(alloc, sides, first, others)?;
                marks.push((None, None))?;
                Ok(marks)
            }
            _ => Marks::of_part(alloc, sides, from, to),
        }
    }

    /// Those of the parts of two choices.
    ///
    /// # Errors
    ///
    /// As `of_part`.
    pub(crate) fn of_parts(
        alloc: Global,
        sides: Sides,
        from: &[Vec<Fact>],
        to: &[Vec<Fact>],
    ) -> Result<Marks, Lost> {
        if from.len() != to.len() {
            return Err(Lost::Counterpart);
        }
        let mut marks = Marks::new(alloc, from.len())?;
        for i in 0..from.len() {
            marks.push(sides.of_parts(&from[i], &to[i]))?;
        }
        Ok(marks)
    }
}
