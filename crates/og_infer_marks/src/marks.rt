//! The auxiliaries of a plan, and the assignments to them.

use crate::naming::free_base;
use crate::plan::{Plan, Style};
use crate::reaching::next_of;
use og_infer_places::Places;
use og_text::{Token, TokenKind};
use std::alloc::{AllocError, Global};

// An assignment of a number to an auxiliary, which goes by its number.
#[derive(Clone, Copy)]
struct Mark {
    variable: usize,
    value: u32,
}

// The assignments of the action at a place.
#[derive(Drop)]
struct Marked {
    place: u32,
    marks: Vec<Mark>,
}

/// Auxiliaries, and which actions set them to what.
#[derive(Drop)]
pub struct Marks {
    names: Vec<String>,
    // The number of the first auxiliary of each process.
    firsts: Vec<usize>,
    // Which of them are not left out.
    used: Vec<bool>,
    // By rising places.
    actions: Vec<Marked>,
}

// Whether one of the words is this name.
fn is_named(words: &[Token], name: &[u8]) -> bool {
    for word in words {
        if matches!(&word.kind, TokenKind::Name(other) if other.as_slice() == name) {
            return true;
        }
    }
    false
}

// The actions of a process that set something: their places, their numbers among all its actions,
// counted from 1, and their values.
#[derive(Drop)]
struct KeptActions {
    places: Vec<u32>,
    numbers: Vec<usize>,
    values: Vec<u32>,
}

fn kept(alloc: Global, actions: &[u32], values: &[Option<u32>]) -> Result<KeptActions, AllocError> {
    let mut kept = KeptActions {
        places: Vec::new(alloc),
        numbers: Vec::new(alloc),
        values: Vec::new(alloc),
    };
    let mut number = 0usize;
    for (place, value) in actions.iter().zip(values) {
        number = number.saturating_add(1);
        if let Some(value) = value {
            kept.places.push(*place)?;
            kept.numbers.push(number)?;
            kept.values.push(*value)?;
        }
    }
    Ok(kept)
}

// The actions at these places, which set nothing yet.
fn unmarked(alloc: Global, places: &[u32]) -> Result<Vec<Marked>, AllocError> {
    let mut actions = Vec::new(alloc);
    for place in places {
        actions.push(Marked {
            place: *place,
            marks: Vec::new(alloc),
        })?;
    }
    Ok(actions)
}

// Adds a mark of the action with this index.
fn add_mark(actions: &mut [Marked], index: usize, mark: Mark) -> Result<(), AllocError> {
    match actions.get_mut(index) {
        Some(marked) => Ok(marked.marks.push(mark)?),
        None => Ok(()),
    }
}

// Each of these actions but the one with this index clears the auxiliary.
fn clear(
    actions: &mut [Marked],
    next: &[usize],
    index: usize,
    variable: usize,
) -> Result<(), AllocError> {
    for other in next {
        if *other != index {
            add_mark(actions, *other, Mark { variable, value: 0 })?;
        }
    }
    Ok(())
}

// The actions that may come after another one clear its auxiliary; theirs go from this number on.
fn clear_all(
    alloc: Global,
    places: &Places,
    actions: &mut [Marked],
    kept: &[u32],
    first: usize,
) -> Result<(), AllocError> {
    for (index, place) in kept.iter().enumerate() {
        let next = next_of(alloc, places, *place, kept)?;
        clear(actions, &next, index, first.saturating_add(index))?;
    }
    Ok(())
}

// Each action sets its own auxiliary.
fn set_own(actions: &mut [Marked], first: usize) -> Result<(), AllocError> {
    let mut variable = first;
    for marked in actions {
        marked.marks.push(Mark { variable, value: 1 })?;
        variable = variable.saturating_add(1);
    }
    Ok(())
}

// Each action sets the one auxiliary to its value.
fn set_values(actions: &mut [Marked], values: &[u32], variable: usize) -> Result<(), AllocError> {
    for (marked, value) in actions.iter_mut().zip(values) {
        marked.marks.push(Mark {
            variable,
            value: *value,
        })?;
    }
    Ok(())
}

impl Marks {
    fn add_name(&mut self, name: String) -> Result<(), AllocError> {
        self.used.push(true)?;
        Ok(self.names.push(name)?)
    }

    // An auxiliary of a process, counted from 1, and what its actions set it to.
    fn add_counter(
        &mut self,
        alloc: Global,
        name: String,
        kept: &KeptActions,
    ) -> Result<(), AllocError> {
        if kept.places.is_empty() {
            return Ok(());
        }
        let mut actions = unmarked(alloc, &kept.places)?;
        set_values(&mut actions, &kept.values, self.names.len())?;
        self.add_name(name)?;
        self.actions.append(&mut actions)
    }

    // The names of one auxiliary for each action of a process.
    fn add_names(
        &mut self,
        alloc: Global,
        start: &str,
        numbers: &[usize],
    ) -> Result<(), AllocError> {
        for number in numbers {
            let name = format!(in alloc; "{start}_{number}")?;
            self.add_name(name)?;
        }
        Ok(())
    }

    // An auxiliary of each action of a process.
    fn add_flags(
        &mut self,
        alloc: Global,
        places: &Places,
        start: &str,
        kept: &KeptActions,
    ) -> Result<(), AllocError> {
        let first = self.names.len();
        let mut actions = unmarked(alloc, &kept.places)?;
        clear_all(alloc, places, &mut actions, &kept.places, first)?;
        set_own(&mut actions, first)?;
        self.add_names(alloc, start, &kept.numbers)?;
        self.actions.append(&mut actions)
    }

    /// The auxiliaries of a plan for the actions of each process, with names that no name of the
    /// outline begins with.
    ///
    /// # Errors
    ///
    /// An allocation was refused.
    pub fn of(
        alloc: Global,
        places: &Places,
        actions: &[Vec<u32>],
        plan: &Plan,
    ) -> Result<Marks, AllocError> {
        let base = free_base(alloc, places.outline().names())?;
        let mut marks = Marks {
            names: Vec::new(alloc),
            firsts: Vec::new(alloc),
            used: Vec::new(alloc),
            actions: Vec::new(alloc),
        };
        let mut process = 0usize;
        for (of_process, values) in actions.iter().zip(&plan.values) {
            process = process.saturating_add(1);
            marks.firsts.push(marks.names.len())?;
            let name = format!(in alloc; "{base}{process}")?;
            let kept = kept(alloc, of_process, values)?;
            match plan.style {
                Style::Counter => marks.add_counter(alloc, name, &kept)?,
                Style::Flags => marks.add_flags(alloc, places, &name, &kept)?,
            }
        }
        Ok(marks)
    }

    // Adds what an action sets the auxiliaries to, each assignment behind another one.
    fn put_marks(&self, text: &mut String, marks: &[Mark]) -> Result<(), AllocError> {
        for mark in marks {
            if let (Some(name), Some(true)) = (
                self.names.get(mark.variable),
                self.used.get(mark.variable),
            ) {
                let alloc = *text.allocator();
                text.push_str(&format!(in alloc; "; {name} := {}", mark.value)?)?;
            }
        }
        Ok(())
    }

    /// What is added behind each action, `; at1 := 2`, by rising numbers of places. Actions that
    /// set nothing are left out.
    ///
    /// # Errors
    ///
    /// An allocation was refused.
    pub(crate) fn assignments(&self, alloc: Global) -> Result<Vec<(u32, String)>, AllocError> {
        let mut all = Vec::new(alloc);
        for marked in &self.actions {
            let mut text = String::new(alloc);
            self.put_marks(&mut text, &marked.marks)?;
            if !text.is_empty() {
                all.push((marked.place, text))?;
            }
        }
        Ok(all)
    }

    /// The names of the auxiliaries that are not left out, each 0 at the start.
    ///
    /// # Errors
    ///
    /// An allocation was refused.
    pub fn names(&self, alloc: Global) -> Result<Vec<&str>, AllocError> {
        let mut names = Vec::new(alloc);
        for (name, is_used) in self.names.iter().zip(&self.used) {
            if *is_used {
                names.push(name.as_str())?;
            }
        }
        Ok(names)
    }

    // The auxiliaries of a process, counted from 0, that are not left out.
    fn used_of(&self, alloc: Global, process: usize) -> Result<Vec<usize>, AllocError> {
        let next = process.saturating_add(1);
        let start = self.firsts.get(process).copied().unwrap_or(0);
        let end = self.firsts.get(next).copied().unwrap_or(self.names.len());
        let mut used = Vec::new(alloc);
        for variable in start..end {
            if self.used.get(variable) == Some(&true) {
                used.push(variable)?;
            }
        }
        Ok(used)
    }

    // What the action at a place sets an auxiliary to.
    fn value_at(&self, place: u32, variable: usize) -> Option<u32> {
        let marked = self.actions.iter().find(|marked| marked.place == place)?;
        let mark = marked.marks.iter().find(|mark| mark.variable == variable)?;
        Some(mark.value)
    }

    fn values_at(
        &self,
        alloc: Global,
        places: &[u32],
        variable: Option<usize>,
    ) -> Result<Vec<Option<u32>>, AllocError> {
        let mut values = Vec::new(alloc);
        for place in places {
            values.push(variable.and_then(|variable| self.value_at(*place, variable)))?;
        }
        Ok(values)
    }

    /// The plan of counters by which each process sets one auxiliary as it sets the one flag that is
    /// not left out. None where a process has several.
    ///
    /// # Errors
    ///
    /// An allocation was refused.
    pub fn counters(
        &self,
        alloc: Global,
        actions: &[Vec<u32>],
    ) -> Result<Option<Plan>, AllocError> {
        let mut values = Vec::new(alloc);
        for (process, places) in actions.iter().enumerate() {
            let used = self.used_of(alloc, process)?;
            if used.len() > 1 {
                return Ok(None);
            }
            values.push(self.values_at(alloc, places, used.first().copied())?)?;
        }
        Ok(Some(Plan {
            style: Style::Counter,
            values,
        }))
    }

    /// Leaves out the auxiliaries that none of these words names, and the assignments to them.
    pub fn leave_out(&mut self, words: &[Token]) {
        for (name, is_used) in self.names.iter().zip(&mut self.used) {
            *is_used = is_named(words, name.as_bytes());
        }
    }
}
