//! Variables that stand for others.

use og_linear::Form;
use og_search_rows::next_mark;
use std::alloc::{AllocError, Global};

/// For each variable another one that stands for it, no two for the same. Those that nothing was
/// said of stand for themselves, as far as that can be.
#[derive(Drop)]
pub(crate) struct Renaming {
    // For each variable the one that stands for it, and the one that it stands for.
    names: Vec<u32>,
    origins: Vec<u32>,
    // Those of which something was said.
    paired: Vec<bool>,
    is_changed: bool,
    // Whether something else was said of one later.
    is_denied: bool,
}

// Each of this many variables.
fn each(alloc: Global, variables: u32) -> Result<Vec<u32>, AllocError> {
    let mut all = Vec::with_capacity(alloc, variables as usize)?;
    for var in 0..variables {
        all.push(var)?;
    }
    Ok(all)
}

// The variable that the list has at this one, or else the same.
fn at(list: &[u32], var: u32) -> u32 {
    match list.get(var as usize) {
        Some(other) => *other,
        None => var,
    }
}

impl Renaming {
    /// A label for each variable, and for those that stand for others the labels of these.
    pub(crate) fn labels(&self, alloc: Global) -> Result<Vec<u64>, AllocError> {
        let mut labels = Vec::with_capacity(alloc, self.names.len())?;
        for name in &self.names {
            labels.push(next_mark(0, u64::from(*name)))?;
        }
        Ok(labels)
    }

    /// Each of this many variables stands for itself.
    pub(crate) fn none(alloc: Global, variables: u32) -> Result<Renaming, AllocError> {
        Ok(Renaming {
            names: each(alloc, variables)?,
            origins: each(alloc, variables)?,
            paired: vec![in alloc; false; variables as usize]?,
            is_changed: false,
            is_denied: false,
        })
    }

    /// The variable that stands for this one.
    pub(crate) fn name(&self, var: u32) -> u32 {
        at(&self.names, var)
    }

    /// Whether another variable stands for this one.
    pub(crate) fn changes(&self, var: u32) -> bool {
        self.name(var) != var
    }

    /// Whether another variable stands for one of the form.
    pub(crate) fn changes_form(&self, form: &Form) -> bool {
        for i in 0..usize::MAX {
            match form.term(i) {
                Some((var, _)) if self.changes(var) => return true,
                Some(_) => {}
                None => return false,
            }
        }
        false
    }

    /// Whether each variable stands for itself.
    pub(crate) fn is_none(&self) -> bool {
        !self.is_changed
    }

    /// Whether something else was said of a variable than what holds.
    pub(crate) fn is_denied(&self) -> bool {
        self.is_denied
    }

    fn is_paired(&self, var: u32) -> bool {
        matches!(self.paired.get(var as usize), Some(true))
    }

    // Lets the second one stand for the first.
    fn set(&mut self, var: u32, name: u32) {
        if let Some(own) = self.names.get_mut(var as usize) {
            *own = name;
        }
        if let Some(own) = self.origins.get_mut(name as usize) {
            *own = var;
        }
    }

    /// Notes that the second variable stands for the first, unless something else was said of the
    /// first, or the second was said to stand for another one.
    pub(crate) fn note(&mut self, var: u32, name: u32) {
        let other = at(&self.origins, name);
        if self.is_paired(var) || self.is_paired(other) {
            self.is_denied |= self.name(var) != name;
            return;
        }
        let free = self.name(var);
        self.set(other, free);
        self.set(var, name);
        if let Some(paired) = self.paired.get_mut(var as usize) {
            *paired = true;
        }
        self.is_changed = true;
    }
}
