//! Which actions set an auxiliary.

use std::alloc::{AllocError, Global};

/// How a process tells where it stands.
#[derive(Clone, Copy, PartialEq, Eq)]
pub enum Style {
    /// One auxiliary of each process, `at1`, which each action sets to its value.
    Counter,
    /// One of each action, `at1_2`, which is 1 from that action to the next one.
    Flags,
}

/// Which actions of each process set an auxiliary, and to what.
#[derive(Drop)]
pub struct Plan {
    /// How they tell where the process stands.
    pub style: Style,
    /// For each process, for each of its actions in the order of the text, the value that it gives
    /// the auxiliary of a counter; none for an action that sets nothing.
    pub values: Vec<Vec<Option<u32>>>,
}

// The numbers from 1 to a count.
fn counted(alloc: Global, count: usize) -> Result<Vec<Option<u32>>, AllocError> {
    let mut values = Vec::new(alloc);
    let mut value = 0u32;
    for _ in 0..count {
        value = value.saturating_add(1);
        values.push(Some(value))?;
    }
    Ok(values)
}

// The values with this one changed.
fn changed(
    alloc: Global,
    values: &[Option<u32>],
    action: usize,
    value: Option<u32>,
) -> Result<Vec<Option<u32>>, AllocError> {
    let mut changed = Vec::from_slice(alloc, values)?;
    if let Some(old) = changed.get_mut(action) {
        *old = value;
    }
    Ok(changed)
}

// How many different values above 0 lie below this one.
fn rank(values: &[Option<u32>], value: u32) -> u32 {
    let mut rank = 0u32;
    for lower in 1..value {
        if values.contains(&Some(lower)) {
            rank = rank.saturating_add(1);
        }
    }
    rank
}

// The values numbered 0, 1, and so on, in their order.
fn renumbered(alloc: Global, values: &[Option<u32>]) -> Result<Vec<Option<u32>>, AllocError> {
    let mut renumbered = Vec::new(alloc);
    for value in values {
        let new = match value {
            Some(0) => Some(0),
            Some(value) => Some(rank(values, *value).saturating_add(1)),
            None => None,
        };
        renumbered.push(new)?;
    }
    Ok(renumbered)
}

impl Plan {
    /// The plan by which each of the actions, given for each process, sets the next number from 1.
    ///
    /// # Errors
    ///
    /// An allocation was refused.
    pub fn of_all(alloc: Global, style: Style, actions: &[Vec<u32>]) -> Result<Plan, AllocError> {
        let mut values = Vec::new(alloc);
        for of_process in actions {
            values.push(counted(alloc, of_process.len())?)?;
        }
        Ok(Plan { style, values })
    }

    /// The plan in which this action, counted from 0, of each of these processes, counted from 0,
    /// sets this value, or nothing.
    ///
    /// # Errors
    ///
    /// An allocation was refused.
    pub fn with(
        &self,
        alloc: Global,
        processes: &[usize],
        action: usize,
        value: Option<u32>,
    ) -> Result<Plan, AllocError> {
        let mut values = Vec::new(alloc);
        for (process, old) in self.values.iter().enumerate() {
            values.push(if processes.contains(&process) {
                changed(alloc, old, action, value)?
            } else {
                Vec::from_slice(alloc, old)?
            })?;
        }
        Ok(Plan {
            style: self.style,
            values,
        })
    }

    /// How many auxiliaries the plan has.
    pub fn auxiliaries(&self) -> usize {
        let mut auxiliaries = 0usize;
        for values in &self.values {
            let kept = values.iter().filter(|value| value.is_some()).count();
            let more = match self.style {
                Style::Counter => kept.min(1),
                Style::Flags => kept,
            };
            auxiliaries = auxiliaries.saturating_add(more);
        }
        auxiliaries
    }

    /// How many actions a process has, counted from 0.
    pub fn count(&self, process: usize) -> usize {
        match self.values.get(process) {
            Some(values) => values.len(),
            None => 0,
        }
    }

    /// 0, and the values below the number of this action, counted from 0, that an action of the
    /// process sets.
    ///
    /// # Errors
    ///
    /// An allocation was refused.
    pub fn earlier(
        &self,
        alloc: Global,
        process: usize,
        action: u32,
    ) -> Result<Vec<u32>, AllocError> {
        let mut earlier = Vec::new(alloc);
        let Some(values) = self.values.get(process) else {
            return Ok(earlier);
        };
        earlier.push(0)?;
        for value in 1..action.saturating_add(1) {
            if values.contains(&Some(value)) {
                earlier.push(value)?;
            }
        }
        Ok(earlier)
    }

    /// The plan with the values of each process numbered 0, 1, and so on, in their order.
    ///
    /// # Errors
    ///
    /// An allocation was refused.
    pub fn renumbered(&self, alloc: Global) -> Result<Plan, AllocError> {
        let mut values = Vec::new(alloc);
        for old in &self.values {
            values.push(renumbered(alloc, old)?)?;
        }
        Ok(Plan {
            style: self.style,
            values,
        })
    }
}
