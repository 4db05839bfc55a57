//! The actions of processes, and which processes are alike.

use og_infer_places::{Part, Places, Step};
use std::alloc::{AllocError, Global};

// The places of the actions of one part.
fn actions_of(alloc: Global, places: &Places, part: Part) -> Result<Vec<u32>, AllocError> {
    let mut actions = Vec::new(alloc);
    let mut number = 0u32;
    for place in places.as_slice() {
        if place.part == part && matches!(place.step, Step::Act { .. }) {
            actions.push(number)?;
        }
        number = number.saturating_add(1);
    }
    Ok(actions)
}

/// For each process the numbers of the places of its actions, in the order of the text.
///
/// # Errors
///
/// An allocation was refused.
pub fn actions(alloc: Global, places: &Places) -> Result<Vec<Vec<u32>>, AllocError> {
    let mut actions = Vec::new(alloc);
    for process in 0..places.processes() {
        actions.push(actions_of(alloc, places, Part::Process(process))?)?;
    }
    Ok(actions)
}

// Whether the actions of two processes are assignments and `await`s in the same order.
fn is_like(places: &Places, actions: &[u32], others: &[u32]) -> bool {
    if actions.len() != others.len() {
        return false;
    }
    for (action, other) in actions.iter().zip(others) {
        if is_await(places, *action) != is_await(places, *other) {
            return false;
        }
    }
    true
}

fn is_await(places: &Places, action: u32) -> bool {
    match places.place(action) {
        Some(place) => matches!(place.step, Step::Act { guard: Some(_), .. }),
        None => false,
    }
}

// The groups of processes that are alike, each with the actions of its first one.
#[derive(Drop)]
struct Groups<'s> {
    actions: Vec<&'s [u32]>,
    members: Vec<Vec<usize>>,
}

impl<'s> Groups<'s> {
    // Adds a process with these actions.
    fn add(
        &mut self,
        alloc: Global,
        places: &Places,
        process: usize,
        actions: &'s [u32],
    ) -> Result<(), AllocError> {
        let index = self
            .actions
            .iter()
            .position(|others| is_like(places, actions, others));
        match index.and_then(|index| self.members.get_mut(index)) {
            Some(members) => Ok(members.push(process)?),
            None => {
                self.actions.push(actions)?;
                let mut members = Vec::new(alloc);
                members.push(process)?;
                Ok(self.members.push(members)?)
            }
        }
    }
}

/// The processes with these actions, counted from 0, in groups of those that are alike: their
/// actions are assignments and `await`s in the same order.
///
/// # Errors
///
/// An allocation was refused.
pub fn alike(
    alloc: Global,
    places: &Places,
    actions: &[Vec<u32>],
) -> Result<Vec<Vec<usize>>, AllocError> {
    let mut groups = Groups {
        actions: Vec::new(alloc),
        members: Vec::new(alloc),
    };
    for (process, of_process) in actions.iter().enumerate() {
        groups.add(alloc, places, process, of_process)?;
    }
    Ok(groups.members)
}
