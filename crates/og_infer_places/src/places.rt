//! The places of an outline.

use crate::building::{Region, add_main, add_processes};
use crate::evaluation::{attempt, is_open, is_true};
use crate::place::{Place, Step};
use og_typed::{Outline, Part};
use std::alloc::{AllocError, Global};

/// The places of an outline, in the order of the text, numbered from 0. The pre- and postcondition
/// are not among them. All readers take no memory.
#[derive(Drop)]
pub struct Places<'a> {
    outline: &'a Outline,
    places: Vec<Place<'a>>,
    prologue: Option<Region>,
    processes: Vec<Region>,
    epilogue: Option<Region>,
}

impl<'a> Places<'a> {
    /// The places of this outline.
    ///
    /// # Errors
    ///
    /// An allocation was refused, or there are more than 4294967295 places.
    pub fn of(alloc: Global, outline: &'a Outline) -> Result<Places<'a>, AllocError> {
        let mut places = Vec::new(alloc);
        let prologue = add_main(&mut places, Part::Prologue, outline.prologue())?;
        let processes = add_processes(alloc, &mut places, outline.processes())?;
        let epilogue = add_main(&mut places, Part::Epilogue, outline.epilogue())?;
        Ok(Places {
            outline,
            places,
            prologue,
            processes,
            epilogue,
        })
    }

    /// The outline.
    pub fn outline(&self) -> &'a Outline {
        self.outline
    }

    /// All places, by their numbers.
    pub fn as_slice(&self) -> &[Place<'a>] {
        &self.places
    }

    /// The place with this number.
    pub fn place(&self, number: u32) -> Option<Place<'a>> {
        self.places.get(number as usize).copied()
    }

    // The places of a part, if the outline has it.
    fn region(&self, part: Part) -> Option<Region> {
        match part {
            Part::Prologue => self.prologue,
            Part::Process(p) => self.processes.get(p as usize).copied(),
            Part::Epilogue => self.epilogue,
        }
    }

    /// The number of the first place of a part, if the outline has it.
    pub fn first(&self, part: Part) -> Option<u32> {
        Some(self.region(part)?.first)
    }

    /// The number of the last place of a part, if the outline has it.
    pub fn last(&self, part: Part) -> Option<u32> {
        Some(self.region(part)?.last)
    }

    /// How many processes there are, the main process left out: at most 256.
    pub fn processes(&self) -> u32 {
        self.outline.follows_rule();
        self.outline.processes().len() as u32
    }

    /// The number of the place of a part before a statement, by the byte offset of the `{` there.
    pub(crate) fn before(&self, part: Part, at: u32) -> Option<u32> {
        let region = self.region(part)?;
        for number in region.first..region.last {
            if self.place(number)?.note.at == at {
                return Some(number);
            }
        }
        None
    }

    /// Whether nothing comes next at the place, or there is no such place.
    pub(crate) fn is_end(&self, number: u32) -> bool {
        match self.place(number) {
            Some(place) => place.is_end(),
            None => true,
        }
    }

    /// Where a step that arrives at the place goes on to at once.
    pub(crate) fn passed(&self, number: u32) -> Option<u32> {
        self.place(number)?.passed()
    }

    /// Whether a step from the place may pass another one.
    pub(crate) fn may_pass(&self, number: u32) -> bool {
        let Some(place) = self.place(number) else {
            return false;
        };
        match place.step {
            Step::End => false,
            Step::Go { to } | Step::Act { to, .. } => self.passed(to).is_some(),
            Step::Test { yes, no, .. } => self.passed(yes).is_some() || self.passed(no).is_some(),
        }
    }

    /// One step from a place: the number of the place to which it leads, with the values changed.
    /// None, with the values as they were, where the program waits there, has ended, or an action
    /// would give a value that is no `i64`, and where there is no such place. There are at most 256
    /// values. Takes no memory.
    pub fn advance(&self, place: u32, values: &mut [i64]) -> Option<u32> {
        match self.place(place)?.step {
            Step::End => None,
            Step::Go { to } => Some(to),
            Step::Test { test, yes, no } => Some(if is_true(test, values) { yes } else { no }),
            Step::Act { guard, action, to } => {
                if is_open(guard, values) && attempt(&action, values) {
                    Some(to)
                } else {
                    None
                }
            }
        }
    }
}
