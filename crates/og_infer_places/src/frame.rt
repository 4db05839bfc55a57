//! What questions need of an outline.

use crate::asking::variables_of;
use crate::places::Places;
use og_typed::Assert;
use std::alloc::{AllocError, Global};

/// What questions need of an outline: its assertions, the initial values of its auxiliaries, and how
/// many variables it has. Threads may share it.
#[derive(Drop)]
pub struct Frame<'a> {
    authors: Vec<&'a Assert>,
    pub(crate) pre: &'a Assert,
    post: &'a Assert,
    /// How many variables are no auxiliaries.
    pub(crate) vars: u32,
    /// The initial values of the auxiliaries.
    pub(crate) initial: &'a [i64],
    variables: u32,
}

impl<'a> Places<'a> {
    /// What questions need of the outline.
    ///
    /// # Errors
    ///
    /// An allocation was refused.
    pub fn frame(&self, alloc: Global) -> Result<Frame<'a>, AllocError> {
        let outline = self.outline();
        let mut authors = Vec::new(alloc);
        for place in self.as_slice() {
            authors.push(&place.note.assertion)?;
        }
        Ok(Frame {
            authors,
            pre: &outline.pre().assertion,
            post: &outline.post().assertion,
            vars: outline.vars(),
            initial: outline.aux_values(),
            variables: variables_of(outline),
        })
    }
}

impl<'a> Frame<'a> {
    /// The author's assertion of the place with this number. Takes no memory, like all readers.
    pub fn author(&self, place: u32) -> Option<&'a Assert> {
        self.authors.get(place as usize).copied()
    }

    /// The postcondition.
    pub fn post(&self) -> &'a Assert {
        self.post
    }

    /// How many variables there are, the auxiliaries among them: at most 256.
    pub fn variables(&self) -> u32 {
        self.variables
    }
}
