//! The place of an assertion, and what the program does next there.

use og_subst::Action;
use og_typed::{Assert, Note, Part};
use std::alloc::AllocError;

/// What the program does next at a place. Places go by their numbers.
#[derive(Clone, Copy)]
pub enum Step<'a> {
    /// Nothing: the last assertion of its part.
    End,
    /// It goes on to this place and changes nothing: `skip`, and the end of a branch or of a body.
    Go {
        to: u32,
    },
    /// It goes on by the truth of a test.
    Test {
        test: &'a Assert,
        yes: u32,
        no: u32,
    },
    /// It does an action, of an await once its guard is true, and goes on to this place.
    Act {
        guard: Option<&'a Assert>,
        action: Action<'a>,
        to: u32,
    },
}

/// The place of an assertion.
#[derive(Clone, Copy)]
pub struct Place<'a> {
    /// The part of the program that stands there.
    pub part: Part,
    /// The author's assertion and the byte offset of its `{`.
    pub note: &'a Note,
    /// What comes next.
    pub step: Step<'a>,
    /// Whether the program may rest there, and other processes act meanwhile: not at the end of a
    /// branch or of a body, which a step only passes.
    pub is_shared: bool,
}

/// The number of the place, or of the process, that stands behind this many.
///
/// # Errors
///
/// There are more than 4294967295.
pub(crate) fn number_of(count: usize) -> Result<u32, AllocError> {
    match u32::try_from(count) {
        Ok(number) => Ok(number),
        Err(_) => Err(AllocError),
    }
}

impl Place<'_> {
    /// Whether nothing comes next.
    pub(crate) fn is_end(&self) -> bool {
        matches!(self.step, Step::End)
    }

    /// Where a step that arrives here goes on to at once.
    pub(crate) fn passed(&self) -> Option<u32> {
        match self.step {
            Step::Go { to } if !self.is_shared => Some(to),
            _ => None,
        }
    }
}
