//! The marks of conditions.

use og_cond::Condition;
use og_find::{Marks, mark};
use og_pool::Numbered;
use std::alloc::{AllocError, Global};

/// Each condition is marked.
#[derive(Clone, Copy)]
pub(crate) struct Marking<'a, 'c> {
    pub(crate) conditions: &'a [Condition<'c>],
}

impl<'a, 'c> Numbered for Marking<'a, 'c> {
    ghost use Rattle.std.specs.Prelude.{length, ⊤};

    type Answer = Option<Marks>;

    type Kept = ();

    ghost count = { λ m. length m.conditions.now };

    ghost may_answer = { λ _ _ _. ⊤ };

    ghost keeps = { λ _ _. ⊤ };

    fn kept(&self) {}

    fn answer(&self, alloc: Global, number: u32, _: &mut ()) -> Result<Option<Marks>, AllocError> {
        mark(alloc, &self.conditions[number as usize - 1])
    }
}
