//! Tasks that have numbers.

use std::alloc::{AllocError, Global};

/// Tasks that are numbered from 1. Each has an answer.
pub trait Numbered: Sync {
    ghost use Rattle.std.specs.Prelude.{ℕ, ◌<◌, ◌≤◌, IfOk};

    /// The answer to a task.
    type Answer: Send + Drop;

    /// What a worker keeps from one task to the next.
    type Kept: Send + Drop;

    /// How many tasks there are.
    ghost count: { Self → ℕ };

    /// The answers that the task of this number may have.
    ghost may_answer: { Self → ℕ → Self.Answer → Type 0 };

    /// The property of all that a worker keeps.
    ghost keeps: { Self → Self.Kept → Type 0 };

    /// What a worker keeps before its first task.
    fn kept(&self) -> Self::Kept
        ensures { keeps self.now result };

    /// The answer of a task.
    fn answer(
        &self,
        alloc: Global,
        number: u32,
        kept: &mut Self::Kept,
    ) -> Result<Self::Answer, AllocError>
        requires within { (0 < number) × (number ≤ count self.now) }
        requires keeps { keeps self.now kept.old }
        ensures answer { IfOk result (may_answer self.now number) }
        ensures keeps { keeps self.now kept.new };
}
