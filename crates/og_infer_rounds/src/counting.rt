//! How many questions may still be asked.

/// Work on so many sums, clauses or candidates counts as a question.
const STEPS_A_QUESTION: u64 = 30_000;

/// The most questions of one task.
const MOST_A_TASK: u64 = 1_000;

/// With fewer questions a task is not begun.
const FEWEST_A_TASK: u64 = 20;

/// What work of so many steps costs, in questions.
pub(crate) fn price(steps: u64) -> u64 {
    steps / STEPS_A_QUESTION
}

/// The questions that are left, of which some are kept for later.
#[derive(Clone, Copy)]
pub struct Questions {
    given: u64,
    left: u64,
    kept: u64,
}

impl Questions {
    /// This many, of which none is kept.
    pub fn new(given: u64) -> Questions {
        Questions {
            given,
            left: given,
            kept: 0,
        }
    }

    /// Keeps half of what is left for later, and frees what was kept before.
    pub fn keep_half(&mut self) {
        self.kept = self.left / 2;
    }

    /// Frees what was kept.
    pub fn free(&mut self) {
        self.kept = 0;
    }

    /// How many questions each of this many tasks may ask; none where there are no tasks, or too
    /// few questions.
    pub fn share(&self, tasks: usize) -> Option<u64> {
        let free = self.left.saturating_sub(self.kept);
        match free.checked_div(tasks as u64) {
            Some(each) if each >= FEWEST_A_TASK => Some(each.min(MOST_A_TASK)),
            _ => None,
        }
    }

    /// Counts questions that were asked.
    pub fn spend(&mut self, asked: u64) {
        self.left = self.left.saturating_sub(asked);
    }

    /// How many were asked so far.
    pub fn asked(&self) -> u64 {
        self.given.saturating_sub(self.left)
    }
}

/// Whether a task that asked so many questions does the same with another share than it had: it was
/// not cut off, and would not be.
pub fn is_same_with(asked: u64, had: u64, share: u64) -> bool {
    share == had || (asked < had && asked <= share)
}
