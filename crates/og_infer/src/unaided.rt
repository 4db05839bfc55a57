//! Claims that need nothing.

use og_infer_places::{Answer, Goal, Obligation, Question, ask};
use og_infer_rounds::{Duty, Scene};
use og_pool::Numbered;
use std::alloc::{AllocError, Global};

/// Whether each of these claims is proved with nothing taken but the author's assertions.
#[derive(Clone, Copy)]
pub(crate) struct Unaided<'a, 'o> {
    pub(crate) scene: &'a Scene<'o>,
    pub(crate) duties: &'a [Duty],
    pub(crate) count: u32,
}

// Whether the obligation gives the goal with nothing taken.
fn is_given<'a>(
    alloc: Global,
    scene: &Scene<'_>,
    obligation: &'a Obligation<'_>,
    goal: Goal<'a>,
) -> Result<bool, AllocError> {
    let taken = Vec::new(alloc);
    let question = Question {
        obligation,
        taken: &taken,
        goal,
    };
    let answer = ask(alloc, &scene.frame, &question, scene.budget)?;
    Ok(matches!(answer, Answer::True))
}

impl<'a, 'o> Unaided<'a, 'o> {
    // Whether the claim of this duty is proved so.
    fn is_proved(&self, alloc: Global, duty: &Duty) -> Result<bool, AllocError> {
        match self.scene.obligations.get(duty.obligation) {
            Some(obligation) => is_given(alloc, self.scene, obligation, Goal::Claimed),
            None => Ok(false),
        }
    }
}

impl<'a, 'o> Numbered for Unaided<'a, 'o> {
    ghost use Rattle.std.specs.Prelude.{⊤};

    type Answer = bool;

    type Kept = ();

    ghost count = { λ t. t.count };

    ghost may_answer = { λ _ _ _. ⊤ };

    ghost keeps = { λ _ _. ⊤ };

    fn kept(&self) {}

    fn answer(&self, alloc: Global, number: u32, _kept: &mut ()) -> Result<bool, AllocError> {
        match self.duties.get(number as usize - 1) {
            Some(duty) => self.is_proved(alloc, duty),
            None => Ok(false),
        }
    }
}
