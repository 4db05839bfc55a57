//! Assertions at a moment that a run reaches.

ghost use Rattle.std.specs.Prelude.{◌≡◌, ◌↔◌, ℕ, ◌<◌, length, IsTrue, IfSome, IfNone};
ghost use Rattle.og_violation.specs.Violations.{IsWrongAt};
ghost use Rattle.og_violation.specs.Replays.{IsOf, IsTrueOf, IsFirstFalse};

use crate::violation::Wrong;
use og_step::{Moment, Turn};
use og_typed::Outline;

/// The first of the processes, the main process left out, whose current assertion is false.
pub(crate) fn first_false(outline: &Outline, moment: &Moment) -> Option<u32>
    requires { IsOf outline.now moment.now }
    ensures some { IfSome result (IsFirstFalse outline.now moment.now.moment) }
    ensures none { IfNone result
        ((q : ℕ) → q < length outline.now.processes → IsTrueOf outline.now moment.now.moment q) }
{
    for q in 0..moment.processes() {
        if !moment.is_true(q) {
            return Some(q);
        }
    }
    None
}

/// Whether all have ended, and the postcondition is false.
pub(crate) fn is_post_false(outline: &Outline, moment: &Moment) -> bool
    requires { IsOf outline.now moment.now }
    ensures { IsTrue result ↔ IsWrongAt outline.now moment.now.moment Wrong.Post }
{
    moment.is_finished() && !moment.is_post_true()
}

// Whether process p is active and overflows. The moment may step.
fn overflows(outline: &Outline, moment: &mut Moment, p: u32) -> bool
    requires { IsOf outline.now moment.old }
    ensures { IsTrue result ↔ IsWrongAt outline.now moment.old.moment (Wrong.Overflow p) }
{
    matches!(moment.step(p), Turn::Overflow)
}

/// Whether this is wrong at the moment. The moment may step.
pub(crate) fn is_wrong(outline: &Outline, moment: &mut Moment, wrong: Wrong) -> bool
    requires { IsOf outline.now moment.old }
    ensures { IsTrue result ↔ IsWrongAt outline.now moment.old.moment wrong }
{
    match wrong {
        Wrong::Assertion(p) => moment.is_active(p) && !moment.is_true(p),
        Wrong::Overflow(p) => overflows(outline, moment, p),
        Wrong::Post => is_post_false(outline, moment),
        Wrong::Stuck => moment.is_stuck(),
    }
}
