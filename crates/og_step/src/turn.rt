//! One step of the rest at a point.

ghost use Rattle.std.specs.Prelude.{◌≡◌, ◌≤◌, length};
ghost use Rattle.og_typed.specs.Points.{rest_at};
ghost use Rattle.og_step.specs.Turns.{AreUsable, rest_turn, IsStep};

use crate::truth::evaluate;
use crate::values::Values;
use og_typed::{Points, Stmt};

/// What came of a step.
#[derive(Clone, Copy, Drop, PartialEq, Eq)]
pub enum Turn {
    /// The process made its step.
    Moved,
    /// The guard of the await that comes next is false.
    Waits,
    /// The process has nothing left to do.
    Done,
    /// A value of the action that comes next is outside the range of `i64`.
    Overflow,
    /// The process has something left to do, but its part of the program has not begun.
    Early,
}

// One step of the rest at a point, and the point after it. Takes no memory.
pub(crate) fn step_rest(points: &Points, at: &mut u32, values: &mut Values) -> Turn
    requires short { length values.old ≤ 256 }
    requires usable { AreUsable (length values.old) (rest_at points.now at.old) }
    ensures turn { result ≡ rest_turn values.old (rest_at points.now at.old) }
    ensures step { IsStep result (values.old, rest_at points.now at.old)
        (values.new, rest_at points.now at.new) }
{
    let Some(item) = points.item(*at) else {
        return Turn::Done;
    };
    match &item.stmt {
        Stmt::Skip => *at = points.next(*at, true),
        Stmt::Assign(var, form) => {
            if !values.assign(*var, form) {
                return Turn::Overflow;
            }
            *at = points.next(*at, true);
        }
        Stmt::If(test, ..) => *at = points.next(*at, evaluate(test, values.state())),
        Stmt::While(test, _) => *at = points.next(*at, evaluate(test, values.state())),
        Stmt::Await(guard, body) => {
            if !evaluate(guard, values.state()) {
                return Turn::Waits;
            }
            if !values.attempt(body) {
                return Turn::Overflow;
            }
            *at = points.next(*at, true);
        }
    }
    Turn::Moved
}
