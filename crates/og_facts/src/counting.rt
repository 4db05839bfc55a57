//! How many facts a condition has, counted without memory.
//!
//! Each count takes the room that is left and returns the rest after it, or nothing where the
//! room is too small.

ghost use Rattle.std.specs.Prelude.{ℕ, map};
ghost use Rattle.og_typed.specs.Plain.{formula};
ghost use Rattle.og_typed.specs.Lists.{formula_list};
ghost use Rattle.og_cond.specs.Counting.{Leaves};
ghost use Rattle.og_cond.specs.Seen.{part_of, parts_of, hypothesis_of, seen};
ghost use Rattle.og_facts.specs.Counts.{split_count, count_part, count_parts, count_hypothesis, count_hypotheses, count};
ghost use Rattle.og_facts.specs.Rooms.{count_said, count_all, counts_each, count_each};

use og_cond::{Condition, Goal, Hypothesis, Part};
use og_typed::Assert;

// The facts that say that the assertion is true, or false.
#[cycle(counting)]
#[tactic(auto, using(crate::proofs::Counted::all_of_and, crate::proofs::Counted::all_of_or, crate::proofs::Counted::some_of_and, crate::proofs::Counted::some_of_or))]
fn room_after_assertion(room: usize, is_true: bool, a: &Assert) -> Option<usize>
    ensures { Leaves room (count_said is_true (formula a.now)) result }
{
    match (a, is_true) {
        (Assert::True, true) | (Assert::False, false) => Some(room),
        (Assert::True, false) | (Assert::False, true) | (Assert::Le(_), _) => room.checked_sub(1),
        (Assert::Eq(_), true) | (Assert::Ne(_), false) => room.checked_sub(2),
        (Assert::Eq(_), false) | (Assert::Ne(_), true) => room.checked_sub(1),
        (Assert::Not(a), _) => room_after_assertion(room, !is_true, a),
        (Assert::And(all), true) => room_after_all(room, true, all),
        (Assert::And(all), false) => room_after_some(room, false, all),
        (Assert::Or(all), true) => room_after_some(room, true, all),
        (Assert::Or(all), false) => room_after_all(room, false, all),
        (Assert::Imp(..), true) => room.checked_sub(1),
        (Assert::Imp(a, b), false) => room_after_assertion(
            room_after_assertion(room, true, a)?,
            false,
            b,
        ),
    }
}

// The facts of all.
#[cycle(counting)]
fn room_after_all(room: usize, is_true: bool, all: &[Assert]) -> Option<usize>
    ensures { Leaves room (count_all is_true (formula_list (map formula all.now))) result }
{
    let mut left = room;
    for a in all {
        left = room_after_assertion(left, is_true, a)?;
    }
    Some(left)
}

// The facts of one of them.
#[cycle(counting)]
#[tactic(auto, using(crate::proofs::Counted::split_single, crate::proofs::Counted::split_others))]
fn room_after_some(room: usize, is_true: bool, all: &[Assert]) -> Option<usize>
    ensures { Leaves room (split_count (counts_each is_true (formula_list (map formula all.now))))
        result }
{
    if all.len() == 1 {
        room_after_assertion(room, is_true, &all[0])
    } else {
        room.checked_sub(1)
    }
}

// What adds facts to a condition.
trait Counted {
    // How many facts it adds.
    ghost facts: { Self → ℕ };

    // The rest of the room after its facts.
    fn room_after(&self, room: usize) -> Option<usize>
        ensures { Leaves room (facts self.now) result };
}

impl Counted for Part<'_> {
    ghost facts = { λ p. count_part (part_of p) };

    fn room_after(&self, room: usize) -> Option<usize> {
        match self {
            Part::Yes(a) => room_after_assertion(room, true, a),
            Part::No(a) => room_after_assertion(room, false, a),
        }
    }
}

impl Counted for Hypothesis<'_> {
    ghost facts = { λ h. count_hypothesis (hypothesis_of h) };

    fn room_after(&self, room: usize) -> Option<usize> {
        match self {
            Hypothesis::Is(part) => part.room_after(room),
            Hypothesis::Starts(..) => room.checked_sub(2),
            Hypothesis::OneOf(lists) => room_after_lists(room, lists),
        }
    }
}

// The facts of each of them.
fn room_after_each<T: Counted>(room: usize, items: &[T]) -> Option<usize>
    ensures { Leaves room (count_each T.facts items.now) result }
{
    let mut left = room;
    for item in items {
        left = item.room_after(left)?;
    }
    Some(left)
}

fn room_after_parts(room: usize, parts: &[Part]) -> Option<usize>
    ensures { Leaves room (count_parts (map part_of parts.now)) result }
{
    room_after_each(room, parts)
}

// The parts of one of the lists.
#[tactic(auto, using(crate::proofs::Counted::lists_single, crate::proofs::Counted::lists_others))]
fn room_after_lists(room: usize, lists: &[Vec<Part>]) -> Option<usize>
    ensures { Leaves room (split_count (map count_parts (map parts_of lists.now))) result }
{
    if lists.len() == 1 {
        room_after_parts(room, &lists[0])
    } else {
        room.checked_sub(1)
    }
}

fn room_after_hypotheses(room: usize, hypotheses: &[Hypothesis]) -> Option<usize>
    ensures { Leaves room (count_hypotheses (map hypothesis_of hypotheses.now)) result }
{
    room_after_each(room, hypotheses)
}

/// The rest of the room after all facts of the condition.
pub(crate) fn room_after_facts(room: usize, condition: &Condition) -> Option<usize>
    ensures { Leaves room (count (seen condition.now)) result }
{
    let left = room_after_hypotheses(room, &condition.hypotheses)?;
    match &condition.goal {
        Goal::Holds(a) => room_after_assertion(left, false, a),
        Goal::Fits => left.checked_sub(1),
        Goal::Never => Some(left),
    }
}
