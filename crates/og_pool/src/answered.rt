//! Tasks with their answers, in any order and in their own.

ghost use Rattle.std.specs.Prelude.{◌≡◌, ◌≢◌, ℕ, ◌-◌, ◌<◌, ◌≤◌, length, map, Some, None, IfOk, IsSome, slice_get, vec_len};
ghost use Rattle.std.specs.List.{All};
ghost use Rattle.og_pool.specs.Answers.{AreAnswers};
ghost use Rattle.og_pool.specs.TaskAnswers.{IsRight, HasAnswer, IsFilled, AreRight};

use crate::numbered::Numbered;
use std::alloc::{AllocError, Global};

/// The number of a task, counted from 1, with its answer.
#[derive(Drop)]
pub(crate) struct TaskAnswer<A> {
    pub(crate) number: u32,
    pub(crate) answer: A,
}

// A slot for the answer of each task, with nothing in it.
fn slots<A: Drop>(alloc: Global, count: u32) -> Result<Vec<Option<A>>, AllocError>
    ensures len { IfOk result (λ v. length v.items ≡ count) }
    ensures empty { IfOk result (λ v. All (λ slot. slot ≡ None) v.items) }
{
    let mut slots = Vec::with_capacity(alloc, count as usize)?;
    for _ in 0..count {
        slots.push(None)?;
    }
    Ok(slots)
}

// Writes the answer into its slot.
fn place<A: Drop>(slots: &mut Vec<Option<A>>, answered: TaskAnswer<A>)
    requires { 0 < answered.number }
    ensures len { length slots.new.items ≡ length slots.old.items }
    ensures here { answered.number ≤ length slots.old.items
        → slice_get slots.new.items (answered.number - 1) ≡ Some (Some answered.answer) }
    ensures others { (i : ℕ) → i ≢ answered.number - 1 → slice_get slots.new.items i
        ≡ slice_get slots.old.items i }
{
    let at = answered.number as usize - 1;
    if at < slots.len() {
        slots[at] = Some(answered.answer);
    }
}

// The answers, each in its slot.
fn placed<N: Numbered>(
    alloc: Global,
    tasks: &N,
    mut answered: Vec<TaskAnswer<N::Answer>>,
    count: u32,
) -> Result<Vec<Option<N::Answer>>, AllocError>
    requires { All (IsRight (N.may_answer tasks.now)) answered.items }
    ensures len { IfOk result (λ v. length v.items ≡ count) }
    ensures right { IfOk result (λ v. AreRight (N.may_answer tasks.now) v.items) }
    ensures filled { IfOk result (λ v.
        (n : ℕ) → 0 < n → n ≤ count → HasAnswer answered.items n → IsFilled v.items (n - 1)) }
{
    let _ = tasks;
    let mut slots = slots(alloc, count)?;
    while let Some(t) = answered.pop() {
        place(&mut slots, t);
    }
    Ok(slots)
}

// The answers in these slots.
fn unwrapped<A: Drop>(alloc: Global, slots: Vec<Option<A>>) -> Result<Vec<A>, AllocError>
    requires { All (λ slot. IsSome slot) slots.items }
    ensures { IfOk result (λ v. map Some v.items ≡ slots.items) }
{
    let mut answers = Vec::with_capacity(alloc, slots.len())?;
    for slot in slots {
        let Some(answer) = slot else { unreachable!() };
        answers.push(answer)?;
    }
    Ok(answers)
}

// The answers in the order of the tasks.
pub(crate) fn in_order<N: Numbered>(
    alloc: Global,
    tasks: &N,
    answered: Vec<TaskAnswer<N::Answer>>,
    count: u32,
) -> Result<Vec<N::Answer>, AllocError>
    requires right { All (IsRight (N.may_answer tasks.now)) answered.items }
    requires all { (n : ℕ) → 0 < n → n ≤ count → HasAnswer answered.items n }
    ensures { IfOk result (λ v. AreAnswers count (N.may_answer tasks.now) v.items) }
{
    let slots = placed(alloc, tasks, answered, count)?;
    let answers = unwrapped(alloc, slots)?;
    Ok(answers)
}
