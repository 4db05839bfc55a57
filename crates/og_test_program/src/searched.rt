//! Searches of the conditions of an outline.

use og_cond::{Condition, conditions};
use og_find::{Missing, Verdict, examine};
use og_find_all::find_all;
use og_judge::Refusal;
use og_pool::OpenGate;
use og_test_samples::{TWO_ADD, outline_of};
use std::alloc::{AllocError, Global};
use std::sync::Wait;
use std::thread::Threads;

const BUDGET: u64 = 100_000;

// Whether each condition is true.
fn all_true(alloc: Global, list: &[Condition]) -> Result<bool, AllocError> {
    for condition in list {
        let Verdict::True(_) = examine(alloc, condition, BUDGET)? else {
            return Ok(false);
        };
    }
    Ok(list.len() == 12)
}

pub(crate) fn are_examined(alloc: Global) -> Result<bool, Refusal> {
    let outline = outline_of(alloc, TWO_ADD)?;
    let list = conditions(alloc, &outline)?;
    Ok(all_true(alloc, &list)?)
}

pub(crate) fn are_found<R: Threads + Wait + Sync>(rt: &R, alloc: Global) -> Result<bool, Refusal> {
    let outline = outline_of(alloc, TWO_ADD)?;
    let list = conditions(alloc, &outline)?;
    let file = find_all(rt, alloc, &list, BUDGET, 2, &OpenGate)?;
    Ok(Missing::of(&file, 12).count == 0)
}
