//! Numbers that wait in a queue and leave no place free.
//!
//! Each entry of a queue either is through, and its flag is 1, or it waits with a number above the
//! counter, and no two of those that wait have the same number. The counter is at least the number
//! of those that are through. That there are as many entries as values of the counter, none of
//! which is the number of one that waits, cannot be.
//!
//! No contract promises anything of the result: `og_find` checks a certificate before it hands
//! it out.
#![tactic(auto)]

mod candidates;
mod entries;
mod halves;
mod missed;
mod narrowing;
mod noticing;
mod queue;
mod refuter;
mod sets;

pub use noticing::{Detection, Seen, look};
pub use queue::Queue;
