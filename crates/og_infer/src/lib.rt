//! Conjuncts that the assertions of an outline lack, found by a search.
//!
//! [`infer`] samples the states of an outline, takes at each place what held there, weakens that
//! until it lasts, and hands out the part that supports the author's claims. No contract promises
//! anything of what is found: who prints it judges the text by the checker. The search is safe and
//! ends, and what it finds is the same for every number of workers.
#![tactic(auto)]

mod exchanges;
mod inferring;
mod limits;
mod needing;
mod printing;
mod refuting;
mod shrinking;
mod support;
mod trials;
mod unaided;

pub use inferring::infer;
pub use limits::{Addition, Inferred, Limits, Wanted};
