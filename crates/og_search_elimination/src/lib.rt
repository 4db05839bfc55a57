//! Fourier-Motzkin elimination over rows, and the bounds that follow from rows.
//!
//! What halts it with a contradiction shows that no state of `i64` values makes the facts true, and
//! values that it ends with make the rows true.
#![tactic(auto)]

mod counts;
mod disturbed;
mod elimination;
mod narrowing;
mod plan;
mod values;
mod working;

pub use elimination::{Outcome, Problem, Ranges, eliminate};
pub use narrowing::{close_within, narrow, note_bound};
pub use values::Gap;
