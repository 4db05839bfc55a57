//! The steps of an outline: truth at a state, and moments that step.
#![tactic(auto)]

mod fault;
mod key;
mod moment;
mod truth;
mod turn;
mod values;

pub use fault::{StartError, StartFault};
pub use moment::{Moment, start};
pub use truth::holds;
pub use turn::Turn;
