//! An outline completes another one if it has its program, perhaps with more auxiliary variables, and
//! stronger assertions. What holds of every run of it holds of every run of the other one.
//!
//! specs/Completes.antt has the definition.
#![tactic(auto)]

mod assertions;
mod bodies;
mod checking;
mod laws;
mod statements;

pub use checking::completes;
pub use laws::{completed_by_itself, progress_of_completed, soundness_of_completed};
