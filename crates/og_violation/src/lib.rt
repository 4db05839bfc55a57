//! The violation at a moment of an outline, with a run that leads there: found again by replay.
//!
//! specs/Violations.antt says which violation a moment has, and which runs show it;
//! specs/Along.antt which one comes first along a history.
#![tactic(auto)]

mod along;
mod laws;
mod moments;
mod replay;
mod violation;

pub use along::first_along;
pub use laws::{refutes_progress, refutes_safety};
pub use replay::{copy_of, moment_after, replayed};
pub use violation::{Violation, Wrong};
