//! Runs that get to a false condition: found, and told as text and as JSON.
//!
//! specs/Observations.antt, Places.antt and Runs.antt say what a run shows, RunDiagnosis.antt the
//! diagnosis by it, Lines.antt, Report.antt and Json.antt how it is reported.
#![tactic(auto)]

mod diagnosis;
mod exact;
mod holding;
mod lines;
mod objects;
mod place;
mod placing;
mod seeking;
mod standing;
mod stuck;
mod totals;
mod witness;

pub use diagnosis::diagnose_by_run;
pub use lines::{Explored, put_run_line, put_start};
pub use objects::{explored_value, with_member, with_run};
pub use place::Place;
pub use totals::{count_reached, put_explored};
pub use witness::{Run, Witness, find_run};
