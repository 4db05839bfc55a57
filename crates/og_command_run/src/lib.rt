//! Running the program of a source: the printed text, and the status.
#![tactic(auto)]

mod asking;
mod hindrance;
mod lines;
mod outcome;
mod reply;
mod running;
mod schedule;
mod stepping;
mod words;

pub use reply::{Ran, Reply};
pub use running::{Runner, ran, ran_proved};
pub use stepping::ran_by_schedule;
pub use words::{WordsError, integer, number_of, values};
