//! Workers that draw conditions from one word, and a status for each condition.
//!
//! [`in_threads`] does the parts of one job in threads. [`Draws`] hands out the numbers of tasks,
//! each once, and [`answers`] returns the answers of all tasks in order. [`check_all`] replays
//! certificates so.
#![tactic(auto)]

mod answered;
mod checks;
mod draws;
mod fault;
mod gate;
mod job;
mod marks;
mod numbered;
mod replays;
mod rule;
mod status;
mod thread_fault;
mod threads;
mod workers;

pub use checks::check_all;
pub use draws::{Drawer, Draws};
pub use fault::PoolFault;
pub use gate::{Gate, OpenGate};
pub use job::Job;
pub use numbered::Numbered;
pub use status::Status;
pub use thread_fault::ThreadFault;
pub use threads::in_threads;
pub use workers::answers;
