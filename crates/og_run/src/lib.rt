//! Programs that run: one thread for each process, over one board under a lock. The history of
//! the board is the run.
#![tactic(auto)]

mod arena;
mod board;
mod fault;
mod machine;
mod outcome;
mod proved;
mod rule;
mod runner;
mod setting;
mod threads;
mod turn;

pub use arena::{Arena, Seat, Unstarted};
pub use board::Board;
pub use fault::{RunError, RunFault};
pub use machine::Machine;
pub use og_pool::{Gate, OpenGate};
pub use outcome::{Finish, Outcome};
pub use proved::ProvedBoard;
pub use rule::ArenaName;
pub use runner::{run, run_proved};
pub use setting::Setting;
pub use turn::RunTurn;
