//! Reading, writing, and numbers within their limits.
//!
//! specs/Reading.antt and Joined.antt define the reading, Written.antt the writing, Numbers.antt
//! which numbers a word lists.
#![tactic(auto)]

mod budget;
mod cert_version;
mod fault;
mod moment_limit;
mod number_list;
mod pieces;
mod reading;
mod run_limit;
mod splitting;
mod workers;
mod writing;

pub use budget::Budget;
pub use cert_version::CertVersion;
pub use fault::{OutputFault, WriteFault};
pub use moment_limit::MomentLimit;
pub use number_list::numbers;
pub use pieces::write_long;
pub use reading::{ReadFault, read_up_to};
pub use run_limit::RunLimit;
pub use splitting::split;
pub use workers::Workers;
pub use writing::{write_text, write_whole};
