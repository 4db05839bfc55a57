//! The program: words and files in, output and a status out.
#![tactic(auto)]

mod beside;
mod checking;
mod commands;
mod ended;
mod fault;
mod files;
mod formatting;
mod given;
mod outcome;
mod program;
mod reading;
mod refusing;
mod running;
mod searching;
mod serving;
mod writing;

pub use ended::Ended;
pub use fault::{Fault, Why};
pub use files::Files;
pub use outcome::{BadValue, Certificates, Outcome, Report};
pub use program::{Program, Streams};
pub use serving::{serve, serve_words};
