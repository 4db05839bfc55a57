//! The commands `prove` and `show`: a question gives findings, and these are printed in a form.
//!
//! A `Prover` is asked of an outline in its texts (asking.rt). Its conditions are searched, and
//! followed by runs where some are asked for (searching.rt, diagnoser.rt). What is found (finding.rt) is
//! printed (printing.rt, answering.rt). specs/Reply.antt says what is promised of a reply.
#![tactic(auto)]

mod advising;
mod answering;
mod asking;
mod diagnoser;
mod finding;
mod form;
mod printing;
mod prover;
mod searching;
mod starting;

pub use form::ReportForm;
pub use prover::{Prover, Search};
