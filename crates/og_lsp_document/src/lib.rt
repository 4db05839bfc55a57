//! What an editor is told of a text, an outline or a template: what is wrong with it, by the calls
//! that `og prove` makes, what `og notes` tells, and what is said of a place.
//!
//! [`Judge`] takes a text to a [`Judgement`]. Places are byte offsets of the text.
#![tactic(auto)]

mod diagnosing;
mod fault;
mod hovering;
mod judge;
mod judged;
mod parts;
mod reviewing;
mod stepping;

pub use fault::JudgeError;
pub use judge::Judge;
pub use judged::{Judgement, PartCount, StatementCount, Summary};
