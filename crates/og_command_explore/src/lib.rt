//! Exploring the program of a source: the printed text, and the status.
//!
//! specs/Explored.antt has the promise of an answer.
#![tactic(auto)]

mod answering;
mod counting;
mod dot;
mod drawing;
mod exploring;
mod graph;
mod hinting;
mod reported;
mod request;
mod seeking;
mod starting;
mod words;

pub use answering::answer;
pub use counting::least_values;
pub use drawing::{Drawing, draw};
pub use exploring::{Reply, explored};
pub use hinting::start_near;
pub use request::Request;
pub use starting::{points, ranges};
pub use words::{WordsError, given};
