//! The places of the assertions of an outline, what must hold of them, the states that are seen
//! there, and questions to the finder.
//!
//! No contract promises anything of the results: what is inferred from them is judged by a check of
//! the completed outline.
#![tactic(auto)]

mod asking;
mod building;
mod constants;
mod evaluation;
mod frame;
mod listing;
mod obligation;
mod place;
mod places;
mod question;
mod samples;
mod sampling;
mod starting;
mod walking;

pub use asking::ask;
pub use evaluation::{apply, is_true};
pub use frame::Frame;
pub use listing::obligations;
pub use obligation::{Claim, Obligation};
pub use og_typed::Part;
pub use place::{Place, Step};
pub use places::Places;
pub use question::{Answer, Goal, Question, Taken};
pub use samples::Samples;
pub use sampling::sample;
pub use starting::starts;
