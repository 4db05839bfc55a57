//! Candidates of the places of an outline, weakened in rounds until they last.
//!
//! A [`Scene`] is what the search knows of an outline, and [`Lists`] are the candidates of its
//! places. An [`Inquiry`] asks whether an obligation gives a goal: it takes candidates only as states
//! are found that they exclude. [`Rounds`] weaken the candidates by the states that inquiries find,
//! until each obligation keeps those of its places. Nothing is promised of what is found; all of it
//! is the same for every number of workers.
#![tactic(auto)]

mod admitting;
mod asking;
mod counting;
mod foreseen;
mod listing;
mod pooling;
mod proving;
mod rounds;
mod scene;
mod weakening;

pub use admitting::Held;
pub use asking::{Allowance, Frozen, Inquiry, Settled};
pub use counting::{Questions, is_same_with};
pub use foreseen::Foreseen;
pub use listing::{Listed, Lists, Role, Seen, Spot, by_places};
pub use pooling::{Early, Pool, Watch, count_of};
pub use proving::{Attempt, Duty, Owing, Proof, Proving, claims};
pub use rounds::{Rounds, gather};
pub use scene::Scene;
