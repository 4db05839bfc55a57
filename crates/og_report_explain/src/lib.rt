//! Why a condition is false in a state: which assertions of the outline are true there, what the
//! step does, and which conjuncts are false then.
//!
//! Each place is looked up in the outline, and the assertion there is evaluated; so nothing rests
//! on how conditions are made. specs/Explained.antt has the promise.
#![tactic(auto)]

mod actor;
mod explaining;
mod explanation;
mod frame;
mod lookup;
mod passing;
mod stands;
mod unexplained;

pub use actor::Actors;
pub use explaining::{Obligation, explain, false_in, goal_note};
pub use explanation::{Explanation, Fault, Stand, Test};
pub use lookup::{test_of, tested};
pub use passing::{first_at, goes_through};
pub use unexplained::Unexplained;
