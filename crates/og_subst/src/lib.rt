//! Actions as maps from variables to forms, and assertions under them.
//!
//! specs/Large.antt has states of whole numbers that may leave `i64`: what assertions say there,
//! and what actions make of them, as far as each number fits 128 bits.
#![tactic(auto)]

mod action;
mod equality;
mod laws;
mod prepared;
mod substitution;
mod truth;
mod values;

pub use action::Action;
pub use laws::{action_laws, substitution_laws};
pub use prepared::ActionMap;
pub use substitution::{after, fits};
pub use values::Values;
