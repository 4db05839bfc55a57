//! Linear forms over numbered variables with exact refusals, maps from variables to forms, and
//! states.
#![tactic(auto)]

mod fault;
mod form;
mod laws;
mod map;
mod state;
mod terms;

pub use fault::{FormError, FormFault};
pub use form::Form;
pub use laws::{coefficient_laws, state_laws, value_laws};
pub use map::Map;
pub use state::State;
