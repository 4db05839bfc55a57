//! The facts of a condition.
//!
//! Facts are linear inequalities, and splits into parts. Those of a condition are all true exactly
//! where its hypotheses are true and its goal is false, so what shows that they cannot all be true
//! shows the condition.
#![tactic(auto)]

mod atom;
mod counting;
mod equality;
mod fact;
mod fault;
mod goals;
mod hypotheses;
mod laws;
mod limits;
mod list;
mod listing;
mod moves;
mod relations;
mod signed;
mod walking;

pub use atom::Atom;
pub use fact::Fact;
pub use fault::{FactsError, FactsFault};
pub use laws::facts_law;
pub use limits::FACT_LIMIT;
pub use list::FactList;
pub use listing::{facts, facts_with, has_few_facts};
pub use signed::Signed;
