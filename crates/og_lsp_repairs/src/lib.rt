//! What an editor offers against what is wrong with a text, as edits of it: the conjuncts that
//! `og infer` finds for an outline with conditions that are not proved, and the text that the advice
//! on a refusal names.
#![tactic(auto)]

mod advised;
mod inferred;

pub use advised::{Repair, repair_of};
pub use inferred::missing_conjuncts;
