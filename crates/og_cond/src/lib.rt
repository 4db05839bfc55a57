//! The verification conditions of an outline.
#![tactic(auto)]

mod blocking;
mod claim;
mod condition;
mod count;
mod fault;
mod grouping;
mod groups;
mod interference;
mod kind;
mod limits;
mod local;
mod pieces;
mod sets;
mod sides;
mod varset;
mod watched;
mod whole;

pub use condition::{Condition, Goal, Hypothesis, Part};
pub use fault::{ConditionsError, TooMany};
pub use groups::Groups;
pub use kind::Kind;
pub use limits::CONDITION_LIMIT;
pub use whole::conditions;
