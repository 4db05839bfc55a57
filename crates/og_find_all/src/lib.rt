//! The finder over all conditions of an outline, by workers in threads.
//!
//! Conditions with equal facts are searched once, and of those that differ in the names of
//! variables alone one leads: its certificate is tried for the others before they are searched. The
//! result is handed out was checked, by replay or by evaluation; that equal facts are searched
//! once, and that several threads work, is only tested.
#![tactic(auto)]

mod checking;
mod filing;
mod finder;
mod findings;
mod following;
mod formatting;
mod gathering;
mod groups;
mod leading;
mod marking;
mod searching;
mod writing;

pub use finder::{examine_all, find_all};
pub use findings::Findings;
pub use writing::{Certificates, FoundText, Written};
