//! Refutations of facts: trees of choices and branches whose leaves are sums of facts, and their
//! certificates.
//!
//! No contract promises anything of them: `og_find` checks a certificate before it hands it out.
#![tactic(auto)]

mod conflict_leaf;
mod denying;
mod fault;
mod joined;
mod leaves;
mod numbering;
mod proof;

pub use conflict_leaf::refute_conflict;
pub use denying::{Placed, denial};
pub use fault::{Unshown, Unwritten};
pub use joined::{Cases, assumed_at, both_sides, branch};
pub use leaves::leaf;
pub use numbering::certificate;
pub use proof::{Case, Lifted, Line, Multiple, Name, Proof, Sides, Tree};
