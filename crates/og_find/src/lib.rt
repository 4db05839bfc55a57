//! The finder: certificates of conditions, and states in which conditions are false.
//!
//! A search claims something of the facts of a condition (`og_search`); a certificate handed out
//! was checked, by replay or by evaluation.
#![tactic(auto)]

mod counting;
mod finding;
mod kinds;
mod leaders;
mod marking;
mod reading;
mod truth;
mod verdict;

pub use counting::Missing;
pub use finding::{examine, find, follow, is_verdict};
pub use kinds::kind;
pub use leaders::{Leader, Leaders};
pub use marking::{Marks, mark};
pub use og_cert::Cert;
pub use reading::has_equal_facts;
pub use verdict::{Followed, Verdict};
