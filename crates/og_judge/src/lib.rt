//! The judgement of an outline by certificates.
#![tactic(auto)]

mod entry;
mod findings;
mod judgement;
mod judging;
mod migration;
mod refusal;
mod verdict;

pub use entry::Entry;
pub use findings::Findings;
pub use judgement::Judgement;
pub use judging::{judge, judge_outline};
pub use migration::migrate;
pub use og_report_text::InputFault;
pub use og_theorem::{Proved, erased_soundness, progress, soundness};
pub use refusal::Refusal;
