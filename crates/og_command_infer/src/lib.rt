//! Completing an outline: the conjuncts that are missing, found and written into its notes.
//!
//! What a search finds (`og_infer`) becomes edits of the text (placing.rt), and so do auxiliaries
//! where it needs some (inventing.rt). The edited text is read again, its outline compared with the
//! given one (`og_completion`), and proved as `prove` does (inferring.rt). specs/Inferred.antt says
//! what is promised of the result.
#![tactic(auto)]

mod advising;
mod inferrer;
mod inferring;
mod inventing;
mod original;
mod placing;
mod writing;

pub use inferrer::{Added, Effort, Inferred, Inferrer, Reply};
