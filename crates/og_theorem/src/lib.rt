//! The theorem over all interleavings: what true conditions say of every run, and outlines whose
//! conditions are true.
#![tactic(auto)]

mod laws;
mod proved;

pub use laws::{erased_soundness, progress, soundness};
pub use proved::Proved;
