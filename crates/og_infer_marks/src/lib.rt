//! Edits of a text, and among them marks: auxiliaries that are put into an outline so that its
//! assertions can say where each process stands.
//!
//! A [`Plan`] says which actions set an auxiliary, and to what. [`Marks`] are its auxiliaries and
//! assignments, and become edits of the text. No contract promises anything of them: who prints an
//! edited text compares the two outlines (`og_completion`). specs/Edits.antt says what an edited
//! text is.
#![tactic(auto)]

mod acting;
mod edit;
mod marking;
mod marks;
mod naming;
mod plan;
mod reaching;

pub use acting::{actions, alike};
pub use edit::{Edit, edited};
pub use marks::Marks;
pub use plan::{Plan, Style};
