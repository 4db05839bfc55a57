//! Programs: outlines without their auxiliary variables.
//!
//! [`erase`] makes the program of an outline, as og_typed's specs/Erase.antt has it. A [`Program`]
//! gives itself as an outline, to be run, and as a tree, to be printed; the tree is that of
//! specs/Collected.antt.
#![tactic(auto)]

mod assertions;
mod copies;
mod erasing;
mod forms;
mod program;
mod statements;

pub use erasing::erase;
pub use program::Program;
