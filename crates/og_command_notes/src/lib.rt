//! Notes on an outline for whoever reviews a yes: what it claims, what it claims of no run, which
//! places it shows to exclude each other, which steps may be several of a machine, what may hide
//! text, and the program without its auxiliary variables.
//!
//! specs/Claims.antt says what may be claimed of no run, specs/Together.antt which places exclude
//! each other, specs/Notes.antt the text, specs/Noted.antt the promise of an answer, and
//! specs/Remarks.antt what is claimed of no run, one by one.
#![tactic(auto)]

mod claims;
mod laws;
mod lines;
mod notes;
mod remarking;
mod together;

pub use laws::notes_laws;
pub use notes::noted;
pub use remarking::{Remark, remarks};
