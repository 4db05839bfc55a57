//! What a reviewer reads off the text of an outline: its places and steps, the accesses of each step
//! to variables of other processes, variables that nothing assigns or reads, and characters that may
//! hide text.
//!
//! specs/Points.antt lists the places, specs/Steps.antt the steps and how each uses variables of
//! other processes, specs/Idioms.antt the steps that machines have, specs/Accesses.antt the lines of
//! steps, specs/Unused.antt and specs/Hidden.antt what else is told, and specs/Law.antt what all of
//! them say.
#![tactic(auto)]

mod accesses;
mod hidden;
mod idioms;
mod laws;
mod steps;
mod unused;
mod walk;

pub use accesses::put_steps;
pub use hidden::{Hidden, hidden_characters, put_hidden_lines};
pub use laws::access_laws;
pub use unused::{Disuse, Unused, put_unused, unused_variables};
pub use walk::{Point, Step, Walk, walk_of};
