//! The words after the program's name, as jobs.
#![tactic(auto)]

mod commands;
mod given;
mod job;
mod words;

pub use given::given_words;
pub use job::{
    Check, Conditions, Erase, Expand, Explore, Find, Format, Infer, Job, Migrate, Notes, Promela,
    Prove, Run, Show, Usage,
};
pub use words::{asks_for_editor, read_words};
