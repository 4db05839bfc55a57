//! What comes of running a program.

use og_report_text::Answer;

/// The report of a run.
#[derive(Drop)]
pub struct Ran {
    /// The printed text, and the status.
    pub answer: Answer,
    /// The line for standard error: the first false assertion along the history, where there is
    /// one.
    pub note: Option<Vec<u8>>,
}

/// What comes of running a program.
#[derive(Drop)]
pub enum Reply<'a> {
    /// The report of a run, or why there is none.
    Ran(Ran),
    /// The first word that gives no variable a value, or a schedule that is no list of numbers.
    BadValue(&'a str),
    /// The line that says which step of the schedule cannot be made, and why.
    NotMade(Vec<u8>),
}
