//! The outcome of a job, before anything of it is written.

use og_command_check::FoundCertificates;
use og_report_conditions::Listing;
use og_report_text::Answer;
use std::alloc::AllocError;

/// An answer, and what goes to standard error beside it.
#[derive(Drop)]
pub struct Report {
    /// What is printed, and the status.
    pub answer: Answer,
    /// What goes to standard error, if anything does; or that memory for it was refused.
    pub note: Result<Option<Vec<u8>>, AllocError>,
}

/// Certificates that were found, and what goes to standard error beside them.
#[derive(Drop)]
pub struct Certificates {
    /// The certificates, of which nothing is written yet.
    pub found: FoundCertificates,
    /// What goes to standard error, if anything does; or that memory for it was refused.
    pub note: Result<Option<Vec<u8>>, AllocError>,
}

/// A word that gives no variable a value or a range, or a schedule or numbers of conditions that
/// are no list of numbers, or a list with a number that no condition has.
#[derive(Drop)]
pub struct BadValue<'a> {
    /// The word.
    pub word: &'a str,
    /// The line that says why, if there is one and memory for it was not refused.
    pub why: Option<Vec<u8>>,
}

/// The outcome of a job.
#[derive(Drop)]
pub enum Outcome<'a> {
    /// An answer.
    Report(Report),
    /// Certificates.
    Certificates(Certificates),
    /// A listing of conditions.
    Listing(Listing),
    /// The first word that gives no value.
    BadValue(BadValue<'a>),
    /// The line that says which step of the schedule cannot be made, and why.
    NotMade(Vec<u8>),
}
