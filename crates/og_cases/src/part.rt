//! The files of a case.

/// A file of a case.
#[derive(Clone, Copy)]
pub(crate) enum Part {
    /// The words after the program's name, each with its line end. A case is where this file is.
    Args,
    /// The standard input; empty where there is no such file.
    Stdin,
    /// The expected standard output.
    Stdout,
    /// The expected standard error, where the case says.
    Stderr,
    /// The expected status, as a number.
    Status,
}

impl Part {
    /// How its name ends.
    pub(crate) fn ending(self) -> &'static str {
        match self {
            Part::Args => ".args",
            Part::Stdin => ".stdin",
            Part::Stdout => ".stdout",
            Part::Stderr => ".stderr",
            Part::Status => ".status",
        }
    }
}
