//! How many cases pass and fail.

use crate::case::Case;
use crate::failure::Failure;
use crate::folder::Folder;
use std::sync::Wait;
use std::thread::Threads;
use std::{fmt, io};

/// How many cases passed and failed.
#[derive(Clone, Copy)]
pub(crate) struct Total {
    passed: u64,
    failed: u64,
}

impl fmt::Display for Total {
    fn fmt<W: fmt::Write>(&self, f: &mut fmt::Formatter<W>) -> fmt::Result {
        let (passed, failed) = (self.passed, self.failed);
        write!(f, "{passed} passed, {failed} failed")
    }
}

// Prints a failure.
fn print_failure<W: fmt::Display>(
    folder: &Folder<'_>,
    name: &str,
    implementation: &W,
    failure: Failure<'_>,
) -> io::Result<()> {
    let path = folder.path();
    folder.print(format_args!("{path}/{name}{implementation}: {failure}"))
}

// Runs a case in each of its ways, and reports failures. Whether there were none.
fn passes<H: Threads + Wait + Sync>(
    threads: &H,
    folder: &Folder<'_>,
    name: &str,
    case: &Case,
) -> io::Result<bool> {
    let mut passes = true;
    for implementation in case.ways() {
        let ends = case.run(threads, folder, *implementation)?;
        if let Some(failure) = case.failure(&ends) {
            print_failure(folder, name, implementation, failure)?;
            passes = false;
        }
    }
    Ok(passes)
}

impl Total {
    pub(crate) fn new() -> Total {
        Total {
            passed: 0,
            failed: 0,
        }
    }

    fn add(&mut self, passes: bool) {
        if passes {
            self.passed = self.passed.saturating_add(1);
        } else {
            self.failed = self.failed.saturating_add(1);
        }
    }

    fn add_case<H: Threads + Wait + Sync>(
        &mut self,
        threads: &H,
        folder: &Folder<'_>,
        name: &str,
    ) -> io::Result<()> {
        match Case::read(folder, name) {
            Ok(case) => self.add(passes(threads, folder, name, &case)?),
            Err(failure) => {
                print_failure(folder, name, &"", failure)?;
                self.add(false);
            }
        }
        Ok(())
    }

    /// Runs the cases of a folder, and prints a line for each failure. A folder that cannot be
    /// listed is a failure too.
    ///
    /// # Errors
    ///
    /// A line could not be printed, or memory ran out.
    pub(crate) fn add_folder<H: Threads + Wait + Sync>(
        &mut self,
        threads: &H,
        folder: &Folder<'_>,
    ) -> io::Result<()> {
        let Ok(names) = folder.cases() else {
            let path = folder.path();
            self.add(false);
            return folder.print(format_args!("{path}: cannot be listed"));
        };
        for name in &names {
            self.add_case(threads, folder, name.as_str())?;
        }
        Ok(())
    }

    /// The status: 0 where no case failed, else 1.
    pub(crate) fn status(self) -> u8 {
        u8::from(self.failed > 0)
    }
}
