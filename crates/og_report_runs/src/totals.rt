//! How far an exploration went.

ghost use Rattle.std.specs.Prelude.{◌≡◌, ◌++◌, ◌≤◌, length, OnOk};
ghost use Rattle.og_report_runs.specs.Report.{count_reached, explored_text};

use crate::lines::Explored;
use crate::witness::Run;
use og_report_prove::{put_number_line, put_yes_line};
use std::alloc::AllocError;

/// How many runs get there. Takes no memory.
pub fn count_reached(runs: &[Run]) -> usize
    ensures value { result ≡ count_reached runs.now }
    ensures few { result ≤ length runs.now }
{
    let mut count = 0;
    for run in runs {
        if let Run::Reached(_) = run {
            count += 1;
        }
    }
    count
}

/// Adds how far the exploration went, and how many of these runs get there.
///
/// # Errors
///
/// An allocation was refused; the text has what it had, and perhaps a part of this.
pub fn put_explored(text: &mut Vec<u8>, explored: Explored, runs: &[Run]) -> Result<(), AllocError>
    ensures { OnOk result (text.new.items ≡ text.old.items ++ explored_text explored runs.now) }
{
    put_number_line(text, b"starts", explored.starts as usize)?;
    put_number_line(text, b"moments", explored.moments as usize)?;
    put_yes_line(text, b"complete", explored.complete)?;
    put_number_line(text, b"reached", count_reached(runs))
}
