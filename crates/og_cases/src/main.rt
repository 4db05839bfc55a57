//! Runs worked cases: `og_cases FOLDER..`.
//!
//! A case is a few files of a folder that have one name and several endings. It is run in this
//! process as `og` would be run in that folder, and what it writes and its status are compared with
//! the files. There is a line for each failure, and a last one with how many cases passed and
//! failed. The status is 0 where none failed, else 1; and 2 where this could not be found out.
#![tactic(auto)]

mod case;
mod ends;
mod failure;
mod folder;
mod implementation;
mod part;
mod pieces;
mod total;

use folder::Folder;
use std::io::Write;
use std::process::ExitCode;
use std::sync::Wait;
use std::thread::Threads;
use std::{env, io};
use total::Total;

// Runs the cases of the folders that the words name, and prints what came of them.
fn run<H: Threads + Wait + Sync>(rt: &HostRuntime, threads: &H) -> io::Result<Total> {
    let mut total = Total::new();
    for word in env::args(rt)?.skip(1) {
        total.add_folder(threads, &Folder::new(rt, word.as_str()))?;
    }
    println!(rt; "{total}")?;
    Ok(total)
}

fn main(rt: HostRuntime) -> ExitCode {
    match run(&rt, &rt) {
        Ok(total) => ExitCode::from(total.status()),
        Err(_) => {
            let _ = rt
                .stderr()
                .write_all(b"og_cases: usage: og_cases FOLDER..\n");
            ExitCode::from(2)
        }
    }
}
