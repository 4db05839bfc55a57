//! The program `og`.
#![tactic(auto)]

mod lsp;
mod progress;

use lsp::{is_lsp, serve_lsp};
use og_program::{Program, Streams, serve_words};
use og_words::given_words;
use progress::Progress;
use std::fs::File;
use std::io::{IsTerminal, Write};
use std::process::ExitCode;

// The text for a terminal where there are no words.
const WAITING: &str =
    "og: reading a source and its certificates from this terminal; og --help lists the commands\n";

// A folder, which can be neither read nor written. Opened before all inputs, it is in the place of
// a standard stream that is closed, where an input would be opened and taken for that stream.
fn folder(rt: &HostRuntime) -> Option<File> {
    File::open(rt, "/").ok()
}

fn main(rt: HostRuntime) -> ExitCode {
    let _streams = (folder(&rt), folder(&rt), folder(&rt));
    let words = given_words(&rt);
    let mut streams = Streams {
        input: rt.stdin(),
        out: rt.stdout(),
        err: rt.stderr(),
    };
    if matches!(&words, Ok(words) if words.is_empty()) && streams.input.is_terminal() {
        let _ = streams.err.write_all(WAITING.as_bytes());
    }
    let asked = is_lsp(rt.alloc(), &words);
    let words = match asked {
        Ok(true) => return ExitCode::from(serve_lsp(&rt, rt.alloc(), &mut streams)),
        Ok(false) => words,
        Err(usage) => Err(usage),
    };
    let progress = Progress::new(&rt);
    let program = Program {
        rt: &rt,
        alloc: rt.alloc(),
        files: &rt,
        gate: &progress,
    };
    let ended = serve_words(&program, words, &mut streams);
    ExitCode::from(ended.status)
}
