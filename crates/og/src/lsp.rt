//! The command `og lsp`.

use og_io::{Budget, Workers};
use og_lsp_document::Judge;
use og_lsp_server::serve_editor;
use og_pool::OpenGate;
use og_program::Streams;
use og_words::{Usage, asks_for_editor};
use std::alloc::Global;
use std::io::{Read, Write};
use std::sync::Wait;
use std::thread::Threads;

// How many steps each search may make.
const BUDGET: u64 = 20_000;

/// Whether the words ask for the language server.
///
/// # Errors
///
/// Where they do, what else is wrong with them.
pub(crate) fn is_lsp(alloc: Global, words: &Result<Vec<String>, Usage>) -> Result<bool, Usage> {
    match words {
        Ok(words) => asks_for_editor(alloc, words.as_slice()),
        Err(_) => Ok(false),
    }
}

/// Serves an editor over the standard streams. Gives the status.
pub(crate) fn serve_lsp<I: Read + Send + Drop, O: Write, E: Write, H: Threads + Wait + Sync>(
    rt: &H,
    alloc: Global,
    streams: &mut Streams<I, O, E>,
) -> u8 {
    let Some(budget) = Budget::new(BUDGET) else {
        return 4;
    };
    let gate = OpenGate;
    let judge = Judge {
        rt,
        alloc,
        gate: &gate,
        budget,
        workers: Workers::ONE,
    };
    let ended = serve_editor(&judge, &mut streams.input, &mut streams.out);
    let _ = streams.err.write_all(ended.line().as_bytes());
    ended.status()
}
