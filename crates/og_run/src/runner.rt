//! Runs of an outline.

ghost use Rattle.std.specs.Prelude.{◌≡◌, ℕ, ◌<◌, ◌≤◌, [], None, is_some, IfOk};
ghost use Rattle.og_run.specs.Histories.{process_count};
ghost use Rattle.og_run.specs.Over.{OverAt};
ghost use Rattle.og_run.specs.Outcomes.{IsProvedOutcome};
ghost use Rattle.og_run.specs.Answered.{Runs};

use crate::board::Board;
use crate::fault::RunError;
use crate::outcome::Outcome;
use crate::proved::ProvedBoard;
use crate::threads::run_board;
use og_linear::State;
use og_pool::{Gate, ThreadFault};
use og_theorem::Proved;
use og_typed::Outline;
use std::alloc::Global;
use std::sync::Wait;
use std::thread::Threads;

// Runs each process of the board in a thread of its own.
fn run_plain<'a, G: Gate, R: Threads + Wait + Sync>(
    rt: &R,
    alloc: Global,
    board: Board<'a>,
    main: u32,
    gate: &G,
) -> Result<Board<'a>, ThreadFault>
    requires empty { (board.history ≡ []) × (board.halted ≡ None) }
    requires some { 0 < process_count board.given.outline }
    ensures same { IfOk result (λ b. b.given ≡ board.entry.given) }
    ensures over { IfOk result (λ b. (p : ℕ) → p < process_count b.given.outline
        → OverAt b.given b.history (is_some b.halted) p) }
{
    run_board(rt, alloc, board, main, gate)
}

/// Runs the outline from these values, each process in a thread of its own, until nothing more can
/// happen or the history is as long as the limit.
///
/// The gate hears of each act of a process before it, outside the lock, and of each of its moves,
/// by the number of the process counted from 1; the main process has the number 0.
///
/// 51 WrongLength where the number of values is not that of the variables that are no auxiliaries;
/// else 50 NotPre where the precondition is false; 52 Spawn where a thread could not be started: no
/// process has moved then, and every thread that was started has ended.
pub fn run<G: Gate, R: Threads + Wait + Sync>(
    rt: &R,
    alloc: Global,
    outline: &Outline,
    values: State,
    limit: u32,
    gate: &G,
) -> Result<Outcome, RunError>
    requires { limit ≤ 1000000 }
    ensures { Runs result (record { outline = outline.now; values = values; limit = limit }) }
{
    outline.follows_rule();
    let main = outline.processes().len() as u32;
    let board = Board::begin(alloc, outline, values, limit)?;
    let ended = run_plain(rt, alloc, board, main, gate)?;
    Ok(ended.outcome(alloc)?)
}

/// Runs a proved outline, as `run`. Where it finishes the postcondition is true; it never ends in
/// an overflow, and never gets stuck where the last condition was proved too.
pub fn run_proved<G: Gate, R: Threads + Wait + Sync>(
    rt: &R,
    alloc: Global,
    proved: &Proved<'_>,
    values: State,
    limit: u32,
    gate: &G,
) -> Result<Outcome, RunError>
    requires { limit ≤ 1000000 }
    ensures runs { Runs result (record { outline = proved.now.0; values = values; limit = limit }) }
    ensures proved { IfOk result (IsProvedOutcome
        (record { outline = proved.now.0; values = values; limit = limit }) proved.now.1) }
{
    let outline = proved.outline();
    outline.follows_rule();
    let _unblocked = proved.unblocked();
    let main = outline.processes().len() as u32;
    let board = ProvedBoard::begin(alloc, proved, values, limit)?;
    let ended = run_plain(rt, alloc, board.into_board(), main, gate)?;
    Ok(ended.outcome(alloc)?)
}
