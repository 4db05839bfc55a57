//! Runs of sources.

use og_command_run::{Ran, Reply, Runner, ran, ran_by_schedule, ran_proved};
use og_io::RunLimit;
use og_judge::Refusal;
use og_pool::OpenGate;
use og_test_samples::{TWO_ADD, TWO_ADD_CERTS};
use og_typed::Source;
use std::alloc::Global;
use std::sync::Wait;
use std::thread::Threads;

// How a run of `TWO_ADD` from x = 0 ends.
const END: &[u8] = b"\noutcome: finished\nstate: x = 3\n";

// Its two histories; the second is that of the schedule.
const HISTORIES: [&[u8]; 2] = [b"history: 1 2", b"history: 2 1"];

// Whether a reply is a run with one of these histories.
fn is_ended(reply: &Reply<'_>, histories: &[&[u8]]) -> bool {
    let Reply::Ran(Ran { answer, note: None }) = reply else {
        return false;
    };
    let history = answer.text.strip_suffix(END).unwrap_or_default();
    answer.status == 0 && histories.iter().any(|known| *known == history)
}

// What runs at most 10 steps.
fn runner_of<R>(rt: &R, alloc: Global) -> Option<Runner<'_, OpenGate, R>> {
    Some(Runner {
        rt,
        alloc,
        limit: RunLimit::new(10)?,
        gate: &OpenGate,
    })
}

pub(crate) fn is_run<R: Threads + Wait + Sync>(rt: &R, alloc: Global) -> Result<bool, Refusal> {
    let Some(runner) = runner_of(rt, alloc) else {
        return Ok(false);
    };
    let source = Source::read(alloc, TWO_ADD.as_bytes())?;
    let reply = ran(&runner, &source, &["x=0"], false)?;
    Ok(is_ended(&reply, &HISTORIES))
}

pub(crate) fn is_proved_run<R: Threads + Wait + Sync>(
    rt: &R,
    alloc: Global,
) -> Result<bool, Refusal> {
    let Some(runner) = runner_of(rt, alloc) else {
        return Ok(false);
    };
    let source = Source::read(alloc, TWO_ADD.as_bytes())?;
    let reply = ran_proved(&runner, &source, TWO_ADD_CERTS.as_bytes(), &["x=0"])?;
    Ok(is_ended(&reply, &HISTORIES))
}

pub(crate) fn is_run_by_schedule(alloc: Global) -> Result<bool, Refusal> {
    let source = Source::read(alloc, TWO_ADD.as_bytes())?;
    let reply = ran_by_schedule(alloc, &source, &["x=0"], "2,1", false)?;
    Ok(is_ended(&reply, &HISTORIES[1..]))
}
