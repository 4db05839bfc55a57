//! Programs that run, each process in a thread of its own.

use crate::tests::gates::{Counts, Holds};
use crate::tests::sources::{ONE_OVERFLOWS, ONE_WAITS, state_of};
use og_run::{Finish, Gate, OpenGate, Outcome, RunError, RunFault, run};
use og_test_samples::{
    AUXILIARY_LOOP, EACH_WAITS, TWO_ADD, UP_AND_DOWN, WITH_MAIN, alike, outline_of,
};
use std::alloc::Global;
use std::process::Abort;
use std::sync::Wait;
use std::test::Fail;
use std::thread::Threads;

// A run of a source, from these values, of at most this many steps.
#[derive(Clone, Copy)]
struct Row<'a> {
    source: &'a str,
    values: &'a [i64],
    limit: u32,
    // How it ends, which processes moved, and the values then.
    ends: (Finish, &'a [u32], &'a [i64]),
}

// What comes of a run.
fn ended<G: Gate, R: Threads + Wait + Sync>(
    rt: &R,
    alloc: Global,
    source: &str,
    values: &[i64],
    limit: u32,
    gate: &G,
) -> Result<Result<Outcome, RunError>, Fail> {
    if limit > 1_000_000 {
        return Err("no run is as long".into());
    }
    let values = state_of(alloc, values)?;
    let outline = outline_of(alloc, source)?;
    let ended = run(rt, alloc, &outline, values, limit, gate);
    drop(outline);
    Ok(ended)
}

pub(crate) fn expect_outcome<R: Abort>(
    rt: &R,
    outcome: &Outcome,
    (finish, history, state): (Finish, &[u32], &[i64]),
) {
    assert!(rt; outcome.finish == finish);
    assert!(rt; outcome.history.as_slice() == history);
    assert!(rt; outcome.state.as_slice() == state);
}

fn expect_row<G: Gate, R: Threads + Wait + Sync + Abort>(
    rt: &R,
    alloc: Global,
    row: &Row<'_>,
    gate: &G,
) -> Result<(), Fail> {
    let outcome = ended(rt, alloc, row.source, row.values, row.limit, gate)??;
    expect_outcome(rt, &outcome, row.ends);
    Ok(())
}

const MAX: &[i64] = &[i64::MAX];

const ENDS: &[Row] = &[
    Row {
        source: UP_AND_DOWN,
        values: MAX,
        limit: 1000,
        ends: (Finish::Overflow(0), &[], MAX),
    },
    Row {
        source: UP_AND_DOWN,
        values: MAX,
        limit: 0,
        ends: (Finish::Limit, &[], MAX),
    },
    Row {
        source: ONE_OVERFLOWS,
        values: MAX,
        limit: 10,
        ends: (Finish::Overflow(1), &[], MAX),
    },
    Row {
        source: EACH_WAITS,
        values: &[0, 0],
        limit: 1000,
        ends: (Finish::Stuck, &[], &[0, 0]),
    },
    Row {
        source: ONE_WAITS,
        values: &[0],
        limit: 10,
        ends: (Finish::Finished, &[1, 0], &[1]),
    },
    Row {
        source: AUXILIARY_LOOP,
        values: &[],
        limit: 0,
        ends: (Finish::Limit, &[], &[0]),
    },
    Row {
        source: WITH_MAIN,
        values: &[7],
        limit: 1,
        ends: (Finish::Limit, &[1], &[0]),
    },
];

#[test]
fn runs_end(rt: HostRuntime) -> Result<(), Fail> {
    for row in ENDS {
        expect_row(&rt, rt.alloc(), row, &OpenGate)?;
    }
    Ok(())
}

fn expect_refused<R: Threads + Wait + Sync + Abort>(
    rt: &R,
    alloc: Global,
    values: &[i64],
    wanted: RunFault,
) -> Result<(), Fail> {
    match ended(rt, alloc, TWO_ADD, values, 10, &OpenGate)? {
        Err(RunError::Fault(fault)) => assert!(rt; fault == wanted),
        Ok(_) | Err(RunError::Memory) => panic!(rt; "no fault"),
    }
    Ok(())
}

#[test]
fn runs_are_refused(rt: HostRuntime) -> Result<(), Fail> {
    for (fault, number, name) in [
        (RunFault::NotPre, 50, "NotPre"),
        (RunFault::WrongLength, 51, "WrongLength"),
        (RunFault::Spawn, 52, "Spawn"),
    ] {
        assert!(rt; fault.number() == number);
        assert!(rt; fault.name() == name);
    }
    expect_refused(&rt, rt.alloc(), &[], RunFault::WrongLength)?;
    expect_refused(&rt, rt.alloc(), &[1], RunFault::NotPre)
}

// The run of this many equal processes ended after this many moves of each.
fn expect_moves<R: Abort>(rt: &R, outcome: &Outcome, processes: usize, moves: usize) {
    assert!(rt; outcome.finish == Finish::Finished);
    assert!(rt; outcome.history.len() == processes.saturating_mul(moves));
    for p in 0..processes {
        let mine = outcome.history.iter().filter(|q| **q as usize == p).count();
        assert!(rt; mine == moves, "process {p}");
    }
}

// Each of 64 processes makes all its steps.
#[test]
fn many_processes(rt: HostRuntime) -> Result<(), Fail> {
    let source = alike(rt.alloc(), 2, 61, 63)?;
    let outcome = ended(&rt, rt.alloc(), source.as_str(), &[0], 10_000, &OpenGate)??;
    expect_moves(&rt, &outcome, 64, 63);
    Ok(())
}

// Eight processes of 40 statements, of which the first does not move before the second.
#[test]
fn threads_really_move(rt: HostRuntime) -> Result<(), Fail> {
    let source = alike(rt.alloc(), 2, 38, 7)?;
    let gate = Holds::new(1, Some(2), 1);
    let outcome = ended(&rt, rt.alloc(), source.as_str(), &[0], 10_000, &gate)??;
    assert!(rt; !gate.has_missed());
    expect_moves(&rt, &outcome, 8, 40);
    let first = outcome.history.iter().position(|p| *p == 0);
    let second = outcome.history.iter().position(|p| *p == 1);
    assert!(rt; second < first);
    Ok(())
}

// A gate hears of the main process as 0, of each move once, and of at least one act more of each.
#[test]
fn gates_hear_of_each_move(rt: HostRuntime) -> Result<(), Fail> {
    let row = Row {
        source: WITH_MAIN,
        values: &[7],
        limit: 10,
        ends: (Finish::Finished, &[1, 0, 1], &[2]),
    };
    let gate = Counts::new(rt.alloc(), 2)?;
    expect_row(&rt, rt.alloc(), &row, &gate)?;
    let (main, first) = (gate.of(0), gate.of(1));
    assert!(rt; main.1 == 2 && first.1 == 1);
    assert!(rt; main.0 >= 3 && first.0 >= 2);
    assert!(rt; gate.others() == 0);
    Ok(())
}
