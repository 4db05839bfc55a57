//! A call that is refused a request for memory says so, and the same call with memory gives its
//! answer.
//!
//! Each test makes a call and, where that says that memory was refused or that a thread could not
//! be started, makes it again; then the answer has to be right. `tools/refuse-memory` runs these
//! tests with each request refused in turn, so a test asks for memory only within such a call, and
//! `tools/refuse-threads` with each start of a thread.

use crate::answers::{
    is_checked, is_erased, is_found, is_listed, is_listed_in_pieces, is_migrated, is_written,
};
use crate::judged::{is_judged, is_summed_up};
use crate::runs::{is_proved_run, is_run, is_run_by_schedule};
use crate::searched::{are_examined, are_found};
use og_judge::Refusal;
use std::alloc::Global;
use std::process::Abort;
use std::sync::Wait;
use std::thread::Threads;

#[derive(Clone, Copy)]
enum Call {
    Judge,
    SumUp,
    Check,
    Write,
    List,
    ListInPieces,
    Find,
    Erase,
    Migrate,
    Run,
    RunProved,
    RunBySchedule,
    Examine,
    FindAll,
}

// Whether the answer is right.
fn is_right<R: Threads + Wait + Sync>(rt: &R, alloc: Global, call: Call) -> Result<bool, Refusal> {
    match call {
        Call::Judge => is_judged(rt, alloc),
        Call::SumUp => is_summed_up(rt, alloc),
        Call::Check => is_checked(rt, alloc),
        Call::Write => is_written(rt, alloc),
        Call::List => is_listed(alloc),
        Call::ListInPieces => is_listed_in_pieces(alloc),
        Call::Find => is_found(rt, alloc),
        Call::Erase => is_erased(alloc),
        Call::Migrate => is_migrated(alloc),
        Call::Run => is_run(rt, alloc),
        Call::RunProved => is_proved_run(rt, alloc),
        Call::RunBySchedule => is_run_by_schedule(alloc),
        Call::Examine => are_examined(alloc),
        Call::FindAll => are_found(rt, alloc),
    }
}

// The answer is right, the first time or, where memory or a thread was refused, the second.
fn expect_right<R: Threads + Wait + Sync + Abort>(rt: &R, alloc: Global, call: Call) {
    match is_right(rt, alloc, call) {
        Err(Refusal::Memory | Refusal::Spawn) => {
            assert!(rt; is_right(rt, alloc, call) == Ok(true));
        }
        first => assert!(rt; first == Ok(true)),
    }
}

#[test]
fn judges(rt: HostRuntime) {
    expect_right(&rt, rt.alloc(), Call::Judge);
}

#[test]
fn sums_up(rt: HostRuntime) {
    expect_right(&rt, rt.alloc(), Call::SumUp);
}

#[test]
fn checks(rt: HostRuntime) {
    expect_right(&rt, rt.alloc(), Call::Check);
}

#[test]
fn writes(rt: HostRuntime) {
    expect_right(&rt, rt.alloc(), Call::Write);
}

#[test]
fn lists(rt: HostRuntime) {
    expect_right(&rt, rt.alloc(), Call::List);
}

#[test]
fn lists_in_pieces(rt: HostRuntime) {
    expect_right(&rt, rt.alloc(), Call::ListInPieces);
}

#[test]
fn finds(rt: HostRuntime) {
    expect_right(&rt, rt.alloc(), Call::Find);
}

#[test]
fn erases(rt: HostRuntime) {
    expect_right(&rt, rt.alloc(), Call::Erase);
}

#[test]
fn migrates(rt: HostRuntime) {
    expect_right(&rt, rt.alloc(), Call::Migrate);
}

#[test]
fn runs(rt: HostRuntime) {
    expect_right(&rt, rt.alloc(), Call::Run);
}

#[test]
fn runs_a_proved_outline(rt: HostRuntime) {
    expect_right(&rt, rt.alloc(), Call::RunProved);
}

#[test]
fn runs_by_a_schedule(rt: HostRuntime) {
    expect_right(&rt, rt.alloc(), Call::RunBySchedule);
}

#[test]
fn examines(rt: HostRuntime) {
    expect_right(&rt, rt.alloc(), Call::Examine);
}

#[test]
fn finds_all(rt: HostRuntime) {
    expect_right(&rt, rt.alloc(), Call::FindAll);
}
