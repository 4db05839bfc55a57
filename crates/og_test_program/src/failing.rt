//! Checks from readers and to writers that fail.

use crate::devices::{Capture, Failure, OneByOne, Restless, Spaces};
use og_command_check::{EngineFault, Options, engine, engine_joined};
use og_io::{Workers, read_up_to};
use og_pool::OpenGate;
use og_test_samples::{ONE_SKIP, ONE_SKIP_CERTS};
use std::alloc::Global;
use std::io::{ErrorKind, Read};
use std::process::Abort;
use std::sync::Wait;
use std::test::Fail;
use std::thread::Threads;

const OPTIONS: Options = Options {
    workers: Workers::ONE,
    json: false,
};

const REPORT: &[u8] = b"conditions: 4\nproved: 4\nsafe: yes\nunblocked: yes\n";

// Checks from these readers to the end of this paper.
fn check_from<R: Threads + Wait + Sync, S: Read, C: Read>(
    rt: &R,
    source: &mut S,
    certs: &mut C,
    paper: &mut Capture,
) -> Result<u8, EngineFault> {
    let alloc = *paper.bytes.allocator();
    engine(rt, alloc, source, certs, paper, OPTIONS, &OpenGate)
}

// Each read lapses in turn, up to the one after the last byte of the certificates. The reads of
// both are counted through: the source ends with the read after its last byte. Nothing is written
// where there is no answer.
fn expect_reads<R: Threads + Wait + Sync + Abort>(
    rt: &R,
    alloc: Global,
    kind: ErrorKind,
    expected: Result<u8, EngineFault>,
) {
    let of_source = ONE_SKIP.len() + 1;
    let length = if expected.is_ok() { REPORT.len() } else { 0 };
    for at in 1..of_source + ONE_SKIP_CERTS.len() + 2 {
        let mut source = OneByOne::new(ONE_SKIP.as_bytes(), at, kind);
        let mut certs = OneByOne::new(
            ONE_SKIP_CERTS.as_bytes(),
            at.saturating_sub(of_source),
            kind,
        );
        let mut paper = Capture::new(alloc, 0, Failure::Fails);
        let got = check_from(rt, &mut source, &mut certs, &mut paper);
        assert!(rt; got == expected, "at {at}");
        let written = paper.bytes.as_slice();
        assert!(rt;
            REPORT.starts_with(written) && written.len() == length,
            "at {at}"
        );
        assert!(rt; expected.is_ok() || paper.writes == 0, "at {at}");
    }
}

fn expect_failed_joined_reads<R: Threads + Wait + Sync + Abort>(
    rt: &R,
    alloc: Global,
) -> Result<(), Fail> {
    let mut input = Vec::from_slice(alloc, ONE_SKIP.as_bytes())?;
    input.extend_from_slice(ONE_SKIP_CERTS.as_bytes())?;
    let mut paper = Capture::new(alloc, 0, Failure::Fails);
    for at in 1..input.len() + 2 {
        let mut reader = OneByOne::new(&input, at, ErrorKind::Other);
        let got = engine_joined(rt, alloc, &mut reader, &mut paper, OPTIONS, &OpenGate);
        assert!(rt; got == Err(EngineFault::ReadFailed), "at {at}");
    }
    assert!(rt; paper.writes == 0);
    Ok(())
}

// A read that is interrupted is tried again.
#[test]
fn readers(rt: HostRuntime) -> Result<(), Fail> {
    let alloc = rt.alloc();
    expect_reads(&rt, alloc, ErrorKind::Other, Err(EngineFault::ReadFailed));
    expect_reads(&rt, alloc, ErrorKind::Interrupted, Ok(0));
    expect_failed_joined_reads(&rt, alloc)
}

fn expect_given_up<R: Threads + Wait + Sync + Abort>(rt: &R, alloc: Global) {
    let mut source = Restless { reads: 0 };
    let mut certs = OneByOne::new(ONE_SKIP_CERTS.as_bytes(), 0, ErrorKind::Other);
    let mut paper = Capture::new(alloc, 0, Failure::Fails);
    let got = check_from(rt, &mut source, &mut certs, &mut paper);
    assert!(rt; got == Err(EngineFault::ReadFailed));
    assert!(rt; source.reads == 100_000_000);
    assert!(rt; certs.reads == 0 && paper.writes == 0);
}

// A reader that gives nothing and does not end is read 100,000,000 times.
#[test]
fn a_reader_without_end(rt: HostRuntime) {
    expect_given_up(&rt, rt.alloc());
}

// The most bytes to read, and the bytes read.
const LIMITS: &[(usize, &[u8])] = &[(0, b""), (1, b"v"), (6, b"var x;"), (7, b"var x;")];

#[test]
fn limits(rt: HostRuntime) -> Result<(), Fail> {
    for (most, expected) in LIMITS {
        let mut reader = b"var x;".as_slice();
        let text = read_up_to(rt.alloc(), &mut reader, *most).or(Err("not read"))?;
        assert!(rt; text.as_slice() == *expected, "at {most}");
    }
    Ok(())
}

// Each write lapses in turn. What was written stays.
fn expect_writes<R: Threads + Wait + Sync + Abort>(
    rt: &R,
    alloc: Global,
    failure: Failure,
    expected: Result<u8, EngineFault>,
) {
    for at in 1..REPORT.len() + 1 {
        let mut paper = Capture::new(alloc, at, failure);
        let (mut source, mut certs) = (ONE_SKIP.as_bytes(), ONE_SKIP_CERTS.as_bytes());
        let got = check_from(rt, &mut source, &mut certs, &mut paper);
        assert!(rt; got == expected, "at {at}");
        let length = if got.is_ok() { REPORT.len() } else { at - 1 };
        let written = paper.bytes.as_slice();
        assert!(rt;
            REPORT.starts_with(written) && written.len() == length,
            "at {at}"
        );
    }
}

// A writer that fails after the last byte is not asked for more.
fn expect_whole<R: Threads + Wait + Sync + Abort>(
    rt: &R,
    alloc: Global,
    fails_flush: bool,
    expected: Result<u8, EngineFault>,
) {
    let mut paper = Capture::new(alloc, REPORT.len() + 1, Failure::Fails);
    paper.fails_flush = fails_flush;
    let (mut source, mut certs) = (ONE_SKIP.as_bytes(), ONE_SKIP_CERTS.as_bytes());
    let got = check_from(rt, &mut source, &mut certs, &mut paper);
    assert!(rt; got == expected);
    assert!(rt; paper.bytes.as_slice() == REPORT);
}

// A writer that takes nothing has failed, and one that is interrupted is tried again.
#[test]
fn writers(rt: HostRuntime) {
    let (alloc, failed) = (rt.alloc(), Err(EngineFault::WriteFailed));
    expect_writes(&rt, alloc, Failure::Fails, failed);
    expect_writes(&rt, alloc, Failure::TakesNothing, failed);
    expect_writes(&rt, alloc, Failure::IsInterrupted, Ok(0));
    expect_whole(&rt, alloc, false, Ok(0));
    expect_whole(&rt, alloc, true, failed);
}

// Checks from these readers, and expects the line of a refusal.
fn expect_refused<R: Threads + Wait + Sync + Abort, S: Read, C: Read>(
    rt: &R,
    alloc: Global,
    source: &mut S,
    certs: &mut C,
    line: &[u8],
) {
    let mut paper = Capture::new(alloc, 0, Failure::Fails);
    let got = check_from(rt, source, certs, &mut paper);
    assert!(rt; got == Ok(2));
    assert!(rt; paper.bytes.as_slice() == line);
}

// Texts of spaces: without end, and as many as a source may have.
#[test]
fn spaces(rt: HostRuntime) -> Result<(), Fail> {
    let (alloc, mut source, mut certs) = (
        rt.alloc(),
        ONE_SKIP.as_bytes(),
        ONE_SKIP_CERTS.as_bytes(),
    );
    let line = b"refused: 4 SourceTooLong\n";
    expect_refused(&rt, alloc, &mut Spaces, &mut certs, line);
    let line = b"refused: 23 CertsTooLong\n";
    expect_refused(&rt, alloc, &mut source, &mut Spaces, line);
    let spaces = vec![in alloc; b' '; 1_048_576]?;
    let (mut source, mut certs) = (spaces.as_slice(), ONE_SKIP_CERTS.as_bytes());
    let line = b"refused: 7 Expected at 1:1\n";
    expect_refused(&rt, alloc, &mut source, &mut certs, line);
    Ok(())
}
