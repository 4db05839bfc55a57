//! Workers that draw conditions and check them, also while a gate holds one of them.

ghost use Rattle.std.specs.Prelude.{◌<◌, ◌≤◌, length};

use crate::tests::claims::{Claim, expect};
use crate::tests::gates::{Counts, Holds};
use og_cert_text::CertFile;
use og_command_check::{Options, checked};
use og_cond::Condition;
use og_io::Workers;
use og_pool::{Draws, OpenGate, check_all};
use og_test_samples::{TWO_ADD, TWO_ADD_CERTS, alike, equal_processes};
use std::alloc::Global;
use std::process::Abort;
use std::sync::Wait;
use std::test::Fail;
use std::thread::Threads;

#[test]
fn two_drawers_in_turn(rt: HostRuntime) -> Result<(), Fail> {
    let (draws, mut one) = Draws::new(rt.alloc(), 2, 2)?;
    let mut other = draws.split(&mut one);
    let drawn = [
        draws.draw(&mut one),
        draws.draw(&mut other),
        draws.draw(&mut one),
        draws.draw(&mut other),
    ];
    assert!(rt; drawn == [Some(1), Some(2), None, None]);
    assert!(rt; draws.draw(&mut one).is_none());
    draws.join(&mut one, other);
    draws.close(one);
    Ok(())
}

fn expect_each_once_by<R: Threads + Wait + Sync + Abort>(
    rt: &R,
    alloc: Global,
    list: &[Condition],
    workers: u32,
) -> Result<(), Fail>
    requires workers { (0 < workers) × (workers ≤ 64) }
    requires few { length list.now ≤ 999999999 }
{
    let counts = Counts::new(alloc, list.len() + 1)?;
    check_all(rt, alloc, list, &CertFile::new(alloc), workers, &counts)?;
    for number in 1..list.len() + 1 {
        assert!(rt;
            counts.of(number) == (1, 1),
            "{number} by {workers} workers"
        );
    }
    assert!(rt; counts.of(0) == (0, 0) && counts.others() == 0);
    Ok(())
}

pub(crate) fn expect_each_once<R: Threads + Wait + Sync + Abort>(
    rt: &R,
    alloc: Global,
    list: &[Condition],
) -> Result<(), Fail>
    requires few { length list.now ≤ 999999999 }
{
    assert_eq!(rt; list.len(), 4938);
    for workers in [1, 2, 64] {
        expect_each_once_by(rt, alloc, list, workers)?;
    }
    Ok(())
}

#[test]
fn gates_hear_of_each_once(rt: HostRuntime) -> Result<(), Fail> {
    let source = alike(rt.alloc(), 2, 38, 7)?;
    expect(&rt, rt.alloc(), source.as_str(), &Claim::EachOnce)
}

// Condition 1 is held until another one is done.
pub(crate) fn expect_no_hold<R: Threads + Wait + Sync + Abort>(
    rt: &R,
    alloc: Global,
    list: &[Condition],
) -> Result<(), Fail>
    requires few { length list.now ≤ 999999999 }
{
    for other in [2, 3] {
        let gate = Holds::new(1, Some(other), 1);
        check_all(rt, alloc, list, &CertFile::new(alloc), 2, &gate)?;
        assert!(rt; !gate.has_missed(), "until {other}");
    }
    Ok(())
}

// Two workers really run at once, and the one that is not held draws on.
#[test]
fn a_worker_draws_on(rt: HostRuntime) -> Result<(), Fail> {
    let source = alike(rt.alloc(), 2, 38, 7)?;
    expect(&rt, rt.alloc(), source.as_str(), &Claim::NoHold)
}

const REPORT: &[u8] = b"conditions: 12\nproved: 12\nsafe: yes\nunblocked: yes\n";

// A check by this many workers answers as ever, with one of its conditions held until all others
// are done.
fn expect_report<R: Threads + Wait + Sync + Abort>(
    rt: &R,
    alloc: Global,
    count: u32,
    held: u32,
) -> Result<(), Fail> {
    let gate = Holds::new(held, None, 11);
    let options = Options {
        workers: Workers::new(count).expect(rt, "from 1 to 64"),
        json: false,
    };
    let (source, certs) = (TWO_ADD.as_bytes(), TWO_ADD_CERTS.as_bytes());
    let answer = checked(rt, alloc, source, certs, options, &gate)?.answer;
    assert!(rt;
        answer.text.as_slice() == REPORT,
        "{count} workers, condition {held}"
    );
    assert!(rt; !gate.has_missed(), "{count} workers, condition {held}");
    Ok(())
}

// Each condition is held in turn, so each worker at each place where it may stand, and the others
// do all that is left.
#[test]
fn each_condition_is_held(rt: HostRuntime) -> Result<(), Fail> {
    for held in 1..13 {
        expect_report(&rt, rt.alloc(), 2, held)?;
        expect_report(&rt, rt.alloc(), 3, held)?;
        expect_report(&rt, rt.alloc(), 64, held)?;
    }
    Ok(())
}

const FALSE_PROCESS: &str = "{false and x = 0}\nx := 0\n{false and x = 0}\n";

// A certificate of 9,000 sums of 200 terms, for each of 5,052 conditions.
fn one_for_all(alloc: Global) -> Result<String, Fail> {
    let terms = " 1*1".repeat(alloc, 200)?;
    let line = ["sum", terms.as_str(), "\n"].concat(alloc)?;
    let lines = line.as_str().repeat(alloc, 9_000)?;
    let mut text = ["og-cert 2\ncond 1\n", lines.as_str(), "close 1*1\n"].concat(alloc)?;
    for number in 2..5_053 {
        let entry = format!(in alloc; "cond {number}\nsame 1\n")?;
        text.push_str(entry.as_str())?;
    }
    Ok(text)
}

const ALL_PROVED: &[u8] = b"conditions: 5052\nproved: 5052\nsafe: yes\nunblocked: yes\n";

// A certificate is replayed once over equal facts: for each condition again it would take minutes.
#[test]
fn equal_facts_are_replayed_once(rt: HostRuntime) -> Result<(), Fail> {
    let head = "var x;\n{false and x = 0}\ncobegin\n";
    let source = equal_processes(rt.alloc(), head, FALSE_PROCESS, 49, "coend\n{true}\n")?;
    let certs = one_for_all(rt.alloc())?;
    for count in [1, 3] {
        let options = Options {
            workers: Workers::new(count).expect(&rt, "from 1 to 64"),
            json: false,
        };
        let (source, certs) = (source.as_bytes(), certs.as_bytes());
        let answer = checked(&rt, rt.alloc(), source, certs, options, &OpenGate)?.answer;
        assert!(rt; answer.text.as_slice() == ALL_PROVED, "{count} workers");
    }
    Ok(())
}
