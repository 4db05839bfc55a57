//! Gates that see the workers of a check.

use crate::asked::checked_by;
use og_pool::Gate;
use og_test_samples::TWO_ADD;
use std::sync::atomic::{AtomicU64, Ordering};
use std::test::Fail;
use std::thread;

// Twelve conditions, and no certificate.
const NO_CERTS: &[u8] = b"og-cert 1\n";

// Holds each worker until three are inside, for at most 1,000,000 turns.
#[derive(Drop)]
struct Meeting {
    inside: AtomicU64,
    missed: AtomicU64,
}

impl Gate for Meeting {
    fn before(&self, _task: u32) {
        self.inside.fetch_add(1, Ordering::SeqCst);
        for _ in 0..1_000_000 {
            if self.inside.load(Ordering::SeqCst) >= 3 {
                return;
            }
            thread::yield_now();
        }
        self.missed.store(1, Ordering::SeqCst);
    }

    fn after(&self, _task: u32) {}
}

// A check has as many workers as it is asked for.
#[test]
fn three_workers_meet(rt: HostRuntime) -> Result<(), Fail> {
    let gate = Meeting {
        inside: AtomicU64::new(0),
        missed: AtomicU64::new(0),
    };
    let answer = checked_by(&rt, rt.alloc(), TWO_ADD, NO_CERTS, 3, &gate)?.ok_or("refused")?;
    assert_eq!(rt; answer.status, 1);
    assert!(rt; gate.missed.load(Ordering::SeqCst) == 0);
    Ok(())
}

// Counts the calls that it hears.
#[derive(Drop)]
struct Counts {
    before: AtomicU64,
    after: AtomicU64,
}

impl Gate for Counts {
    fn before(&self, _task: u32) {
        self.before.fetch_add(1, Ordering::SeqCst);
    }

    fn after(&self, _task: u32) {
        self.after.fetch_add(1, Ordering::SeqCst);
    }
}

// A check calls its own gate, once for each condition.
#[test]
fn a_check_calls_its_gate(rt: HostRuntime) -> Result<(), Fail> {
    let gate = Counts {
        before: AtomicU64::new(0),
        after: AtomicU64::new(0),
    };
    let answer = checked_by(&rt, rt.alloc(), TWO_ADD, NO_CERTS, 2, &gate)?.ok_or("refused")?;
    assert_eq!(rt; answer.status, 1);
    assert_eq!(rt; gate.before.load(Ordering::SeqCst), 12);
    assert_eq!(rt; gate.after.load(Ordering::SeqCst), 12);
    Ok(())
}
