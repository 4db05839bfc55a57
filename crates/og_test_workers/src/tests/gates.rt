//! Gates that hold a worker or a process, and gates that count their calls.

use og_pool::Gate;
use std::alloc::{AllocError, Global};
use std::sync::atomic::{AtomicU64, Ordering};
use std::thread;

// Holds one condition or process until another one, or any, was done this many times, for at most
// 1,000,000 turns.
#[derive(Drop)]
pub(crate) struct Holds {
    held: u32,
    other: Option<u32>,
    times: u64,
    done: AtomicU64,
    missed: AtomicU64,
}

impl Holds {
    pub(crate) fn new(held: u32, other: Option<u32>, times: u64) -> Holds {
        Holds {
            held,
            other,
            times,
            done: AtomicU64::new(0),
            missed: AtomicU64::new(0),
        }
    }

    pub(crate) fn has_missed(&self) -> bool {
        self.missed.load(Ordering::SeqCst) != 0
    }
}

impl Gate for Holds {
    fn before(&self, number: u32) {
        if number != self.held {
            return;
        }
        for _ in 0..1_000_000 {
            if self.done.load(Ordering::SeqCst) >= self.times {
                return;
            }
            thread::yield_now();
        }
        self.missed.store(1, Ordering::SeqCst);
    }

    fn after(&self, number: u32) {
        if self.other.unwrap_or(number) == number {
            self.done.fetch_add(1, Ordering::SeqCst);
        }
    }
}

// How often a gate was called for one condition or process.
#[derive(Drop)]
struct Counted {
    before: AtomicU64,
    after: AtomicU64,
}

// Counts how often it is called for each of this many numbers, from 0, and for others.
#[derive(Drop)]
pub(crate) struct Counts {
    result: Vec<Counted>,
    others: AtomicU64,
}

impl Counts {
    pub(crate) fn new(alloc: Global, numbers: usize) -> Result<Counts, AllocError> {
        let mut result = Vec::new(alloc);
        for _ in 0..numbers {
            result.push(Counted {
                before: AtomicU64::new(0),
                after: AtomicU64::new(0),
            })?;
        }
        Ok(Counts {
            result,
            others: AtomicU64::new(0),
        })
    }

    // How often it was called before and after.
    pub(crate) fn of(&self, number: usize) -> (u64, u64) {
        match self.result.get(number) {
            Some(result) => (
                result.before.load(Ordering::SeqCst),
                result.after.load(Ordering::SeqCst),
            ),
            None => (0, 0),
        }
    }

    pub(crate) fn others(&self) -> u64 {
        self.others.load(Ordering::SeqCst)
    }
}

impl Gate for Counts {
    fn before(&self, number: u32) {
        match self.result.get(number as usize) {
            Some(result) => result.before.fetch_add(1, Ordering::SeqCst),
            None => self.others.fetch_add(1, Ordering::SeqCst),
        };
    }

    fn after(&self, number: u32) {
        match self.result.get(number as usize) {
            Some(result) => result.after.fetch_add(1, Ordering::SeqCst),
            None => self.others.fetch_add(1, Ordering::SeqCst),
        };
    }
}
