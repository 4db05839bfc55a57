//! How far a check, a search or a run is, reported at a terminal.

use og_pool::Gate;
use std::io::{self, IsTerminal, Write};
use std::sync::atomic::{AtomicBool, AtomicU64, Ordering};
use std::time::Instant;

/// Shows on standard error, where that is a terminal, how many of how many conditions are done, or
/// how many steps a run has made: after the first second of work, and then once a second. The line
/// is taken away when all are done, or the run has ended.
#[derive(Drop)]
pub(crate) struct Progress<'r> {
    rt: &'r HostRuntime,
    start: Option<Instant>,
    runs: AtomicBool,
    count: AtomicU64,
    done: AtomicU64,
    // The last second in which it was reported; 0 before the first report.
    shown: AtomicU64,
}

impl<'r> Progress<'r> {
    /// Nothing is done yet.
    pub(crate) fn new(rt: &'r HostRuntime) -> Progress<'r> {
        let start = if rt.stderr().is_terminal() {
            Instant::now(rt).ok()
        } else {
            None
        };
        Progress {
            rt,
            start,
            runs: AtomicBool::new(false),
            count: AtomicU64::new(0),
            done: AtomicU64::new(0),
            shown: AtomicU64::new(0),
        }
    }

    // How many whole seconds have gone by; 0 where that is not to be reported.
    fn seconds(&self) -> u64 {
        match &self.start {
            Some(start) => match start.elapsed(self.rt) {
                Ok(elapsed) => elapsed.as_secs(),
                Err(_) => 0,
            },
            None => 0,
        }
    }

    // Whether nobody else reports this second.
    fn takes(&self, second: u64) -> bool {
        let shown = self.shown.load(Ordering::SeqCst);
        shown < second
            && self
                .shown
                .compare_exchange(shown, second, Ordering::SeqCst, Ordering::SeqCst)
                .is_ok()
    }

    // Writes how many are done in place of what stood in the line.
    fn show(&self, done: u64) -> io::Result<()> {
        let count = self.count.load(Ordering::SeqCst);
        if self.runs.load(Ordering::SeqCst) {
            write!(self.rt.stderr(), "\rog: {done} of at most {count} steps")
        } else {
            write!(self.rt.stderr(), "\rog: {done} of {count} conditions")
        }
    }

    // Takes the line away, if there is one.
    fn clear(&self) -> io::Result<()> {
        if self.shown.load(Ordering::SeqCst) == 0 {
            return Ok(());
        }
        self.rt.stderr().write_all(b"\r\x1b[K")
    }

    // Nothing of this many is done yet.
    fn restart(&self, count: u32) {
        self.count.store(count as u64, Ordering::SeqCst);
        self.done.store(0, Ordering::SeqCst);
    }
}

impl<'r> Gate for Progress<'r> {
    fn begin(&self, count: u32) {
        self.restart(count);
    }

    fn before(&self, _task: u32) {}

    fn after(&self, _task: u32) {
        let done = self.done.fetch_add(1, Ordering::SeqCst).wrapping_add(1);
        if self.takes(self.seconds()) {
            let _ = self.show(done);
        }
        if done == self.count.load(Ordering::SeqCst) {
            let _ = self.clear();
        }
    }

    fn begin_run(&self, limit: u32) {
        self.runs.store(true, Ordering::SeqCst);
        self.restart(limit);
    }

    fn end_run(&self) {
        let _ = self.clear();
    }
}
