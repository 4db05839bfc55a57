//! Times the workers alone: `og_bench SOURCE CERTS`.
//!
//! Lists the conditions of an outline and reads its certificates, once, and prints how many
//! conditions there are and how many are proved. Then, for each digit of standard input, it finds
//! the statuses with that many workers, and prints how many microseconds that took.
#![tactic(auto)]

ghost use Rattle.std.specs.Prelude.{◌<◌, ◌≤◌, ◌^◌, length};

use og_cert_read::read_certs;
use og_cert_text::CertFile;
use og_cond::{Condition, conditions};
use og_io::{Workers, read_up_to};
use og_pool::{OpenGate, Status, check_all};
use og_typed::{Outline, Source};
use std::env;
use std::fs::File;
use std::io::{Read, Write};
use std::process::ExitCode;
use std::sync::Wait;
use std::thread::Threads;
use std::time::Instant;

// More than a source or a text of certificates may have.
const MOST: usize = 67_108_865;

// The bytes of a file.
fn bytes(rt: &HostRuntime, name: &str) -> Option<Vec<u8>> {
    let Ok(mut file) = File::open(rt, name) else {
        return None;
    };
    read_up_to(rt.alloc(), &mut file, MOST).ok()
}

fn print(rt: &HostRuntime, text: &str) -> Option<()> {
    rt.stdout().write_all(text.as_bytes()).ok()
}

// What is timed: workers that check the conditions by the certificates.
#[derive(Clone, Copy)]
struct Bench<'r, H> {
    rt: &'r HostRuntime,
    threads: &'r H,
    conditions: &'r [Condition<'r>],
    certs: &'r CertFile,
}

impl<'r, H: Threads + Wait + Sync> Bench<'r, H> {
    // The statuses of the conditions, found by this many workers.
    fn statuses(&self, workers: u32) -> Option<Vec<Status>>
        requires workers { (0 < workers) × (workers ≤ 64) }
        requires few { length self.now.conditions.now < 2 ^ 32 }
    {
        let (threads, alloc) = (self.threads, self.rt.alloc());
        check_all(
            threads,
            alloc,
            self.conditions,
            self.certs,
            workers,
            &OpenGate,
        )
        .ok()
    }

    // Prints how many conditions there are, and how many are proved.
    fn judge(&self) -> Option<()>
        requires few { length self.now.conditions.now < 2 ^ 32 }
    {
        let statuses = self.statuses(1)?;
        let count = statuses.len();
        let proved = statuses
            .iter()
            .filter(|status| **status == Status::Proved)
            .count();
        let text = format!(in self.rt.alloc(); "conditions: {count}\nproved: {proved}\n").ok()?;
        print(self.rt, text.as_str())
    }

    // Prints how many microseconds this many workers take.
    fn time(&self, workers: Workers) -> Option<()>
        requires few { length self.now.conditions.now < 2 ^ 32 }
    {
        let begin = Instant::now(self.rt).ok()?;
        let statuses = self.statuses(workers.count());
        let took = begin.elapsed(self.rt).ok()?.as_micros();
        statuses?;
        let text = format!(in self.rt.alloc(); "{took}\n").ok()?;
        print(self.rt, text.as_str())
    }

    // Times the workers once for each digit of standard input.
    fn time_all(&self) -> Option<()>
        requires few { length self.now.conditions.now < 2 ^ 32 }
    {
        let mut input = self.rt.stdin();
        let mut byte = [0u8];
        for _ in 0..u32::MAX {
            if input.read(&mut byte).ok()? == 0 {
                break;
            }
            let count = match byte[0] {
                digit @ b'1'..=b'9' => digit - b'0',
                _ => 0,
            };
            if let Some(workers) = Workers::new(u32::from(count)) {
                self.time(workers)?;
            }
        }
        Some(())
    }
}

fn measure<H: Threads + Wait + Sync>(
    rt: &HostRuntime,
    threads: &H,
    outline: &Outline,
    certs: &CertFile,
) -> Option<()> {
    let list = conditions(rt.alloc(), outline).ok()?;
    let bench = Bench {
        rt,
        threads,
        conditions: &list,
        certs,
    };
    let judged = match bench.judge() {
        Some(()) => bench.time_all(),
        None => None,
    };
    drop(list);
    judged
}

fn measure_files<H: Threads + Wait + Sync>(
    rt: &HostRuntime,
    threads: &H,
    source: &str,
    certs: &str,
) -> Option<()> {
    let source = bytes(rt, source)?;
    let certs = bytes(rt, certs)?;
    let file = read_certs(rt.alloc(), &certs).ok()?;
    let source = Source::read(rt.alloc(), &source).ok()?;
    let judged = measure(rt, threads, source.outline(), &file);
    drop(source);
    judged
}

fn run<H: Threads + Wait + Sync>(rt: &HostRuntime, threads: &H) -> Option<()> {
    let mut words = Vec::new(rt.alloc());
    for word in env::args(rt).ok()? {
        words.push(word).ok()?;
    }
    let source = words.get(1)?;
    let certs = words.get(2)?;
    measure_files(rt, threads, source.as_str(), certs.as_str())
}

fn main(rt: HostRuntime) -> ExitCode {
    match run(&rt, &rt) {
        Some(()) => ExitCode::from(0),
        None => {
            let _ = rt
                .stderr()
                .write_all(b"og_bench: not measured: og_bench SOURCE CERTS\n");
            ExitCode::from(1)
        }
    }
}
