//! The threads of a run: one for each process.

ghost use Rattle.std.specs.Prelude.{◌≡◌, ℕ, ◌<◌, false, [], slice_get, Some, IfOk};
ghost use Rattle.og_run.specs.Histories.{IsRun, process_count};
ghost use Rattle.og_run.specs.Cards.{CardFits, Place};
ghost use Rattle.og_run.specs.Over.{OverAt};

use crate::arena::{Arena, Seat, Unstarted};
use crate::machine::Machine;
use crate::rule::ArenaName;
use crate::turn::RunTurn;
use og_pool::{Gate, Job, ThreadFault, in_threads};
use std::alloc::Global;
use std::marker::Brand;
use std::sync::{Condvar, Mutex, Wait};
use std::thread::Threads;

#[derive(Clone, Copy)]
struct Started {
    missing: usize,
    failed: bool,
}

// No process moves until all threads are started.
#[derive(Drop)]
struct Start {
    state: Mutex<Started>,
    changed: Condvar,
}

impl Start {
    fn new(missing: usize) -> Start {
        Start {
            state: Mutex::new(Started {
                missing,
                failed: false,
            }),
            changed: Condvar::new(),
        }
    }

    // Waits for the others. False if one of them could not be started.
    fn arrive<R: Wait>(&self, rt: &R) -> bool {
        let mut state = self.state.lock(rt);
        state.missing = state.missing.saturating_sub(1);
        self.changed.notify_all();
        let state = self
            .changed
            .wait_while(rt, state, |s| s.missing > 0 && !s.failed);
        !state.failed
    }

    fn fail<R: Wait>(&self, rt: &R) {
        let mut state = self.state.lock(rt);
        state.failed = true;
        self.changed.notify_all();
    }
}

// The number of a process for the gate: from 1, and 0 for the main process, whose number in calls
// is `main`.
fn gate_number(process: u32, main: u32) -> u32 {
    if process == main {
        0
    } else {
        process.saturating_add(1)
    }
}

// What the threads of a run share.
#[derive(Drop)]
struct Run<'a, K: ArenaName, B: Machine, G> {
    arena: &'a Arena<K, B>,
    start: &'a Start,
    main: u32,
    gate: &'a G,
}

impl<'a, K: ArenaName + Send + Sync, B: Machine + Send, G: Gate> Job for Run<'a, K, B, G> {
    ghost use Rattle.std.specs.Prelude.{◌≡◌, ⊤};
    ghost use Rattle.og_run.specs.Cards.{CameBack};
    ghost use Rattle.og_pool.specs.declared.thread_fault.ThreadFault.TheVariants.{Spawn};

    type Part = Seat<K>;

    type Gain = Seat<K>;

    ghost can = { λ _ _. ⊤ };

    ghost owes = { λ _. CameBack };

    ghost fails = { λ e. e ≡ Spawn };

    // Runs one process to its end.
    fn work<R: Wait>(&self, rt: &R, mut seat: Seat<K>) -> Result<Seat<K>, ThreadFault> {
        if !self.start.arrive(rt) {
            return Err(ThreadFault::Spawn);
        }
        let number = gate_number(seat.process(), self.main);
        for _ in rt.forever() {
            self.gate.before(number);
            match self.arena.act(rt, &mut seat) {
                RunTurn::Moved => self.gate.after(number),
                RunTurn::Waits | RunTurn::Early => self.arena.wait_change(rt, &seat),
                RunTurn::Done | RunTurn::Stuck | RunTurn::Limit | RunTurn::Overflow => {
                    return Ok(seat);
                }
            }
        }
        unreachable!()
    }

    fn give_up<R: Wait>(&self, rt: &R) {
        self.start.fail(rt);
    }
}

// Takes all seats in. Each card fits the machine as it is at the end.
fn settle<K: ArenaName, B: Machine>(arena: Arena<K, B>, mut seats: Vec<Seat<K>>) -> B
    ensures { (k : ℕ) (s : Place) → slice_get seats.items k ≡ Some s
        → CardFits (B.given result) (B.history result) (B.halted result) s.process s.card }
{
    let (mut locked, tokens) = arena.into_locked();
    while let Some(seat) = seats.pop() {
        locked.take(&tokens, seat);
    }
    locked.into_machine()
}

/// Runs each process of the board in a thread of its own, until nothing more can happen. Its table
/// is named by K; `main` is the number in calls of the main process.
pub(crate) fn run_named<
    K: ArenaName + Send + Sync,
    B: Machine + Send,
    G: Gate,
    R: Threads + Wait + Sync,
>(
    rt: &R,
    alloc: Global,
    unstarted: Unstarted,
    machine: B,
    main: u32,
    gate: &G,
) -> Result<B, ThreadFault>
    requires name { unstarted.table ≡ K.table }
    requires given { unstarted.given ≡ B.given machine }
    requires empty { (B.history machine ≡ []) × (B.halted machine ≡ false) }
    requires some { 0 < process_count (B.given machine).outline }
    ensures same { IfOk result (λ m. B.given m ≡ B.given machine) }
    ensures run { IfOk result (λ m. IsRun (B.given m) (B.history m)) }
    ensures over { IfOk result (λ m. (p : ℕ) → p < process_count (B.given m).outline
        → OverAt (B.given m) (B.history m) (B.halted m) p) }
{
    let (arena, seats) = Arena::<K, B>::new(alloc, unstarted, machine)?;
    let start = Start::new(seats.len());
    let run = Run {
        arena: &arena,
        start: &start,
        main,
        gate,
    };
    let seats = in_threads(rt, alloc, &run, seats)?;
    let machine = settle(arena, seats);
    let _all = machine.steps();
    Ok(machine)
}

/// With a table of its own.
pub(crate) fn run_board<B: Machine + Send, G: Gate, R: Threads + Wait + Sync>(
    rt: &R,
    alloc: Global,
    machine: B,
    main: u32,
    gate: &G,
) -> Result<B, ThreadFault>
    requires empty { (B.history machine ≡ []) × (B.halted machine ≡ false) }
    requires some { 0 < process_count (B.given machine).outline }
    ensures same { IfOk result (λ m. B.given m ≡ B.given machine) }
    ensures run { IfOk result (λ m. IsRun (B.given m) (B.history m)) }
    ensures over { IfOk result (λ m. (p : ℕ) → p < process_count (B.given m).outline
        → OverAt (B.given m) (B.history m) (B.halted m) p) }
{
    let unstarted = Unstarted::new(alloc, &machine)?;
    run_named::<Brand, B, G, R>(rt, alloc, unstarted, machine, main, gate)
}
