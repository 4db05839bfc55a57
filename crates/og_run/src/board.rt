//! A board: an outline, its moment, and the history that led to it.

ghost use Rattle.std.specs.Prelude.{◌≡◌, ℕ, ◌<◌, ◌≤◌, ◌+◌, ◌^◌, length, set, slice_get, is_some, IfOk, IfSome, [], None, Some, true, false};
ghost use Rattle.og_typed.specs.Machine.{Moment as Instant};
ghost use Rattle.og_run.specs.Runs.{moment_after};
ghost use Rattle.og_run.specs.Histories.{IsRun, process_count, moves_of};
ghost use Rattle.og_run.specs.Turns.{Answers, IsTurn};
ghost use Rattle.og_run.specs.Standing.{Begins, AreCounts, stand_after};
ghost use Rattle.og_run.specs.Over.{OverAt};
ghost use Rattle.og_run.specs.Ends.{IsFinish, IsOutcome};

use crate::machine::Machine;
use crate::outcome::{Finish, Outcome};
use crate::setting::Setting;
use crate::turn::RunTurn;
use og_linear::State;
use og_step::{Moment, StartError, Turn, start};
use og_typed::Outline;
use std::alloc::{AllocError, Global};
use std::marker::Model;

/// A moment of an outline, with the history that leads to it from the start, at most as long as
/// the limit.
///
/// Contracts see what was given, the history, and the process that overflowed, if one did.
/// Processes have their numbers from 0, in the order of the text; the main process, where there is
/// one, has the number after the last.
#[derive(Drop)]
pub struct Board<'a> {
    setting: Setting,
    moment: Moment<'a>,
    history: Vec<u32>,
    // How often each process has moved.
    counts: Vec<u32>,
    halted: Option<u32>,
}

impl<'a> Model for Board<'a> {
    ghost use Rattle.std.specs.Prelude.{◌≤◌, vec_capacity};
    ghost use Rattle.og_run.specs.Standing.{Standing, standing_code, IsBoard};

    ghost Value = { Standing };

    ghost coded = { standing_code };

    ghost view = { λ b. record { given = b.setting; history = b.history.items; halted = b.halted } };

    ghost invariant = { λ b. IsBoard (record { given = b.setting; history = b.history.items; halted = b.halted }) b.moment b.counts.items × (b.setting.limit ≤ vec_capacity b.history) };
}

// How many processes there are, the main process with them.
fn count_processes(outline: &Outline) -> usize
    ensures count { result ≡ process_count outline.now }
    ensures few { result ≤ 257 }
{
    outline.follows_rule();
    let main = outline.prologue().is_some() || outline.epilogue().is_some();
    outline.processes().len() + usize::from(main)
}

// One 0 for each process.
fn no_moves(alloc: Global, processes: usize) -> Result<Vec<u32>, AllocError>
    ensures { IfOk result (λ v. AreCounts processes [] v.items) }
{
    Vec::from_elem(alloc, 0, processes)
}

// One more move of process p.
fn count_move(counts: &mut Vec<u32>, p: usize)
    requires inside { p < length counts.old.items }
    requires few { (n : ℕ) → slice_get counts.old.items p ≡ Some n → n < 2 ^ 31 }
    ensures { (n : ℕ) → slice_get counts.old.items p ≡ Some n → counts.new.items
        ≡ set counts.old.items p (n + 1) }
{
    counts[p] += 1;
}

// Whether the history is as long as the limit.
fn is_full(history: &[u32], limit: u32) -> bool
    ensures full { result ≡ true → limit ≤ length history.now }
    ensures room { result ≡ false → length history.now < limit }
{
    history.len() >= limit as usize
}

// How many counts there are.
fn number_of(counts: &[u32]) -> u32
    requires { length counts.now ≤ 257 }
    ensures { result ≡ length counts.now }
{
    counts.len() as u32
}

impl<'a> Board<'a> {
    /// The board of an outline whose variables that are no auxiliaries have these values, in order,
    /// with room for a history of `limit` steps.
    ///
    /// 51 WrongLength where the number of values is not that of those variables; else 50 NotPre
    /// where the precondition is false.
    pub fn begin(
        alloc: Global,
        outline: &'a Outline,
        values: State,
        limit: u32,
    ) -> Result<Board<'a>, StartError>
        requires { limit ≤ 1000000 }
        ensures { Begins result (record { outline = outline.now; values = values; limit = limit }) }
    {
        let setting = Setting::new(outline, &values, limit);
        let processes = count_processes(outline);
        let moment = start(alloc, outline, values)?;
        let history = Vec::with_capacity(alloc, limit as usize)?;
        let counts = no_moves(alloc, processes)?;
        Ok(Board {
            setting,
            moment,
            history,
            counts,
            halted: None,
        })
    }

    /// One step of process p. Takes no memory.
    ///
    /// The first that applies of Overflow, where a process has overflowed before; Done; Stuck;
    /// Limit, where the history is as long as the limit; Early; Overflow, where a value of its next
    /// action, in order, is no `i64`: it is noted then; Waits; and Moved. Only Moved changes the
    /// moment, and appends p to the history.
    pub fn step(&mut self, p: u32) -> RunTurn
        ensures turn { Answers (is_some self.old.halted) self.old.given self.old.history p result }
        ensures after { self.new ≡ stand_after result self.old p }
    {
        if self.halted.is_some() {
            return RunTurn::Overflow;
        }
        if self.moment.is_done(p) {
            return RunTurn::Done;
        }
        if self.moment.is_stuck() {
            return RunTurn::Stuck;
        }
        if is_full(&self.history, self.setting.limit()) {
            return RunTurn::Limit;
        }
        match self.moment.step(p) {
            Turn::Moved => {
                self.history.push_reserved(p);
                count_move(&mut self.counts, p as usize);
                RunTurn::Moved
            }
            Turn::Overflow => {
                self.halted = Some(p);
                RunTurn::Overflow
            }
            Turn::Waits => RunTurn::Waits,
            Turn::Early => RunTurn::Early,
            Turn::Done => RunTurn::Done,
        }
    }

    /// The numbers of the processes that moved, in order.
    pub fn history(&self) -> &[u32]
        ensures value { result.now ≡ self.now.history }
        ensures run { IsRun self.now.given self.now.history }
    {
        self.history.as_slice()
    }

    /// The moment to which the history leads.
    pub fn moment(&self) -> &Moment<'a>
        ensures outline { result.now.outline ≡ self.now.given.outline }
        ensures leads { moment_after self.now.given self.now.history ≡ Some result.now.moment }
    {
        &self.moment
    }

    /// The process that overflowed, if one did. It overflows at the moment to which the history
    /// leads.
    pub fn halted(&self) -> Option<u32>
        ensures value { result ≡ self.now.halted }
        ensures there { IfSome result
            (λ q. IsTurn self.now.given self.now.history q RunTurn.Overflow) }
    {
        self.halted
    }

    /// The greatest length of the history.
    pub fn limit(&self) -> u32
        ensures { result ≡ self.now.given.limit }
    {
        self.setting.limit()
    }

    /// How often process p has moved.
    pub fn count(&self, p: u32) -> u32
        requires { p < process_count self.now.given.outline }
        ensures { result ≡ moves_of p self.now.history }
    {
        self.counts[p as usize]
    }

    /// How the run ended: the first of Finished, Stuck, Limit and Overflow that is true. Nothing
    /// more can happen to any process. Takes no memory.
    pub fn finish(&self) -> Finish
        requires { (p : ℕ) → p < process_count self.now.given.outline
            → OverAt self.now.given self.now.history (is_some self.now.halted) p }
        ensures { (m : Instant) → moment_after self.now.given self.now.history ≡ Some m
            → IsFinish self.now.given self.now.history m result }
    {
        if self.moment.is_finished() {
            return Finish::Finished;
        }
        if self.moment.is_stuck() {
            return Finish::Stuck;
        }
        if is_full(&self.history, self.setting.limit()) {
            return Finish::Limit;
        }
        let Some(p) = self.halted else { unreachable!() };
        Finish::Overflow(p)
    }

    /// What the run came to. Nothing more can happen to any process.
    pub fn outcome(self, alloc: Global) -> Result<Outcome, AllocError>
        requires { (p : ℕ) → p < process_count self.given.outline
            → OverAt self.given self.history (is_some self.halted) p }
        ensures outcome { IfOk result (IsOutcome self.entry.given) }
        ensures history { IfOk result (λ outcome. outcome.history.items ≡ self.entry.history) }
    {
        let finish = self.finish();
        let state = State::new(Vec::from_slice(alloc, self.moment.state().as_slice())?);
        let Board {
            setting: _,
            moment: _,
            history,
            counts: _,
            halted: _,
        } = self;
        Ok(Outcome {
            finish,
            state,
            history,
        })
    }
}

impl<'a> Machine for Board<'a> {
    ghost use Rattle.std.specs.Prelude.{is_some};

    ghost given = { λ b. b.given };

    ghost history = { λ b. b.history };

    ghost halted = { λ b. is_some b.halted };

    fn take_turn(&mut self, p: u32) -> RunTurn {
        let _ = self.halted();
        self.step(p)
    }

    fn setting(&self) -> &Setting {
        &self.setting
    }

    fn processes(&self) -> u32 {
        number_of(&self.counts)
    }

    fn is_halted(&self) -> bool {
        self.halted().is_some()
    }

    fn is_over(&self) -> bool {
        let moment = self.moment();
        if self.halted().is_some() {
            return true;
        }
        if is_full(self.history(), self.limit()) {
            return true;
        }
        if moment.is_finished() {
            return true;
        }
        moment.is_stuck()
    }

    fn moves(&self, p: u32) -> u64 {
        u64::from(self.count(p))
    }

    fn steps(&self) -> u64 {
        self.history().len() as u64
    }
}
