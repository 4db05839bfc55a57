//! What the threads act on.

ghost use Rattle.std.specs.Prelude.{◌≡◌, ℕ, ◌<◌, Bool, true, List, length, IsTrue, ◌↔◌};
ghost use Rattle.og_run.specs.Histories.{IsRun, moves_of, process_count};
ghost use Rattle.og_run.specs.Turns.{Answers, SomeOverflows, after_turn, is_overflow};
ghost use Rattle.og_run.specs.Over.{IsOver};

use crate::setting::Setting;
use crate::turn::RunTurn;

/// A board: what threads act on, one at a time. Contracts see what was given, the history, and
/// whether a process has overflowed.
pub trait Machine: Drop {
    ghost use Rattle.std.specs.Prelude.{ℕ, Bool, List};
    ghost use Rattle.og_run.specs.Runs.{Given};

    ghost given: { Self → Given };

    ghost history: { Self → List ℕ };

    ghost halted: { Self → Bool };

    /// One turn of process p. Takes no memory.
    fn take_turn(&mut self, p: u32) -> RunTurn
        ensures given { given self.new ≡ given self.old }
        ensures turn { Answers (halted self.old) (given self.old) (history self.old) p result }
        ensures history { history self.new ≡ after_turn result (history self.old) p }
        ensures halted { halted self.new ≡ is_overflow result }
        ensures overflow { result ≡ RunTurn.Overflow → SomeOverflows (given self.old) (history self.old) };

    /// What the run is given.
    fn setting(&self) -> &Setting
        ensures { result.now ≡ given self.now };

    /// How many processes there are, the main process with them.
    fn processes(&self) -> u32
        ensures { result ≡ process_count (given self.now).outline };

    /// Whether a process has overflowed.
    fn is_halted(&self) -> bool
        ensures halted { result ≡ halted self.now }
        ensures overflow { halted self.now ≡ true → SomeOverflows (given self.now) (history self.now) };

    /// Whether nothing can move any more: a process has overflowed, the history is full, or the
    /// program has finished or is stuck.
    fn is_over(&self) -> bool
        ensures { IsTrue result ↔ IsOver (given self.now) (history self.now) (halted self.now) };

    /// How often process p has moved.
    fn moves(&self, p: u32) -> u64
        requires { p < process_count (given self.now).outline }
        ensures { result ≡ moves_of p (history self.now) };

    /// How many steps there were.
    fn steps(&self) -> u64
        ensures length { result ≡ length (history self.now) }
        ensures run { IsRun (given self.now) (history self.now) };
}
