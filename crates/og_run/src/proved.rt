//! A board of an outline that was proved.

ghost use Rattle.std.specs.Prelude.{◌≡◌, ℕ, true, is_some, Some, ◌≤◌};
ghost use Rattle.og_typed.specs.Truth.{truth};
ghost use Rattle.og_typed.specs.Machine.{Moment, active, current};
ghost use Rattle.og_run.specs.Runs.{moment_after};
ghost use Rattle.og_run.specs.Turns.{Answers};
ghost use Rattle.og_run.specs.Standing.{Begins, stand_after};

use crate::board::Board;
use crate::machine::Machine;
use crate::setting::Setting;
use crate::turn::RunTurn;
use og_linear::State;
use og_step::StartError;
use og_theorem::Proved;
use std::alloc::Global;
use std::marker::Model;

/// A board of a proved outline: every current assertion is true at its moment, and nothing
/// overflows. Contracts see what they see of its board.
#[derive(Drop)]
pub struct ProvedBoard<'a> {
    board: Board<'a>,
}

impl<'a> Model for ProvedBoard<'a> {
    ghost use Rattle.std.specs.Prelude.{◌≡◌, None};
    ghost use Rattle.og_theorem.specs.Sound.{IsSound};
    ghost use Rattle.og_run.specs.Standing.{Standing, standing_code};

    ghost Value = { Standing };

    ghost coded = { standing_code };

    ghost view = { λ b. b.board };

    ghost invariant = { λ b. IsSound b.board.given.outline × (b.board.halted ≡ None) };
}

impl<'a> ProvedBoard<'a> {
    /// The board of a proved outline, as `Board::begin`.
    pub fn begin(
        alloc: Global,
        proved: &Proved<'a>,
        values: State,
        limit: u32,
    ) -> Result<ProvedBoard<'a>, StartError>
        requires { limit ≤ 1000000 }
        ensures { Begins result (record { outline = proved.now.0; values = values; limit = limit }) }
    {
        let board = Board::begin(alloc, proved.outline(), values, limit)?;
        Ok(ProvedBoard { board })
    }

    /// One step of process p, as `Board::step`. It is never Overflow.
    pub fn step(&mut self, p: u32) -> RunTurn
        ensures turn { Answers (is_some self.old.halted) self.old.given self.old.history p result }
        ensures after { self.new ≡ stand_after result self.old p }
        ensures never { result ≡ RunTurn.Overflow → ⊥ }
    {
        let _ = self.board.history();
        self.board.step(p)
    }

    /// The numbers of the processes that moved, in order.
    pub fn history(&self) -> &[u32]
        ensures { result.now ≡ self.now.history }
    {
        self.board.history()
    }

    /// The board. At its moment the current assertion of each active process is true.
    pub fn board(&self) -> &Board<'a>
        ensures same { result.now ≡ self.now }
        ensures holds { (m : Moment) → moment_after self.now.given self.now.history ≡ Some m
            → (p : ℕ) → active self.now.given.outline m p ≡ true
            → truth (current self.now.given.outline m p) m.state ≡ true }
    {
        let _ = self.board.history();
        &self.board
    }

    /// The board.
    pub fn into_board(self) -> Board<'a>
        ensures { result ≡ self.entry }
    {
        let ProvedBoard { board } = self;
        board
    }
}

impl<'a> Machine for ProvedBoard<'a> {
    ghost use Rattle.std.specs.Prelude.{is_some};

    ghost given = { λ b. b.given };

    ghost history = { λ b. b.history };

    ghost halted = { λ b. is_some b.halted };

    fn take_turn(&mut self, p: u32) -> RunTurn {
        self.step(p)
    }

    fn setting(&self) -> &Setting {
        self.board.setting()
    }

    fn processes(&self) -> u32 {
        self.board.processes()
    }

    fn is_halted(&self) -> bool {
        self.board.is_halted()
    }

    fn is_over(&self) -> bool {
        self.board.is_over()
    }

    fn moves(&self, p: u32) -> u64 {
        self.board.moves(p)
    }

    fn steps(&self) -> u64 {
        self.board.steps()
    }
}
