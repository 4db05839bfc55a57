ghost use Rattle.std.specs.Prelude.{◌≡◌, ℕ, ◌+◌, ◌-◌, ◌/◌, ◌^◌, ◌<◌, ◌≤◌, [], ◌∷◌, ◌++◌, ◌⊎◌, vec_len, IfOk, IfSome, IfNone, IsSome, MatchOption};
ghost use Rattle.std.specs.List.{All};
ghost use Rattle.og_pool.specs.Drawing.{past, times, IsOne};

use crate::rule::{DrawOne, Halves, Hand, Numbers, OneOff, Plan, Together};
use atomic_table::{Seat, Table};
use std::alloc::{AllocError, Global};
use std::marker::Model;

/// The word from which the workers draw their numbers.
#[derive(Drop)]
pub struct Draws {
    table: Table<(), Hand, Plan, Numbers, Global>,
    plan: Plan,
}

impl Model for Draws {
    ghost use Rattle.std.specs.Prelude.{◌≡◌, ◌<◌, ◌^◌};
    ghost use Rattle.og_pool.specs.Drawing.{Source};

    ghost Value = { Source };

    ghost view = { λ d. record { table = d.table.shared.table_id; count = d.plan.count; workers = d.plan.workers } };

    ghost invariant = { λ d. (d.table.shared.table_id.words ≡ 1) × (d.table.shared.table_id.slots ≡ 0) × (d.table.shared.key ≡ d.plan) × (d.plan.count < 2 ^ 32) × (d.plan.workers < 2 ^ 32) };
}

/// A part of the workers, and what they drew. It goes with its own `Draws` alone.
#[derive(Drop)]
pub struct Drawer {
    seat: Seat<(), Hand>,
    plan: Plan,
    done: bool,
}

impl Model for Drawer {
    ghost use Rattle.std.specs.Prelude.{◌≡◌, ◌<◌, ◌↔◌, [], true};
    ghost use Rattle.og_pool.specs.Drawing.{Part, past};

    ghost Value = { Part };

    ghost view = { λ d. record { source = record { table = d.seat.table_id; count = d.plan.count; workers = d.plan.workers }; workers = d.seat.me.0.workers; drawn = d.seat.me.0.drawn } };

    ghost invariant = { λ d. (d.seat.me.1 ≡ []) × (0 < d.seat.me.0.workers) × ((d.done ≡ true) ↔ (0 < past d.plan.count d.seat.me.0.drawn)) };
}

impl Draws {
    /// One drawer for all workers.
    pub fn new(alloc: Global, count: u32, workers: u32) -> Result<(Draws, Drawer), AllocError>
        requires { (0 < workers) × (workers ≤ 64) }
        ensures draws { IfOk result (λ r. (r.0.count ≡ count) × (r.0.workers ≡ workers)) }
        ensures drawer { IfOk result (λ r.
            (r.1.source ≡ r.0) × (r.1.workers ≡ workers) × (r.1.drawn ≡ [])) }
    {
        let plan = Plan { count, workers };
        let (table, seat) = Table::of_words(alloc, &[0], &plan)?;
        let draws = Draws { table, plan };
        let drawer = Drawer {
            seat,
            plan,
            done: false,
        };
        Ok((draws, drawer))
    }

    /// Hands half of the workers on, rounded down.
    pub fn split(&self, drawer: &mut Drawer) -> Drawer
        requires own { drawer.old.source ≡ self.now }
        requires several { 2 ≤ drawer.old.workers }
        requires fresh { drawer.old.drawn ≡ [] }
        ensures kept { (drawer.new.source ≡ self.now)
            × (drawer.new.workers + result.workers ≡ drawer.old.workers) × (drawer.new.drawn ≡ []) }
        ensures given { (result.source ≡ self.now) × (result.workers ≡ drawer.old.workers / 2)
            × (result.drawn ≡ []) }
    {
        let seat = self.table.shared.split_seat::<Halves>(&mut drawer.seat);
        Drawer {
            seat,
            plan: drawer.plan,
            done: false,
        }
    }

    // Hands one worker on.
    fn split_one(&self, drawer: &mut Drawer) -> Drawer
        requires own { drawer.old.source ≡ self.now }
        requires several { 2 ≤ drawer.old.workers }
        requires fresh { drawer.old.drawn ≡ [] }
        ensures kept { (drawer.new.source ≡ self.now)
            × (drawer.new.workers + 1 ≡ drawer.old.workers) × (drawer.new.drawn ≡ []) }
        ensures given { IsOne self.now result }
    {
        let seat = self.table.shared.split_seat::<OneOff>(&mut drawer.seat);
        let plan = drawer.plan;
        Drawer {
            seat,
            plan,
            done: false,
        }
    }

    /// A drawer for each worker.
    pub(crate) fn one_each(
        &self,
        alloc: Global,
        mut drawer: Drawer,
        workers: u32,
    ) -> Result<Vec<Drawer>, AllocError>
        requires own { (drawer.source ≡ self.now) × (drawer.workers ≡ workers) }
        requires some { 0 < workers }
        requires fresh { drawer.drawn ≡ [] }
        ensures { IfOk result (λ v. (vec_len v ≡ workers) × All (IsOne self.now) v.items) }
    {
        let mut drawers = Vec::with_capacity(alloc, workers as usize)?;
        for _ in 1..workers {
            drawers.push(self.split_one(&mut drawer))?;
        }
        drawers.push(drawer)?;
        Ok(drawers)
    }

    /// The next task, counted from 1. It answers `None` once a number past the tasks was drawn.
    pub fn draw(&self, drawer: &mut Drawer) -> Option<u32>
        requires { drawer.old.source ≡ self.now }
        ensures kept { (drawer.new.source ≡ self.now) × (drawer.new.workers ≡ drawer.old.workers) }
        ensures some { IfSome result (λ n. (0 < n) × (n ≤ self.now.count) × (drawer.new.drawn
            ≡ drawer.old.drawn ++ (n - 1) ∷ []) × (past self.now.count drawer.new.drawn ≡ 0)) }
        ensures rising { IfSome result (λ n. (x : ℕ) → 0 < times x drawer.old.drawn → x + 1 < n) }
        ensures none { IfNone result (0 < past self.now.count drawer.new.drawn) }
        ensures again { 0 < past self.now.count drawer.old.drawn → drawer.new.drawn
            ≡ drawer.old.drawn }
        ensures last { past self.now.count drawer.old.drawn ≡ 0 → IfNone result
            ((w : ℕ) × (self.now.count ≤ w) × (drawer.new.drawn ≡ drawer.old.drawn ++ w ∷ [])) }
        ensures seen { IfNone result
            ((x : ℕ) → x < self.now.count → times x drawer.new.drawn ≡ times x drawer.old.drawn) }
    {
        if drawer.done {
            return None;
        }
        let found = self
            .table
            .shared
            .fetch_add::<DrawOne>(&mut drawer.seat, 0, 1);
        if found < u64::from(self.plan.count) {
            Some(found as u32 + 1)
        } else {
            drawer.done = true;
            None
        }
    }

    /// Takes a drawer's workers and numbers in.
    pub fn join(&self, drawer: &mut Drawer, other: Drawer)
        requires { (drawer.old.source ≡ self.now) × (other.source ≡ self.now) }
        ensures { (drawer.new.source ≡ self.now) × (drawer.new.workers ≡ drawer.old.workers +
            other.workers) × (drawer.new.drawn ≡ drawer.old.drawn ++ other.drawn) }
    {
        let Drawer {
            seat,
            plan: _,
            done,
        } = other;
        self.table
            .shared
            .join_seat::<Together>(&mut drawer.seat, seat);
        drawer.done = drawer.done || done;
    }

    /// Where a number past the tasks was drawn, each number below was drawn once.
    pub fn close(self, drawer: Drawer)
        requires own { drawer.source ≡ self }
        requires all { drawer.workers ≡ self.workers }
        ensures { 0 < past self.count drawer.drawn → (x : ℕ) → x < self.count → times x drawer.drawn
            ≡ 1 }
    {
        let Draws { table, plan: _ } = self;
        let Drawer {
            seat,
            plan: _,
            done: _,
        } = drawer;
        table.close_with(seat).free();
    }
}
