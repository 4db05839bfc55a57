//! An arena: threads act on one machine under a lock, each by the seat of its process.

ghost use Rattle.std.specs.Prelude.{◌≡◌, ℕ, ◌<◌, Bool, true, false, List, [], length, slice_get, slice_set, Some, IfOk};
ghost use Rattle.og_run.specs.Histories.{moves_of};
ghost use Rattle.og_run.specs.Cards.{Acts, CardFits, SeatsFor, keeper as keeper_of, Position, Lists, card, card_at, gives, holder, listed};
ghost use Rattle.og_run.specs.declared.rule.Listed.{Listed};

use crate::machine::Machine;
use crate::rule::{ArenaName, CardName, Confirm, Gives, OneCardEach, TakesIn, View};
use crate::setting::Setting;
use crate::turn::RunTurn;
use atomic_table::{Seat as Token, Table};
use std::alloc::{AllocError, Global};
use std::marker::{Brand, Model, PhantomData};
use std::snapshot::Snapshot;
use std::sync::{Condvar, Mutex, Wait};

pub(crate) type Tokens = Table<(), View, Setting, OneCardEach, Global>;

/// A process's seat. Contracts see its process and its card: what was given, the history that it
/// has heard, and whether it has heard that a process has overflowed.
#[derive(Drop)]
pub struct Seat<K: ArenaName> {
    process: u32,
    moves: u64,
    seen: u64,
    token: Option<Token<(), View>>,
    name: PhantomData<K>,
}

impl<K: ArenaName> Model for Seat<K> {
    ghost use Rattle.std.specs.Prelude.{◌≡◌, length};
    ghost use Rattle.og_run.specs.Histories.{moves_of};
    ghost use Rattle.og_run.specs.Cards.{Place, card_in, IsTokenOf};

    ghost Value = { Place };

    ghost use Rattle.std.specs.Coded.{codes};
    ghost use Rattle.og_run.specs.Histories.{given_code};

    ghost coded = { Prim.hlevel (codes, given_code) };

    ghost view = { λ s. record { process = s.process; card = card_in s.token } };

    ghost invariant = { λ s. IsTokenOf K.table s.process s.token × (s.moves ≡ moves_of s.process (card_in s.token).heard) × (s.seen ≡ length (card_in s.token).heard) };
}

impl<K: ArenaName> Seat<K> {
    /// The number of the process, from 0; the main process has the number after the last.
    pub fn process(&self) -> u32
        ensures { result ≡ self.now.process }
    {
        self.process
    }

    /// How often the process had moved at its last act.
    pub fn moves(&self) -> u64
        ensures { result ≡ moves_of self.now.process self.now.card.heard }
    {
        self.moves
    }

    /// How long the history was after the last act of the process.
    pub fn seen(&self) -> u64
        ensures { result ≡ length self.now.card.heard }
    {
        self.seen
    }
}

/// What lies under the lock: the machine, and the arena's own seat, which lists each process's
/// card.
#[derive(Drop)]
pub(crate) struct Locked<K: ArenaName, B: Machine> {
    machine: B,
    keeper: Token<(), View>,
    name: PhantomData<K>,
}

impl<K: ArenaName, B: Machine> Model for Locked<K, B> {
    ghost use Rattle.std.specs.Prelude.{◌≡◌, []};
    ghost use Rattle.og_run.specs.Cards.{Position, Lists};

    ghost Value = { Position };

    ghost use Rattle.std.specs.Coded.{codes};
    ghost use Rattle.og_run.specs.Histories.{given_code};

    ghost coded = { Prim.hlevel (codes, given_code) };

    ghost view = { λ d. record { given = B.given d.machine; history = B.history d.machine; halted = B.halted d.machine } };

    ghost invariant = { λ d. (d.keeper.table_id ≡ K.table) × (K.table.words ≡ 1) × (d.keeper.me.1 ≡ []) × Lists (record { given = B.given d.machine; history = B.history d.machine; halted = B.halted d.machine }) d.keeper.me.0 };
}

// Takes a process's card in, which is the listed one.
fn take_in(tokens: &Tokens, keeper: &mut Token<(), View>, token: Token<(), View>)
    requires table { (keeper.old.table_id ≡ tokens.now.shared.table_id)
        × (token.table_id ≡ tokens.now.shared.table_id) × (tokens.now.shared.table_id.words ≡ 1) }
    requires keeper { keeper.old.me.0.keeps ≡ true }
    requires token { (token.me.1 ≡ []) × (token.me.0.keeps ≡ false) × (token.me.0.holds ≡ true) }
    ensures card { slice_get keeper.old.me.0.cards token.me.0.process
        ≡ Some (listed token.me.0.card true) }
    ensures kept { (keeper.new.table_id ≡ keeper.old.table_id)
        × (keeper.new.me ≡ (
          keeper_of (slice_set keeper.old.me.0.cards token.me.0.process
              (listed token.me.0.card false)),
          keeper.old.me.1,
        )) }
{
    tokens.shared.join_seat::<TakesIn>(keeper, token);
    tokens.shared.load::<Confirm>(keeper, 0);
}

// Lists a card of p, and hands it out. The card is one of this machine; it is named by C.
fn hand_out<C: CardName, B: Machine>(
    tokens: &Tokens,
    keeper: &mut Token<(), View>,
    _machine: &B,
    p: u32,
) -> Token<(), View>
    requires name { C.process ≡ p }
    requires table { (keeper.old.table_id ≡ tokens.now.shared.table_id)
        × (tokens.now.shared.table_id.words ≡ 1) }
    requires keeps { (keeper.old.me.0.keeps ≡ true) × (keeper.old.me.0.holds ≡ false) }
    requires inside { (x : Listed) × (slice_get keeper.old.me.0.cards p ≡ Some x)
        × (x.out ≡ false) }
    ensures kept { (keeper.new.table_id ≡ keeper.old.table_id)
        × (keeper.new.me ≡ (gives p C.card keeper.old.me.0, keeper.old.me.1)) }
    ensures given { (result.table_id ≡ keeper.old.table_id) × (result.me ≡ (holder p C.card, [])) }
{
    tokens.shared.split_seat::<Gives<C>>(keeper)
}

impl<K: ArenaName, B: Machine> Locked<K, B> {
    /// One act of the seat's process.
    fn act(&mut self, tokens: &Tokens, seat: &mut Seat<K>) -> RunTurn
        requires { tokens.now.shared.table_id ≡ K.table }
        ensures process { seat.new.process ≡ seat.old.process }
        ensures act { Acts seat.old.process seat.old.card result seat.new.card }
        ensures heard { seat.new.card ≡ card_at self.new }
    {
        let Some(token) = seat.token.take() else {
            unreachable!()
        };
        take_in(tokens, &mut self.keeper, token);
        let turn = self.machine.take_turn(seat.process);
        let token = hand_out::<Brand, B>(tokens, &mut self.keeper, &self.machine, seat.process);
        seat.token = Some(token);
        seat.moves = self.machine.moves(seat.process);
        seat.seen = self.machine.steps();
        turn
    }

    /// Takes a seat in at the end. Its card fits the machine as it is.
    pub fn take(&mut self, tokens: &Tokens, mut seat: Seat<K>)
        requires { tokens.now.shared.table_id ≡ K.table }
        ensures same { self.new ≡ self.old }
        ensures fits { CardFits self.old.given self.old.history self.old.halted seat.process
            seat.card }
    {
        let Some(token) = seat.token.take() else {
            unreachable!()
        };
        take_in(tokens, &mut self.keeper, token);
    }

    pub fn into_machine(self) -> B
        ensures { (B.given result ≡ self.given) × (B.history result ≡ self.history)
            × (B.halted result ≡ self.halted) }
    {
        let Locked {
            machine,
            keeper: _,
            name: _,
        } = self;
        machine
    }
}

/// The table of an arena that is not made yet: every card is empty and taken in.
#[derive(Drop)]
pub struct Unstarted {
    tokens: Tokens,
    keeper: Token<(), View>,
    given: Snapshot<Setting>,
}

impl Model for Unstarted {
    ghost use Rattle.std.specs.Prelude.{◌≡◌, []};
    ghost use Rattle.og_run.specs.Cards.{For, keeper as keeper_of, unstarted_cards};

    ghost Value = { For };

    ghost use Rattle.std.specs.Coded.{codes};
    ghost use Rattle.og_run.specs.Histories.{given_code};

    ghost coded = { Prim.hlevel (codes, given_code) };

    ghost view = { λ b. record { table = b.tokens.shared.table_id; given = b.given.value } };

    ghost invariant = { λ b. (b.keeper.table_id ≡ b.tokens.shared.table_id) × (b.tokens.shared.table_id.words ≡ 1) × (b.keeper.me ≡ (keeper_of (unstarted_cards b.given.value), [])) };
}

impl Unstarted {
    /// The table for the outline, the start and the limit of this machine.
    pub fn new<B: Machine>(alloc: Global, machine: &B) -> Result<Unstarted, AllocError>
        ensures { IfOk result (λ b. b.given ≡ B.given machine.now) }
    {
        let setting = machine.setting();
        let (tokens, keeper) = Table::of_words(alloc, &[0], setting)?;
        Ok(Unstarted {
            tokens,
            keeper,
            given: Snapshot::of(setting),
        })
    }
}

/// A machine under a lock, on which threads act by seats. K names its table.
#[derive(Drop)]
pub struct Arena<K: ArenaName, B: Machine> {
    locked: Mutex<Locked<K, B>>,
    changed: Condvar,
    tokens: Tokens,
    ghost named: { tokens.shared.table_id ≡ K.table },
}

fn first_seat<K: ArenaName>(process: u32, token: Token<(), View>) -> Seat<K>
    requires table { token.table_id ≡ K.table }
    requires holds { (token.me ≡ (holder process token.me.0.card, []))
        × (token.me.0.card.heard ≡ []) }
    ensures { (result.process ≡ process) × (result.card ≡ token.me.0.card) }
{
    Seat {
        process,
        moves: 0,
        seen: 0,
        token: Some(token),
        name: PhantomData,
    }
}

impl<K: ArenaName, B: Machine> Arena<K, B> {
    /// The arena of this machine, whose history is empty, and one seat for each process in the
    /// order of their numbers. Nothing is heard yet, and no halt is known. The table is the one of
    /// `unstarted`, which K names and which was made for this machine.
    pub fn new(
        alloc: Global,
        unstarted: Unstarted,
        machine: B,
    ) -> Result<(Arena<K, B>, Vec<Seat<K>>), AllocError>
        requires name { unstarted.table ≡ K.table }
        requires given { unstarted.given ≡ B.given machine }
        requires empty { B.history machine ≡ [] }
        ensures { IfOk result (λ r. SeatsFor (B.given machine) r.1.items) }
    {
        let Unstarted {
            tokens,
            mut keeper,
            given: _,
        } = unstarted;
        let mut seats = Vec::new(alloc);
        for p in 0..machine.processes() {
            let token = hand_out::<Brand, B>(&tokens, &mut keeper, &machine, p);
            seats.push(first_seat(p, token))?;
        }
        let locked = Mutex::new(Locked {
            machine,
            keeper,
            name: PhantomData,
        });
        let arena = Arena {
            locked,
            changed: Condvar::new(),
            tokens,
        };
        Ok((arena, seats))
    }

    /// One step of the seat's process, under the lock. Takes no memory; it waits for the lock
    /// alone.
    ///
    /// What the seat has heard is then the whole history. Since its last act only other processes
    /// have moved. The answer is the turn of the process after that history, or Overflow where a
    /// process has overflowed. Every turn but Waits and Early wakes the threads that wait.
    pub fn act<R: Wait>(&self, rt: &R, seat: &mut Seat<K>) -> RunTurn
        ensures process { seat.new.process ≡ seat.old.process }
        ensures act { Acts seat.old.process seat.old.card result seat.new.card }
    {
        let turn = self.locked.lock(rt).act(&self.tokens, seat);
        if !matches!(turn, RunTurn::Waits | RunTurn::Early) {
            self.changed.notify_all();
        }
        turn
    }

    pub(crate) fn into_locked(self) -> (Locked<K, B>, Tokens)
        ensures { result.1.shared.table_id ≡ K.table }
    {
        let Arena {
            locked,
            changed: _,
            tokens,
        } = self;
        (locked.into_inner(), tokens)
    }

    /// Waits until the history is longer than the seat has seen, or nothing can move any more.
    /// Takes no memory.
    pub fn wait_change<R: Wait>(&self, rt: &R, seat: &Seat<K>) {
        let seen = seat.seen;
        let _locked = self.changed.wait_while(
            rt,
            self.locked.lock(rt),
            |locked| locked.machine.steps() == seen && !locked.machine.is_over(),
        );
    }
}
