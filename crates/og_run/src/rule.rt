//! The rule of the seats, and its kinds of step: make, split, join and confirm.

use crate::setting::Setting;
use atomic_table::{Join, Play, Split, TableRule};
use std::collections::LinkedList;
use std::marker::{Brand, PhantomData};

/// Names the table of an arena. Code that uses an arena is generic over it, takes an `Unstarted` as an
/// argument, and is called with `Brand`.
pub trait ArenaName {
    ghost use Rattle.atomic_table.specs.Seated.{TableId};

    ghost table: { TableId };
}

impl ArenaName for Brand {
    ghost use Rattle.og_run.specs.Cards.{no_table};

    ghost table = { no_table };
}

/// The part of the machine that a process has heard of. No value of it is made.
pub struct Card {
    pub given: Setting,
    pub heard: LinkedList<u32>,
    pub halted: bool,
}

/// A process's card, and whether it is out.
pub struct Listed {
    pub card: Card,
    pub out: bool,
}

/// What a seat of the table knows.
pub struct View {
    pub keeps: bool,
    pub cards: LinkedList<Listed>,
    pub holds: bool,
    pub process: u32,
    pub card: Card,
}

/// The rule: one seat lists a card for each process, and each card that is out is with one seat.
pub struct OneCardEach;

impl TableRule<(), View, Setting> for OneCardEach {
    ghost use Rattle.og_run.specs.Cards.{Kept, keeper, unstarted_cards};

    ghost holds = { Kept };

    ghost first = { λ g. keeper (unstarted_cards g) };
}

/// Names a process and the card that it is given.
pub trait CardName {
    ghost use Rattle.std.specs.Prelude.{ℕ};
    ghost use Rattle.og_run.specs.declared.rule.Card.{Card};

    ghost process: { ℕ };

    ghost card: { Card };
}

impl CardName for Brand {
    ghost use Rattle.og_run.specs.Cards.{no_card};

    ghost process = { 0 };

    ghost card = { no_card };
}

/// Hands a card out.
pub struct Gives<C: CardName> {
    of: PhantomData<C>,
}

impl<C: CardName> Split<View> for Gives<C> {
    ghost use Rattle.og_run.specs.Cards.{gives, holder};

    ghost left = { gives C.process C.card };

    ghost right = { λ v. holder C.process C.card };
}

/// Takes a card in, beside those listed.
pub struct TakesIn;

impl Join<View> for TakesIn {
    ghost use Rattle.og_run.specs.Cards.{with_card, nobody};

    ghost both = { with_card };

    ghost spent = { nobody };
}

/// Confirms that the card that was taken in is the listed one.
pub struct Confirm;

impl Play<(), View> for Confirm {
    ghost use Rattle.og_run.specs.Cards.{Confirms};

    ghost then = { Confirms };
}
