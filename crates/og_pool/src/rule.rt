//! The rule of the draw word, and its kinds of step.
use atomic_table::{Join, Play, Split, TableRule};
use std::collections::LinkedList;

/// How many tasks there are, and how many workers.
#[derive(Clone, Copy)]
pub(crate) struct Plan {
    pub(crate) count: u32,
    pub(crate) workers: u32,
}

/// What a seat knows: how many workers it stands for, and the numbers that they drew. No value of
/// it is made.
pub(crate) struct Hand {
    pub(crate) workers: u64,
    pub(crate) drawn: LinkedList<u64>,
}

pub(crate) struct Numbers;

impl TableRule<(), Hand, Plan> for Numbers {
    ghost use Rattle.std.specs.Prelude.{[]};
    ghost use Rattle.og_pool.specs.Drawing.{EachOnce, hand};

    ghost holds = { EachOnce };

    ghost first = { λ p. hand p.workers [] };
}

pub(crate) struct DrawOne;

impl Play<(), Hand> for DrawOne {
    ghost use Rattle.og_pool.specs.Drawing.{Draws};

    ghost then = { Draws };
}

pub(crate) struct Halves;

impl Split<Hand> for Halves {
    ghost use Rattle.std.specs.Prelude.{◌-◌, ◌/◌, []};
    ghost use Rattle.og_pool.specs.Drawing.{hand};

    ghost left = { λ v. hand (v.workers - v.workers / 2) v.drawn };

    ghost right = { λ v. hand (v.workers / 2) [] };
}

pub(crate) struct OneOff;

impl Split<Hand> for OneOff {
    ghost use Rattle.std.specs.Prelude.{◌-◌, []};
    ghost use Rattle.og_pool.specs.Drawing.{hand};

    ghost left = { λ v. hand (v.workers - 1) v.drawn };

    ghost right = { λ v. hand 1 [] };
}

pub(crate) struct Together;

impl Join<Hand> for Together {
    ghost use Rattle.std.specs.Prelude.{◌+◌, ◌++◌, []};
    ghost use Rattle.og_pool.specs.Drawing.{hand};

    ghost both = { λ v w. hand (v.workers + w.workers) (v.drawn ++ w.drawn) };

    ghost spent = { hand 0 [] };
}
