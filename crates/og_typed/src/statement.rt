//! Statements, each with the assertion before it.

ghost use Rattle.std.specs.Prelude.{◌≡◌};
ghost use Rattle.og_typed.specs.Plain.{noted, sequence};
ghost use Rattle.og_typed.specs.Syntax.{last_of};
ghost use Rattle.og_typed.specs.Pieces.{first_of};

use crate::assertion::Assert;
use og_linear::Form;

/// An assertion and the place of its `{`.
#[derive(Debug, Drop)]
pub struct Note {
    pub assertion: Assert,
    pub at: u32,
}

/// A statement that an await may hold.
#[derive(Debug, Drop)]
pub enum Basic {
    Skip,
    Assign(u32, Form),
}

/// A statement.
#[cycle(tree)]
#[derive(Debug, Drop)]
pub enum Stmt {
    Skip,
    Assign(u32, Form),
    If(Assert, Box<Seq>, Option<Box<Seq>>),
    While(Assert, Box<Seq>),
    Await(Assert, Vec<Basic>),
}

/// A statement with the assertion before it.
#[cycle(tree)]
#[derive(Debug, Drop)]
pub struct Item {
    pub before: Note,
    pub stmt: Stmt,
    pub at: u32,
}

/// Statements, each with its assertion, and the last assertion.
#[cycle(tree)]
#[derive(Debug, Drop)]
pub struct Seq {
    pub items: Vec<Item>,
    pub last: Note,
}

impl Seq {
    /// The first assertion, which is the last one where there is no statement.
    #[tactic(auto, using(crate::proofs::Lists::first_out))]
    pub fn first(&self) -> &Note
        ensures { noted result.now ≡ first_of (sequence self.now) }
    {
        match self.items.first() {
            Some(item) => &item.before,
            None => &self.last,
        }
    }

    /// The last assertion.
    #[tactic(auto, using(crate::proofs::Lists::last_out))]
    pub fn last(&self) -> &Note
        ensures { noted result.now ≡ last_of (sequence self.now) }
    {
        &self.last
    }
}
