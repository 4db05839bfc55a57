//! With what a level of a search begins, and how it goes on.

use og_search_choices::Part;
use og_search_pigeons::Pigeons;
use og_search_queues::Queue;
use og_search_refutation::{Lifted, Proof};
use og_search_rows::Inequality;

/// The facts with which a level begins.
#[derive(Drop)]
pub(crate) enum Entry<'a> {
    /// Those of a part.
    Part(&'a Part),
    /// One side of a branch.
    Side(Inequality),
}

/// The outcome at a level that finds no contradiction.
#[derive(Drop)]
pub(crate) enum Decision {
    /// It goes into the parts of this choice.
    Split(usize),
    /// It goes into both sides of the form, and on the second into a choice, if it names one.
    Branch {
        form: Inequality,
        next: Option<usize>,
    },
    /// It refutes these numbers.
    Refute(Pigeons),
    /// It refutes this queue.
    Queue(Queue),
}

/// What comes of going into the parts of a choice.
#[derive(Drop)]
pub(crate) enum Parts {
    /// All are refuted.
    Refuted(Proof),
    /// Forms were met, one at least, that are at most 0 whatever the part.
    Lifted(Vec<Lifted>),
}
