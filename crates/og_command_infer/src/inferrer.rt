//! What an inference is made with, and its result.

ghost use Rattle.std.specs.Prelude.{◌≡◌};

use og_command_prove::{Prover, Search};
use og_infer::Addition;
use og_infer_marks::Edit;
use og_io::{Budget, MomentLimit, Workers};
use og_report_text::Answer;
use std::alloc::Global;

/// How the missing conjuncts are searched.
#[derive(Clone, Copy, PartialEq, Eq)]
pub struct Effort {
    /// The budget of each search that proves a condition of what is printed, as in
    /// `og_find::examine`.
    pub proof: Budget,
    /// The budget of each search for a conjunct.
    pub budget: Budget,
    /// How many such searches are made at most.
    pub limit: Budget,
    /// How many workers search.
    pub workers: Workers,
    /// Whether auxiliary variables may be added where assertions alone do not suffice.
    pub aux: bool,
}

/// What an inference is made with: threads, memory, the gate of the searches, and how they are made.
#[derive(Clone, Copy)]
pub struct Inferrer<'r, G, H> {
    /// Starts threads.
    pub rt: &'r H,
    /// Gives memory.
    pub alloc: Global,
    /// Sees each search of a condition of what is printed begin and end, as in
    /// `og_find_all::examine_all`.
    pub gate: &'r G,
    /// How the conjuncts are searched.
    pub effort: Effort,
}

/// How much was added to an outline.
#[derive(Clone, Copy, Drop, PartialEq, Eq)]
pub struct Added {
    /// How many auxiliary variables.
    pub auxiliaries: u32,
    /// How many conjuncts.
    pub conjuncts: u32,
    /// To how many notes.
    pub notes: u32,
    /// Of how many, the pre- and postcondition left out.
    pub places: u32,
}

// As many, or the greatest number that is shown.
pub(crate) fn count_of(count: usize) -> u32 {
    u32::try_from(count).unwrap_or(u32::MAX)
}

impl Added {
    // As many auxiliaries and these conjuncts, in an outline with as many notes.
    pub(crate) fn of(auxiliaries: usize, additions: &[Addition], places: u32) -> Added {
        let mut added = Added {
            auxiliaries: count_of(auxiliaries),
            conjuncts: 0,
            notes: 0,
            places,
        };
        for addition in additions {
            let more = count_of(addition.conjuncts.len());
            added.conjuncts = added.conjuncts.saturating_add(more);
            added.notes = added.notes.saturating_add(1);
        }
        added
    }
}

/// A completed outline.
#[derive(Drop)]
pub struct Inferred {
    /// Its text.
    pub text: Vec<u8>,
    /// The edits that make it of the given text.
    pub edits: Vec<Edit>,
    /// What was added.
    pub added: Added,
    /// What `prove` reports of it.
    pub report: Answer,
}

/// The result of an inference with words.
#[derive(Drop)]
pub enum Reply<'a> {
    /// A completed outline.
    Inferred(Inferred),
    /// The first word that gives no variable a range.
    BadValue(&'a str),
}

impl<'r, G, H> Inferrer<'r, G, H> {
    // What proves conditions, with these runs.
    pub(crate) fn prover(&self, runs: Option<MomentLimit>) -> Prover<'r, G, H>
        ensures runs { result.search.runs ≡ runs }
        ensures workers { result.search.workers ≡ self.now.effort.workers }
    {
        Prover {
            rt: self.rt,
            alloc: self.alloc,
            gate: self.gate,
            search: Search {
                budget: self.effort.proof,
                workers: self.effort.workers,
                runs,
            },
        }
    }
}
