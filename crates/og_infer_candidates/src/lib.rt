//! What may be true at the places of an outline: what of its literals was true of all states so far.
//!
//! A [`Universe`] has the literals of an outline. [`Candidates`] are, for one place, the equations,
//! bounds and clauses that were true of all states that it admitted; with each state they get
//! weaker. A [`Candidate`] is one of them. No contract promises anything of them: what is inferred is
//! judged by its conditions.
#![tactic(auto)]

mod bits;
mod candidate;
mod candidates;
mod hull;
mod order;
mod strongest;
mod triples;
mod universe;
mod writing;

pub use bits::Bits;
pub use candidate::Candidate;
pub use candidates::Candidates;
pub use universe::Universe;
