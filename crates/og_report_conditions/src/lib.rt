//! The conditions of an outline as `conditions` prints them: with their facts, as triples, or as a
//! script for a solver.
//!
//! specs/Listings.antt and Chosen.antt define the whole, Triples.antt and Script.antt two of its
//! forms.
#![tactic(auto)]

mod choosing;
mod form;
mod formulas;
mod goals;
mod hypotheses;
mod laws;
mod lines;
mod listing;
mod parts;
mod pieces;
mod statements;
mod terms;
mod triples;
mod whole;

pub use choosing::{Reply, listed};
pub use form::Form;
pub use laws::all_with_facts;
pub use listing::Listing;
pub use triples::put_triple;
pub use whole::{opening, put_condition};
