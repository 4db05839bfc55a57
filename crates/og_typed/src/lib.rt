//! Outlines: annotated parallel programs whose names are resolved.
//!
//! [`Source`] is the bytes of a source with the outline that they stand for. [`Index`] is made of
//! an outline once, and then finds the assertion or statement at a byte offset; specs/Sites.antt
//! says which ones an outline has. [`Points`] are the places where a process may stand, by number,
//! and where each statement leads: a moment of a run is the values of the variables and a number
//! for each process.
#![tactic(auto)]

mod assertion;
mod collecting;
mod fault;
mod formulas;
mod index;
mod laws;
mod names;
mod outline;
mod points;
mod resolving;
mod scope;
mod sequences;
mod sites;
mod source;
mod source_fault;
mod statement;
mod sums;

pub use assertion::Assert;
pub use fault::{TypeError, TypeFault};
pub use index::Index;
pub use laws::one_outline;
pub use outline::{Outline, Parts};
pub use points::{Beginning, Points, begin};
pub use resolving::resolve;
pub use sites::{NoteSite, Part, StatementSite};
pub use source::Source;
pub use source_fault::{SourceError, SourceFault};
pub use statement::{Basic, Item, Note, Seq, Stmt};
