//! From a template to the outline that it stands for.
//!
//! [`check_names`] finds the first use of a name without its declaration, or of the wrong kind.
//! [`read_text`] says what a text means, source or template, and which words behind it give starts
//! (specs/Meaning.antt). specs/Expanded.antt has the promise of `expand`. [`fault_detail`] says more of a
//! fault.
#![tactic(auto)]

mod again;
mod assertions;
mod details;
mod expanding;
mod exprs;
mod fault;
mod line;
mod meaning;
mod numbering;
mod places;
mod printing;
mod rows;
mod scope;
mod statements;
mod template;
mod words;

pub use details::{Detail, Kind, NameDetail, Wanted, fault_detail};
pub use expanding::expanded;
pub use fault::{ExpandFault, MeaningError};
pub use meaning::{Meaning, Reading, Takes, read_text};
pub use numbering::check_names;
pub use printing::Expansion;
