//! What an editor is told of an open document, as values of the Language Server Protocol:
//! diagnostics, layout, a line above `cobegin`, what is said of a place, names, symbols, what may
//! be written, and what is offered against what is wrong.
#![tactic(auto)]

mod acting;
mod completing;
mod document;
mod formatting;
mod hovering;
mod lenses;
mod naming;
mod refusal;
mod symbols;
mod values;

pub use document::Document;
pub use naming::Asked;
pub use refusal::{NO_DOCUMENT, Refusal};
