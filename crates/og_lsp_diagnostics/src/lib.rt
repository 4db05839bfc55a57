//! What is said of a text, an outline or a template: of a refusal, of conditions that are not proved,
//! and of what an outline claims of no run.
//!
//! Places are byte offsets of the text. A [`Teller`] has what the places of an outline's parts are
//! told with. specs/Said.antt defines what is said of conditions, specs/Refusals.antt of a refusal,
//! and specs/Remarked.antt of a claim.
#![tactic(auto)]

mod conjunct;
mod diagnostic;
mod extent;
mod refused;
mod related;
mod remarked;
mod teller;
mod told;

pub use diagnostic::{Diagnostic, Related, Severity};
pub use extent::{part_at, word_at};
pub use refused::{of_source, of_template};
pub use remarked::information;
pub use teller::Teller;
pub use told::diagnostics_of;
