//! What `explore` found, as text and as JSON.
//!
//! specs/Texts.antt and Totals.antt define the text, Json.antt the JSON.
#![tactic(auto)]

mod blaming;
mod faults;
mod finding;
mod objects;
mod reporting;
mod rows;
mod table;
mod texts;
mod totals;
mod violations;

pub use finding::{Blame, Effect, Fault, Finding, Row};
pub use reporting::json;
pub use table::put_did;
pub use texts::{place_of, report};
pub use totals::{Found, Totals};
pub use violations::{finding_of, rows_of};
