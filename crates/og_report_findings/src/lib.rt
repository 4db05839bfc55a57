//! What `prove` says of all conditions of an outline, as text and as JSON: the order of their
//! blocks, which are told together, the totals, and the verdict.
//!
//! specs/Order.antt, Causes.antt and Verdicts.antt define these, Report.antt the text, Json.antt the
//! JSON, and Refused.antt that of a text that is refused.
#![tactic(auto)]

mod bounds;
mod causes;
mod entry;
mod grouping;
mod hints;
mod objects;
mod order;
mod places;
mod refused;
mod reporting;
mod shown;
mod suggestion;
mod verdict;

pub use causes::Group;
pub use entry::{Entry, Findings};
pub use grouping::grouped;
pub use hints::Hints;
pub use objects::json;
pub use order::in_order;
pub use refused::{TextRefusal, refusal_line};
pub use reporting::report;
pub use shown::Item;
pub use suggestion::Suggestion;
pub use verdict::Conclusion;
