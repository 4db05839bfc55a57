//! The printed texts of a judgement and of a refusal.
//!
//! specs/Report.antt and specs/Json.antt define the texts of a judgement, and og_report_text's
//! specs/Line.antt that of a refusal.
#![tactic(auto)]

mod members;
mod refusing;
mod report;

pub use members::json;
pub use og_report_text::conditions_text;
pub use refusing::refusal_text;
pub use report::text;
