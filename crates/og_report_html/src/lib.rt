//! The page of `show`: the finding on each condition, and the runs to it as charts.
//!
//! specs/Page.antt defines the page, Conjuncts.antt, Shared.antt and Edges.antt what stands out in its
//! assertions and what is folded, Lanes.antt the charts.
#![tactic(auto)]

mod articles;
mod charting;
mod conjuncts;
mod constants;
mod cut;
mod edge;
mod escapes;
mod finding;
mod lanes;
mod links;
mod marks;
mod mode;
mod numbers;
mod run_texts;
mod shared;
mod source;
mod table;
mod target;
mod totals;
mod whole;

pub use charting::chart;
pub use escapes::{is_utf8, put_escaped};
pub use run_texts::{about, run_parts};
pub use target::{Interference, Target, targets};
pub use whole::{Additions, page};
