//! The search for certificates, by case splits and Fourier-Motzkin elimination.
//!
//! No contract promises what it finds: it is safe and ends, and `og_find` checks what it claims.
//! It knows nothing of conditions: the facts are put together by `Part`.
#![tactic(auto)]

mod claim;
mod known;
mod rests;
mod search;
mod steps;
mod stop;

pub use claim::{Claim, Ground, Start, begin, search_among};
pub use og_search_choices::Part;
pub use og_search_rows::Model;
