//! What `prove` says of a condition, and its totals, as text and as JSON.
//!
//! specs/Blocks.antt and Report.antt define the text, Json.antt the JSON.
#![tactic(auto)]

mod block;
mod diagnosis;
mod earlier;
mod ends;
mod faults;
mod focus;
mod lines;
mod objects;
mod reporting;
mod sentences;
mod together;
mod unproved;
mod values;

pub use block::{Block, Details, put_block};
pub use diagnosis::{Diagnosis, block_of, diagnose};
pub use earlier::{Firsts, effect_of, effect_text, number_or_add};
pub use ends::end_of;
pub use faults::conjunct_values;
pub use lines::{put_false, put_label, put_place, put_quoted, put_too_large};
pub use objects::totals_value;
pub use reporting::{
    Page, Totals, is_safe, is_unblocked, put_diagnosis, put_head, put_number_line, put_totals,
    put_yes_line,
};
pub use sentences::put_part;
pub use together::{key_of, repeats};
pub use unproved::diagnosis_value;
pub use values::{put_optional, put_values, utf8_text};
