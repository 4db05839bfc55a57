//! What reports share: places and numbers, the facts of conditions, quoted lines, assertions and
//! values, outlines in their texts, the texts of refusals, and members, lists and bytes of JSON.
//!
//! specs/ defines each text, in a file named for it.
#![tactic(auto)]

mod answer;
mod assertions;
mod conditions;
mod conjuncts;
mod facts;
mod fault;
mod forms;
mod heading;
mod input_error;
mod json_values;
mod line;
mod origins;
mod places;
mod processes;
mod quotes;
mod relations;
mod row;
mod subject;
mod uses;
mod values;
mod words;

pub use answer::Answer;
pub use assertions::{put_assertion, put_operand};
pub use conditions::{conditions_text, put_condition};
pub use conjuncts::{add_conjuncts, put_conjuncts, put_known, speaks_of};
pub use fault::InputFault;
pub use forms::{put_constant, put_name, put_times};
pub use heading::put_heading;
pub use input_error::InputError;
pub use json_values::{bytes_of, list_value, set_number, set_text};
pub use line::{put_opening, refused_line};
pub use origins::Origins;
pub use places::{Places, Position};
pub use processes::printed_number;
pub use quotes::put_quote;
pub use relations::{Relation, put_relation};
pub use row::{Row, Rows};
pub use subject::Subject;
pub use values::{numbers, put_names, put_value, put_values};
pub use words::{put_action_place, put_number, put_number_between, put_position};
