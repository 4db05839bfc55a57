//! What standard error says of a refusal: where it is, the line of the source, why, and what to
//! write.
//!
//! It is of the fault of a source, its conditions, its certificates, a start, a word or a template.
//! specs/ defines each text, in a file named for it. What may stand at a place where a symbol is
//! expected is exact (`og_parse::expected`).
#![tactic(auto)]

mod advice;
mod bytes;
mod choosing;
mod expansion;
mod expected;
mod head;
mod help;
mod hint;
mod missing;
mod names;
mod quotes;
mod reasons;
mod similar;
mod starting;
mod template_expected;
mod template_reasons;
mod values;
mod words;

pub use advice::{Advice, Names, advise, why};
pub use expansion::Refused;
pub use missing::{long_line, missing_line};
pub use names::{put_command, put_name};
pub use quotes::put_quote;
pub use starting::start_remark;
pub use template_expected::expected_words;
pub use values::{Gives, schedule_remark, value_remark};
