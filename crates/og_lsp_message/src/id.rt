//! By what a client knows a call again.

ghost use Rattle.std.specs.Prelude.{◌≡◌, IfOk, option_map};
ghost use Rattle.serde_json.specs.View.{view};
ghost use Rattle.og_lsp_message.specs.Calls.{id_of};
ghost use Rattle.og_lsp_message.specs.Ids.{id_data};

use serde_json::Value;
use std::alloc::{AllocError, Global};

/// By what a client knows a call again.
#[derive(Clone, Copy, PartialEq, Eq)]
pub enum Id<'a> {
    Number(i64),
    Text(&'a str),
}

impl<'a> Id<'a> {
    /// The id that a value is: an integer of 64 bits, or a text.
    pub(crate) fn of(value: &'a Value) -> Option<Id<'a>>
        ensures { option_map id_data result ≡ id_of (view value.now) }
    {
        if let Some(text) = value.as_str() {
            return Some(Id::Text(text));
        }
        match value.as_i64() {
            Some(number) => Some(Id::Number(number)),
            None => None,
        }
    }

    /// The value of the id.
    ///
    /// # Errors
    ///
    /// An allocation was refused.
    pub fn value(self, alloc: Global) -> Result<Value, AllocError>
        ensures { IfOk result (λ v. view v ≡ id_data self.entry) }
    {
        match self {
            Id::Number(number) => Ok(Value::from(number)),
            Id::Text(text) => Value::try_from_str(alloc, text),
        }
    }
}
