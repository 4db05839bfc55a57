//! What a client sends.

ghost use Rattle.std.specs.Prelude.{◌≡◌, ◌<◌, IfOk, IsErrOf, Some, None, option_map, option_and_then, codes, length};
ghost use Rattle.std.specs.Str.{IsUtf8};
ghost use Rattle.serde_json.specs.Read.{read as read_text};
ghost use Rattle.serde_json.specs.Find.{get};
ghost use Rattle.serde_json.specs.View.{view};
ghost use Rattle.og_lsp_message.specs.Calls.{kind_of, kind_without_method, has_text, id_of, method_of, parameter_of};
ghost use Rattle.og_lsp_message.specs.Ids.{id_data};
ghost use Rattle.og_lsp_message.specs.declared.message.MessageError.TheVariants.{Memory, NoJson};

use crate::id::Id;
use serde_json::Value;
use std::alloc::Global;
use thiserror::Error;

/// Why a body was not read.
#[derive(Clone, Copy, Debug, Drop, PartialEq, Eq, Error)]
pub enum MessageError {
    /// An allocation was refused.
    #[error("out of memory")]
    Memory,
    /// It is no JSON.
    #[error("no JSON")]
    NoJson,
}

/// What a message is.
#[derive(Clone, Copy, Drop, PartialEq, Eq)]
pub enum Kind {
    /// A call that has to be answered; it has an id.
    Request,
    /// A call that has no answer.
    Notification,
    /// An answer.
    Answer,
    /// Nothing of these.
    Other,
}

/// A message that was read.
#[derive(Drop)]
pub struct Message {
    /// Its JSON.
    pub value: Value,
}

// Whether a member of the message is this text.
fn has_text(value: &Value, name: &str, text: &str) -> bool
    ensures { result ≡ has_text name.now text.now (view value.now) }
{
    match value.get(name).and_then(Value::as_str) {
        Some(found) => found == text,
        None => false,
    }
}

impl Message {
    /// The message that a body has.
    ///
    /// # Errors
    ///
    /// `NoJson` where the body is no JSON, or no UTF-8. `Memory` where an allocation was refused;
    /// an empty body asks for none.
    pub fn read(alloc: Global, body: &[u8]) -> Result<Message, MessageError>
        ensures read { IfOk result (λ m. read_text body.now ≡ Some (view m.value)) }
        ensures refused { IsErrOf result NoJson → IsUtf8 body.now → read_text body.now ≡ None }
        ensures memory { IsErrOf result Memory → 0 < length body.now }
    {
        match Value::from_slice(alloc, body) {
            Ok(value) => Ok(Message { value }),
            Err(error) => {
                if error.is_memory() {
                    Err(MessageError::Memory)
                } else {
                    Err(MessageError::NoJson)
                }
            }
        }
    }

    /// The name of the called method.
    pub fn method(&self) -> Option<&str>
        ensures { option_map (λ m. m.now) result ≡ method_of (view self.now.value) }
    {
        self.value.get("method").and_then(Value::as_str)
    }

    /// The id of a request.
    pub fn id(&self) -> Option<Id<'_>>
        ensures { option_map id_data result
            ≡ option_and_then id_of (get (codes "id") (view self.now.value)) }
    {
        self.value.get("id").and_then(Id::of)
    }

    /// The parameter of this name.
    pub fn parameter(&self, name: &str) -> Option<&Value>
        ensures { option_map (λ v. view v.now) result
            ≡ parameter_of name.now (view self.now.value) }
    {
        self.value.get("params").and_then(|all| all.get(name))
    }

    /// What the message is.
    pub fn kind(&self) -> Kind
        ensures { result ≡ kind_of (view self.now.value) }
    {
        if !has_text(&self.value, "jsonrpc", "2.0") {
            return Kind::Other;
        }
        if self.method().is_none() {
            return self.kind_without_method();
        }
        if self.value.get("id").is_none() {
            return Kind::Notification;
        }
        match self.id() {
            Some(_) => Kind::Request,
            None => Kind::Other,
        }
    }

    // What the message is where it names no method.
    fn kind_without_method(&self) -> Kind
        ensures { result ≡ kind_without_method (view self.now.value) }
    {
        let answers = self.value.get("result").is_some() || self.value.get("error").is_some();
        if answers && self.value.get("method").is_none() {
            Kind::Answer
        } else {
            Kind::Other
        }
    }
}
