//! What the server says.

ghost use Rattle.std.specs.Prelude.{◌≡◌, [], ◌∷◌, ◌++◌, map, option_map, OnOk, OnErr};
ghost use Rattle.og_lsp_server.specs.Said.{said};
ghost use Rattle.serde_json.specs.View.{view};
ghost use Rattle.og_lsp_message.specs.Ids.{id_data, known_id};
ghost use Rattle.og_lsp_message.specs.Answers.{answer_data, error_data, notification_data};

use og_lsp_message::{ErrorCode, Id, answer_value, error_value, notification_value};
use serde_json::Value;
use std::alloc::{AllocError, Global};

/// Messages that are to be written, in order.
#[derive(Drop)]
pub struct Outbox {
    said: Vec<Value>,
    alloc: Global,
}

impl Outbox {
    /// Nothing is to be written.
    pub fn new(alloc: Global) -> Outbox
        ensures { said result ≡ [] }
    {
        Outbox {
            said: Vec::new(alloc),
            alloc,
        }
    }

    /// The messages.
    pub fn into_values(self) -> Vec<Value>
        ensures { map view result.items ≡ said self }
    {
        self.said
    }

    // One message more.
    fn add(&mut self, value: Value) -> Result<(), AllocError>
        ensures ok { OnOk result (said self.new ≡ said self.old ++ view value ∷ []) }
        ensures err { OnErr result (said self.new ≡ said self.old) }
    {
        self.said.push(value)?;
        Ok(())
    }

    /// Adds the answer to a request.
    ///
    /// # Errors
    ///
    /// An allocation was refused; then nothing was added.
    pub(crate) fn answer(&mut self, id: Id<'_>, result_value: Value) -> Result<(), AllocError>
        ensures ok { OnOk result (said self.new
            ≡ said self.old ++ answer_data (id_data id.entry) (view result_value) ∷ []) }
        ensures err { OnErr result (said self.new ≡ said self.old) }
    {
        let value = answer_value(self.alloc, id, result_value)?;
        self.add(value)
    }

    /// Adds the answer that there is no result.
    ///
    /// # Errors
    ///
    /// An allocation was refused; then nothing was added.
    pub(crate) fn error(
        &mut self,
        id: Option<Id<'_>>,
        code: ErrorCode,
        message: &str,
    ) -> Result<(), AllocError>
        ensures ok { OnOk result (said self.new ≡ said self.old
            ++ error_data (known_id (option_map id_data id.entry)) code message.now ∷ []) }
        ensures err { OnErr result (said self.new ≡ said self.old) }
    {
        let value = error_value(self.alloc, id, code, message)?;
        self.add(value)
    }

    /// Adds a notification.
    ///
    /// # Errors
    ///
    /// An allocation was refused; then nothing was added.
    pub(crate) fn notify(&mut self, method: &str, params: Value) -> Result<(), AllocError>
        ensures ok { OnOk result (said self.new
            ≡ said self.old ++ notification_data method.now (view params) ∷ []) }
        ensures err { OnErr result (said self.new ≡ said self.old) }
    {
        let value = notification_value(self.alloc, method, params)?;
        self.add(value)
    }
}
