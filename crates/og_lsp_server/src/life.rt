//! How a session begins.

ghost use Rattle.std.specs.Prelude.{◌≡◌, OnOk, OnErr};
ghost use Rattle.og_lsp_server.specs.declared.server.Phase.TheVariants.{Ready};

use crate::capabilities::{capabilities, encoding_of};
use crate::server::{Phase, Server};
use og_lsp_message::Message;
use serde_json::Value;
use std::alloc::AllocError;

impl<'r, G, H> Server<'r, G, H> {
    /// The server is initialized.
    ///
    /// # Errors
    ///
    /// An allocation was refused; then nothing has changed.
    pub(crate) fn initialize(&mut self, message: &Message) -> Result<Value, AllocError>
        ensures ok { OnOk result (self.new.phase ≡ Ready) }
        ensures err { OnErr result (self.new.phase ≡ self.old.phase) }
        ensures documents { self.new.documents ≡ self.old.documents }
    {
        let encoding = encoding_of(message);
        let value = capabilities(self.judge.alloc, encoding)?;
        self.encoding = encoding;
        self.phase = Phase::Ready;
        Ok(value)
    }
}
