//! What requests ask of a document.

ghost use Rattle.std.specs.Prelude.{◌≡◌};
ghost use Rattle.og_lsp_server.specs.Published.{AreJudged};
ghost use Rattle.og_lsp_server.specs.Texts.{texts_of};

use crate::server::Server;
use og_lsp_features::{Asked, Document, NO_DOCUMENT, Refusal};
use og_lsp_message::{ErrorCode, Message};
use og_lsp_text::{Position, Range};
use og_pool::Gate;
use serde_json::Value;
use std::sync::Wait;
use std::thread::Threads;

const NO_POSITION: Refusal = Refusal::Refused(
    ErrorCode::InvalidParams,
    "the parameters have no position",
);

const NO_NEW_NAME: Refusal = Refusal::Refused(
    ErrorCode::InvalidParams,
    "the parameters have no new name",
);

// The number of a member of a value.
fn number_in(value: &Value, name: &str) -> Option<u32> {
    u32::try_from(value.get(name)?.as_u64()?).ok()
}

// The position that a value is.
fn position_value(value: &Value) -> Option<Position> {
    Some(Position {
        line: number_in(value, "line")?,
        character: number_in(value, "character")?,
    })
}

// The position that a member of a value is.
fn position_in(value: &Value, name: &str) -> Option<Position> {
    position_value(value.get(name)?)
}

// The position that the parameters of a request name.
fn position_of(message: &Message) -> Result<Position, Refusal> {
    match message.parameter("position").and_then(position_value) {
        Some(position) => Ok(position),
        None => Err(NO_POSITION),
    }
}

const NO_RANGE: Refusal = Refusal::Refused(
    ErrorCode::InvalidParams,
    "the parameters have no range",
);

// The range that the parameters of a request name.
fn range_of(message: &Message) -> Result<Range, Refusal> {
    let Some(value) = message.parameter("range") else {
        return Err(NO_RANGE);
    };
    match (position_in(value, "start"), position_in(value, "end")) {
        (Some(start), Some(end)) => Ok(Range { start, end }),
        _ => Err(NO_RANGE),
    }
}

impl<'r, G: Gate, H: Threads + Wait + Sync> Server<'r, G, H> {
    // The document that a request names.
    fn named_document(&self, message: &Message) -> Result<&Document, Refusal> {
        let place = self.named_place(message)?;
        self.documents.all.get(place).ok_or(NO_DOCUMENT)
    }

    // What is found of the document that a request names is known.
    fn judge_named(&mut self, message: &Message) -> Result<(), Refusal>
        ensures phase { self.new.phase ≡ self.old.phase }
        ensures texts { texts_of self.new.documents ≡ texts_of self.old.documents }
        ensures judged { AreJudged self.old.documents → AreJudged self.new.documents }
    {
        let place = self.named_place(message)?;
        self.judge_at(place)?;
        Ok(())
    }

    /// The edits that lay a document out.
    pub(crate) fn formatted(&self, message: &Message) -> Result<Value, Refusal> {
        let document = self.named_document(message)?;
        Ok(document.layout_edits(self.judge.alloc, self.encoding)?)
    }

    // The lines above the `cobegin` of a document that is judged.
    fn known_lenses(&self, message: &Message) -> Result<Value, Refusal> {
        let document = self.named_document(message)?;
        Ok(document.lenses(self.judge.alloc, self.encoding)?)
    }

    /// The lines above the `cobegin` of a document.
    pub(crate) fn lenses(&mut self, message: &Message) -> Result<Value, Refusal>
        ensures phase { self.new.phase ≡ self.old.phase }
        ensures texts { texts_of self.new.documents ≡ texts_of self.old.documents }
        ensures judged { AreJudged self.old.documents → AreJudged self.new.documents }
    {
        self.judge_named(message)?;
        self.known_lenses(message)
    }

    /// What is asked of the name at a position.
    pub(crate) fn of_name(&self, message: &Message, asked: Asked) -> Result<Value, Refusal> {
        let document = self.named_document(message)?;
        let position = position_of(message)?;
        document.of_name(self.judge.alloc, self.encoding, position, asked)
    }

    /// The edits that rename the name at a position.
    pub(crate) fn rename(&self, message: &Message) -> Result<Value, Refusal> {
        let document = self.named_document(message)?;
        let position = position_of(message)?;
        let Some(new) = message.parameter("newName").and_then(Value::as_str) else {
            return Err(NO_NEW_NAME);
        };
        document.renamed(self.judge.alloc, self.encoding, position, new)
    }

    // What is said of the place of a position in a document that is judged.
    fn known_hover(&self, message: &Message) -> Result<Value, Refusal> {
        let document = self.named_document(message)?;
        let position = position_of(message)?;
        document.hovered(self.judge.alloc, self.encoding, position)
    }

    /// What is said of the place of a position.
    pub(crate) fn hover(&mut self, message: &Message) -> Result<Value, Refusal>
        ensures phase { self.new.phase ≡ self.old.phase }
        ensures texts { texts_of self.new.documents ≡ texts_of self.old.documents }
        ensures judged { AreJudged self.old.documents → AreJudged self.new.documents }
    {
        self.judge_named(message)?;
        self.known_hover(message)
    }

    /// What a document declares.
    pub(crate) fn declared(&self, message: &Message) -> Result<Value, Refusal> {
        let document = self.named_document(message)?;
        document.symbols(self.judge.alloc, self.encoding)
    }

    /// What may be written at a position.
    pub(crate) fn choices(&self, message: &Message) -> Result<Value, Refusal> {
        let document = self.named_document(message)?;
        let position = position_of(message)?;
        document.choices(self.judge.alloc, self.encoding, position)
    }

    // What is offered within a range of a document of which all is known.
    fn known_actions(&self, message: &Message) -> Result<Value, Refusal> {
        let document = self.named_document(message)?;
        let range = range_of(message)?;
        document.actions(self.judge.alloc, self.encoding, range)
    }

    /// What is offered against what is wrong within a range.
    pub(crate) fn actions(&mut self, message: &Message) -> Result<Value, Refusal>
        ensures phase { self.new.phase ≡ self.old.phase }
        ensures texts { texts_of self.new.documents ≡ texts_of self.old.documents }
        ensures judged { AreJudged self.old.documents → AreJudged self.new.documents }
    {
        let place = self.named_place(message)?;
        self.complete_at(place)?;
        self.known_actions(message)
    }
}
