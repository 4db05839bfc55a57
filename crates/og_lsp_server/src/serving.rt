//! A session: one thread reads the input, another one answers.

ghost use Rattle.std.specs.Prelude.{OnOk};
ghost use Rattle.og_lsp_server.specs.Output.{Writes};
ghost use Rattle.og_lsp_server.specs.Said.{said};

use crate::ended::SessionEnd;
use crate::outbox::Outbox;
use crate::server::{Flow, Server};
use crossbeam_channel::{Receiver, Sender, bounded};
use og_io::OutputFault;
use og_lsp_document::Judge;
use og_lsp_frame::{Frames, InputError, read_message, write_message};
use og_lsp_message::{Message, MessageError, body_of};
use og_pool::Gate;
use std::alloc::Global;
use std::io::{Read, Write};
use std::sync::Wait;
use std::thread;
use std::thread::Threads;

// How many messages wait at most, beside the one that is being read.
const MOST_WAITING: usize = 16;

// What comes of the input.
#[derive(Drop)]
enum Event {
    // A message, or why it was not read.
    Message(Result<Message, MessageError>),
    // The end of the input.
    End,
    // The input was not read.
    Failed(InputError),
}

// Whether nothing is read behind it.
fn is_last(event: &Event) -> bool {
    match event {
        Event::Message(Ok(message)) => message.method() == Some("exit"),
        Event::Message(Err(_)) => false,
        Event::End | Event::Failed(_) => true,
    }
}

// What comes next of an input.
fn next_event<R: Read>(alloc: Global, input: &mut R, frames: &mut Frames) -> Event {
    match read_message(alloc, input, frames) {
        Ok(Some(body)) => Event::Message(Message::read(alloc, &body)),
        Ok(None) => Event::End,
        Err(error) => Event::Failed(error),
    }
}

// Hands over what comes of an input, up to `exit` or its end, or until nobody takes it.
fn read_all<R: Read + Drop, H: Wait>(
    rt: &H,
    alloc: Global,
    mut input: R,
    sender: Sender<Event, Global>,
) {
    let mut frames = Frames::new(alloc);
    for _ in rt.forever() {
        let event = next_event(alloc, &mut input, &mut frames);
        let last = is_last(&event);
        if sender.send(rt, event).is_err() || last {
            return;
        }
    }
}

// Writes messages in their order.
fn write_all<W: Write>(alloc: Global, out: &mut W, outbox: Outbox) -> Result<(), OutputFault>
    ensures { OnOk result (Writes (said outbox) (W.contents out.old) (W.contents out.new)) }
{
    for value in outbox.into_values() {
        let body = body_of(alloc, &value)?;
        write_message(alloc, out, &body)?;
    }
    Ok(())
}

// What a session is run with.
#[derive(Drop)]
struct Session<'r, G, H> {
    server: Server<'r, G, H>,
    receiver: Receiver<Event, Global>,
}

impl<'r, G: Gate, H: Threads + Wait + Sync> Session<'r, G, H> {
    // Takes what came of the input.
    fn take(&mut self, event: Event, outbox: &mut Outbox) -> Result<(), SessionEnd> {
        match event {
            Event::Message(message) => match self.server.take(&message, outbox)? {
                Flow::GoesOn => Ok(()),
                Flow::Exits { after_shutdown } => Err(SessionEnd::Exited { after_shutdown }),
            },
            Event::End => Err(SessionEnd::InputEnded),
            Event::Failed(error) => Err(SessionEnd::from(error)),
        }
    }

    // Takes what has come of the input already.
    fn take_waiting(&mut self, outbox: &mut Outbox) -> Result<(), SessionEnd> {
        let rt = self.server.judge.rt;
        for _ in rt.forever() {
            match self.receiver.try_recv(rt) {
                Ok(event) => self.take(event, outbox)?,
                Err(_) => return Ok(()),
            }
        }
        Ok(())
    }

    // Takes a message and those that wait behind it.
    fn take_all(&mut self, event: Event, outbox: &mut Outbox) -> Result<(), SessionEnd> {
        self.take(event, outbox)?;
        self.take_waiting(outbox)
    }

    // Waits for a message, takes it and those that wait behind it, answers them, and publishes what
    // is wrong with the documents that have changed.
    fn turn<W: Write>(&mut self, out: &mut W) -> Result<(), SessionEnd> {
        let (rt, alloc) = (self.server.judge.rt, self.server.judge.alloc);
        let Ok(event) = self.receiver.recv(rt) else {
            return Err(SessionEnd::InputEnded);
        };
        let mut outbox = Outbox::new(alloc);
        let taken = self.take_all(event, &mut outbox);
        write_all(alloc, out, outbox)?;
        taken?;
        let mut outbox = Outbox::new(alloc);
        self.server.publish(&mut outbox)?;
        write_all(alloc, out, outbox)?;
        Ok(())
    }

    // Serves until the session ends, from where on nobody takes what comes of the input.
    fn run<W: Write>(mut self, out: &mut W) -> SessionEnd {
        let rt = self.server.judge.rt;
        for _ in rt.forever() {
            if let Err(end) = self.turn(out) {
                return end;
            }
        }
        SessionEnd::InputEnded
    }
}

/// Serves an editor over an input and an output until the session ends. What the client says is
/// answered in order; of a document that has changed several times since it was judged, its last
/// text is judged. A thread of its own reads the input, to `exit` or to its end; where the session
/// ends before, to the message that comes next.
pub fn serve_editor<'r, R: Read + Send + Drop, W: Write, G: Gate, H: Threads + Wait + Sync>(
    judge: &'r Judge<'r, G, H>,
    input: R,
    out: &mut W,
) -> SessionEnd {
    let (rt, alloc) = (judge.rt, judge.alloc);
    let Ok((sender, receiver)) = bounded(alloc, MOST_WAITING) else {
        return SessionEnd::Memory;
    };
    let server = Server::new(judge);
    let session = Session { server, receiver };
    thread::scope(thread::scope_env(), rt, |scope| -> SessionEnd {
        match scope.spawn(move || read_all(rt, alloc, input, sender)) {
            Ok(_) => session.run(out),
            Err(_) => SessionEnd::Spawn,
        }
    })
}
