//! The sentence that says what a false condition means.

ghost use Rattle.std.specs.Prelude.{◌≡◌, ◌++◌, OnOk};
ghost use Rattle.og_report_prove.specs.Sentences.{part_text, actor_text, begins, opening, closing, ending, sentence_text};

use og_cond::Kind;
use og_report_explain::Actors;
use og_report_text::put_number;
use og_typed::Part;
use std::alloc::AllocError;

/// Adds who makes a step, at the head of a sentence or within it.
///
/// # Errors
///
/// An allocation was refused; the text has what it had, and perhaps a part of this.
pub fn put_part(text: &mut Vec<u8>, head: bool, part: Part) -> Result<(), AllocError>
    ensures { OnOk result (text.new.items ≡ text.old.items ++ part_text head part) }
{
    match (head, part) {
        (true, Part::Process(n)) => {
            text.extend_from_slice(b"Process ")?;
            put_number(text, n as u128 + 1)
        }
        (false, Part::Process(n)) => {
            text.extend_from_slice(b"process ")?;
            put_number(text, n as u128 + 1)
        }
        (true, _) => text.extend_from_slice(b"The main process"),
        (false, _) => text.extend_from_slice(b"the main process"),
    }
}

fn put_actor(text: &mut Vec<u8>, head: bool, actor: Option<Part>) -> Result<(), AllocError>
    ensures { OnOk result (text.new.items ≡ text.old.items ++ actor_text head actor) }
{
    match actor {
        Some(part) => put_part(text, head, part),
        None => Ok(()),
    }
}

// Whether the sentence begins with who makes the step: nothing stands before that.
fn begins(kind: Kind) -> bool
    ensures { result ≡ begins kind }
{
    opening(kind).is_empty()
}

// What stands before who makes the step.
fn opening(kind: Kind) -> &'static str
    ensures { result.now ≡ opening kind }
{
    match kind {
        Kind::Prologue => "The prologue may start",
        Kind::Step | Kind::Range | Kind::Interfere => "A step of ",
        Kind::End => "All processes may have ended",
        Kind::Epilogue => "The epilogue may have ended",
        Kind::Blocking => "All processes may have ended or wait, and one of them waits.",
        Kind::Start
        | Kind::Then
        | Kind::Else
        | Kind::Join
        | Kind::Enter
        | Kind::Again
        | Kind::Leave => "",
    }
}

// What stands after it.
fn closing(kind: Kind, plain: bool) -> &'static str
    ensures { result.now ≡ closing kind plain }
{
    match (kind, plain) {
        (Kind::Prologue, _) => " where its first assertion is false.",
        (Kind::Start, _) => " may start where its first assertion is false.",
        (Kind::Step, _) => " leads where the assertion after it is false.",
        (Kind::Range, _) => " assigns a value that is no 64-bit number.",
        (Kind::Then, _) => " may enter the branch where its first assertion is false.",
        (Kind::Else, true) =>
            " may pass the branch by where the assertion after the `if` is false.",
        (Kind::Else, false) => " may enter the else branch where its first assertion is false.",
        (Kind::Join, _) => " may leave the branch where the assertion after the `if` is false.",
        (Kind::Enter, _) => " may enter the loop where the first assertion of its body is false.",
        (Kind::Again, _) =>
            " may end a round of the loop where the assertion before the loop is false.",
        (Kind::Leave, _) => " may leave the loop where the assertion after it is false.",
        (Kind::Interfere, _) => " makes an assertion of ",
        (Kind::End, true) => " where the postcondition is false.",
        (Kind::End, false) => " where the first assertion of the epilogue is false.",
        (Kind::Epilogue, _) => " where the postcondition is false.",
        (Kind::Blocking, _) => "",
    }
}

// What stands after whose assertion it is.
fn put_ending(text: &mut Vec<u8>, other: Option<Part>) -> Result<(), AllocError>
    ensures { OnOk result (text.new.items ≡ text.old.items ++ ending other) }
{
    let Some(part) = other else {
        return Ok(());
    };
    put_part(text, false, part)?;
    text.extend_from_slice(b" false.")
}

/// Adds the sentence that says what it means that a condition of this kind is false.
pub(crate) fn put_sentence(
    text: &mut Vec<u8>,
    kind: Kind,
    actors: &Actors,
) -> Result<(), AllocError>
    ensures { OnOk result (text.new.items ≡ text.old.items ++ sentence_text kind actors.now) }
{
    text.extend_from_slice(opening(kind).as_bytes())?;
    put_actor(text, begins(kind), actors.actor)?;
    text.extend_from_slice(closing(kind, actors.plain).as_bytes())?;
    put_ending(text, actors.other)
}
