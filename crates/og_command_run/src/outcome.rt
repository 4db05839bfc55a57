//! The printed text of a run.

ghost use Rattle.std.specs.Prelude.{◌≡◌, ◌++◌, ◌<◌, ◌^◌, length, true, OnOk, IfOk};
ghost use Rattle.og_command_run.specs.Texts.{printed_number, moves_text, history_line, finish_text, finish_line, value_text, values_text, state_line, outcome_text, finish_status};

use og_report_text::put_number;
use og_run::{Finish, Outcome};
use og_text::Name;
use og_typed::Outline;
use std::alloc::{AllocError, Global};

/// The number under which a process is printed.
pub(crate) fn printed_number(main: usize, process: u32) -> u128
    ensures { result ≡ printed_number main process }
{
    if process as usize == main {
        0
    } else {
        u128::from(process) + 1
    }
}

// The processes that moved.
fn put_moves(text: &mut Vec<u8>, main: usize, history: &[u32]) -> Result<(), AllocError>
    ensures { OnOk result (text.new.items ≡ text.old.items ++ moves_text main history.now) }
{
    for process in history {
        text.extend_from_slice(b" ")?;
        put_number(text, printed_number(main, *process))?;
    }
    Ok(())
}

fn put_history(text: &mut Vec<u8>, main: usize, history: &[u32]) -> Result<(), AllocError>
    ensures { OnOk result (text.new.items ≡ text.old.items ++ history_line main history.now) }
{
    text.extend_from_slice(b"history:")?;
    put_moves(text, main, history)?;
    text.extend_from_slice(b"\n")
}

fn put_finish(text: &mut Vec<u8>, main: usize, finish: Finish) -> Result<(), AllocError>
    ensures { OnOk result (text.new.items ≡ text.old.items ++ finish_text main finish) }
{
    match finish {
        Finish::Finished => text.extend_from_slice(b"finished"),
        Finish::Stuck => text.extend_from_slice(b"stuck"),
        Finish::Limit => text.extend_from_slice(b"limit"),
        Finish::Overflow(process) => {
            text.extend_from_slice(b"overflow of process ")?;
            put_number(text, printed_number(main, process))
        }
    }
}

fn put_end(text: &mut Vec<u8>, main: usize, finish: Finish) -> Result<(), AllocError>
    ensures { OnOk result (text.new.items ≡ text.old.items ++ finish_line main finish) }
{
    text.extend_from_slice(b"outcome: ")?;
    put_finish(text, main, finish)?;
    text.extend_from_slice(b"\n")
}

// A variable and its value.
fn put_value(text: &mut Vec<u8>, first: bool, name: &Name, value: i64) -> Result<(), AllocError>
    ensures { OnOk result (text.new.items ≡ text.old.items ++ value_text first name.now value) }
{
    let digits = value.to_string(*text.allocator())?;
    text.extend_from_slice(if first { b" " } else { b", " })?;
    text.extend_from_slice(name.as_slice())?;
    text.extend_from_slice(b" = ")?;
    text.extend_from_slice(digits.as_bytes())
}

// The variables and their values.
fn put_values(text: &mut Vec<u8>, mut names: &[Name], mut values: &[i64]) -> Result<(), AllocError>
    ensures { OnOk result (text.new.items ≡ text.old.items ++ values_text true names.now values.now) }
{
    let mut first = true;
    while let [name, other_names @ ..] = names {
        let [value, other_values @ ..] = values else {
            return Ok(());
        };
        put_value(text, first, name, *value)?;
        names = other_names;
        values = other_values;
        first = false;
    }
    Ok(())
}

fn put_state(text: &mut Vec<u8>, names: &[Name], values: &[i64]) -> Result<(), AllocError>
    ensures { OnOk result (text.new.items ≡ text.old.items ++ state_line names.now values.now) }
{
    text.extend_from_slice(b"state:")?;
    put_values(text, names, values)?;
    text.extend_from_slice(b"\n")
}

/// The text of an outcome: the history, how the run ended, and the state.
pub(crate) fn outcome_text(
    alloc: Global,
    outline: &Outline,
    outcome: &Outcome,
) -> Result<Vec<u8>, AllocError>
    ensures { IfOk result (λ t. t.items ≡ outcome_text outline.now outcome.now) }
{
    let main = outline.processes().len();
    let mut text = Vec::new(alloc);
    put_history(&mut text, main, &outcome.history)?;
    put_end(&mut text, main, outcome.finish)?;
    put_state(&mut text, outline.names(), outcome.state.as_slice())?;
    Ok(text)
}

/// 0 where all processes have ended, and else 1.
pub(crate) fn finish_status(finish: Finish) -> u8
    ensures { result ≡ finish_status finish }
{
    match finish {
        Finish::Finished => 0,
        Finish::Stuck | Finish::Limit | Finish::Overflow(_) => 1,
    }
}
