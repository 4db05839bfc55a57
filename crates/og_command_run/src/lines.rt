//! The lines for standard error.

ghost use Rattle.std.specs.Prelude.{◌≡◌, ◌++◌, ◌≤◌, ◌^◌, length, codes, OnOk, IfOk};
ghost use Rattle.std.specs.Fmt.{decimal};
ghost use Rattle.og_command_run.specs.Texts.{process_text, place_text, when_text, wrong_text, note_line};
ghost use Rattle.og_command_run.specs.Lines.{no_process_text, early_text, hindrance_text, not_made_line};

use crate::hindrance::Hindrance;
use crate::outcome::printed_number;
use og_report_text::{Places, put_number, put_position};
use og_violation::Wrong;
use std::alloc::{AllocError, Global};

// Words and a number.
fn put_counted(text: &mut Vec<u8>, words: &[u8], number: u128) -> Result<(), AllocError>
    ensures { OnOk result (text.new.items ≡ text.old.items ++ (words.now ++ decimal number)) }
{
    text.extend_from_slice(words)?;
    put_number(text, number)
}

// A process, by the number under which it is printed.
fn put_process(text: &mut Vec<u8>, process: u128) -> Result<(), AllocError>
    ensures { OnOk result (text.new.items ≡ text.old.items ++ process_text process) }
{
    if process == 0 {
        text.extend_from_slice(b"the main process")
    } else {
        put_counted(text, b"process ", process)
    }
}

// A place in the source, where it is reported.
fn put_place(text: &mut Vec<u8>, places: &Places, place: Option<u32>) -> Result<(), AllocError>
    ensures { OnOk result (text.new.items ≡ text.old.items ++ place_text places.now place) }
{
    let Some(at) = place else {
        return Ok(());
    };
    text.extend_from_slice(b" at ")?;
    put_position(text, places.position(at))
}

// After how many steps.
fn put_when(text: &mut Vec<u8>, steps: usize) -> Result<(), AllocError>
    ensures { OnOk result (text.new.items ≡ text.old.items ++ when_text steps) }
{
    if steps == 0 {
        text.extend_from_slice(b"at the start")
    } else {
        put_counted(text, b"after step ", steps as u128)
    }
}

// The assertion of a process.
fn put_assertion(text: &mut Vec<u8>, process: u128) -> Result<(), AllocError>
    ensures { OnOk result (text.new.items ≡ text.old.items
        ++ (codes "assertion of " ++ process_text process)) }
{
    text.extend_from_slice(b"assertion of ")?;
    put_process(text, process)
}

// Which assertion is false.
fn put_wrong(text: &mut Vec<u8>, main: usize, wrong: Wrong) -> Result<(), AllocError>
    ensures { OnOk result (text.new.items ≡ text.old.items ++ wrong_text main wrong) }
{
    match wrong {
        Wrong::Assertion(p) => put_assertion(text, printed_number(main, p)),
        Wrong::Post => text.extend_from_slice(b"postcondition"),
        Wrong::Overflow(_) | Wrong::Stuck => Ok(()),
    }
}

/// The line that says which assertion is false after this many steps.
pub(crate) fn note_line(
    alloc: Global,
    source: &[u8],
    main: usize,
    wrong: Wrong,
    place: Option<u32>,
    steps: usize,
) -> Result<Vec<u8>, AllocError>
    requires { length source.now ≤ 2 ^ 20 }
    ensures { IfOk result (λ t. t.items ≡ note_line source.now main wrong place steps) }
{
    let places = Places::new(alloc, source)?;
    let mut text = Vec::from_slice(alloc, b"run: the ")?;
    put_wrong(&mut text, main, wrong)?;
    put_place(&mut text, &places, place)?;
    text.extend_from_slice(b" is false ")?;
    put_when(&mut text, steps)?;
    text.extend_from_slice(b"\n")?;
    Ok(text)
}

// That there is no such process.
fn put_no_process(text: &mut Vec<u8>, process: u32) -> Result<(), AllocError>
    ensures { OnOk result (text.new.items ≡ text.old.items ++ no_process_text process) }
{
    if process == 0 {
        text.extend_from_slice(b"there is no main process")
    } else {
        put_counted(text, b"there is no process ", u128::from(process))
    }
}

// What has not begun.
fn put_early(text: &mut Vec<u8>, process: u32) -> Result<(), AllocError>
    ensures { OnOk result (text.new.items ≡ text.old.items ++ early_text process) }
{
    if process == 0 {
        text.extend_from_slice(b"the epilogue")
    } else {
        put_counted(text, b"process ", u128::from(process))
    }
}

// What a process does, and where.
fn put_standing(
    text: &mut Vec<u8>,
    places: &Places,
    process: u32,
    words: &[u8],
    place: Option<u32>,
) -> Result<(), AllocError>
    ensures { OnOk result (text.new.items ≡ text.old.items
        ++ (process_text process ++ (words.now ++ place_text places.now place))) }
{
    put_process(text, u128::from(process))?;
    text.extend_from_slice(words)?;
    put_place(text, places, place)
}

// Why a process has no step.
fn put_hindrance(
    text: &mut Vec<u8>,
    places: &Places,
    process: u32,
    why: Hindrance,
    place: Option<u32>,
) -> Result<(), AllocError>
    ensures { OnOk result (text.new.items ≡ text.old.items
        ++ hindrance_text places.now process why place) }
{
    match why {
        Hindrance::NoProcess => put_no_process(text, process),
        Hindrance::Ended => {
            put_process(text, u128::from(process))?;
            text.extend_from_slice(b" has ended")
        }
        Hindrance::Stuck => text.extend_from_slice(b"the program is stuck"),
        Hindrance::Early => {
            put_early(text, process)?;
            text.extend_from_slice(b" has not begun")
        }
        Hindrance::Waits => put_standing(text, places, process, b" waits", place),
        Hindrance::Overflow => put_standing(text, places, process, b" overflows", place),
    }
}

/// The line that says that the step after this many steps of a schedule cannot be made.
pub(crate) fn not_made_line(
    alloc: Global,
    source: &[u8],
    steps: usize,
    process: u32,
    why: Hindrance,
    place: Option<u32>,
) -> Result<Vec<u8>, AllocError>
    requires { length source.now ≤ 2 ^ 20 }
    ensures { IfOk result (λ t. t.items ≡ not_made_line source.now steps process why place) }
{
    let places = Places::new(alloc, source)?;
    let mut text = Vec::from_slice(alloc, b"run: step ")?;
    put_number(&mut text, steps as u128 + 1)?;
    text.extend_from_slice(b" of the schedule cannot be made: ")?;
    put_hindrance(&mut text, &places, process, why, place)?;
    text.extend_from_slice(b"\n")?;
    Ok(text)
}
