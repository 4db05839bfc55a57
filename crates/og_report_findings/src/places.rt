//! The lines of those that are false from the cause of the condition before them.

ghost use Rattle.std.specs.Prelude.{◌≡◌, ◌+◌, ◌++◌, codes, map, IfOk, OnOk};
ghost use Rattle.og_report_findings.specs.Causes.{item_of};
ghost use Rattle.og_report_findings.specs.Alike.{owner_of, other_of, others_of, places_of, number_of_part, part_with, places_from, places_text, assertions_word, process_line, process_lines, alike_lines};

use crate::shown::Item;
use og_report_explain::{Actors, Fault};
use og_report_prove::{Diagnosis, put_part};
use og_report_text::{Origins, put_number_between};
use og_typed::Part;
use std::alloc::{AllocError, Global};

/// At most how many places are printed.
const MOST_PLACES: usize = 8;

// An assertion by its byte offset, and the number of the process whose it is; the main process has
// the one after the last.
#[derive(Clone, Copy)]
struct Other {
    process: u32,
    at: u32,
}

// The number of the process of a part.
fn number_of_part(main: u32, part: Option<Part>) -> u32
    ensures { result ≡ number_of_part main part }
{
    match part {
        Some(Part::Process(number)) => number,
        _ => main,
    }
}

// Whose assertion is false.
fn owner_of(actors: &Actors) -> Option<Part>
    ensures { result ≡ owner_of actors.now.other actors.now.actor }
{
    match actors.other {
        Some(part) => Some(part),
        None => actors.actor,
    }
}

// The assertion that is false.
fn other_of(main: u32, diagnosis: &Diagnosis) -> Option<Other>
    ensures { result ≡ other_of main diagnosis.now }
{
    let Diagnosis::False(block) = diagnosis else {
        return None;
    };
    let Fault::False(note, _) = &block.details.explanation.fault else {
        return None;
    };
    let process = number_of_part(main, owner_of(&block.details.actors));
    let at = note.at;
    Some(Other { process, at })
}

// The assertions that are false.
fn others_of(alloc: Global, main: u32, items: &[Item]) -> Result<Vec<Other>, AllocError>
    ensures { IfOk result (λ v. v.items ≡ others_of main (map item_of items.now)) }
{
    let mut others = Vec::new(alloc);
    for item in items {
        if let Some(other) = other_of(main, item.entry.diagnosis) {
            others.push(other)?;
        }
    }
    Ok(others)
}

// Those of a process.
fn places_of(alloc: Global, process: u32, others: &[Other]) -> Result<Vec<u32>, AllocError>
    ensures { IfOk result (λ v. v.items ≡ places_of process others.now) }
{
    let mut places = Vec::new(alloc);
    for other in others {
        if other.process == process {
            places.push(other.at)?;
        }
    }
    Ok(places)
}

// These places, with a comma between two.
fn put_each(text: &mut Vec<u8>, origins: &Origins, places: &[u32]) -> Result<(), AllocError>
    requires { origins.now.places.now ≡ origins.now.source.now }
    ensures { OnOk result (text.new.items ≡ text.old.items
        ++ places_from origins.now.source.now origins.now.rows (codes ": ") places.now) }
{
    let mut between: &[u8] = b": ";
    for at in places {
        text.extend_from_slice(between)?;
        origins.put_place(text, *at)?;
        between = b", ";
    }
    Ok(())
}

// The first places, and that there are more.
fn put_places(text: &mut Vec<u8>, origins: &Origins, places: &[u32]) -> Result<(), AllocError>
    requires { origins.now.places.now ≡ origins.now.source.now }
    ensures { OnOk result (text.new.items ≡ text.old.items
        ++ places_text origins.now.source.now origins.now.rows places.now) }
{
    let shown = places.get(..MOST_PLACES).unwrap_or(places);
    put_each(text, origins, shown)?;
    if places.len() > MOST_PLACES {
        return text.extend_from_slice(b", ..");
    }
    Ok(())
}

// One assertion, or several.
fn assertions_word(count: usize) -> &'static [u8]
    ensures { result.now ≡ assertions_word count }
{
    if count == 1 {
        b" more assertion of "
    } else {
        b" more assertions of "
    }
}

// The line of the assertions of a process, if there are any.
fn put_process_line(
    text: &mut Vec<u8>,
    origins: &Origins,
    part: Part,
    places: &[u32],
) -> Result<(), AllocError>
    requires { origins.now.places.now ≡ origins.now.source.now }
    ensures { OnOk result (text.new.items ≡ text.old.items
        ++ process_line origins.now.source.now origins.now.rows part places.now) }
{
    if places.is_empty() {
        return Ok(());
    }
    let count = places.len();
    put_number_between(text, b"  and ", count as u128, assertions_word(count))?;
    put_part(text, false, part)?;
    put_places(text, origins, places)?;
    text.extend_from_slice(b"\n")
}

// The part with this number among so many processes.
fn part_with(main: u32, number: u32) -> Part
    ensures { result ≡ part_with main number }
{
    if number == main {
        Part::Epilogue
    } else {
        Part::Process(number)
    }
}

// The line of the assertions of the process with this number, if there are any.
fn put_process(
    text: &mut Vec<u8>,
    origins: &Origins,
    main: u32,
    number: u32,
    others: &[Other],
) -> Result<(), AllocError>
    requires { origins.now.places.now ≡ origins.now.source.now }
    ensures { OnOk result (text.new.items ≡ text.old.items ++ process_line origins.now.source.now
        origins.now.rows (part_with main number) (places_of number others.now)) }
{
    let places = places_of(*text.allocator(), number, others)?;
    put_process_line(text, origins, part_with(main, number), &places)
}

// The lines of the assertions of all processes, and of the main process.
fn put_processes(
    text: &mut Vec<u8>,
    origins: &Origins,
    main: u32,
    others: &[Other],
) -> Result<(), AllocError>
    requires { origins.now.places.now ≡ origins.now.source.now }
    ensures { OnOk result (text.new.items ≡ text.old.items ++ process_lines origins.now.source.now
        origins.now.rows main others.now 0 (main + 1)) }
{
    for number in 0..main {
        put_process(text, origins, main, number, others)?;
    }
    put_process(text, origins, main, main, others)
}

/// Adds a line for each process with assertions that are false from the same cause, in the order of
/// the processes, of which there are `main`.
///
/// # Errors
///
/// An allocation was refused; the text has what it had, and perhaps a part of this.
pub(crate) fn put_alike(
    text: &mut Vec<u8>,
    origins: &Origins,
    main: u32,
    items: &[Item],
) -> Result<(), AllocError>
    requires { origins.now.places.now ≡ origins.now.source.now }
    ensures { OnOk result (text.new.items ≡ text.old.items
        ++ alike_lines origins.now.source.now origins.now.rows main (map item_of items.now)) }
{
    if items.is_empty() {
        return Ok(());
    }
    let others = others_of(*text.allocator(), main, items)?;
    put_processes(text, origins, main, &others)
}
