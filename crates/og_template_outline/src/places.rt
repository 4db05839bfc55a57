//! The places of notes and statements.

use og_parse::{Raw, RawAssert, RawItem, RawNote, RawProcesses, RawSeq, RawStmt};
use std::alloc::{AllocError, Global};

/// A note, a statement or `cobegin` of a tree.
#[derive(Drop)]
pub(crate) struct Part {
    /// Its byte offset.
    pub(crate) at: u32,
    /// That of the first relation of each conjunct of a note, where it has one.
    pub(crate) conjuncts: Vec<Option<u32>>,
}

// The byte offset of the first relation in an assertion.
fn first_relation(assert: &RawAssert) -> Option<u32> {
    match assert {
        RawAssert::True | RawAssert::False => None,
        RawAssert::Compare(left, _, _) => Some(left.span.start),
        RawAssert::Not(inner) => first_relation(inner),
        RawAssert::And(all) | RawAssert::Or(all) => match all.first() {
            Some(first) => first_relation(first),
            None => None,
        },
        RawAssert::Implies(left, _) => first_relation(left),
    }
}

// Adds the conjuncts of an assertion, also those of the conjunctions in it; else the assertion
// alone.
fn add_conjuncts(list: &mut Vec<Option<u32>>, assert: &RawAssert) -> Result<(), AllocError> {
    let RawAssert::And(all) = assert else {
        list.push(first_relation(assert))?;
        return Ok(());
    };
    for inner in all {
        add_conjuncts(list, inner)?;
    }
    Ok(())
}

fn put_note(parts: &mut Vec<Part>, note: &RawNote) -> Result<(), AllocError> {
    let mut conjuncts = Vec::new(*parts.allocator());
    add_conjuncts(&mut conjuncts, &note.assertion)?;
    parts.push(Part {
        at: note.span.start,
        conjuncts,
    })?;
    Ok(())
}

// Adds what has no conjuncts.
fn put_place(parts: &mut Vec<Part>, at: u32) -> Result<(), AllocError> {
    let conjuncts = Vec::new(*parts.allocator());
    parts.push(Part { at, conjuncts })?;
    Ok(())
}

// Adds a statement and the note before it.
#[cycle(places)]
fn put_item(parts: &mut Vec<Part>, item: &RawItem) -> Result<(), AllocError> {
    put_note(parts, &item.before)?;
    put_place(parts, item.span.start)?;
    put_inner(parts, &item.stmt)
}

// Adds those within a statement.
#[cycle(places)]
fn put_inner(parts: &mut Vec<Part>, stmt: &RawStmt) -> Result<(), AllocError> {
    match stmt {
        RawStmt::Basic(_) | RawStmt::Await(_, _) => Ok(()),
        RawStmt::If(_, branch, None) => put_sequence(parts, branch),
        RawStmt::If(_, branch, Some(other)) => {
            put_sequence(parts, branch)?;
            put_sequence(parts, other)
        }
        RawStmt::While(_, body) => put_sequence(parts, body),
    }
}

#[cycle(places)]
fn put_sequence(parts: &mut Vec<Part>, sequence: &RawSeq) -> Result<(), AllocError> {
    for item in &sequence.items {
        put_item(parts, item)?;
    }
    put_note(parts, &sequence.last)
}

fn put_main(parts: &mut Vec<Part>, main: &Option<RawSeq>) -> Result<(), AllocError> {
    match main {
        Some(sequence) => put_sequence(parts, sequence),
        None => Ok(()),
    }
}

fn put_processes(parts: &mut Vec<Part>, processes: &RawProcesses) -> Result<(), AllocError> {
    put_sequence(parts, &processes.first)?;
    for process in &processes.others {
        put_sequence(parts, process)?;
    }
    Ok(())
}

/// The precondition, `cobegin`, each note, each statement outside the bodies of awaits, and the
/// postcondition, in the order of the text.
pub(crate) fn parts(alloc: Global, raw: &Raw) -> Result<Vec<Part>, AllocError> {
    let mut parts = Vec::new(alloc);
    put_note(&mut parts, &raw.pre)?;
    put_main(&mut parts, &raw.prologue)?;
    put_place(&mut parts, raw.cobegin.start)?;
    put_processes(&mut parts, &raw.processes)?;
    put_main(&mut parts, &raw.epilogue)?;
    put_note(&mut parts, &raw.post)?;
    Ok(parts)
}
