//! The lines of steps with more than one access to variables that other processes use.

ghost use Rattle.std.specs.Prelude.{◌≡◌, ◌++◌, IfOk, OnOk};
ghost use Rattle.og_typed.specs.Plain.{statement};
ghost use Rattle.og_review_text.specs.Accesses as line;
ghost use Rattle.og_review_text.specs.Seen.{step_of, steps_of, AreAccesses};

use crate::idioms::{Idiom, idiom_of};
use crate::steps::{Access, accessed};
use crate::walk::Step;
use og_report_text::{Origins, put_names};
use og_text::Name;
use og_typed::{Outline, Stmt};
use std::alloc::{AllocError, Global};

impl Idiom {
    // Its name, in parentheses.
    fn name(self) -> &'static str
        ensures { result.now ≡ line.idiom_text self }
    {
        match self {
            Idiom::FetchAndAdd => " (fetch and add)",
            Idiom::TestAndSet => " (test and set)",
            Idiom::Swap => " (swap)",
            Idiom::CompareAndSwap => " (compare and swap)",
        }
    }
}

impl Access {
    // The word for it.
    fn word(self) -> &'static str
        ensures { result.now ≡ line.access_text self }
    {
        match self {
            Access::ReadsAndWrites => "reads and writes ",
            Access::Reads => "reads ",
            Access::Writes => "writes ",
        }
    }
}

/// The variables that other processes use and a step both reads and writes, reads alone, and writes
/// alone.
#[derive(Drop)]
struct Accesses {
    both: Vec<u32>,
    reads: Vec<u32>,
    writes: Vec<u32>,
}

impl Accesses {
    // Whether they are at most one access: a read, or a write.
    fn are_one(&self) -> bool
        ensures { result ≡ line.are_one self.now.both.items self.now.reads.items self.now.writes.items }
    {
        self.both.is_empty() && self.reads.len() + self.writes.len() < 2
    }
}

// What is done with variables, behind what was told before.
fn put_access(
    text: &mut Vec<u8>,
    names: &[Name],
    is_first: bool,
    access: Access,
    vars: &[u32],
) -> Result<(), AllocError>
    ensures { OnOk result (text.new.items ≡ text.old.items
        ++ line.access_part names.now is_first access vars.now) }
{
    if vars.is_empty() {
        return Ok(());
    }
    if is_first {
        text.extend_from_slice(b" ")?;
    } else {
        text.extend_from_slice(b"; ")?;
    }
    text.extend_from_slice(access.word().as_bytes())?;
    put_names(text, names, vars)
}

// What is done with all variables.
fn put_accesses(text: &mut Vec<u8>, names: &[Name], accesses: &Accesses) -> Result<(), AllocError>
    ensures { OnOk result (text.new.items ≡ text.old.items ++ line.accesses_text names.now
        accesses.now.both.items accesses.now.reads.items accesses.now.writes.items) }
{
    let is_first = accesses.both.is_empty();
    let are_first = is_first && accesses.reads.is_empty();
    put_access(text, names, true, Access::ReadsAndWrites, &accesses.both)?;
    put_access(text, names, is_first, Access::Reads, &accesses.reads)?;
    put_access(text, names, are_first, Access::Writes, &accesses.writes)
}

// The name of the idiom that a step is, where it is one.
fn put_idiom(
    text: &mut Vec<u8>,
    vars: u32,
    accesses: &Accesses,
    stmt: &Stmt,
) -> Result<(), AllocError>
    ensures { OnOk result (text.new.items ≡ text.old.items ++ line.idiom_part vars
        accesses.now.both.items accesses.now.reads.items accesses.now.writes.items
        (statement stmt.now)) }
{
    if !(accesses.reads.is_empty() && accesses.writes.is_empty()) {
        return Ok(());
    }
    match idiom_of(*text.allocator(), vars, &accesses.both, stmt)? {
        Some(idiom) => text.extend_from_slice(idiom.name().as_bytes()),
        None => Ok(()),
    }
}

// The line of a step with these accesses, where they are more than one.
fn put_step(
    text: &mut Vec<u8>,
    origins: &Origins,
    outline: &Outline,
    step: &Step,
    accesses: &Accesses,
) -> Result<(), AllocError>
    requires { origins.now.places.now ≡ origins.now.source.now }
    ensures { OnOk result (text.new.items ≡ text.old.items ++ line.accesses_line
        origins.now.source.now origins.now.rows outline.now.names outline.now.vars
        (step_of step.now)
        accesses.now.both.items accesses.now.reads.items accesses.now.writes.items) }
{
    if accesses.are_one() {
        return Ok(());
    }
    text.extend_from_slice(b"step at ")?;
    origins.put_place(text, step.item.at)?;
    put_accesses(text, outline.names(), accesses)?;
    put_idiom(text, outline.vars(), accesses, &step.item.stmt)?;
    text.extend_from_slice(b"\n")
}

// The accesses of a step.
fn accesses_of(
    alloc: Global,
    steps: &[Step],
    step: &Step,
    vars: u32,
) -> Result<Accesses, AllocError>
    ensures { IfOk result (AreAccesses (steps_of steps.now) vars (step_of step.now)) }
{
    let both = accessed(alloc, steps, step, Access::ReadsAndWrites, vars)?;
    let reads = accessed(alloc, steps, step, Access::Reads, vars)?;
    let writes = accessed(alloc, steps, step, Access::Writes, vars)?;
    Ok(Accesses {
        both,
        reads,
        writes,
    })
}

/// Adds a line to the text for each step of an outline that makes more than one access to variables
/// which other processes use: what it reads and writes, and the instruction that it may be. The steps
/// are all of the outline, and the places are those of the source.
///
/// # Errors
///
/// An allocation was refused; the text has what it had, and perhaps some of these lines.
pub fn put_steps(
    text: &mut Vec<u8>,
    origins: &Origins,
    outline: &Outline,
    steps: &[Step],
) -> Result<(), AllocError>
    requires { origins.now.places.now ≡ origins.now.source.now }
    ensures { OnOk result (text.new.items ≡ text.old.items
        ++ line.step_lines origins.now.source.now origins.now.rows outline.now.names
        outline.now.vars (steps_of steps.now)) }
{
    let alloc = *text.allocator();
    for step in steps {
        let accesses = accesses_of(alloc, steps, step, outline.vars())?;
        put_step(text, origins, outline, step, &accesses)?;
    }
    Ok(())
}
