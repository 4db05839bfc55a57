//! Programs.

ghost use Rattle.std.specs.Prelude.{◌≡◌, ◌<◌, IfOk, IfSome, length, map, option_map};
ghost use Rattle.std.specs.List.{AllByRecursion};
ghost use Rattle.og_erase.specs.Collected as collected;
ghost use Rattle.og_parse.specs.TreeOf.{seq_of, seqs_of, tree_of};
ghost use Rattle.og_typed.specs.Plain as plain;
ghost use Rattle.og_typed.specs.Rule.{IsUsableSequence};

use crate::assertions::note;
use crate::forms::{NOWHERE, named};
use crate::statements::sequence;
use og_parse::{Raw, RawName, RawProcesses, RawSeq};
use og_text::Name;
use og_typed::{Outline, Seq};
use std::alloc::{AllocError, Global};
use std::marker::Model;

/// An outline without auxiliary variables. Contracts see it as that outline.
#[derive(Drop)]
pub struct Program {
    pub(crate) outline: Outline,
}

impl Model for Program {
    ghost use Rattle.std.specs.Prelude.{◌≡◌, []};
    ghost use Rattle.og_typed.specs.Syntax as syntax;
    ghost use Rattle.og_typed.specs.Codes.{program_code};

    ghost Value = { syntax.Program };

    ghost coded = { program_code };

    ghost view = { λ p. p.outline };

    ghost invariant = { λ p. p.outline.aux_values ≡ [] };
}

fn declared(alloc: Global, names: &[Name]) -> Result<Vec<RawName>, AllocError>
    ensures { IfOk result (λ v. v.items ≡ map collected.named names.now) }
{
    let mut declared = Vec::new(alloc);
    for name in names {
        declared.push(named(alloc, name)?)?;
    }
    Ok(declared)
}

// A part of the main process, where there is one.
fn part(alloc: Global, names: &[Name], whole: Option<&Seq>) -> Result<Option<RawSeq>, AllocError>
    requires { IfSome (option_map (λ seq. plain.sequence seq.now) whole)
        (IsUsableSequence (length names.now)) }
    ensures { IfOk result (λ q. option_map seq_of q
        ≡ option_map (collected.sequence names.now) (option_map (λ seq. plain.sequence seq.now) whole.entry)) }
{
    match whole {
        None => Ok(None),
        Some(seq) => Ok(Some(sequence(alloc, names, seq)?)),
    }
}

fn sequences(alloc: Global, names: &[Name], all: &[Seq]) -> Result<Vec<RawSeq>, AllocError>
    requires { AllByRecursion (IsUsableSequence (length names.now)) (map plain.sequence all.now) }
    ensures { IfOk result (λ v.
        map seq_of v.items ≡ map (collected.sequence names.now) (map plain.sequence all.now)) }
{
    let mut sequences = Vec::new(alloc);
    for process in all {
        sequences.push(sequence(alloc, names, process)?)?;
    }
    Ok(sequences)
}

fn processes(alloc: Global, names: &[Name], all: &[Seq]) -> Result<RawProcesses, AllocError>
    requires some { 0 < length all.now }
    requires usable { AllByRecursion (IsUsableSequence (length names.now))
        (map plain.sequence all.now) }
    ensures { IfOk result (λ p.
        seqs_of p ≡ map (collected.sequence names.now) (map plain.sequence all.now)) }
{
    match all {
        [first, others @ ..] => Ok(RawProcesses {
            first: sequence(alloc, names, first)?,
            others: sequences(alloc, names, others)?,
        }),
        [] => unreachable!(),
    }
}

// What stands before the processes, the processes, and what stands after them.
#[derive(Drop)]
struct Main {
    prologue: Option<RawSeq>,
    processes: RawProcesses,
    epilogue: Option<RawSeq>,
}

fn main_part(alloc: Global, outline: &Outline) -> Result<Main, AllocError>
    ensures prologue { IfOk result (λ m. option_map seq_of m.prologue
        ≡ option_map (collected.sequence outline.now.names) outline.now.prologue) }
    ensures processes { IfOk result (λ m. seqs_of m.processes
        ≡ map (collected.sequence outline.now.names) outline.now.processes) }
    ensures epilogue { IfOk result (λ m. option_map seq_of m.epilogue
        ≡ option_map (collected.sequence outline.now.names) outline.now.epilogue) }
{
    outline.follows_rule();
    let names = outline.names();
    let prologue = part(alloc, names, outline.prologue())?;
    let processes = processes(alloc, names, outline.processes())?;
    let epilogue = part(alloc, names, outline.epilogue())?;
    Ok(Main {
        prologue,
        processes,
        epilogue,
    })
}

impl Program {
    /// The program as an outline: its precondition and postcondition are those of the outline that
    /// it was made of, and every other assertion is `true`. Takes no memory.
    pub fn outline(&self) -> &Outline
        ensures { result.now ≡ self.now }
    {
        &self.outline
    }

    /// The program as a tree, to be printed. An expression is in collected form: its terms in the
    /// order of the variables, and then the constant, unless it is 0 and there are terms. A
    /// relation is its form, the sign and 0. Every span is `0..0`.
    ///
    /// # Errors
    ///
    /// Only where an allocation was refused.
    pub fn raw(&self, alloc: Global) -> Result<Raw, AllocError>
        ensures { IfOk result (λ raw. tree_of raw ≡ collected.raw_of self.now) }
    {
        let outline = &self.outline;
        outline.follows_rule();
        let names = outline.names();
        let vars = declared(alloc, names)?;
        let pre = note(alloc, names, outline.pre())?;
        let post = note(alloc, names, outline.post())?;
        let main = main_part(alloc, outline)?;
        Ok(Raw {
            vars,
            auxes: Vec::new(alloc),
            pre,
            prologue: main.prologue,
            cobegin: NOWHERE,
            processes: main.processes,
            epilogue: main.epilogue,
            post,
        })
    }
}
