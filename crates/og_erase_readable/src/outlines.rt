//! Outlines with readable relations.

ghost use Rattle.std.specs.Prelude.{◌≡◌, IfOk, map, option_map, Ok};
ghost use Rattle.og_erase.specs.Collected.{raw_of};
ghost use Rattle.og_parse.specs.TreeOf.{seq_of, seqs_of, tree_of};
ghost use Rattle.og_print.specs.Print.{program_text};
ghost use Rattle.og_erase_readable.specs.Readable as wanted;
ghost use Rattle.og_typed.specs.Resolved.{resolved};
ghost use Rattle.og_typed.specs.Syntax as typed;

use crate::assertions::note;
use crate::statements::sequence;
use og_erase::Program;
use og_parse::{Raw, RawProcesses, RawSeq};
use og_print::print_program;
use std::alloc::{AllocError, Global};

// A part of the main process, where there is one.
fn part(alloc: Global, whole: &Option<RawSeq>) -> Result<Option<RawSeq>, AllocError>
    ensures { IfOk result (λ q.
        option_map seq_of q ≡ option_map wanted.readable_seq (option_map seq_of whole.now)) }
{
    match whole {
        None => Ok(None),
        Some(seq) => Ok(Some(sequence(alloc, seq)?)),
    }
}

fn sequences(alloc: Global, all: &[RawSeq]) -> Result<Vec<RawSeq>, AllocError>
    ensures { IfOk result (λ v. map seq_of v.items ≡ map wanted.readable_seq (map seq_of all.now)) }
{
    let mut sequences = Vec::new(alloc);
    for seq in all {
        sequences.push(sequence(alloc, seq)?)?;
    }
    Ok(sequences)
}

fn processes(alloc: Global, all: &RawProcesses) -> Result<RawProcesses, AllocError>
    ensures { IfOk result (λ p. seqs_of p ≡ map wanted.readable_seq (seqs_of all.now)) }
{
    let first = sequence(alloc, &all.first)?;
    let others = sequences(alloc, &all.others)?;
    Ok(RawProcesses { first, others })
}

/// The tree with readable relations. A relation whose right side is 0 gets terms on both sides: the
/// variables that are added stay on the left, the others and the constant go to the right; where
/// none is added, the constant stays. With variables on both sides, `<` stands for `<=` and a last
/// `+ 1`. Every other relation, each order of terms and each place stay. It stands for the outline
/// that the tree stands for.
///
/// # Errors
///
/// Only where an allocation was refused.
#[tactic(auto, using(crate::proofs::Resolve::same_outline))]
pub fn readable(alloc: Global, raw: Raw) -> Result<Raw, AllocError>
    ensures made { IfOk result (λ made. tree_of made ≡ wanted.readable (tree_of raw)) }
    ensures same { (o : typed.Program) → resolved (tree_of raw) ≡ Ok o
        → IfOk result (λ made. resolved (tree_of made) ≡ Ok o) }
{
    let prologue = part(alloc, &raw.prologue)?;
    let processes = processes(alloc, &raw.processes)?;
    let epilogue = part(alloc, &raw.epilogue)?;
    let pre = note(alloc, &raw.pre)?;
    let post = note(alloc, &raw.post)?;
    Ok(Raw {
        vars: raw.vars,
        auxes: raw.auxes,
        pre,
        prologue,
        cobegin: raw.cobegin,
        processes,
        epilogue,
        post,
    })
}

/// The text of a program with readable relations, without assertions, as og_print prints it. What
/// its tree in collected form stands for, this one stands for as well.
///
/// # Errors
///
/// Only where an allocation was refused.
#[tactic(auto, using(crate::proofs::Resolve::same_outline))]
pub fn print_readable(alloc: Global, program: &Program) -> Result<Vec<u8>, AllocError>
    ensures text { IfOk result (λ text.
        text.items ≡ program_text (wanted.readable (raw_of program.now))) }
    ensures same { (o : typed.Program) → resolved (raw_of program.now) ≡ Ok o
        → resolved (wanted.readable (raw_of program.now)) ≡ Ok o }
{
    let collected = program.raw(alloc)?;
    let made = readable(alloc, collected)?;
    print_program(alloc, &made)
}
