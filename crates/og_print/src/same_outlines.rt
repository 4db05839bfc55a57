//! Comparing outlines.

ghost use Rattle.std.specs.Prelude.{◌≡◌, true, map, option_map};
ghost use Rattle.og_parse.specs.TreeOf.{seq_of, seqs_of, tree_of};
ghost use Rattle.og_print.specs.Plain.{plain, plain_aux, plain_name, plain_seq};

use crate::same_assertions::same_note;
use crate::same_statements::same_sequence;
use crate::same_sums::same_name;
use og_parse::{Raw, RawAux, RawName, RawProcesses, RawSeq};

fn same_names(one: &[RawName], other: &[RawName]) -> bool
    ensures { result ≡ true → map plain_name one.now ≡ map plain_name other.now }
{
    if one.len() != other.len() {
        return false;
    }
    for (i, a) in one.iter().enumerate() {
        if !same_name(a, &other[i]) {
            return false;
        }
    }
    true
}

fn same_auxiliary(one: &RawAux, other: &RawAux) -> bool
    ensures { result ≡ true → plain_aux one.now ≡ plain_aux other.now }
{
    same_name(&one.name, &other.name)
        && one.value.sign == other.value.sign
        && one.value.number == other.value.number
}

fn same_auxiliaries(one: &[RawAux], other: &[RawAux]) -> bool
    ensures { result ≡ true → map plain_aux one.now ≡ map plain_aux other.now }
{
    if one.len() != other.len() {
        return false;
    }
    for (i, a) in one.iter().enumerate() {
        if !same_auxiliary(a, &other[i]) {
            return false;
        }
    }
    true
}

fn same_main(one: &Option<RawSeq>, other: &Option<RawSeq>) -> bool
    ensures { result ≡ true → option_map plain_seq (option_map seq_of one.now)
        ≡ option_map plain_seq (option_map seq_of other.now) }
{
    match (one, other) {
        (None, None) => true,
        (Some(a), Some(b)) => same_sequence(a, b),
        _ => false,
    }
}

fn same_sequences(one: &[RawSeq], other: &[RawSeq]) -> bool
    ensures { result ≡ true → map plain_seq (map seq_of one.now)
        ≡ map plain_seq (map seq_of other.now) }
{
    if one.len() != other.len() {
        return false;
    }
    for (i, a) in one.iter().enumerate() {
        if !same_sequence(a, &other[i]) {
            return false;
        }
    }
    true
}

fn same_processes(one: &RawProcesses, other: &RawProcesses) -> bool
    ensures { result ≡ true → map plain_seq (seqs_of one.now) ≡ map plain_seq (seqs_of other.now) }
{
    same_sequence(&one.first, &other.first) && same_sequences(&one.others, &other.others)
}

/// Whether two trees are the same apart from their places. It takes no memory.
pub fn same_tree(one: &Raw, other: &Raw) -> bool
    ensures { result ≡ true → plain (tree_of one.now) ≡ plain (tree_of other.now) }
{
    same_names(&one.vars, &other.vars)
        && same_auxiliaries(&one.auxes, &other.auxes)
        && same_note(&one.pre, &other.pre)
        && same_main(&one.prologue, &other.prologue)
        && same_processes(&one.processes, &other.processes)
        && same_main(&one.epilogue, &other.epilogue)
        && same_note(&one.post, &other.post)
}
