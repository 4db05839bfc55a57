//! Comparing statements.

ghost use Rattle.std.specs.Prelude.{◌≡◌, true, map, option_map};
ghost use Rattle.og_parse.specs.Trees.{finish};
ghost use Rattle.og_parse.specs.TreeOf.{note_of, basic_of, element_of, item_of, stmt_of, seq_of, items_then};
ghost use Rattle.og_print.specs.Plain.{placed, plain_basic, plain_note, plain_seq, plain_stmt};

use crate::same_assertions::{same_assertion, same_note};
use crate::same_sums::{same_name, same_sum};
use og_parse::{RawBasic, RawElement, RawItem, RawNote, RawSeq, RawStmt};

fn same_basic(one: &RawBasic, other: &RawBasic) -> bool
    ensures { result ≡ true → plain_basic (basic_of one.now) ≡ plain_basic (basic_of other.now) }
{
    match (one, other) {
        (RawBasic::Skip, RawBasic::Skip) => true,
        (RawBasic::Assign(x, a), RawBasic::Assign(y, b)) => same_name(x, y) && same_sum(a, b),
        _ => false,
    }
}

fn same_elements(one: &[RawElement], other: &[RawElement]) -> bool
    ensures { result ≡ true → map (placed plain_basic) (map element_of one.now)
        ≡ map (placed plain_basic) (map element_of other.now) }
{
    if one.len() != other.len() {
        return false;
    }
    for (i, a) in one.iter().enumerate() {
        if !same_basic(&a.basic, &other[i].basic) {
            return false;
        }
    }
    true
}

#[cycle(sequences)]
fn same_statement(one: &RawStmt, other: &RawStmt) -> bool
    ensures { result ≡ true → plain_stmt (stmt_of one.now) ≡ plain_stmt (stmt_of other.now) }
{
    match (one, other) {
        (RawStmt::Basic(a), RawStmt::Basic(b)) => same_basic(a, b),
        (RawStmt::If(p, a, None), RawStmt::If(q, b, None)) => {
            same_assertion(p, q) && same_sequence(a, b)
        }
        (RawStmt::If(p, a, Some(c)), RawStmt::If(q, b, Some(d))) => {
            same_assertion(p, q) && same_sequence(a, b) && same_sequence(c, d)
        }
        (RawStmt::While(p, a), RawStmt::While(q, b)) => same_assertion(p, q) && same_sequence(a, b),
        (RawStmt::Await(p, a), RawStmt::Await(q, b)) => same_assertion(p, q) && same_elements(a, b),
        _ => false,
    }
}

// A statement, and the assertion before it.
#[cycle(sequences)]
fn same_item(one: &RawItem, other: &RawItem) -> bool
    ensures before { result ≡ true → plain_note (item_of one.now).before
        ≡ plain_note (item_of other.now).before }
    ensures stmt { result ≡ true → plain_stmt (item_of one.now).stmt
        ≡ plain_stmt (item_of other.now).stmt }
{
    same_note(&one.before, &other.before) && same_statement(&one.stmt, &other.stmt)
}

// Sequences of these statements and these last assertions.
#[cycle(sequences)]
fn same_items(one: &[RawItem], last: &RawNote, other: &[RawItem], other_last: &RawNote) -> bool
    ensures { result ≡ true → plain_seq (items_then (map item_of one.now)
        (finish (note_of last.now)))
        ≡ plain_seq (items_then (map item_of other.now) (finish (note_of other_last.now))) }
{
    if one.len() != other.len() {
        return false;
    }
    for (i, a) in one.iter().enumerate() {
        if !same_item(a, &other[i]) {
            return false;
        }
    }
    same_note(last, other_last)
}

#[cycle(sequences)]
pub(crate) fn same_sequence(one: &RawSeq, other: &RawSeq) -> bool
    ensures { result ≡ true → plain_seq (seq_of one.now) ≡ plain_seq (seq_of other.now) }
{
    same_items(&one.items, &one.last, &other.items, &other.last)
}
