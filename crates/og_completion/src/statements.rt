//! The same statements with more assignments and stronger assertions. Takes no memory.

ghost use Rattle.std.specs.Prelude.{◌≡◌, true};
ghost use Rattle.og_typed.specs.Plain.{formula, statement, sequence};
ghost use Rattle.og_completion.specs.Completes.{Implies, SequenceCompletes, StatementCompletes};

use crate::assertions::{is_stronger, same_assertion, same_form};
use crate::bodies::{completes_assignment, completes_body};
use og_typed::{Assert, Item, Seq, Stmt};

#[cycle(statements)]
fn completes_statement(count: u32, new: &Stmt, old: &Stmt) -> bool
    ensures { result ≡ true → StatementCompletes count (statement new.now) (statement old.now) }
{
    match (new, old) {
        (Stmt::Skip, Stmt::Skip) => true,
        (Stmt::Assign(x, form), Stmt::Assign(y, other)) => *x == *y && same_form(form, other),
        (Stmt::Await(Assert::True, body), Stmt::Assign(y, other)) => {
            completes_assignment(count, body, *y, other)
        }
        (Stmt::If(test, then, None), Stmt::If(old_test, old_then, None)) => {
            same_assertion(test, old_test) && completes_sequence(count, then, old_then)
        }
        (Stmt::If(test, then, Some(other)), Stmt::If(old_test, old_then, Some(old_other))) => {
            same_assertion(test, old_test)
                && completes_sequence(count, then, old_then)
                && completes_sequence(count, other, old_other)
        }
        (Stmt::While(test, body), Stmt::While(old_test, old_body)) => {
            same_assertion(test, old_test) && completes_sequence(count, body, old_body)
        }
        (Stmt::Await(guard, body), Stmt::Await(old_guard, old_body)) => {
            same_assertion(guard, old_guard) && completes_body(count, body, old_body)
        }
        _ => false,
    }
}

#[cycle(statements)]
fn completes_item(count: u32, new: &Item, old: &Item) -> bool
    ensures { result ≡ true
        → Implies (formula new.now.before.assertion) (formula old.now.before.assertion)
        × StatementCompletes count (statement new.now.stmt) (statement old.now.stmt) }
{
    is_stronger(&new.before.assertion, &old.before.assertion)
        && completes_statement(count, &new.stmt, &old.stmt)
}

/// Whether the sequences have the same statements, perhaps with more assignments to variables from
/// this number on, and each assertion of the new one is found to be stronger, as by `is_stronger`.
#[cycle(statements)]
pub(crate) fn completes_sequence(count: u32, new: &Seq, old: &Seq) -> bool
    ensures { result ≡ true → SequenceCompletes count (sequence new.now) (sequence old.now) }
{
    let (items, old_items) = (new.items.as_slice(), old.items.as_slice());
    if items.len() != old_items.len() {
        return false;
    }
    for i in 0..items.len() {
        if !completes_item(count, &items[i], &old_items[i]) {
            return false;
        }
    }
    is_stronger(&new.last.assertion, &old.last.assertion)
}
