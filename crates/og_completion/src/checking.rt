//! Whether an outline completes another one. Takes no memory.

ghost use Rattle.std.specs.Prelude.{◌≡◌, ◌++◌, ℕ, ℤ, List, length, true, map, option_map};
ghost use Rattle.og_typed.specs.Plain.{noted, sequence};
ghost use Rattle.og_completion.specs.Completes.{OneByOne, InBoth, SequenceCompletes, Completes};

use crate::assertions::same_assertion;
use crate::statements::completes_sequence;
use og_text::Name;
use og_typed::{Note, Outline, Seq};

fn same_name(a: &Name, b: &Name) -> bool
    ensures { result ≡ true → a.now ≡ b.now }
{
    a.as_slice() == b.as_slice()
}

// Whether the names begin with those of the old outline.
fn begins_with_names(new: &[Name], old: &[Name]) -> bool
    ensures { result ≡ true → (more : List (List ℕ)) × (new.now ≡ old.now ++ more) }
{
    if new.len() < old.len() {
        return false;
    }
    for i in 0..old.len() {
        if !same_name(&new[i], &old[i]) {
            return false;
        }
    }
    true
}

// Whether the initial values begin with those of the old outline.
fn begins_with_values(new: &[i64], old: &[i64]) -> bool
    ensures { result ≡ true → (more : List ℤ) × (new.now ≡ old.now ++ more) }
{
    if new.len() < old.len() {
        return false;
    }
    let (front, _more) = new.split_at(old.len());
    front == old
}

fn same_note(a: &Note, b: &Note) -> bool
    ensures { result ≡ true → (noted a.now).assertion ≡ (noted b.now).assertion }
{
    same_assertion(&a.assertion, &b.assertion)
}

// Whether the precondition is the same, and the postcondition.
fn same_conditions(new: &Outline, old: &Outline) -> bool
    ensures pre { result ≡ true → new.now.pre.assertion ≡ old.now.pre.assertion }
    ensures post { result ≡ true → new.now.post.assertion ≡ old.now.post.assertion }
{
    same_note(new.pre(), old.pre()) && same_note(new.post(), old.post())
}

fn completes_part(count: u32, new: Option<&Seq>, old: Option<&Seq>) -> bool
    ensures { result ≡ true → InBoth (SequenceCompletes count)
        (option_map (λ seq. sequence seq.now) new.entry)
        (option_map (λ seq. sequence seq.now) old.entry) }
{
    match (new, old) {
        (None, None) => true,
        (Some(new), Some(old)) => completes_sequence(count, new, old),
        _ => false,
    }
}

fn completes_processes(count: u32, new: &[Seq], old: &[Seq]) -> bool
    ensures { result ≡ true → OneByOne (SequenceCompletes count) (map sequence new.now)
        (map sequence old.now) }
{
    if new.len() != old.len() {
        return false;
    }
    for i in 0..new.len() {
        if !completes_sequence(count, &new[i], &old[i]) {
            return false;
        }
    }
    true
}

// Whether the processes and what stands before and after them are completed.
fn completes_parts(new: &Outline, old: &Outline) -> bool
    ensures prologue { result ≡ true
        → InBoth (SequenceCompletes (length old.now.names)) new.now.prologue old.now.prologue }
    ensures processes { result ≡ true
        → OneByOne (SequenceCompletes (length old.now.names)) new.now.processes old.now.processes }
    ensures epilogue { result ≡ true
        → InBoth (SequenceCompletes (length old.now.names)) new.now.epilogue old.now.epilogue }
{
    old.follows_rule();
    let count = old.names().len() as u32;
    completes_part(count, new.prologue(), old.prologue())
        && completes_processes(count, new.processes(), old.processes())
        && completes_part(count, new.epilogue(), old.epilogue())
}

/// Whether the new outline completes the old one: it has the same variables, and after them perhaps
/// more auxiliaries; the same initial values and statements, with assignments of numbers to new
/// auxiliaries behind those of an action, which stands in an await for that; an equal precondition
/// and postcondition; and each other assertion is equal to the old one, or begins with its
/// conjuncts, or stands where the old one is `true`. Where the answer is no, it may still be
/// stronger.
pub fn completes(new: &Outline, old: &Outline) -> bool
    ensures { result ≡ true → Completes new.now old.now }
{
    begins_with_names(new.names(), old.names())
        && new.vars() == old.vars()
        && begins_with_values(new.aux_values(), old.aux_values())
        && same_conditions(new, old)
        && completes_parts(new, old)
}
