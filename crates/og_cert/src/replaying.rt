//! Replay: each line of a certificate is checked over the facts that are held there.

ghost use Rattle.std.specs.Prelude.{◌≡◌, ◌+◌, ◌++◌, ◌∷◌, [], map, take, length, IfOk, IfErr, OnOk, OnErr, IsErrOf, Ok, Err, Result};
ghost use Rattle.og_facts.specs.Facts.{Atom, facts_of};
ghost use Rattle.og_facts.specs.Plain.{plain_fact};
ghost use Rattle.og_cond.specs.Condition as plain;
ghost use Rattle.og_cond.specs.Valid.{IsValid};
ghost use Rattle.og_cert_text.specs.Plain.{plain_cert, plain_finish};
ghost use Rattle.og_cert.specs.declared.fault.ReplayError.TheVariants as errors;
ghost use Rattle.og_cert.specs.declared.fault.CheckError.TheVariants.{Memory};
ghost use Rattle.og_cert.specs.Checks as check;
ghost use Rattle.og_cert.specs.Steps.{stepped, opened, split_for, certs_of};
ghost use Rattle.og_cert.specs.Held.{facts_held};
ghost use Rattle.og_cert.specs.Answer.{IsChecked, located, TakesSteps, Replays, ReplaysParts, IsReplay};

use crate::checks::{check_closing, check_count, combination, cut_at, otherwise};
use crate::fault::{CheckError, FaultKind, ReplayError, ReplayFault};
use crate::held::{Held, check_room, hold_all, hold_made, parts_at};
use og_cert_text::{Cert, CertStep, Finish};
use og_facts::{Fact, FactList};
use og_linear::Form;
use std::alloc::Global;

// The number of the line after this one.
fn line_after(line: u64) -> Result<u64, ReplayError>
    ensures next { IfOk result (λ next. next ≡ line + 1) }
    ensures memory { IfErr result (λ e. e ≡ errors.Memory) }
    ensures last { OnErr result (line ≡ u64.MAX) }
{
    line.checked_add(1).ok_or(ReplayError::Memory)
}

// The result of a check of this line.
fn at_line<T>(line: u64, checked: Result<T, CheckError>) -> Result<T, ReplayError>
    ensures { result ≡ located line checked }
{
    match checked {
        Ok(value) => Ok(value),
        Err(CheckError::Memory) => Err(ReplayError::Memory),
        Err(CheckError::Fault(kind)) => Err(ReplayError::Fault(ReplayFault { kind, step: line })),
    }
}

// Adds the fact that a step makes.
fn take_step(held: &mut Vec<Held>, variables: u32, step: &CertStep) -> Result<(), CheckError>
    ensures added { IsChecked (λ _. facts_held held.new.items) result
        (stepped variables (facts_held held.old.items) step.now) }
    ensures kept { OnOk result (take (length held.old.items) held.new.items ≡ held.old.items) }
{
    let alloc = *held.allocator();
    let form = match step {
        CertStep::Sum(terms) => combination(alloc, variables, held, terms)?,
        CertStep::Cut(number, divisor) => cut_at(alloc, held, *number, *divisor)?,
    };
    check_room(held, 1)?;
    hold_made(held, form)?;
    Ok(())
}

// Adds the facts of the steps from this line on, and returns the line after them.
fn take_steps(
    held: &mut Vec<Held>,
    variables: u32,
    line: u64,
    steps: &[CertStep],
) -> Result<u64, ReplayError>
    ensures taken { TakesSteps line variables (facts_held held.old.items) (facts_held held.new.items)
        steps.now result }
    ensures kept { OnOk result (take (length held.old.items) held.new.items ≡ held.old.items) }
{
    let mut next = line;
    for step in steps {
        at_line(next, take_step(held, variables, step))?;
        next = line_after(next)?;
    }
    Ok(next)
}

// The other form of a branch, where both have room.
fn open_branch(
    alloc: Global,
    variables: u32,
    held: &[Held],
    form: &Form,
) -> Result<Form, CheckError>
    ensures { IsChecked (λ other. other) result (opened variables (facts_held held.now) form.now) }
{
    let other = otherwise(alloc, variables, form)?;
    check_room(held, 1)?;
    Ok(other)
}

// The parts of a split, if there is a certificate for each.
fn open_split<'a, 'c>(
    held: &[Held<'a, 'c>],
    number: u32,
    certs: usize,
) -> Result<&'a [Vec<Fact<'c>>], CheckError>
    ensures opened { IsChecked (λ parts. map (λ p. map plain_fact p.items) parts.now) result
        (split_for (facts_held held.now) number certs) }
    ensures memory { IsErrOf result Memory → ⊥ }
    ensures count { IfOk result (λ parts. length parts.now ≡ certs) }
{
    let parts = parts_at(held, number)?;
    check_count(parts.len(), certs)?;
    Ok(parts)
}

// Replays the lines of a certificate from this one on, and returns the line after them.
#[cycle(replay)]
fn replay_cert<'a, 'c>(
    held: &mut Vec<Held<'a, 'c>>,
    variables: u32,
    line: u64,
    cert: &Cert,
) -> Result<u64, ReplayError>
    ensures replays { Replays line variables (facts_held held.old.items) (plain_cert cert.now)
        result }
    ensures kept { OnOk result (held.new.items ≡ held.old.items) }
{
    let count = held.len();
    let last = take_steps(held, variables, line, &cert.steps)?;
    let next = replay_finish(held, variables, last, &cert.finish)?;
    held.truncate(count);
    Ok(next)
}

#[cycle(replay)]
fn replay_finish<'a, 'c>(
    held: &mut Vec<Held<'a, 'c>>,
    variables: u32,
    line: u64,
    finish: &Finish,
) -> Result<u64, ReplayError>
    ensures replays { Replays line variables (facts_held held.old.items) (plain_finish finish.now)
        result }
    ensures kept { OnOk result (held.new.items ≡ held.old.items) }
{
    let alloc = *held.allocator();
    match finish {
        Finish::Close(terms) => {
            at_line(line, check_closing(alloc, variables, held, terms))?;
            line_after(line)
        }
        Finish::Branch(form, low, high) => {
            let other = at_line(line, open_branch(alloc, variables, held, form))?;
            let first = line_after(line)?;
            let second = replay_with(held, variables, first, form.copy()?, low)?;
            replay_with(held, variables, second, other, high)
        }
        Finish::Split(number, certs) => {
            let parts = at_line(line, open_split(held, *number, certs.len()))?;
            replay_parts(held, variables, line, certs, parts)
        }
    }
}

// Replays a certificate with one fact more.
#[cycle(replay)]
fn replay_with<'a, 'c>(
    held: &mut Vec<Held<'a, 'c>>,
    variables: u32,
    line: u64,
    form: Form,
    cert: &Cert,
) -> Result<u64, ReplayError>
    ensures replays { Replays line variables (facts_held held.old.items ++ Atom form ∷ [])
        (plain_cert cert.now) result }
    ensures kept { OnOk result (held.new.items ≡ held.old.items) }
{
    let count = held.len();
    hold_made(held, form)?;
    let next = replay_cert(held, variables, line, cert)?;
    held.truncate(count);
    Ok(next)
}

// Replays a certificate with the facts of a part.
#[cycle(replay)]
fn replay_part<'a, 'c>(
    held: &mut Vec<Held<'a, 'c>>,
    variables: u32,
    line: u64,
    cert: &Cert,
    part: &'a [Fact<'c>],
) -> Result<u64, ReplayError>
    ensures replays { Replays line variables (facts_held held.old.items ++ map plain_fact part.now)
        (plain_cert cert.now) result }
    ensures kept { OnOk result (held.new.items ≡ held.old.items) }
{
    let count = held.len();
    hold_all(held, part)?;
    let next = replay_cert(held, variables, line, cert)?;
    held.truncate(count);
    Ok(next)
}

// Replays the certificates of a split at this line, each with the facts of its part.
#[cycle(replay)]
fn replay_parts<'a, 'c>(
    held: &mut Vec<Held<'a, 'c>>,
    variables: u32,
    line: u64,
    certs: &[Cert],
    parts: &'a [Vec<Fact<'c>>],
) -> Result<u64, ReplayError>
    requires { length parts.now ≡ length certs.now }
    ensures replays { ReplaysParts line variables (facts_held held.old.items)
        (map (λ p. map plain_fact p.items) parts.now) (certs_of certs.now) result }
    ensures kept { OnOk result (held.new.items ≡ held.old.items) }
{
    let mut next = line_after(line)?;
    for index in 0..certs.len() {
        let part = parts[index].as_slice();
        at_line(line, room_for(held, part.len()))?;
        next = replay_part(held, variables, next, &certs[index], part)?;
    }
    Ok(next)
}

fn room_for(held: &[Held], more: usize) -> Result<(), CheckError>
    ensures room { IsChecked (λ done. done) result (check.room (facts_held held.now) more) }
    ensures memory { IsErrOf result Memory → ⊥ }
{
    check_room(held, more)?;
    Ok(())
}

/// Replays a certificate over the facts of a condition: whether it closes them.
///
/// Then the condition is true in every state of `i64` values. The facts are as they were, and
/// memory is taken only for the facts that the certificate adds, in any branch at one time.
///
/// # Errors
///
/// `Fault` exactly where the certificate does not close the facts: the first fault in the order of
/// its lines. In one line the terms come in their order, and then NoSuchFact, NotAtom, NotSplit,
/// NotDivisible, TooLarge, LeftOver, NotClosed and TooManyFacts. `Memory` where an allocation was
/// refused.
pub fn replay(alloc: Global, facts: &FactList, cert: &Cert) -> Result<(), ReplayError>
    ensures answer { IsReplay facts.now.variables facts.now.facts (plain_cert cert.now) result }
    ensures sound { OnOk result ((c : plain.Condition) → facts_of c ≡ Ok facts.now.facts
        → IsValid c) }
{
    let mut held = Vec::with_capacity(alloc, facts.as_slice().len())?;
    hold_all(&mut held, facts.as_slice())?;
    replay_cert(&mut held, facts.variables(), 1, cert)?;
    Ok(())
}
