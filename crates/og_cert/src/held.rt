//! The facts that a replay holds: those of the condition, and those that the certificate added.

ghost use Rattle.std.specs.Prelude.{◌≡◌, ◌++◌, ◌∷◌, [], map, take, length, OnOk, MatchResult, Ok, Err};
ghost use Rattle.og_facts.specs.Facts as plain;
ghost use Rattle.og_facts.specs.Plain.{plain_fact};
ghost use Rattle.og_cert.specs.Checks as check;
ghost use Rattle.og_cert.specs.Held.{held_fact, facts_held};

use crate::fault::FaultKind;
use og_facts::{Atom, FACT_LIMIT, Fact};
use og_linear::Form;
use std::alloc::{AllocError, Global};

/// A fact that is held.
#[derive(Drop)]
pub(crate) enum Held<'a, 'c> {
    /// A fact of the condition, or of a part of one.
    Given(&'a Fact<'c>),
    /// The form is at most 0.
    Made(Atom<'c>),
}

// These facts, at the end.
pub(crate) fn hold_all<'a, 'c>(
    held: &mut Vec<Held<'a, 'c>>,
    facts: &'a [Fact<'c>],
) -> Result<(), AllocError>
    ensures added { OnOk result (facts_held held.new.items ≡ facts_held held.old.items
        ++ map plain_fact facts.now) }
    ensures kept { OnOk result (take (length held.old.items) held.new.items ≡ held.old.items) }
{
    for fact in facts {
        held.push(Held::Given(fact))?;
    }
    Ok(())
}

// The fact that the form is at most 0, at the end.
pub(crate) fn hold_made(held: &mut Vec<Held>, form: Form) -> Result<(), AllocError>
    ensures added { OnOk result (facts_held held.new.items ≡ facts_held held.old.items
        ++ plain.Atom form ∷ []) }
    ensures kept { OnOk result (take (length held.old.items) held.new.items ≡ held.old.items) }
{
    let atom = Atom::own(*held.allocator(), form)?;
    held.push(Held::Made(atom))?;
    Ok(())
}

// Whether there is room for this many more facts.
pub(crate) fn check_room(held: &[Held], more: usize) -> Result<(), FaultKind>
    ensures { result ≡ check.room (facts_held held.now) more }
{
    match FACT_LIMIT.checked_sub(held.len()) {
        Some(left) if more <= left => Ok(()),
        _ => Err(FaultKind::TooManyFacts),
    }
}

// The fact of this number.
fn fact_at<'h, 'a, 'c>(held: &'h [Held<'a, 'c>], number: u32) -> Result<&'h Held<'a, 'c>, FaultKind>
    ensures { MatchResult result
        (λ fact. check.fact_at (facts_held held.now) number ≡ Ok (held_fact fact.now))
        (λ kind. check.fact_at (facts_held held.now) number ≡ Err kind) }
{
    if number == 0 {
        return Err(FaultKind::NoSuchFact);
    }
    held.get(number as usize - 1).ok_or(FaultKind::NoSuchFact)
}

// The form of the fact of this number.
pub(crate) fn atom_at<'h, 'a, 'c>(
    held: &'h [Held<'a, 'c>],
    number: u32,
) -> Result<&'h Atom<'c>, FaultKind>
    ensures { MatchResult result
        (λ atom. check.atom_at (facts_held held.now) number ≡ Ok atom.now)
        (λ kind. check.atom_at (facts_held held.now) number ≡ Err kind) }
{
    match fact_at(held, number)? {
        Held::Made(atom) => Ok(atom),
        Held::Given(fact) => match *fact {
            Fact::Atom(atom) => Ok(atom),
            Fact::Split(_) => Err(FaultKind::NotAtom),
        },
    }
}

// The parts of the fact of this number.
pub(crate) fn parts_at<'a, 'c>(
    held: &[Held<'a, 'c>],
    number: u32,
) -> Result<&'a [Vec<Fact<'c>>], FaultKind>
    ensures { MatchResult result
        (λ parts. check.parts_at (facts_held held.now) number ≡ Ok (map (λ p. map plain_fact p.items) parts.now))
        (λ kind. check.parts_at (facts_held held.now) number ≡ Err kind) }
{
    match fact_at(held, number)? {
        Held::Made(_) => Err(FaultKind::NotSplit),
        Held::Given(fact) => {
            let fact: &'a Fact<'c> = *fact;
            match fact {
                Fact::Atom(_) => Err(FaultKind::NotSplit),
                Fact::Split(parts) => Ok(parts),
            }
        }
    }
}
