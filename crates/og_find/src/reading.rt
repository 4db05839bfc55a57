//! The facts of a condition as a search takes them.

use crate::truth::NESTING_LIMIT;
use og_cond::Condition;
use og_facts::{Atom, Fact, FactList, FactsError, facts};
use og_search::Part;
use og_search_choices::Chains;
use og_search_rows::{Inequality, last_bits, next_mark};
use std::alloc::{AllocError, Global};

// The inequality as a search takes it.
fn inequality_of(alloc: Global, atom: &Atom) -> Result<Inequality, AllocError> {
    let signed = atom.signed();
    let mut form = Inequality::of_form(alloc, signed.form)?;
    form.constant = atom.offset();
    if signed.is_negated {
        for term in &mut form.terms {
            term.coefficient = term.coefficient.wrapping_neg();
        }
    }
    Ok(form)
}

#[cycle(reading)]
fn read_facts(alloc: Global, facts: &[Fact], depth: u32) -> Result<Part, AllocError> {
    let mut part = Part::new(alloc, facts.len())?;
    for fact in facts {
        match fact {
            Fact::Atom(atom) => part.add_inequality(inequality_of(alloc, atom)?)?,
            Fact::Split(parts) => match depth.checked_sub(1) {
                Some(below) => part.add_choice(read_parts(alloc, parts, below)?)?,
                None => part.add_unread(),
            },
        }
    }
    Ok(part)
}

#[cycle(reading)]
fn read_parts(alloc: Global, parts: &[Vec<Fact>], depth: u32) -> Result<Vec<Part>, AllocError> {
    let mut out = Vec::with_capacity(alloc, parts.len())?;
    for facts in parts {
        out.push(read_facts(alloc, facts, depth)?)?;
    }
    Ok(out)
}

/// The facts as a search begins with them: the choices are left unread.
pub(crate) fn inequalities_of(alloc: Global, list: &FactList) -> Result<Part, AllocError> {
    let facts = list.as_slice();
    let mut part = Part::new(alloc, facts.len())?;
    for fact in facts {
        match fact {
            Fact::Atom(atom) => part.add_inequality(inequality_of(alloc, atom)?)?,
            Fact::Split(_) => part.add_unread(),
        }
    }
    Ok(part)
}

// The mark of a list with an inequality more.
fn mark_with_atom(mark: u64, atom: &Atom) -> u64 {
    let signed = atom.signed();
    let start = next_mark(mark, u64::from(signed.is_negated));
    let mut next = next_mark(start, last_bits(atom.offset()));
    for i in 0..usize::MAX {
        let Some((var, coefficient)) = signed.form.term(i) else {
            break;
        };
        next = next_mark(next_mark(next, u64::from(var)), last_bits(coefficient));
    }
    next
}

// The mark of a list with a fact more, that has this many levels of choices.
#[cycle(marks)]
fn mark_with_fact(mark: u64, fact: &Fact, depth: u32) -> u64 {
    match fact {
        Fact::Atom(atom) => mark_with_atom(mark, atom),
        Fact::Split(parts) => match depth.checked_sub(1) {
            Some(below) => mark_with_parts(mark, parts, below),
            None => mark,
        },
    }
}

// The mark of a list with these parts of a choice more.
#[cycle(marks)]
fn mark_with_parts(mark: u64, parts: &[Vec<Fact>], depth: u32) -> u64 {
    let mut next = next_mark(mark, parts.len() as u64);
    for part in parts {
        next = mark_with_part(next, part, depth);
    }
    next
}

// The mark of a list with the facts of a part more.
#[cycle(marks)]
fn mark_with_part(mark: u64, part: &[Fact], depth: u32) -> u64 {
    let mut next = next_mark(mark, part.len() as u64);
    for fact in part {
        next = mark_with_fact(next, fact, depth);
    }
    next
}

// Whether these parts are those of a choice that was not noted before. Notes it.
fn is_new(marks: &mut Chains, index: usize, parts: &[Vec<Fact>]) -> Result<bool, AllocError> {
    let mark = mark_with_parts(0, parts, NESTING_LIMIT);
    if marks.walk(mark).step().is_some() {
        return Ok(false);
    }
    marks.put(mark, index)?;
    Ok(true)
}

/// Reads the choices that were left unread, but for those that are equal to an earlier one: two
/// assertions may share an invariant. The last one is read in any case: it is mostly the negated
/// goal. Choices that have 200 choices round them are left out.
pub(crate) fn read_choices(
    alloc: Global,
    part: &mut Part,
    list: &FactList,
) -> Result<(), AllocError> {
    let facts = list.as_slice();
    let mut marks = Chains::new(alloc, facts.len())?;
    for (index, fact) in facts.iter().enumerate() {
        if let Fact::Split(parts) = fact {
            let is_last = index.saturating_add(1) == facts.len();
            if is_last || is_new(&mut marks, index, parts)? {
                part.read_choice(index, read_parts(alloc, parts, NESTING_LIMIT - 1)?)?;
            }
        }
    }
    Ok(())
}

// All facts.
fn part_of(alloc: Global, list: &FactList) -> Result<Part, AllocError> {
    let mut part = inequalities_of(alloc, list)?;
    read_choices(alloc, &mut part, list)?;
    Ok(part)
}

// The facts of the condition as a search takes them, if it has facts.
fn part_of_condition(alloc: Global, condition: &Condition) -> Result<Option<Part>, AllocError> {
    match facts(alloc, condition) {
        Ok(list) => Ok(Some(part_of(alloc, &list)?)),
        Err(FactsError::Memory) => Err(AllocError),
        Err(FactsError::Fault(_)) => Ok(None),
    }
}

/// Whether the conditions have equal facts.
///
/// # Errors
///
/// `AllocError` where an allocation was refused.
pub fn has_equal_facts(
    alloc: Global,
    condition: &Condition,
    other: &Condition,
) -> Result<bool, AllocError> {
    let Some(part) = part_of_condition(alloc, condition)? else {
        return Ok(false);
    };
    match part_of_condition(alloc, other)? {
        Some(other) => Ok(part.is_same(&other)),
        None => Ok(false),
    }
}
