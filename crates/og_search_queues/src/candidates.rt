//! What may be the entries of a queue, among the choices on the path.

use crate::narrowing::{Own, Source, Stage, fact_of};
use crate::queue::Var;
use og_search_choices::{Open, Part, View};
use og_search_pigeons::{PARTS_LIMIT, hidden, orders};
use og_search_rows::{Bounds, Place, Term};
use std::alloc::{AllocError, Global};

/// Two variables, the one that is less in the first part first, of which a part of a choice says
/// that they differ.
#[derive(Clone, Copy)]
pub(crate) struct Hidden {
    pub choice: usize,
    pub left: usize,
    pub first: Var,
    pub second: Var,
}

/// The choice that says that a number is not the counter: where it stands, its parts, and the one
/// in which the number is greater.
#[derive(Clone, Copy)]
pub(crate) struct Apart<'a> {
    pub choice: Source,
    pub parts: &'a [Part],
    pub left: usize,
}

/// The parts of a choice in which an entry waits and is through.
#[derive(Clone, Copy)]
pub(crate) struct Branches<'a> {
    pub place: Place,
    pub parts: &'a [Part],
    pub waits: usize,
    pub through: usize,
}

/// What may be an entry: its number, the counter, the choice of whether it is through, unless it
/// waits by the facts on the path, and the choice that says that the number is not the counter.
#[derive(Clone, Copy)]
pub(crate) struct Candidate<'a> {
    pub number: Var,
    pub counter: Var,
    pub branches: Option<Branches<'a>>,
    pub apart: Apart<'a>,
}

/// The choice of which one part has the range of a number: that it is not below the counter, and
/// less than the end.
#[derive(Clone, Copy)]
pub(crate) struct Range<'a> {
    pub place: Place,
    pub parts: &'a [Part],
    pub left: usize,
    pub high: usize,
    pub end: Var,
}

impl Hidden {
    /// Whether these are the two variables.
    pub(crate) fn is_of(&self, var: Var, other: Var) -> bool {
        self.first == var && self.second == other || self.first == other && self.second == var
    }

    // Whether the variable is one of the two.
    fn has(&self, var: Var) -> bool {
        self.first == var || self.second == var
    }
}

impl<'a> Candidate<'a> {
    /// The part in which it waits, if its facts are not on the path.
    pub(crate) fn waits(&self) -> Option<&'a Part> {
        let branches = self.branches?;
        branches.parts.get(branches.waits)
    }
}

/// The choices that hide that two variables differ.
pub(crate) fn hidden_pairs(alloc: Global, open: &[Open]) -> Result<Vec<Hidden>, AllocError> {
    let mut pairs = Vec::new(alloc);
    for (choice, one) in open.iter().enumerate() {
        if !one.is_taken && one.parts.len() <= PARTS_LIMIT {
            if let Some((left, (first, second))) = hidden(one.parts) {
                pairs.push(Hidden {
                    choice,
                    left,
                    first,
                    second,
                })?;
            }
        }
    }
    Ok(pairs)
}

fn is_number(pairs: &[Hidden], var: Var) -> bool {
    for pair in pairs {
        if pair.has(var) {
            return true;
        }
    }
    false
}

// The number and the counter of which the choice with these parts says that they differ, and the
// part in which the number is greater.
fn number_apart(pairs: &[Hidden], parts: &[Part]) -> Option<(Var, Var, usize)> {
    let (first, second) = orders(parts)?;
    match (is_number(pairs, first), is_number(pairs, second)) {
        (true, false) => Some((first, second, 1)),
        (false, true) => Some((second, first, 0)),
        _ => None,
    }
}

// Of a choice of the part, with its place there and its parts.
fn apart_in<'a>(pairs: &[Hidden], part: &'a Part) -> Option<(Var, Var, usize, usize, &'a [Part])> {
    for choice in &part.choices {
        if let Some((number, counter, left)) = number_apart(pairs, &choice.parts) {
            return Some((number, counter, left, choice.index, choice.parts.as_slice()));
        }
    }
    None
}

// The parts that are not false within the bounds, where these are two.
fn two_left(parts: &[Part], bounds: &Bounds) -> Option<(usize, usize)> {
    let mut first = None;
    let mut second = None;
    for (number, part) in parts.iter().enumerate() {
        if !part.is_barred(bounds) {
            match (first, second) {
                (None, _) => first = Some(number),
                (_, None) => second = Some(number),
                _ => return None,
            }
        }
    }
    Some((first?, second?))
}

// The candidate with this number that may be through, where it waits in the one part and is through
// in the other.
fn open_candidate<'a>(
    pairs: &[Hidden],
    one: Open<'a>,
    waits: usize,
    through: usize,
    number: usize,
) -> Option<Candidate<'a>> {
    let part = one.parts.get(waits)?;
    let (var, counter, left, index, parts) = apart_in(pairs, part)?;
    let choice = Source::Own(Own {
        entry: number,
        stage: Stage::Waiting,
        index,
    });
    Some(Candidate {
        number: var,
        counter,
        branches: Some(Branches {
            place: one.place,
            parts: one.parts,
            waits,
            through,
        }),
        apart: Apart {
            choice,
            parts,
            left,
        },
    })
}

// The candidate with this number of a choice on the path.
fn candidate_of<'a>(
    pairs: &[Hidden],
    one: Open<'a>,
    bounds: &Bounds,
    number: usize,
) -> Option<Candidate<'a>> {
    if let Some((var, counter, left)) = number_apart(pairs, one.parts) {
        let choice = Source::Path(one.place);
        let parts = one.parts;
        return Some(Candidate {
            number: var,
            counter,
            branches: None,
            apart: Apart {
                choice,
                parts,
                left,
            },
        });
    }
    if one.is_taken {
        return None;
    }
    let (first, second) = two_left(one.parts, bounds)?;
    match open_candidate(pairs, one, first, second, number) {
        None => open_candidate(pairs, one, second, first, number),
        found => found,
    }
}

// Whether the candidate has another number than these, and their counter.
fn is_other(found: &[Candidate], next: &Candidate) -> bool {
    for old in found {
        if old.number == next.number || old.counter != next.counter {
            return false;
        }
    }
    true
}

/// The candidates, each number once, all with the counter of the first one.
pub(crate) fn candidates<'a>(
    alloc: Global,
    view: View<'_, 'a>,
    pairs: &[Hidden],
) -> Result<Vec<Candidate<'a>>, AllocError> {
    let mut found: Vec<Candidate<'a>> = Vec::new(alloc);
    for one in view.open {
        if let Some(next) = candidate_of(pairs, *one, view.bounds, found.len()) {
            if is_other(&found, &next) {
                found.push(next)?;
            }
        }
    }
    Ok(found)
}

// The first variable with the coefficient -1.
fn subtracted(terms: &[Term]) -> Option<Var> {
    for term in terms {
        if term.coefficient == -1 {
            return Some(term.var);
        }
    }
    None
}

// The end of which the part says that the number is less, and the place of the fact, where it also
// says that the number is not below the counter.
fn end_in(part: &Part, number: Var, counter: Var) -> Option<(Var, usize)> {
    fact_of(part, &[(counter, 1), (number, -1)], 0)?;
    for atom in &part.atoms {
        let form = &atom.form;
        if form.terms.len() == 2 && form.constant == 1 && form.coefficient(number) == 1 {
            return Some((subtracted(&form.terms)?, atom.index));
        }
    }
    None
}

// The range of a candidate's number, where this choice has it.
fn range_in<'a>(one: Open<'a>, candidate: Candidate) -> Option<Range<'a>> {
    let (place, parts) = (one.place, one.parts);
    for (left, part) in parts.iter().enumerate() {
        if let Some((end, high)) = end_in(part, candidate.number, candidate.counter) {
            return Some(Range {
                place,
                parts,
                left,
                high,
                end,
            });
        }
    }
    None
}

/// The range of a candidate's number.
pub(crate) fn range_of<'a>(view: View<'_, 'a>, candidate: Candidate) -> Option<Range<'a>> {
    for one in view.open {
        if one.parts.len() <= PARTS_LIMIT {
            if let Some(range) = range_in(*one, candidate) {
                return Some(range);
            }
        }
    }
    None
}
