//! What is known of an outline when its literals are chosen.

use crate::domains::{Domain, domains};
use crate::links::direct_pairs;
use crate::room::{Room, count};
use crate::sums::sum_at;
use crate::text::Text;
use og_infer_places::{Places, Samples};
use og_search_rows::Term;
use std::alloc::{AllocError, Global};
use std::collections::BTreeSet;

/// The most constants of the text, the least ones, whose neighbors are bounds.
const MOST_CONSTANTS: usize = 40;

/// The most constants that bound sums and differences of two variables.
const FEW_CONSTANTS: usize = 12;

/// Constants up to this one are bounds of sums before others.
const NEAR_ZERO: u64 = 2;

/// What is known of an outline: its text, and the states that were seen at its places.
#[derive(Drop)]
pub(crate) struct Study<'a> {
    pub(crate) alloc: Global,
    samples: &'a Samples,
    places: u32,
    states: u64,
    pub(crate) variables: u32,
    pub(crate) text: Text,
    pub(crate) domains: Vec<Domain>,
    /// The pairs of variables that stand alone in a sum of the text.
    pub(crate) direct: Vec<(u32, u32)>,
    constants: BTreeSet<i64>,
    /// The constants of the text and their neighbors.
    pub(crate) near: BTreeSet<i64>,
}

// The constants of the text with both signs, 0 and 1, and the initial values of the auxiliaries: the
// least ones.
fn constants(alloc: Global, text: &Text, initial: &[i64]) -> Result<BTreeSet<i64>, AllocError> {
    let mut constants = BTreeSet::new(alloc);
    for (_, number) in &text.numbers {
        constants.insert(*number)?;
        constants.insert(number.wrapping_neg())?;
    }
    for number in [0, 1].iter().chain(initial) {
        constants.insert(*number)?;
    }
    let mut least = BTreeSet::new(alloc);
    for number in constants.iter().take(MOST_CONSTANTS) {
        least.insert(*number)?;
    }
    Ok(least)
}

// The numbers and their neighbors.
fn neighbors(alloc: Global, numbers: &BTreeSet<i64>) -> Result<BTreeSet<i64>, AllocError> {
    let mut near = BTreeSet::new(alloc);
    for number in numbers {
        near.insert(number.saturating_sub(1))?;
        near.insert(*number)?;
        near.insert(number.saturating_add(1))?;
    }
    Ok(near)
}

// The least and the greatest value of the sum in these states.
fn ends(states: &[Vec<i64>], terms: &[Term]) -> Option<(i128, i128)> {
    let mut ends = None;
    for state in states {
        if let Some(value) = sum_at(terms, state) {
            ends = match ends {
                Some((least, most)) => Some((value.min(least), value.max(most))),
                None => Some((value, value)),
            };
        }
    }
    ends
}

// Adds the number, if it is an `i64`.
fn insert(numbers: &mut BTreeSet<i64>, number: i128) -> Result<(), AllocError> {
    if let Ok(number) = i64::try_from(number) {
        numbers.insert(number)?;
    }
    Ok(())
}

impl<'a> Study<'a> {
    /// What the text and the samples say.
    pub(crate) fn of(
        alloc: Global,
        places: &Places,
        samples: &'a Samples,
        room: Room,
    ) -> Result<Study<'a>, AllocError> {
        let outline = places.outline();
        let mut study = Study {
            alloc,
            samples,
            places: count(places.as_slice()),
            states: room.states,
            variables: count(outline.names()),
            text: Text::of(alloc, places)?,
            domains: Vec::new(alloc),
            direct: Vec::new(alloc),
            constants: BTreeSet::new(alloc),
            near: BTreeSet::new(alloc),
        };
        study.read_text(outline.aux_values())?;
        Ok(study)
    }

    // Finds what the text says, where these are the initial values of the auxiliaries.
    fn read_text(&mut self, initial: &[i64]) -> Result<(), AllocError> {
        let (alloc, text) = (self.alloc, &self.text);
        self.constants = constants(alloc, text, initial)?;
        self.domains = domains(alloc, text, self.samples, self.places, self.variables)?;
        self.direct = direct_pairs(alloc, &text.forms)?;
        self.near = neighbors(alloc, &self.constants)?;
        Ok(())
    }

    /// The first states that were seen at a place.
    fn seen(&self, place: u32) -> &[Vec<i64>] {
        let all = self.samples.at(place);
        all.get(..self.states as usize).unwrap_or(all)
    }

    /// The few constants that bound sums and differences of two variables: those near 0, and the
    /// greatest ones.
    pub(crate) fn few(&self) -> Result<BTreeSet<i64>, AllocError> {
        let mut numbers = Vec::new(self.alloc);
        for constant in &self.constants {
            numbers.push(*constant)?;
        }
        numbers.sort_unstable_by_key(|number| {
            let magnitude = number.unsigned_abs();
            (
                magnitude > NEAR_ZERO,
                u64::MAX.saturating_sub(magnitude),
                *number,
            )
        });
        let mut few = BTreeSet::new(self.alloc);
        for number in numbers.iter().take(FEW_CONSTANTS) {
            few.insert(*number)?;
        }
        Ok(few)
    }

    // Whether an input stands in the sum.
    fn has_input(&self, terms: &[Term]) -> bool {
        for term in terms {
            let domain = self.domains.get(term.var as usize);
            if matches!(domain, Some(domain) if domain.is_input) {
                return true;
            }
        }
        false
    }

    // The least and the greatest values of the sum at each place.
    fn all_ends(&self, terms: &[Term]) -> Result<BTreeSet<i64>, AllocError> {
        let mut all = BTreeSet::new(self.alloc);
        for place in 0..self.places {
            if let Some((least, most)) = ends(self.seen(place), terms) {
                insert(&mut all, least)?;
                insert(&mut all, most)?;
            }
        }
        Ok(all)
    }

    // Whether one of the ends of a sum without inputs is kept that is not near a constant.
    fn is_wanted(&self, end: i64, all: &BTreeSet<i64>, free: usize) -> bool {
        all.len() <= free
            || end.unsigned_abs() <= NEAR_ZERO
            || matches!(all.first(), Some(first) if *first == end)
            || matches!(all.last(), Some(last) if *last == end)
    }

    /// The bounds of a sum that the states give: the least and greatest values at each place, of a
    /// sum with inputs those near constants. Where they are more than this many, the outermost, those
    /// near constants and those near 0.
    pub(crate) fn extremes(
        &self,
        terms: &[Term],
        free: usize,
    ) -> Result<BTreeSet<i64>, AllocError> {
        let all = self.all_ends(terms)?;
        let is_input = self.has_input(terms);
        let mut kept = BTreeSet::new(self.alloc);
        for end in &all {
            if self.near.contains(end) || !is_input && self.is_wanted(*end, &all, free) {
                kept.insert(*end)?;
            }
        }
        Ok(kept)
    }
}
