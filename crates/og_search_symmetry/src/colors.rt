//! Variables that are alike: color refinement.
//!
//! At first all variables of a list of facts have the same color. Then each gets a new one, some
//! times, by what stands round it: the facts in which it occurs, with the colors of their
//! variables. A variable and one of another list that stand for one another have the same color at
//! the end.

use crate::marks::{NESTING_LIMIT, Terms, fact_mark, label, part_mark};
use crate::renaming::Renaming;
use og_facts::{Atom, Fact};
use og_search_rows::{last_bits, next_mark};
use std::alloc::{AllocError, Global};

/// The first color.
const FIRST: u64 = 1;

/// New colors of variables, which grow while the facts are gone through.
#[derive(Drop)]
struct Refiner<'a> {
    // The colors before.
    colors: &'a [u64],
    next: Vec<u64>,
}

impl Refiner<'_> {
    // Adds to the color of a variable.
    fn add(&mut self, var: u32, more: u64) {
        if let Some(color) = self.next.get_mut(var as usize) {
            *color = color.wrapping_add(more);
        }
    }

    // Adds to the colors of the variables of an inequality that stands in what has this mark: which
    // coefficient each has, and the constant.
    fn add_atom(&mut self, atom: &Atom, around: u64) {
        let mark = next_mark(around, last_bits(atom.offset()));
        let terms = Terms::of(atom);
        for i in 0..usize::MAX {
            let Some((var, coefficient)) = terms.get(i) else {
                break;
            };
            self.add(var, next_mark(mark, coefficient));
        }
    }

    #[cycle(refining)]
    fn add_fact(&mut self, fact: &Fact, around: u64, depth: u32) {
        match fact {
            Fact::Atom(atom) => self.add_atom(atom, around),
            Fact::Split(parts) => {
                if let Some(below) = depth.checked_sub(1) {
                    self.add_parts(parts, around, below);
                }
            }
        }
    }

    #[cycle(refining)]
    fn add_parts(&mut self, parts: &[Vec<Fact>], around: u64, depth: u32) {
        for part in parts {
            self.add_part(part, around, depth);
        }
    }

    #[cycle(refining)]
    fn add_part(&mut self, part: &[Fact], around: u64, depth: u32) {
        for fact in part {
            self.add_fact(fact, around, depth);
        }
    }

    // Adds the bounds that follow from each of these facts.
    fn add_facts(&mut self, facts: &[Fact]) {
        for fact in facts {
            let around = fact_mark(self.colors, fact, NESTING_LIMIT);
            self.add_fact(fact, around, NESTING_LIMIT);
        }
    }

    // Adds what the facts of each part say together.
    fn add_each(&mut self, parts: &[Vec<Fact>]) {
        for part in parts {
            let around = part_mark(self.colors, part, NESTING_LIMIT);
            self.add_part(part, around, NESTING_LIMIT);
        }
    }

    // Adds what the facts of a list say, and each part of a choice that is the last one, as that
    // of a goal is.
    fn add_list(&mut self, list: &[Fact]) {
        match list.split_last() {
            Some((Fact::Split(parts), first)) => {
                self.add_facts(first);
                self.add_each(parts);
            }
            _ => self.add_facts(list),
        }
    }
}

// The colors after one round more.
fn refined(alloc: Global, list: &[Fact], colors: &[u64]) -> Result<Vec<u64>, AllocError> {
    let mut next = Vec::with_capacity(alloc, colors.len())?;
    for color in colors {
        next.push(next_mark(FIRST, *color))?;
    }
    let mut refiner = Refiner { colors, next };
    refiner.add_list(list);
    Ok(refiner.next)
}

/// The colors of the variables of a list.
#[derive(Drop)]
pub(crate) struct Colors {
    // By the facts about each alone.
    first: Vec<u64>,
    // By the first ones of the variables that stand with it, once they were needed.
    second: Option<Vec<u64>>,
}

impl Colors {
    /// Those of this many variables in the list.
    ///
    /// # Errors
    ///
    /// `AllocError` where an allocation was refused.
    pub(crate) fn of(alloc: Global, list: &[Fact], variables: u32) -> Result<Colors, AllocError> {
        let colors = vec![in alloc; FIRST; variables as usize]?;
        Ok(Colors {
            first: refined(alloc, list, &colors)?,
            second: None,
        })
    }

    // The second ones. The list is that of the first ones.
    fn second(&mut self, alloc: Global, list: &[Fact]) -> Result<&[u64], AllocError> {
        let second = match self.second.take() {
            Some(second) => second,
            None => refined(alloc, list, &self.first)?,
        };
        Ok(self.second.insert(second))
    }
}

// The variables that do not have the same color in both lists, each behind its color in this one,
// in order.
fn by_color(alloc: Global, own: &[u64], other: &[u64]) -> Result<Vec<(u64, u32)>, AllocError> {
    let mut variables = Vec::new(alloc);
    for place in 0..own.len() {
        if let Ok(var) = u32::try_from(place) {
            if own[place] != label(other, var) {
                variables.push((own[place], var))?;
            }
        }
    }
    variables.sort_unstable();
    Ok(variables)
}

// What stands in order from this color on.
fn from_color(sorted: &[(u64, u32)], color: u64) -> &[(u64, u32)] {
    for (place, (other, _)) in sorted.iter().enumerate() {
        if *other >= color {
            return &sorted[place..];
        }
    }
    &[]
}

// Whether a variable of the one list has the color of another one of the other.
fn are_some_alike(alloc: Global, own: &[u64], other: &[u64]) -> Result<bool, AllocError> {
    let second = by_color(alloc, other, own)?;
    let mut rest = second.as_slice();
    for (color, _) in &by_color(alloc, own, other)? {
        rest = from_color(rest, *color);
        if matches!(rest.first(), Some((same, _)) if same == color) {
            return Ok(true);
        }
    }
    Ok(false)
}

/// Which variables of a list with these colors stand for those of another list, of this many
/// variables, by the colors of these: those of one color in the order of their numbers. Where no
/// two are alike by the facts about them alone, none are by more.
///
/// # Errors
///
/// `AllocError` where an allocation was refused.
pub(crate) fn renamed_by_color(
    alloc: Global,
    from: &[Fact],
    own: &mut Colors,
    to: &[Fact],
    variables: u32,
) -> Result<Renaming, AllocError> {
    let mut renaming = Renaming::none(alloc, variables)?;
    let mut other = Colors::of(alloc, to, variables)?;
    if !are_some_alike(alloc, &own.first, &other.first)? {
        return Ok(renaming);
    }
    let (own, other) = (own.second(alloc, from)?, other.second(alloc, to)?);
    let first = by_color(alloc, own, other)?;
    let second = by_color(alloc, other, own)?;
    for ((color, var), (same, name)) in first.iter().zip(&second) {
        if color == same {
            renaming.note(*var, *name);
        }
    }
    Ok(renaming)
}
