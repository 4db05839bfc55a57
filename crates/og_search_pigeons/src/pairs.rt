//! Choices that say that two variables differ.

use og_search_choices::{Open, Part};
use og_search_rows::{Bounds, Inequality};
use std::alloc::{AllocError, Global};

/// The most parts of a choice that is looked into.
pub const PARTS_LIMIT: usize = 8;

/// Two variables, of which a choice says that they differ.
#[derive(Clone, Copy)]
pub(crate) struct Pair {
    /// The variable that is less in the first part.
    pub first: u32,
    /// The other one.
    pub second: u32,
    /// The number of the choice.
    pub choice: usize,
    /// Which of its parts is left, where this part is the choice of the two orders. Else its parts
    /// are the two orders.
    pub left: Option<usize>,
}

impl Pair {
    /// Whether its parts are the two orders.
    pub(crate) fn is_plain(&self) -> bool {
        self.left.is_none()
    }

    /// Whether these are the two variables.
    pub(crate) fn is_of(&self, var: u32, other: u32) -> bool {
        self.first == var && self.second == other || self.first == other && self.second == var
    }
}

// The variables of an inequality that says that the one is less than the other, in this order.
fn less(form: &Inequality) -> Option<(u32, u32)> {
    let (first, second) = (*form.terms.get(0)?, *form.terms.get(1)?);
    if form.constant != 1 || form.terms.len() != 2 {
        return None;
    }
    match (first.coefficient, second.coefficient) {
        (1, -1) => Some((first.var, second.var)),
        (-1, 1) => Some((second.var, first.var)),
        _ => None,
    }
}

// The variables of a part that says so and nothing else.
fn less_in(part: &Part) -> Option<(u32, u32)> {
    if part.count != 1 {
        return None;
    }
    less(&part.atoms.first()?.form)
}

/// The variables of which these parts are the two orders, the one that is less in the first part
/// first.
pub fn orders(parts: &[Part]) -> Option<(u32, u32)> {
    if parts.len() != 2 {
        return None;
    }
    let (first, second) = less_in(parts.first()?)?;
    if less_in(parts.last()?)? == (second, first) {
        Some((first, second))
    } else {
        None
    }
}

// Of a part that is such a choice and nothing else.
fn orders_in(part: &Part) -> Option<(u32, u32)> {
    if part.count != 1 {
        return None;
    }
    orders(&part.choices.first()?.parts)
}

/// The first part that is a choice of the two orders of two variables and nothing else: its place,
/// and the variables, the one that is less in the first part first.
pub fn hidden(parts: &[Part]) -> Option<(usize, (u32, u32))> {
    for (place, part) in parts.iter().enumerate() {
        if let Some(variables) = orders_in(part) {
            return Some((place, variables));
        }
    }
    None
}

// The place of such a part, and its variables, if no other part is left.
fn left(parts: &[Part], bounds: &Bounds) -> Option<(usize, (u32, u32))> {
    if parts.len() > PARTS_LIMIT {
        return None;
    }
    let (own, variables) = hidden(parts)?;
    for (place, part) in parts.iter().enumerate() {
        if place != own && !part.is_barred(bounds) {
            return None;
        }
    }
    Some((own, variables))
}

// The variables of which a choice says that they differ.
fn pair_of(choice: usize, one: &Open, bounds: &Bounds) -> Option<Pair> {
    if one.is_taken {
        return None;
    }
    if let Some((first, second)) = orders(one.parts) {
        return Some(Pair {
            first,
            second,
            choice,
            left: None,
        });
    }
    let (left, (first, second)) = left(one.parts, bounds)?;
    Some(Pair {
        first,
        second,
        choice,
        left: Some(left),
    })
}

/// The pairs of variables of which an open choice says that they differ.
pub(crate) fn pairs(
    alloc: Global,
    open: &[Open],
    bounds: &Bounds,
) -> Result<Vec<Pair>, AllocError> {
    let mut pairs = Vec::new(alloc);
    for (choice, one) in open.iter().enumerate() {
        if let Some(pair) = pair_of(choice, one, bounds) {
            pairs.push(pair)?;
        }
    }
    Ok(pairs)
}

/// How many facts there are in the choices that are looked into.
pub fn weight_of_pairs(open: &[Open]) -> usize {
    let mut weight = 0usize;
    for one in open {
        if !one.is_taken && one.parts.len() <= PARTS_LIMIT {
            weight = weight.saturating_add(one.size);
        }
    }
    weight
}
