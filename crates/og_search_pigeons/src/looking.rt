//! The facts that make numbers pigeons: those on the path, and those that it lacks.

use crate::numbers::{Excess, smallest_excess};
use crate::pairs::{Pair, pairs};
use crate::pigeons::{Lemma, Member, Order, Pigeons};
use og_search_choices::View;
use og_search_rows::{Inequality, Limit, Origin, Place, Side};
use std::alloc::{AllocError, Global};

/// The fewest pairs of different numbers that are looked at.
const FEWEST: usize = 6;

/// A variable, and the facts that say that it is not below the least value and not above the
/// greatest, as far as there are some.
#[derive(Clone, Copy)]
struct Bounded {
    var: u32,
    least: Option<Place>,
    most: Option<Place>,
}

// The first of these pairs that is plain and of the two variables, else the first that is of them.
fn pair_of(pairs: &[Pair], var: u32, other: u32) -> Option<Pair> {
    let mut hidden = None;
    for pair in pairs.iter().filter(|pair| pair.is_of(var, other)) {
        if pair.is_plain() {
            return Some(*pair);
        }
        hidden = hidden.or(Some(*pair));
    }
    hidden
}

impl Bounded {
    // Notes that a fact at this place says this of the variable, if none does yet.
    fn note(&mut self, limit: Limit, place: Place, pigeons: &Excess) {
        match limit.side {
            Side::Lower if limit.value >= pigeons.least => self.least = self.least.or(Some(place)),
            Side::Upper if limit.value <= pigeons.most => self.most = self.most.or(Some(place)),
            _ => {}
        }
    }

    // The fact on this side, which is made if there is none.
    fn fact(&self, side: Side, pigeons: &mut Pigeons) -> Result<Option<Place>, AllocError> {
        let known = match side {
            Side::Lower => self.least,
            Side::Upper => self.most,
        };
        match known {
            Some(place) => Ok(Some(place)),
            None => pigeons.lemma(Lemma::Bound {
                var: self.var,
                side,
            }),
        }
    }

    // The number with its facts.
    fn member(&self, pigeons: &mut Pigeons) -> Result<Option<Member>, AllocError> {
        let least = self.fact(Side::Lower, pigeons)?;
        let most = self.fact(Side::Upper, pigeons)?;
        let var = self.var;
        match (least, most) {
            (Some(least), Some(most)) => Ok(Some(Member { var, least, most })),
            _ => Ok(None),
        }
    }
}

// Notes a fact at this place, if it is about one of the variables.
fn note_fact(bounded: &mut [Bounded], form: &Inequality, place: Place, pigeons: &Excess) {
    let Some(only) = form.terms.first().copied() else {
        return;
    };
    if form.terms.len() != 1 || only.coefficient.unsigned_abs() != 1 {
        return;
    }
    let Some(limit) = Limit::of(only.coefficient, form.constant) else {
        return;
    };
    if let Some(own) = bounded.iter_mut().find(|one| one.var == only.var) {
        own.note(limit, place, pigeons);
    }
}

// The variables of the pigeons, with the first facts on the path that bound them.
fn with_facts(alloc: Global, view: View, pigeons: &Excess) -> Result<Vec<Bounded>, AllocError> {
    let mut bounded = Vec::with_capacity(alloc, pigeons.variables.len())?;
    for var in &pigeons.variables {
        bounded.push(Bounded {
            var: *var,
            least: None,
            most: None,
        })?;
    }
    for row in view.base {
        if let Some(Origin::Given(place)) = view.rows.origin(*row) {
            note_fact(&mut bounded, view.rows.form(*row), *place, pigeons);
        }
    }
    Ok(bounded)
}

// The place of the choice of the two orders, which is made if it is hidden.
fn place_of(view: View, pair: Pair, pigeons: &mut Pigeons) -> Result<Option<Place>, AllocError> {
    let choice = pair.choice;
    match (pair.left, view.open.get(choice)) {
        (Some(part), _) => pigeons.lemma(Lemma::Order { choice, part }),
        (None, Some(open)) => Ok(Some(open.place)),
        (None, None) => Ok(None),
    }
}

// The choice that says that the two differ.
fn order_of(
    view: View,
    pairs: &[Pair],
    pigeons: &mut Pigeons,
    var: u32,
    other: u32,
) -> Result<Option<Order>, AllocError> {
    let Some(pair) = pair_of(pairs, var, other) else {
        return Ok(None);
    };
    let Some(choice) = place_of(view, pair, pigeons)? else {
        return Ok(None);
    };
    let is_less_first = pair.first == var;
    Ok(Some(Order {
        choice,
        is_less_first,
    }))
}

// The choices that say that a variable differs from each of the pigeons.
fn orders_with(
    alloc: Global,
    view: View,
    pairs: &[Pair],
    pigeons: &mut Pigeons,
    var: u32,
) -> Result<Option<Vec<Order>>, AllocError> {
    let others = pigeons.copied_members()?;
    let mut orders = Vec::with_capacity(alloc, others.len())?;
    for other in &others {
        match order_of(view, pairs, pigeons, var, other.var)? {
            Some(order) => orders.push(order)?,
            None => return Ok(None),
        }
    }
    Ok(Some(orders))
}

// The numbers with their facts and choices, below this level.
fn gathered(
    alloc: Global,
    view: View,
    pairs: &[Pair],
    excess: &Excess,
    level: u32,
) -> Result<Option<Pigeons>, AllocError> {
    let mut pigeons = Pigeons::new(alloc, level, excess.least, excess.most);
    for one in &with_facts(alloc, view, excess)? {
        let orders = orders_with(alloc, view, pairs, &mut pigeons, one.var)?;
        match (one.member(&mut pigeons)?, orders) {
            (Some(member), Some(orders)) => pigeons.add(member, orders)?,
            _ => return Ok(None),
        }
    }
    Ok(Some(pigeons))
}

/// The smallest set of pigeons, to be refuted below this level: numbers that are all different, by
/// open choices, and one more than they have values within the bounds. None where there are no 4 to
/// 10 of them, or there are too few levels.
///
/// # Errors
///
/// `AllocError` where an allocation was refused.
pub fn look(alloc: Global, view: View, level: u32) -> Result<Option<Pigeons>, AllocError> {
    let pairs = pairs(alloc, view.open, view.bounds)?;
    if pairs.len() < FEWEST {
        return Ok(None);
    }
    match smallest_excess(alloc, &pairs, view.bounds)? {
        Some(excess) => gathered(alloc, view, &pairs, &excess, level),
        None => Ok(None),
    }
}
