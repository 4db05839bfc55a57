//! Numbers that are all different and one more than they have values, with the facts that say so.

use og_search_rows::{Levels, Place, Side};
use std::alloc::{AllocError, Global};

/// A number, and the facts that say that it is not below the least value and not above the
/// greatest.
#[derive(Clone, Copy)]
pub struct Member {
    pub var: u32,
    pub least: Place,
    pub most: Place,
}

impl Member {
    /// The number with another fact that says that it is not below a value.
    pub(crate) fn with_least(self, least: Place) -> Member {
        Member { least, ..self }
    }

    /// The number with another fact that says that it is not above a value.
    pub(crate) fn with_most(self, most: Place) -> Member {
        Member { most, ..self }
    }
}

/// The choice of the two orders of a number and another, and whether the number is less in the
/// first part.
#[derive(Clone, Copy)]
pub struct Order {
    pub choice: Place,
    pub is_less_first: bool,
}

/// A fact that is not on the path, and is made above the refutation of the numbers.
#[derive(Clone, Copy)]
pub(crate) enum Lemma {
    /// The choice of the orders of two numbers: it stands alone in this part of an open choice,
    /// whose other parts are false within the bounds.
    Order { choice: usize, part: usize },
    /// That the variable is not beyond its values on this side, which the bounds say.
    Bound { var: u32, side: Side },
}

/// Numbers that are all different and one more than there are values between the least one and the
/// greatest, and the level below which they are refuted.
#[derive(Drop)]
pub struct Pigeons {
    level: u32,
    least: i128,
    most: i128,
    members: Vec<Member>,
    // The orders of each number and those before it.
    orders: Vec<Vec<Order>>,
    lemmas: Vec<Lemma>,
    used: Levels,
}

impl Pigeons {
    /// No numbers yet. They are refuted below this level, and these are the least value and the
    /// greatest.
    pub fn new(alloc: Global, level: u32, least: i128, most: i128) -> Pigeons {
        Pigeons {
            level,
            least,
            most,
            members: Vec::new(alloc),
            orders: Vec::new(alloc),
            lemmas: Vec::new(alloc),
            used: Levels::NONE,
        }
    }

    /// The numbers.
    pub(crate) fn members(&self) -> &[Member] {
        &self.members
    }

    /// A copy of the numbers.
    pub(crate) fn copied_members(&self) -> Result<Vec<Member>, AllocError> {
        self.members.clone()
    }

    /// The least value.
    pub(crate) fn least(&self) -> i128 {
        self.least
    }

    /// The greatest value.
    pub(crate) fn most(&self) -> i128 {
        self.most
    }

    /// The facts that are made, in their order.
    pub(crate) fn lemmas(&self) -> &[Lemma] {
        &self.lemmas
    }

    /// The levels of the facts that say so, those that are made among them.
    pub(crate) fn used(&self) -> Levels {
        self.used
    }

    /// The level at which the fact is made that has this place among them; that below which the
    /// numbers are refuted, where it is behind the last one. None where there are too few levels.
    pub(crate) fn level_of(&self, lemma: usize) -> Option<u32> {
        let lemma = u32::try_from(lemma).ok()?;
        self.level.checked_sub(lemma)?.checked_sub(1)
    }

    /// Adds a fact to those that are made. Returns where it stands then.
    pub(crate) fn lemma(&mut self, lemma: Lemma) -> Result<Option<Place>, AllocError> {
        let Some(level) = self.level_of(self.lemmas.len()) else {
            return Ok(None);
        };
        self.lemmas.push(lemma)?;
        Ok(Some(Place { level, index: 0 }))
    }

    // Notes that a fact at the place is used.
    fn note(&mut self, place: Place) {
        self.used = self.used.union(Levels::one(place.level));
    }

    /// Adds a number, with its orders with those before it. `AllocError` where an allocation was
    /// refused.
    pub fn add(&mut self, member: Member, orders: Vec<Order>) -> Result<(), AllocError> {
        self.note(member.least);
        self.note(member.most);
        for order in &orders {
            self.note(order.choice);
        }
        self.members.push(member)?;
        self.orders.push(orders)?;
        Ok(())
    }

    /// The order of the number at this place and another.
    pub(crate) fn order(&self, place: usize, other: usize) -> Option<Order> {
        if other < place {
            return self.orders.get(place)?.get(other).copied();
        }
        let turned = *self.orders.get(other)?.get(place)?;
        Some(Order {
            choice: turned.choice,
            is_less_first: !turned.is_less_first,
        })
    }
}
