//! Comparisons of a sum with a number.

/// How a sum compares with a number, in the order in which conjuncts are printed.
#[derive(Clone, Copy, PartialEq, Eq, PartialOrd, Ord)]
pub enum Relation {
    Equal,
    AtLeast,
    AtMost,
    NotEqual,
}

impl Relation {
    /// The relation where the sum and the number have the other sign.
    pub fn turned(self) -> Relation {
        match self {
            Relation::AtLeast => Relation::AtMost,
            Relation::AtMost => Relation::AtLeast,
            other => other,
        }
    }
}

/// A relation to a number.
#[derive(Clone, Copy, PartialEq)]
pub struct Comparison {
    pub relation: Relation,
    pub bound: i64,
}

impl Comparison {
    /// Whether it is true of a sum of this value.
    pub fn holds(self, value: i128) -> bool {
        let bound = i128::from(self.bound);
        match self.relation {
            Relation::Equal => value == bound,
            Relation::AtLeast => value >= bound,
            Relation::AtMost => value <= bound,
            Relation::NotEqual => value != bound,
        }
    }

    /// The comparison that is true where this one is false; none where its number leaves `i64`.
    pub fn negation(self) -> Option<Comparison> {
        let (relation, bound) = match self.relation {
            Relation::Equal => (Relation::NotEqual, self.bound),
            Relation::AtLeast => (Relation::AtMost, self.bound.checked_sub(1)?),
            Relation::AtMost => (Relation::AtLeast, self.bound.checked_add(1)?),
            Relation::NotEqual => (Relation::Equal, self.bound),
        };
        Some(Comparison { relation, bound })
    }

    /// Whether the other one is true of each sum of which this one is.
    pub fn implies(self, other: Comparison) -> bool {
        let (own, bound) = (self.bound, other.bound);
        match (self.relation, other.relation) {
            (Relation::Equal, _) => other.holds(i128::from(own)),
            (Relation::AtLeast, Relation::AtLeast) => own >= bound,
            (Relation::AtLeast, Relation::NotEqual) => own > bound,
            (Relation::AtMost, Relation::AtMost) => own <= bound,
            (Relation::AtMost, Relation::NotEqual) => own < bound,
            (Relation::NotEqual, Relation::NotEqual) => own == bound,
            _ => false,
        }
    }

    /// Whether it is a bound on one side.
    pub fn is_limit(self) -> bool {
        matches!(self.relation, Relation::AtLeast | Relation::AtMost)
    }
}
