//! Levels, which say how deep a fact was met, and sets of them.

/// The level of the condition's own facts. Each level below has one less, down to 0.
pub const TOP: u32 = 200;

/// Where a fact stands: its level, and its place among the facts of that level, from 0.
#[derive(Clone, Copy)]
pub struct Place {
    pub level: u32,
    pub index: usize,
}

/// A set of levels from 0 to 255: those of the facts that a row rests on.
#[derive(Clone, Copy)]
pub struct Levels {
    low: u128,
    high: u128,
}

impl Levels {
    pub const NONE: Levels = Levels { low: 0, high: 0 };

    /// The set of this level alone.
    pub fn one(level: u32) -> Levels {
        let low = 1u128.checked_shl(level).unwrap_or(0);
        let high = match level.checked_sub(128) {
            Some(above) => 1u128.checked_shl(above).unwrap_or(0),
            None => 0,
        };
        Levels { low, high }
    }

    /// The levels of both sets.
    pub fn union(self, other: Levels) -> Levels {
        Levels {
            low: self.low | other.low,
            high: self.high | other.high,
        }
    }

    /// Whether the level is in the set.
    pub fn has(self, level: u32) -> bool {
        let one = Levels::one(level);
        self.low & one.low != 0 || self.high & one.high != 0
    }

    /// The set without this level.
    pub fn without(self, level: u32) -> Levels {
        let one = Levels::one(level);
        Levels {
            low: self.low & !one.low,
            high: self.high & !one.high,
        }
    }
}
