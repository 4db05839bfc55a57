//! How many literals and equations there is room for.

/// The most bits of the clauses of two literals at all places together: 64 MB.
const BITS: u64 = 536_870_912;

/// The most literals of which clauses are made.
const LITERALS: u64 = 2_000;

/// The most sums at all places together.
const SUMS: u64 = 2_000_000;

/// The most equations at all places together, and the most terms of them.
const EQUATIONS: u64 = 400_000;

const TERMS: u64 = 2_000_000;

/// The most clauses of two literals, and of three, at all places together.
const CLAUSES: u64 = 600_000;

const TRIPLES: u64 = 400_000;

/// The most states at all places together that are looked at for bounds.
const STATES: u64 = 20_000;

/// What there is room for, by the numbers of places and variables.
#[derive(Clone, Copy)]
pub struct Room {
    /// The most literals of which clauses are made.
    pub literals: u64,
    /// The most sums.
    pub sums: u64,
    /// The variables, the first ones, that stand in equations.
    pub variables: u32,
    /// The most terms of an equation.
    pub terms: u64,
    /// The most literals under which there are equations of their own.
    pub flags: u64,
    /// The most clauses of two literals of a place.
    pub clauses: usize,
    /// The most clauses of three literals of a place.
    pub triples: usize,
    /// The most states of a place that are looked at for bounds.
    pub states: u64,
}

/// How many there are.
pub fn count<T>(list: &[T]) -> u32 {
    u32::try_from(list.len()).unwrap_or(u32::MAX)
}

// The quotient; the dividend itself, where the divisor is 0.
fn share(all: u64, among: u64) -> u64 {
    all.checked_div(among).unwrap_or(all)
}

impl Room {
    /// The room for this many places and variables.
    pub fn of(places: u32, variables: u32) -> Room {
        let places = u64::from(places);
        let own = share(EQUATIONS, places).min(u64::from(variables));
        let rows = own.saturating_mul(places);
        Room {
            literals: share(BITS, places).isqrt().min(LITERALS),
            sums: share(SUMS, places).clamp(500, 4_000),
            variables: u32::try_from(own).unwrap_or(variables),
            terms: share(TERMS, rows).clamp(4, 256),
            flags: share(EQUATIONS, rows).min(40),
            clauses: share(CLAUSES, places).min(12_000) as usize,
            triples: share(TRIPLES, places).min(12_000) as usize,
            states: share(STATES, places).clamp(20, 600),
        }
    }
}
