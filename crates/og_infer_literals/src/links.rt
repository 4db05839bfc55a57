//! Which variables stand together in the text.

use crate::atom::Atom;
use crate::domains::Domain;
use std::alloc::{AllocError, Global};

/// The most pairs of variables that are compared with each other.
const MOST_COMPARED: usize = 40;

/// The most pairs of which sums and differences are bounded.
const MOST_BOUNDED: usize = 300;

/// With more wide variables than this, only pairs that stand together are bounded.
const MOST_WIDE: usize = 14;

/// More than this many values are many.
const FEW: usize = 3;

// Whether the variable has more than this many values.
fn exceeds(domains: &[Domain], variable: u32, values: usize) -> bool {
    matches!(domains.get(variable as usize), Some(domain) if domain.size() > values)
}

/// The pairs of variables that stand alone in a sum of the text, each once, in order.
pub(crate) fn direct_pairs(alloc: Global, forms: &[Atom]) -> Result<Vec<(u32, u32)>, AllocError> {
    let mut pairs = Vec::new(alloc);
    for form in forms {
        if let [first, second] = form.terms.as_slice() {
            pairs.push((first.var, second.var))?;
        }
    }
    pairs.sort_unstable();
    pairs.dedup();
    Ok(pairs)
}

/// The pairs among these that are compared with each other: those of which one variable has many
/// values.
pub(crate) fn compared_pairs(
    alloc: Global,
    direct: &[(u32, u32)],
    domains: &[Domain],
) -> Result<Vec<(u32, u32)>, AllocError> {
    let mut pairs = Vec::new(alloc);
    for (first, second) in direct {
        let is_wanted = exceeds(domains, *first, FEW) || exceeds(domains, *second, FEW);
        if is_wanted && pairs.len() < MOST_COMPARED {
            pairs.push((*first, *second))?;
        }
    }
    Ok(pairs)
}

// Adds the pairs of the variable with later ones, not both of two values.
fn put_later(
    domains: &[Domain],
    first: u32,
    variables: u32,
    pairs: &mut Vec<(u32, u32)>,
) -> Result<(), AllocError> {
    for second in first.saturating_add(1)..variables {
        let is_wanted = exceeds(domains, first, 2) || exceeds(domains, second, 2);
        if is_wanted && pairs.len() < MOST_BOUNDED {
            pairs.push((first, second))?;
        }
    }
    Ok(())
}

// How many variables have many values.
fn count_wide(domains: &[Domain]) -> usize {
    let mut count = 0usize;
    for domain in domains {
        if domain.size() > FEW {
            count = count.saturating_add(1);
        }
    }
    count
}

/// The pairs whose sums and differences are bounded: where there are many variables with many
/// values, those among these that are compared with each other, else all of which one has more than
/// two values.
pub(crate) fn bounded_pairs(
    alloc: Global,
    direct: &[(u32, u32)],
    domains: &[Domain],
    variables: u32,
) -> Result<Vec<(u32, u32)>, AllocError> {
    if count_wide(domains) > MOST_WIDE {
        return compared_pairs(alloc, direct, domains);
    }
    let mut pairs = Vec::new(alloc);
    for first in 0..variables {
        put_later(domains, first, variables, &mut pairs)?;
    }
    Ok(pairs)
}
