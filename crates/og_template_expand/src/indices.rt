//! Indices outside of their families' ranges.

use crate::origin::Binding;
use crate::range::Range;
use std::alloc::{AllocError, Global};

/// A parameter or bound name, and the number that it stands for.
#[derive(Drop)]
pub struct Bound {
    pub name: Vec<u8>,
    pub value: i64,
}

/// An index that is not in its family's range, and the names in scope there.
#[derive(Drop)]
pub struct Outside {
    pub index: i64,
    /// The lowest index of the family.
    pub low: u64,
    /// How many indices the family has.
    pub count: u32,
    /// The parameters and bound names in scope, from the outside.
    pub bound: Vec<Bound>,
}

impl Outside {
    /// The index, the range, and the names of these bindings.
    pub(crate) fn new(
        alloc: Global,
        index: i64,
        range: Range,
        bindings: &[Binding<'_>],
    ) -> Result<Outside, AllocError> {
        let mut bound = Vec::new(alloc);
        for binding in bindings {
            let name = Vec::from_slice(alloc, binding.name)?;
            bound.push(Bound {
                name,
                value: binding.value,
            })?;
        }
        Ok(Outside {
            index,
            low: range.low,
            count: range.count,
            bound,
        })
    }
}
