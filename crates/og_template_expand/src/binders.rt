//! Ranges, and the values of bound names.

ghost use Rattle.std.specs.Prelude.{◌≡◌, ◌+◌, ◌≤◌, ◌^◌, map, option_map, IfOk};
ghost use Rattle.og_template_expand.specs.Ranges as ranges;
ghost use Rattle.og_template_expand.specs.Scoped.{IsExpanded, range_of, scope_of};
ghost use Rattle.og_template_expand.specs.TreeOf.{bounds_of, test_of, binder_of};

use crate::expander::Expander;
use crate::exprs::value;
use crate::fault::{Stop, fault};
use crate::range::Range;
use crate::scope::Scope;
use og_parse::Relation;
use og_template::{Binder, Bounds, FaultKind, Test};
use og_text::Span;
use std::alloc::{AllocError, Global};

/// The greatest number of values of a range.
const RANGE_LIMIT: u64 = 256;

// The numbers from the lower one to the higher one.
fn range_between(low: i64, high: i64, span: Span) -> Result<Range, Stop>
    ensures { IsExpanded range_of result (ranges.range_between low high span) }
{
    if low < 0 {
        return Err(fault(FaultKind::BadRange, span));
    }
    if high < low {
        return Ok(Range {
            low: low as u64,
            count: 0,
        });
    }
    let more = (high - low) as u64;
    if RANGE_LIMIT <= more {
        return Err(fault(FaultKind::BadRange, span));
    }
    Ok(Range {
        low: low as u64,
        count: more as u32 + 1,
    })
}

/// The numbers of a range.
pub(crate) fn range(
    scope: &Scope<'_, '_>,
    work: &mut Expander<'_>,
    bounds: &Bounds,
) -> Result<Range, Stop>
    ensures { IsExpanded range_of result (ranges.range_of (scope_of scope.now)
        (bounds_of bounds.now)) }
{
    let low = value(scope, work, &bounds.low)?;
    let high = value(scope, work, &bounds.high)?;
    range_between(low, high, bounds.span)
}

/// The numbers of a range, rising.
pub(crate) fn numbers(alloc: Global, range: Range) -> Result<Vec<i64>, AllocError>
    ensures { IfOk result (λ v. v.items ≡ ranges.numbers_of (range_of range)) }
{
    let mut all = Vec::new(alloc);
    for more in 0..range.count {
        all.push((range.low + u64::from(more)) as i64)?;
    }
    Ok(all)
}

/// The values of a binder's range, rising.
pub(crate) fn values(
    scope: &Scope<'_, '_>,
    work: &mut Expander<'_>,
    binder: &Binder,
) -> Result<Vec<i64>, Stop>
    ensures { IsExpanded (λ v. v.items) result
        (ranges.values_of (scope_of scope.now) (binder_of binder.now)) }
{
    let range = range(scope, work, &binder.range)?;
    Ok(numbers(work.alloc, range)?)
}

fn compares(left: i64, relation: Relation, right: i64) -> bool
    ensures { result ≡ ranges.compares left relation right }
{
    match relation {
        Relation::LessEqual => left <= right,
        Relation::Less => left < right,
        Relation::GreaterEqual => right <= left,
        Relation::Greater => right < left,
        Relation::Equal => left == right,
        Relation::NotEqual => left != right,
    }
}

fn holds(scope: &Scope<'_, '_>, work: &mut Expander<'_>, test: &Test) -> Result<bool, Stop>
    ensures { IsExpanded (λ b. b) result (ranges.holds (scope_of scope.now) (test_of test.now)) }
{
    let left = value(scope, work, &test.left)?;
    let right = value(scope, work, &test.right)?;
    Ok(compares(left, test.relation, right))
}

// Whether tests hold; they are asked up to the first that does not.
fn all_hold(scope: &Scope<'_, '_>, work: &mut Expander<'_>, tests: &[Test]) -> Result<bool, Stop>
    ensures { IsExpanded (λ b. b) result (ranges.all_hold (scope_of scope.now)
        (map test_of tests.now)) }
{
    for test in tests {
        if !holds(scope, work, test)? {
            return Ok(false);
        }
    }
    Ok(true)
}

/// The scope in which a binder's name stands for this value of its range, if that is one of its
/// instances.
pub(crate) fn enter<'s, 'a>(
    scope: &Scope<'s, 'a>,
    work: &mut Expander<'_>,
    binder: &'a Binder,
    value: i64,
) -> Result<Option<Scope<'s, 'a>>, Stop>
    ensures { IsExpanded (option_map scope_of) result
        (ranges.entered (scope_of scope.now) (binder_of binder.now) value) }
{
    work.step(binder.name.span)?;
    let inner = scope.with(work.alloc, &binder.name, value)?;
    if all_hold(&inner, work, &binder.tests)? {
        Ok(Some(inner))
    } else {
        Ok(None)
    }
}
