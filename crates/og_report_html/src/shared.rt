//! The conjuncts with which all assertions of a text begin.

ghost use Rattle.std.specs.Prelude.{◌≡◌, ◌≤◌, ◌-◌, drop, length, map, take, IfOk};
ghost use Rattle.og_report_html.specs.Conjuncts.{claim_of};
ghost use Rattle.og_report_html.specs.Shared.{text_in, common, common_up_to, common_to_all, shared_by, inner, shared_in};

use crate::conjuncts::Claim;
use og_text::Span;

// The bytes of a conjunct, as far as the text has them.
fn text_in(source: &[u8], span: Span) -> &[u8]
    ensures { result.now ≡ text_in source.now span }
{
    let end = (span.end as usize).min(source.len());
    let start = (span.start as usize).min(end);
    &source[start..end]
}

/// With how many of the same conjuncts two lists begin.
pub(crate) fn common(source: &[u8], first: &[Span], second: &[Span]) -> usize
    ensures { result ≡ common source.now first.now second.now }
{
    let mut count = 0;
    while count < first.len() && count < second.len() {
        if text_in(source, first[count]) != text_in(source, second[count]) {
            return count;
        }
        count += 1;
    }
    count
}

// And at most so many.
fn common_up_to(most: usize, source: &[u8], first: &[Span], second: &[Span]) -> usize
    ensures { result ≡ common_up_to most source.now first.now second.now }
{
    let count = common(source, first, second);
    if count < most { count } else { most }
}

// With how many of the same conjuncts a list and all these assertions begin.
fn common_to_all(source: &[u8], first: &[Span], claims: &[Claim]) -> usize
    ensures all { result ≡ common_to_all source.now (length first.now) first.now (map claim_of claims.now) }
    ensures within { result ≤ length first.now }
{
    let mut count = first.len();
    for claim in claims {
        count = common_up_to(count, source, first, &claim.conjuncts);
    }
    count
}

// The conjuncts of the first of two assertions or more with which all of these begin.
fn shared_by<'c>(source: &[u8], claims: &'c [Claim]) -> &'c [Span]
    ensures { result.now ≡ shared_by source.now (map claim_of claims.now) }
{
    match claims {
        [] | [_] => &[],
        [first, others @ ..] => {
            let count = common_to_all(source, &first.conjuncts, others);
            &first.conjuncts[..count]
        }
    }
}

/// The conjuncts with which all assertions but the first and the last one begin.
pub(crate) fn shared_in<'c>(source: &[u8], claims: &'c [Claim]) -> &'c [Span]
    ensures { result.now ≡ shared_in source.now (map claim_of claims.now) }
{
    match claims {
        [] => &[],
        [_, inner @ ..] => {
            let count = inner.len().saturating_sub(1);
            shared_by(source, &inner[..count])
        }
    }
}
