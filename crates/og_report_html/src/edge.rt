//! What begins and ends within the assertions of a text.

ghost use Rattle.std.specs.Prelude.{◌≡◌, ◌==◌, ◌++◌, [], if◌then◌else◌, nat_le, slice_get, ◌≤◌, ◌^◌, ℕ, length, map, IfOk, OnOk};
ghost use Rattle.std.specs.List.{list_all, list_any};
ghost use Rattle.og_typed.specs.Plain.{noted};
ghost use Rattle.og_report_text.specs.Conjuncts.{conjuncts};
ghost use Rattle.og_report_text.specs.Origins.{row_at};
ghost use Rattle.og_report_html.specs.Conjuncts.{claim_of};
ghost use Rattle.og_report_html.specs.Marks.{found};
ghost use Rattle.og_report_html.specs.declared.edge.Edge.TheVariants as Edge;
ghost use Rattle.og_report_html.specs.Edges.{place_of, places_of, is_within, number_if, numbers_within, numbers_by, false_in, false_by, around, false_edges, spanned, first_span, is_long, is_folded, claim_edges, edges_from, edges_in};

use crate::conjuncts::{Claim, claims_in};
use crate::constants::SHARED_WORD;
use crate::marks::{Mark, Marks, row};
use crate::shared::{common, shared_in};
use og_report_explain::Fault;
use og_report_prove::Diagnosis;
use og_report_text::{Row, Rows, add_conjuncts};
use og_text::Span;
use og_typed::Note;
use std::alloc::{AllocError, Global};

/// What begins or ends.
#[derive(Clone, Copy, PartialEq, Eq)]
pub(crate) enum Edge {
    /// What all assertions share begins.
    Shared,
    /// It ends.
    SharedEnd,
    /// A false conjunct begins.
    False,
    /// It ends.
    FalseEnd,
}

/// What begins or ends before the byte at an offset.
#[derive(Clone, Copy, PartialEq, Eq)]
pub(crate) struct Boundary {
    /// The byte offset.
    pub(crate) at: u32,
    /// What begins or ends there.
    pub(crate) edge: Edge,
}

// Where a conjunct of a template's outline has its first relation, if it has one.
fn place_of(row: &Row, number: usize) -> Option<u32>
    ensures { result ≡ place_of row.now number }
{
    match row.conjuncts.get(number) {
        Some(place) => *place,
        None => None,
    }
}

// The same of several.
fn places_of(alloc: Global, row: &Row, numbers: &[usize]) -> Result<Vec<Option<u32>>, AllocError>
    ensures { IfOk result (λ v. v.items ≡ places_of row.now numbers.now) }
{
    let mut places = Vec::new(alloc);
    for number in numbers {
        places.push(place_of(row, *number))?;
    }
    Ok(places)
}

// Whether the place stands within a conjunct.
fn is_within(span: Span, place: Option<u32>) -> bool
    ensures { result ≡ is_within span place }
{
    match place {
        Some(place) => span.start <= place && place < span.end,
        None => false,
    }
}

// Whether one of the places does.
fn has_within(span: Span, places: &[Option<u32>]) -> bool
    ensures { result ≡ list_any (is_within span) places.now }
{
    places.iter().any(|place| is_within(span, *place))
}

// Adds a number, if this is so.
fn add_if(numbers: &mut Vec<usize>, is: bool, number: usize) -> Result<(), AllocError>
    ensures { OnOk result (numbers.new.items ≡ numbers.old.items ++ number_if is number) }
{
    if is {
        numbers.push(number)?;
    }
    Ok(())
}

// The numbers of those within which one of the places stands.
fn numbers_within(
    alloc: Global,
    places: &[Option<u32>],
    spans: &[Span],
) -> Result<Vec<usize>, AllocError>
    ensures { IfOk result (λ v. v.items ≡ numbers_within places.now 0 spans.now) }
{
    let mut numbers = Vec::new(alloc);
    for index in 0..spans.len() {
        let is = has_within(spans[index], places);
        add_if(&mut numbers, is, index)?;
    }
    Ok(numbers)
}

// These, where an assertion of the outline has so many conjuncts.
fn numbers_if_as_many(
    alloc: Global,
    note: &Note,
    count: usize,
    numbers: &[usize],
) -> Result<Vec<usize>, AllocError>
    ensures { IfOk result (λ v. v.items
        ≡ (if length (conjuncts (noted note.now).assertion) == count then numbers.now else [])) }
{
    let mut all = Vec::new(alloc);
    add_conjuncts(&mut all, &note.assertion)?;
    if all.len() != count {
        return Ok(Vec::new(alloc));
    }
    let same = Vec::from_slice(alloc, numbers)?;
    Ok(same)
}

// The numbers of the false conjuncts of an assertion among these of the text.
fn numbers_of(
    alloc: Global,
    rows: Option<&Rows>,
    spans: &[Span],
    note: &Note,
    numbers: &[usize],
) -> Result<Vec<usize>, AllocError>
    ensures { IfOk result (λ v. v.items ≡ numbers_by (row_at rows.entry (noted note.now).at)
        spans.now (noted note.now).assertion numbers.now) }
{
    match row(rows, note.at) {
        None => numbers_if_as_many(alloc, note, spans.len(), numbers),
        Some(row) => numbers_within(alloc, &places_of(alloc, row, numbers)?, spans),
    }
}

// Those of the assertion that is false in the state of a condition.
fn false_in(
    alloc: Global,
    rows: Option<&Rows>,
    spans: &[Span],
    diagnosis: &Diagnosis,
) -> Result<Vec<usize>, AllocError>
    ensures { IfOk result (λ v. v.items ≡ false_in rows.entry spans.now diagnosis.now) }
{
    let Diagnosis::False(block) = diagnosis else {
        return Ok(Vec::new(alloc));
    };
    let details = &block.details;
    match &details.explanation.fault {
        Fault::False(note, _) => numbers_of(alloc, rows, spans, note, &details.conjuncts),
        Fault::TooLarge(..) | Fault::Blocked(_) => Ok(Vec::new(alloc)),
    }
}

// Those of the condition to which an assertion with this mark links.
fn false_by(
    alloc: Global,
    rows: Option<&Rows>,
    spans: &[Span],
    diagnoses: &[Diagnosis],
    mark: Option<Mark>,
) -> Result<Vec<usize>, AllocError>
    ensures { IfOk result (λ v. v.items ≡ false_by rows.entry spans.now diagnoses.now mark) }
{
    let Some(Mark::False(number)) = mark else {
        return Ok(Vec::new(alloc));
    };
    let index = number.saturating_sub(1);
    if diagnoses.len() as u128 <= index {
        return Ok(Vec::new(alloc));
    }
    false_in(alloc, rows, spans, &diagnoses[index as usize])
}

// Adds the beginning and the end.
fn add_around(
    edges: &mut Vec<Boundary>,
    opening: Edge,
    closing: Edge,
    span: Option<Span>,
) -> Result<(), AllocError>
    ensures { OnOk result (edges.new.items ≡ edges.old.items ++ around opening closing span) }
{
    let Some(span) = span else {
        return Ok(());
    };
    edges.push(Boundary {
        at: span.start,
        edge: opening,
    })?;
    edges.push(Boundary {
        at: span.end,
        edge: closing,
    })?;
    Ok(())
}

// Adds those of the conjunct with a number.
fn add_false_one(edges: &mut Vec<Boundary>, spans: &[Span], number: usize) -> Result<(), AllocError>
    ensures { OnOk result (edges.new.items ≡ edges.old.items
        ++ around Edge.False Edge.FalseEnd (slice_get spans.now number)) }
{
    let span = spans.get(number).copied();
    add_around(edges, Edge::False, Edge::FalseEnd, span)
}

// Adds those of the false conjuncts.
fn add_false(edges: &mut Vec<Boundary>, spans: &[Span], numbers: &[usize]) -> Result<(), AllocError>
    ensures { OnOk result (edges.new.items ≡ edges.old.items ++ false_edges spans.now numbers.now) }
{
    for number in numbers {
        add_false_one(edges, spans, *number)?;
    }
    Ok(())
}

// From one on to another.
fn spanned(first: Option<Span>, last: Option<Span>) -> Option<Span>
    ensures { result ≡ spanned first last }
{
    match (first, last) {
        (Some(first), Some(last)) => Some(Span {
            start: first.start,
            end: last.end,
        }),
        _ => None,
    }
}

// Over the first ones, so many.
fn first_span(spans: &[Span], count: usize) -> Option<Span>
    ensures { result ≡ first_span spans.now count }
{
    let last = spans.get(count.saturating_sub(1)).copied();
    spanned(spans.get(0).copied(), last)
}

// Whether it is longer than the word that stands for it.
fn is_long(span: Option<Span>) -> bool
    ensures { result ≡ is_long span }
{
    match span {
        Some(span) => SHARED_WORD.len() < span.end.saturating_sub(span.start) as usize,
        None => false,
    }
}

// Whether none of the numbers is below this one.
fn is_free(count: usize, numbers: &[usize]) -> bool
    ensures { result ≡ list_all (λ k. nat_le count k) numbers.now }
{
    numbers.iter().all(|number| count <= *number)
}

// Whether an assertion begins with what all share, and nothing of that is false.
fn is_folded(source: &[u8], shared: &[Span], claim: &Claim, numbers: &[usize]) -> bool
    ensures { result ≡ is_folded source.now shared.now (claim_of claim.now) numbers.now }
{
    let count = shared.len();
    0 < count
        && common(source, shared, &claim.conjuncts) == count
        && is_long(first_span(&claim.conjuncts, count))
        && is_free(count, numbers)
}

// Adds what begins and ends within an assertion.
fn add_claim(
    edges: &mut Vec<Boundary>,
    source: &[u8],
    shared: &[Span],
    claim: &Claim,
    numbers: &[usize],
) -> Result<(), AllocError>
    ensures { OnOk result (edges.new.items ≡ edges.old.items
        ++ claim_edges source.now shared.now (claim_of claim.now) numbers.now) }
{
    if is_folded(source, shared, claim, numbers) {
        let span = first_span(&claim.conjuncts, shared.len());
        add_around(edges, Edge::Shared, Edge::SharedEnd, span)?;
    }
    add_false(edges, &claim.conjuncts, numbers)
}

// The findings at places of a text.
#[derive(Clone, Copy)]
struct Marked<'m, 'd> {
    rows: Option<&'m Rows>,
    marks: &'m Marks,
    diagnoses: &'m [Diagnosis<'d>],
}

// Adds what begins and ends within these assertions.
fn add_claims(
    edges: &mut Vec<Boundary>,
    source: &[u8],
    marked: Marked,
    shared: &[Span],
    claims: &[Claim],
) -> Result<(), AllocError>
    ensures { OnOk result (edges.new.items ≡ edges.old.items
        ++ edges_from source.now marked.entry.rows (λ (p : ℕ). found p marked.entry.marks.now)
        marked.entry.diagnoses.now shared.now (map claim_of claims.now)) }
{
    let alloc = *edges.allocator();
    for index in 0..claims.len() {
        let claim = &claims[index];
        let mark = marked.marks.get(&claim.at).copied();
        let numbers = false_by(alloc, marked.rows, &claim.conjuncts, marked.diagnoses, mark)?;
        add_claim(edges, source, shared, claim, &numbers)?;
    }
    Ok(())
}

/// What begins and ends within the assertions of a text of at most 1,048,576 bytes, by the marks at
/// their places.
///
/// # Errors
///
/// An allocation was refused.
pub(crate) fn edges_in(
    alloc: Global,
    source: &[u8],
    rows: Option<&Rows>,
    marks: &Marks,
    diagnoses: &[Diagnosis],
) -> Result<Vec<Boundary>, AllocError>
    requires { length source.now ≤ 2 ^ 20 }
    ensures { IfOk result (λ v. v.items
        ≡ edges_in source.now rows.entry (λ (p : ℕ). found p marks.now) diagnoses.now) }
{
    let claims = claims_in(alloc, source)?;
    let shared = shared_in(source, &claims);
    let marked = Marked {
        rows,
        marks,
        diagnoses,
    };
    let mut edges = Vec::new(alloc);
    add_claims(&mut edges, source, marked, shared, &claims)?;
    Ok(edges)
}
