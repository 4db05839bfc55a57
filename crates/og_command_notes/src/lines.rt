//! The lines of the notes.

ghost use Rattle.std.specs.Prelude.{◌≡◌, ◌++◌, flat_map, take, OnOk, slice_get};
ghost use Rattle.og_typed.specs.Plain.{noted};
ghost use Rattle.og_review_text.specs.Seen.{points_of};
ghost use Rattle.og_command_notes.specs.Notes as line;
ghost use Rattle.og_command_notes.specs.Seen.{claim_of, claims_of};

use crate::claims::{Asked, Claim};
use crate::together::{Block, Span, Together};
use og_report_text::{Origins, put_assertion, put_number_between};
use og_review_text::Point;
use og_typed::{Note, Outline};
use std::alloc::AllocError;

impl Asked {
    /// What it is asked of.
    pub(crate) fn subject(self) -> &'static str
        ensures { result.now ≡ line.subject_text self }
    {
        match self {
            Asked::Precondition => "precondition",
            Asked::Assertion | Asked::Falsity => "assertion",
            Asked::LoopEntered | Asked::LoopLeft => "loop",
            Asked::BranchTaken => "branch",
            Asked::ElseTaken => "else branch",
            Asked::AwaitPassed => "await",
            Asked::AllEnded => "the processes",
            Asked::Postcondition | Asked::PostconditionFalse => "postcondition",
        }
    }

    /// What is so of it.
    pub(crate) fn finding(self) -> &'static str
        ensures { result.now ≡ line.finding_text self }
    {
        match self {
            Asked::Precondition => " is never true",
            Asked::Assertion => " is never true: nothing is claimed behind it",
            Asked::Falsity => " is false: the step before it is never made",
            Asked::LoopEntered => " is never entered",
            Asked::LoopLeft => " is never left",
            Asked::BranchTaken | Asked::ElseTaken => " is never taken",
            Asked::AwaitPassed => " never passes",
            Asked::AllEnded => " never all end: nothing is claimed of the postcondition",
            Asked::Postcondition => " is never true: it is claimed that no run ends",
            Asked::PostconditionFalse => " is always true",
        }
    }

    // Whether it is about the whole program, which has no place.
    fn is_of_all(self) -> bool
        ensures { result ≡ line.is_of_all self }
    {
        matches!(self, Asked::AllEnded)
    }
}

// A word, and the place of what it means.
fn put_placed(text: &mut Vec<u8>, origins: &Origins, word: &str, at: u32) -> Result<(), AllocError>
    requires { origins.now.places.now ≡ origins.now.source.now }
    ensures { OnOk result (text.new.items ≡ text.old.items
        ++ line.placed_text origins.now.source.now origins.now.rows word.now at) }
{
    text.extend_from_slice(word.as_bytes())?;
    text.extend_from_slice(b" at ")?;
    origins.put_place(text, at)
}

/// Adds the line of an assertion to the text.
pub(crate) fn put_assertion_line(
    text: &mut Vec<u8>,
    origins: &Origins,
    outline: &Outline,
    word: &str,
    note: &Note,
) -> Result<(), AllocError>
    requires { origins.now.places.now ≡ origins.now.source.now }
    ensures { OnOk result (text.new.items ≡ text.old.items ++ line.assertion_line
        origins.now.source.now origins.now.rows outline.now.names word.now (noted note.now)) }
{
    put_placed(text, origins, word, note.at)?;
    text.extend_from_slice(b": ")?;
    put_assertion(text, outline.names(), &note.assertion)?;
    text.extend_from_slice(b"\n")
}

// What is asked of which part.
fn put_subject(
    text: &mut Vec<u8>,
    origins: &Origins,
    asked: Asked,
    at: u32,
) -> Result<(), AllocError>
    requires { origins.now.places.now ≡ origins.now.source.now }
    ensures { OnOk result (text.new.items ≡ text.old.items ++ line.subject_at
        origins.now.source.now origins.now.rows asked at) }
{
    if asked.is_of_all() {
        return text.extend_from_slice(asked.subject().as_bytes());
    }
    put_placed(text, origins, asked.subject(), at)
}

// The line of what was found.
fn put_claim(text: &mut Vec<u8>, origins: &Origins, claim: &Claim) -> Result<(), AllocError>
    requires { origins.now.places.now ≡ origins.now.source.now }
    ensures { OnOk result (text.new.items ≡ text.old.items
        ++ line.claim_line origins.now.source.now origins.now.rows (claim_of claim.now)) }
{
    if !claim.refuted {
        return Ok(());
    }
    put_subject(text, origins, claim.asked, claim.at)?;
    text.extend_from_slice(claim.asked.finding().as_bytes())?;
    text.extend_from_slice(b"\n")
}

/// Adds a line for each that was found to be so in no state to the text.
pub(crate) fn put_claims(
    text: &mut Vec<u8>,
    origins: &Origins,
    claims: &[Claim],
) -> Result<(), AllocError>
    requires { origins.now.places.now ≡ origins.now.source.now }
    ensures { OnOk result (text.new.items ≡ text.old.items
        ++ flat_map (line.claim_line origins.now.source.now origins.now.rows) (claims_of claims.now)) }
{
    for claim in claims {
        put_claim(text, origins, claim)?;
    }
    Ok(())
}

// ---- places that no state has together

// The place with this number, where there is one.
fn put_point(
    text: &mut Vec<u8>,
    origins: &Origins,
    points: &[Point],
    index: usize,
) -> Result<(), AllocError>
    requires { origins.now.places.now ≡ origins.now.source.now }
    ensures { OnOk result (text.new.items ≡ text.old.items ++ line.point_text
        origins.now.source.now origins.now.rows (slice_get (points_of points.now) index)) }
{
    if index >= points.len() {
        return Ok(());
    }
    origins.put_place(text, points[index].note.at)
}

// The first place and the last one, or the one that is both.
fn put_span(
    text: &mut Vec<u8>,
    origins: &Origins,
    points: &[Point],
    span: Span,
) -> Result<(), AllocError>
    requires { origins.now.places.now ≡ origins.now.source.now }
    ensures { OnOk result (text.new.items ≡ text.old.items ++ line.span_text
        origins.now.source.now origins.now.rows (points_of points.now) span) }
{
    put_point(text, origins, points, span.from)?;
    if span.from == span.to {
        return Ok(());
    }
    text.extend_from_slice(b"..")?;
    put_point(text, origins, points, span.to)
}

// A process with places.
fn put_side(
    text: &mut Vec<u8>,
    origins: &Origins,
    points: &[Point],
    process: u32,
    span: Span,
) -> Result<(), AllocError>
    requires { origins.now.places.now ≡ origins.now.source.now }
    ensures { OnOk result (text.new.items ≡ text.old.items ++ line.side_text
        origins.now.source.now origins.now.rows (points_of points.now) process span) }
{
    put_number_between(text, b"process ", u128::from(process) + 1, b" at ")?;
    put_span(text, origins, points, span)
}

// The line of a block.
fn put_block(
    text: &mut Vec<u8>,
    origins: &Origins,
    points: &[Point],
    block: &Block,
) -> Result<(), AllocError>
    requires { origins.now.places.now ≡ origins.now.source.now }
    ensures { OnOk result (text.new.items ≡ text.old.items ++ line.block_line
        origins.now.source.now origins.now.rows (points_of points.now) block.now) }
{
    text.extend_from_slice(b" ")?;
    put_side(text, origins, points, block.one, block.rows)?;
    text.extend_from_slice(b" with ")?;
    put_side(text, origins, points, block.other, block.columns)?;
    text.extend_from_slice(b"\n")
}

// The lines of blocks.
fn put_blocks(
    text: &mut Vec<u8>,
    origins: &Origins,
    points: &[Point],
    blocks: &[Block],
) -> Result<(), AllocError>
    requires { origins.now.places.now ≡ origins.now.source.now }
    ensures { OnOk result (text.new.items ≡ text.old.items ++ flat_map (line.block_line
        origins.now.source.now origins.now.rows (points_of points.now)) blocks.now) }
{
    for block in blocks {
        put_block(text, origins, points, block)?;
    }
    Ok(())
}

// How many lines there are at most.
const SHOWN: usize = 40;

// How many more blocks there are than lines.
fn put_more(text: &mut Vec<u8>, count: usize) -> Result<(), AllocError>
    ensures { OnOk result (text.new.items ≡ text.old.items ++ line.more_text count) }
{
    if count <= SHOWN {
        return Ok(());
    }
    put_number_between(text, b" and ", (count - SHOWN) as u128, b" more\n")
}

// Those that have a line.
fn shown(blocks: &[Block]) -> &[Block]
    ensures { result.now ≡ take 40 blocks.now }
{
    if blocks.len() <= SHOWN {
        return blocks;
    }
    &blocks[..SHOWN]
}

// The blocks, or that there are none.
fn put_table(
    text: &mut Vec<u8>,
    origins: &Origins,
    points: &[Point],
    blocks: &[Block],
) -> Result<(), AllocError>
    requires { origins.now.places.now ≡ origins.now.source.now }
    ensures { OnOk result (text.new.items ≡ text.old.items ++ line.table_text
        origins.now.source.now origins.now.rows (points_of points.now) blocks.now) }
{
    if blocks.is_empty() {
        return text.extend_from_slice(b"never together: none found\n");
    }
    text.extend_from_slice(b"never together:\n")?;
    put_blocks(text, origins, points, shown(blocks))?;
    put_more(text, blocks.len())
}

/// Adds the places of different processes that no state has together to the text, where there are
/// two processes or more.
pub(crate) fn put_together(
    text: &mut Vec<u8>,
    origins: &Origins,
    points: &[Point],
    processes: usize,
    together: &Together,
) -> Result<(), AllocError>
    requires { origins.now.places.now ≡ origins.now.source.now }
    ensures { OnOk result (text.new.items ≡ text.old.items ++ line.together_text
        origins.now.source.now origins.now.rows (points_of points.now) processes
        together.now.blocks.items together.now.is_cut) }
{
    if processes < 2 {
        return Ok(());
    }
    put_table(text, origins, points, &together.blocks)?;
    if !together.is_cut {
        return Ok(());
    }
    text.extend_from_slice(b" only the first 20000 pairs of places were compared\n")
}
