//! Places of different processes that no state has together.

ghost use Rattle.std.specs.Prelude.{◌≡◌, ◌≢◌, ◌↔◌, ◌+◌, ◌-◌, ◌<◌, [], ◌∷◌, true, drop, is_some, IfOk, IfSome, IsTrue, OnOk, length, slice_get, slice_index_or};
ghost use Rattle.og_cond.specs.Condition.{Yes};
ghost use Rattle.og_typed.specs.Plain.{formula};
ghost use Rattle.og_typed.specs.declared.sites.Part.TheVariants as parts;
ghost use Rattle.og_command_notes.specs.Claims.{AreNeverTrue};
ghost use Rattle.og_review_text.specs.Seen.{point_of, points_of};
ghost use Rattle.og_review_text.specs.Steps.{is_beside};
ghost use Rattle.og_command_notes.specs.Together.{AreApart, AreBlocks, IsBlock, IsSameSpan, JoinsColumns, JoinsRows, are_many, pair, pair_in, pairs_in};

use crate::claims::{Search, is_refuted};
use og_cond::Part as Fact;
use og_review_text::Point;
use og_typed::{Assert, Part};
use std::alloc::AllocError;

/// Places from the first to the last, counted from 0 in text order.
#[derive(Clone, Copy, PartialEq, Eq)]
pub(crate) struct Span {
    pub(crate) from: usize,
    pub(crate) to: usize,
}

/// Places of one process, and places of another. No state has one of the first together with one
/// of the second.
#[derive(Clone, Copy, PartialEq, Eq)]
pub(crate) struct Block {
    pub(crate) one: u32,
    pub(crate) rows: Span,
    pub(crate) other: u32,
    pub(crate) columns: Span,
}

// How many pairs of places are compared.
const PAIRS: u32 = 20_000;

// The questions about pairs.
#[derive(Drop)]
struct Pairs {
    search: Search,
    // How many more may come. All but the last one are compared, which shows that there are more.
    left: u32,
}

/// What is found.
#[derive(Drop)]
pub(crate) struct Together {
    pub(crate) blocks: Vec<Block>,
    /// Whether there are more pairs of places than are compared.
    pub(crate) is_cut: bool,
}

// Whether an assertion is found to be never true.
fn is_never(search: Search, assertion: &Assert) -> Result<bool, AllocError>
    ensures { IfOk result (λ yes. yes ≡ true → AreNeverTrue (Yes (formula assertion.now) ∷ [])) }
{
    let mut facts = Vec::new(search.alloc());
    facts.push(Fact::Yes(assertion))?;
    is_refuted(search, &facts)
}

// Whether two assertions are found to be never true together.
fn are_never(search: Search, one: &Assert, other: &Assert) -> Result<bool, AllocError>
    ensures { IfOk result (λ yes. yes ≡ true
        → AreNeverTrue (Yes (formula one.now) ∷ Yes (formula other.now) ∷ [])) }
{
    let mut facts = Vec::new(search.alloc());
    facts.push(Fact::Yes(one))?;
    facts.push(Fact::Yes(other))?;
    is_refuted(search, &facts)
}

// Whether two assertions are found to contradict each other, and neither to be never true itself.
fn contradict(search: Search, one: &Assert, other: &Assert) -> Result<bool, AllocError>
    ensures { IfOk result (λ yes. yes ≡ true
        → AreNeverTrue (Yes (formula one.now) ∷ Yes (formula other.now) ∷ [])) }
{
    if !are_never(search, one, other)? {
        return Ok(false);
    }
    Ok(!is_never(search, one)? && !is_never(search, other)?)
}

// The numbers of the processes of two places, where they are different ones.
fn numbers(one: &Point, other: &Point) -> Option<(u32, u32)>
    ensures counted { is_some result ≡ is_beside one.now.part other.now.part }
    ensures numbers { IfSome result (λ n. (one.now.part ≡ parts.Process n.0)
        × (other.now.part ≡ parts.Process n.1) × (n.0 ≢ n.1)) }
{
    match (one.part, other.part) {
        (Part::Process(one), Part::Process(other)) if one != other => Some((one, other)),
        _ => None,
    }
}

impl Pairs {
    // The numbers of the processes of two places, where they are different ones and the assertions
    // are found to contradict each other.
    fn compare(&mut self, one: &Point, other: &Point) -> Result<Option<(u32, u32)>, AllocError>
        ensures apart { IfOk result (λ found. IfSome found (λ n.
            AreApart n.0 n.1 (point_of one.now) (point_of other.now))) }
        ensures counted { OnOk result (self.new.left
            ≡ self.old.left - pair (point_of one.now) (point_of other.now)) }
    {
        let Some(numbers) = numbers(one, other) else {
            return Ok(None);
        };
        self.left = self.left.saturating_sub(1);
        if self.left == 0 {
            return Ok(None);
        }
        if contradict(self.search, &one.note.assertion, &other.note.assertion)? {
            Ok(Some(numbers))
        } else {
            Ok(None)
        }
    }
}

// Whether one span begins right behind another.
fn follows(before: Span, behind: Span) -> bool
    ensures { IsTrue result ↔ (before.to + 1 ≡ behind.from) }
{
    before.to < behind.from && behind.from - before.to == 1
}

// Whether two spans are the same.
fn is_same(one: Span, other: Span) -> bool
    ensures { IsTrue result ↔ IsSameSpan one other }
{
    one.from == other.from && one.to == other.to
}

// Two blocks in one row as one, where the second begins right behind the first.
fn joined_in_row(first: Block, second: Block) -> Option<Block>
    ensures { IfSome result (JoinsColumns first second) }
{
    if first.one == second.one
        && first.other == second.other
        && is_same(first.rows, second.rows)
        && follows(first.columns, second.columns)
    {
        let columns = Span {
            from: first.columns.from,
            to: second.columns.to,
        };
        Some(Block {
            one: first.one,
            rows: first.rows,
            other: first.other,
            columns,
        })
    } else {
        None
    }
}

// Two blocks with the same columns as one, where the second begins right below the first.
fn joined_below(first: Block, second: Block) -> Option<Block>
    ensures { IfSome result (JoinsRows first second) }
{
    if first.one == second.one
        && first.other == second.other
        && is_same(first.columns, second.columns)
        && follows(first.rows, second.rows)
    {
        let rows = Span {
            from: first.rows.from,
            to: second.rows.to,
        };
        Some(Block {
            one: first.one,
            rows,
            other: first.other,
            columns: first.columns,
        })
    } else {
        None
    }
}

// Adds a block of one place each to those of its row.
#[tactic(auto, using(crate::proofs::Blocks::joined_columns))]
fn add_column(row: &mut Vec<Block>, points: &[Point], block: Block) -> Result<(), AllocError>
    requires block { IsBlock (points_of points.now) block }
    requires row { AreBlocks (points_of points.now) row.old.items }
    ensures { OnOk result (AreBlocks (points_of points.now) row.new.items) }
{
    let Some(last) = row.pop() else {
        row.push(block)?;
        return Ok(());
    };
    match joined_in_row(last, block) {
        Some(joined) => row.push(joined)?,
        None => {
            row.push(last)?;
            row.push(block)?;
        }
    }
    Ok(())
}

// The block of two places, where they are found to exclude each other.
fn block_of(
    pairs: &mut Pairs,
    points: &[Point],
    row: usize,
    column: usize,
) -> Result<Option<Block>, AllocError>
    requires row { row < length points.now }
    requires column { column < length points.now }
    ensures block { IfOk result (λ found. IfSome found (IsBlock (points_of points.now))) }
    ensures counted { OnOk result (pairs.new.left ≡ pairs.old.left
        - pair_in (slice_get (points_of points.now) row) (slice_get (points_of points.now) column)) }
{
    match pairs.compare(&points[row], &points[column])? {
        Some((one, other)) => Ok(Some(Block {
            one,
            rows: Span { from: row, to: row },
            other,
            columns: Span {
                from: column,
                to: column,
            },
        })),
        None => Ok(None),
    }
}

// The blocks of a place with those behind it.
fn row_of(pairs: &mut Pairs, points: &[Point], index: usize) -> Result<Vec<Block>, AllocError>
    requires { index < length points.now }
    ensures blocks { IfOk result (λ row. AreBlocks (points_of points.now) row.items) }
    ensures counted { OnOk result (pairs.new.left ≡ pairs.old.left
        - pairs_in (slice_get (points_of points.now) index) (drop (index + 1) (points_of points.now))) }
{
    let mut row = Vec::new(pairs.search.alloc());
    for column in index + 1..points.len() {
        if let Some(block) = block_of(pairs, points, index, column)? {
            add_column(&mut row, points, block)?;
        }
        if pairs.left == 0 {
            break;
        }
    }
    Ok(row)
}

// Where a block with the same columns ends right above this one, and the two as one.
fn above(blocks: &[Block], block: Block) -> Option<(usize, Block)>
    ensures { IfSome result (λ found. (found.0 < length blocks.now)
        × JoinsRows (slice_index_or blocks.now found.0 block) block found.1) }
{
    for index in 0..blocks.len() {
        if let Some(joined) = joined_below(blocks[index], block) {
            return Some((index, joined));
        }
    }
    None
}

// Adds the blocks of a row to those of the rows above it.
#[tactic(auto, using(crate::proofs::Blocks::joined_rows))]
fn add_row(blocks: &mut Vec<Block>, points: &[Point], row: &[Block]) -> Result<(), AllocError>
    requires row { AreBlocks (points_of points.now) row.now }
    requires blocks { AreBlocks (points_of points.now) blocks.old.items }
    ensures { OnOk result (AreBlocks (points_of points.now) blocks.new.items) }
{
    for block in row {
        match above(blocks, *block) {
            Some((index, joined)) => blocks[index] = joined,
            None => blocks.push(*block)?,
        }
    }
    Ok(())
}

/// Places of different processes whose assertions are found to contradict each other, among the
/// first pairs in text order, and whether there are more pairs than these.
///
/// # Errors
///
/// An allocation was refused.
pub(crate) fn compared(search: Search, points: &[Point]) -> Result<Together, AllocError>
    ensures blocks { IfOk result (λ t. AreBlocks (points_of points.now) t.blocks.items) }
    ensures counted { IfOk result (λ t. t.is_cut ≡ are_many (points_of points.now)) }
{
    let mut pairs = Pairs {
        search,
        left: PAIRS + 1,
    };
    let mut blocks = Vec::new(search.alloc());
    for index in 0..points.len() {
        let row = row_of(&mut pairs, points, index)?;
        add_row(&mut blocks, points, &row)?;
        if pairs.left == 0 {
            break;
        }
    }
    Ok(Together {
        blocks,
        is_cut: pairs.left == 0,
    })
}
