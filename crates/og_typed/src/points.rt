//! The points of an outline: the places where a process may stand, by number.

ghost use Rattle.std.specs.Prelude.{◌≡◌, ◌++◌, ◌∷◌, ◌≤◌, [], IfOk, IfSome, IfNone, length, map, option_map, slice_get};
ghost use Rattle.std.specs.List.{AllByRecursion};
ghost use Rattle.og_typed.specs.Plain.{formula, item_pair, sequence, statement};
ghost use Rattle.og_typed.specs.Machine.{is_empty};
ghost use Rattle.og_typed.specs.Syntax.{items, part_items};
ghost use Rattle.og_typed.specs.Points.{rest_at, passed, statement_rests, sequence_rests, part_rests, parts_rests, point_rests};
ghost use Rattle.og_typed.specs.Table.{rests_of, IsLinked, IsGrown};

use crate::{Item, Outline, Seq, Stmt};
use std::alloc::{AllocError, Global};
use std::marker::Model;

/// A point before a statement, and those that come after it, by number: where the statement is
/// left, where it leads with a true test, and where with a false one. Point 0 is the end.
#[derive(Clone, Copy, Drop)]
pub(crate) struct Point<'a> {
    item: &'a Item,
    after: u32,
    inside: u32,
    otherwise: u32,
}

// The number of the end, where nothing is left.
const END: u32 = 0;

/// The points of an outline, by number; 0 is the end. Contracts see the rest at each.
#[derive(Drop)]
pub struct Points<'a> {
    points: Vec<Point<'a>>,
}

impl<'a> Model for Points<'a> {
    ghost use Rattle.std.specs.Prelude.{List};
    ghost use Rattle.og_typed.specs.Syntax.{Rest};
    ghost use Rattle.og_typed.specs.Codes.{rest_code};
    ghost use Rattle.std.specs.Coded.{coded_list};

    ghost Value = { List Rest };

    ghost coded = { coded_list rest_code };

    ghost use Rattle.og_typed.specs.Table.{rests_of, AreLinked};

    ghost view = { λ t. rests_of t.points.items };

    ghost invariant = { λ t. AreLinked t.points.items };
}

impl<'a> Point<'a> {
    // Before a statement that leads to where it is left.
    fn new(item: &'a Item, after: u32) -> Point<'a>
        ensures { result ≡ record
            { item = item.entry; after = after; inside = after; otherwise = after } }
    {
        Point {
            item,
            after,
            inside: after,
            otherwise: after,
        }
    }
}

/// The points of an outline, and where each of its parts begins.
#[derive(Drop)]
pub struct Beginning<'a> {
    /// The points.
    pub points: Points<'a>,
    /// Where the prologue begins; the end where there is none.
    pub prologue: u32,
    /// Where each process begins, in the order of the text.
    pub rests: Vec<u32>,
    /// Where the epilogue begins; the end where there is none.
    pub epilogue: u32,
}

// One point more.
fn push<'a>(points: &mut Vec<Point<'a>>, point: Point<'a>) -> Result<u32, AllocError>
    ensures points { IfOk result (λ at. points.new.items ≡ points.old.items ++ point.entry ∷ []) }
    ensures last { IfOk result (λ at. at ≡ length points.new.items) }
{
    points.push(point)?;
    match u32::try_from(points.len()) {
        Ok(at) => Ok(at),
        Err(_) => Err(AllocError),
    }
}

// The points of the statement, where it is left at `after`.
#[cycle(points)]
fn add_item<'a>(points: &mut Vec<Point<'a>>, item: &'a Item, after: u32) -> Result<u32, AllocError>
    requires known { after ≤ length points.old.items }
    ensures grown { IfOk result (λ at. IsGrown points.old.items points.new.items) }
    ensures place { IfOk result (λ at. at ≤ length points.new.items) }
    ensures rest { IfOk result (λ at. rest_at (rests_of points.new.items) at ≡ item_pair item.now
        ∷ rest_at (rests_of points.old.items) after) }
    ensures table { IfOk result (λ at. rests_of points.new.items ≡ rests_of points.old.items
        ++ statement_rests (formula item.now.before.assertion) (statement item.now.stmt) (rest_at (rests_of points.old.items) after)) }
{
    match &item.stmt {
        Stmt::Skip | Stmt::Assign(..) | Stmt::Await(..) => {
            let at = push(points, Point::new(item, after))?;
            Ok(at)
        }
        Stmt::If(_, branch, other) => {
            let inside = add_seq(points, branch, after)?;
            let otherwise = match other {
                Some(seq) => add_seq(points, seq, after)?,
                None => after,
            };
            let point = Point {
                item,
                after,
                inside,
                otherwise,
            };
            let at = push(points, point)?;
            Ok(at)
        }
        Stmt::While(_, body) => {
            let at = push(points, Point::new(item, after))?;
            let inside = add_seq(points, body, at)?;
            points[at as usize - 1].inside = inside;
            Ok(at)
        }
    }
}

// The points of the statements of a sequence, whose last one is left at `after`.
#[cycle(points)]
fn add_seq<'a>(points: &mut Vec<Point<'a>>, seq: &'a Seq, after: u32) -> Result<u32, AllocError>
    requires known { after ≤ length points.old.items }
    ensures grown { IfOk result (λ at. IsGrown points.old.items points.new.items) }
    ensures place { IfOk result (λ at. at ≤ length points.new.items) }
    ensures rest { IfOk result (λ at. rest_at (rests_of points.new.items) at
        ≡ items (sequence seq.now) ++ rest_at (rests_of points.old.items) after) }
    ensures table { IfOk result (λ at. rests_of points.new.items ≡ rests_of points.old.items
        ++ sequence_rests (sequence seq.now) (rest_at (rests_of points.old.items) after)) }
{
    let mut at = after;
    let mut left = seq.items.len();
    while left > 0 {
        left -= 1;
        at = add_item(points, &seq.items[left], at)?;
    }
    Ok(at)
}

// Where an optional part begins.
fn add_part<'a>(points: &mut Vec<Point<'a>>, part: Option<&'a Seq>) -> Result<u32, AllocError>
    ensures grown { IfOk result (λ at. IsGrown points.old.items points.new.items) }
    ensures place { IfOk result (λ at. at ≤ length points.new.items) }
    ensures rest { IfOk result (λ at. rest_at (rests_of points.new.items) at
        ≡ part_items (option_map (λ q. sequence q.now) part.entry)) }
    ensures table { IfOk result (λ at. rests_of points.new.items ≡ rests_of points.old.items
        ++ part_rests (option_map (λ q. sequence q.now) part.entry)) }
{
    match part {
        Some(seq) => {
            let at = add_seq(points, seq, END)?;
            Ok(at)
        }
        None => Ok(END),
    }
}

// Where each process begins.
fn add_parts<'a>(
    alloc: Global,
    points: &mut Vec<Point<'a>>,
    parts: &'a [Seq],
) -> Result<Vec<u32>, AllocError>
    ensures grown { IfOk result (λ v. IsGrown points.old.items points.new.items) }
    ensures places { IfOk result (λ v. AllByRecursion (λ at. at ≤ length points.new.items) v.items) }
    ensures rests { IfOk result (λ v.
        map (rest_at (rests_of points.new.items)) v.items ≡ map items (map sequence parts.now)) }
    ensures table { IfOk result (λ v. rests_of points.new.items ≡ rests_of points.old.items
        ++ parts_rests (map sequence parts.now)) }
{
    let mut all = Vec::new(alloc);
    for seq in parts {
        let at = add_seq(points, seq, END)?;
        all.push(at)?;
    }
    Ok(all)
}

/// The points of an outline, and those at which its parts begin.
///
/// # Errors
///
/// An allocation was refused, or there are more than 4294967295 points.
pub fn begin<'a>(alloc: Global, outline: &'a Outline) -> Result<Beginning<'a>, AllocError>
    ensures points { IfOk result (λ b. b.points ≡ point_rests outline.now) }
    ensures prologue { IfOk result (λ b.
        rest_at b.points b.prologue ≡ part_items outline.now.prologue) }
    ensures rests { IfOk result (λ b.
        map (rest_at b.points) b.rests.items ≡ map items outline.now.processes) }
    ensures epilogue { IfOk result (λ b.
        rest_at b.points b.epilogue ≡ part_items outline.now.epilogue) }
{
    let mut points = Vec::new(alloc);
    let prologue = add_part(&mut points, outline.prologue())?;
    let rests = add_parts(alloc, &mut points, outline.processes())?;
    let epilogue = add_part(&mut points, outline.epilogue())?;
    let points = Points { points };
    Ok(Beginning {
        points,
        prologue,
        rests,
        epilogue,
    })
}

impl<'a> Points<'a> {
    // The point of this number, unless nothing is left there.
    fn point(&self, at: u32) -> Option<&Point<'a>>
        ensures some { IfSome result (λ p. IsLinked self.now at p.now) }
        ensures none { IfNone result (rest_at self.now at ≡ []) }
    {
        let points = &self.points;
        if at == END {
            return None;
        }
        points.get(at as usize - 1)
    }

    /// The next item at a point; none at the end, and where there is no such point.
    pub fn item(&self, at: u32) -> Option<&'a Item>
        ensures { option_map (λ i. item_pair i.now) result ≡ slice_get (rest_at self.now at) 0 }
    {
        match self.point(at) {
            Some(point) => Some(point.item),
            None => None,
        }
    }

    /// Whether nothing is left at a point.
    pub fn is_end(&self, at: u32) -> bool
        ensures { result ≡ is_empty (rest_at self.now at) }
    {
        self.point(at).is_none()
    }

    /// The point after the next statement, whose test, if it has one, is so. The end stays the end.
    /// Takes no memory, like `item` and `is_end`.
    pub fn next(&self, at: u32, test: bool) -> u32
        ensures { rest_at self.now result ≡ passed test (rest_at self.now at) }
    {
        match self.point(at) {
            Some(point) if test => point.inside,
            Some(point) => point.otherwise,
            None => at,
        }
    }
}
