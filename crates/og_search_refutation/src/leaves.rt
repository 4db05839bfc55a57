//! The leaves of a refutation. Sums of sums become one sum, so there are lines for divided rows
//! alone; only where a multiplier is too large, there is one for each row that the last row rests
//! on.

use crate::fault::Unwritten;
use crate::proof::{Line, Multiple, Name, Proof, Tree};
use og_search_rows::{Origin, Rows, Summand};
use std::alloc::AllocError;

/// The greatest multiplier of a sum that takes the place of sums.
const MOST_TIMES: u64 = 9_223_372_036_854_775_807;

// The lines of a leaf, and the place of each row's line among them.
#[derive(Drop)]
struct Lines<'a> {
    rows: &'a Rows,
    lines: Vec<Line>,
    places: Vec<usize>,
}

fn mark(wanted: &mut [bool], row: usize) {
    if let Some(place) = wanted.get_mut(row) {
        *place = true;
    }
}

// Marks the rows of which a row was made.
fn mark_parts(wanted: &mut [bool], origin: &Origin) {
    match origin {
        Origin::Sum(sum) => {
            for part in sum {
                mark(wanted, part.row);
            }
        }
        Origin::Cut { row, .. } => mark(wanted, *row),
        Origin::Given(_) | Origin::Range { .. } => {}
    }
}

// Which rows this one rests on, itself among them.
fn rows_needed(rows: &Rows, last: usize) -> Result<Vec<bool>, AllocError> {
    let mut wanted = vec![in rows.alloc(); false; rows.len()]?;
    mark(&mut wanted, last);
    for row in (0..rows.len()).rev() {
        if wanted.get(row) == Some(&true) {
            if let Some(origin) = rows.origin(row) {
                mark_parts(&mut wanted, origin);
            }
        }
    }
    Ok(wanted)
}

// Adds this many times a sum to the multiples of rows. Returns whether all of them fit.
fn add_shares(shares: &mut [u64], sum: &[Summand], times: u64) -> bool {
    for part in sum {
        let Some(place) = shares.get_mut(part.row) else {
            return false;
        };
        let added = match part.times.checked_mul(times) {
            Some(more) => place.checked_add(more),
            None => None,
        };
        match added {
            Some(share) if share <= MOST_TIMES => *place = share,
            _ => return false,
        }
    }
    true
}

// The row as a sum of rows that are no sums; none where a multiplier is too large.
fn flattened(rows: &Rows, last: usize) -> Result<Option<Vec<Summand>>, AllocError> {
    let count = last.saturating_add(1);
    let mut shares = vec![in rows.alloc(); 0; count]?;
    if let Some(place) = shares.get_mut(last) {
        *place = 1;
    }
    let mut flat = Vec::new(rows.alloc());
    for row in (0..count).rev() {
        let times = shares.get(row).copied().unwrap_or(0);
        match rows.origin(row) {
            _ if times == 0 => {}
            Some(Origin::Sum(sum)) => {
                if !add_shares(&mut shares, sum, times) {
                    return Ok(None);
                }
            }
            _ => flat.push(Summand { times, row })?,
        }
    }
    flat.reverse();
    Ok(Some(flat))
}

// A divided row, and the row that it divides as a sum of rows that are no sums.
#[derive(Drop)]
struct Divided {
    row: usize,
    divisor: i128,
    sum: Vec<Summand>,
}

// The divided row of this number, if it is one; none as a sum where a multiplier is too large.
fn divided_row(rows: &Rows, row: usize) -> Result<Option<Divided>, Unwritten> {
    let Some(
        Origin::Cut {
            row: source,
            divisor,
        },
    ) = rows.origin(row)
    else {
        return Ok(None);
    };
    let divisor = *divisor;
    let sum = flattened(rows, *source)?.ok_or(Unwritten::TooLarge)?;
    Ok(Some(Divided { row, divisor, sum }))
}

// Marks the rows of a sum.
fn mark_all(wanted: &mut [bool], sum: &[Summand]) {
    for part in sum {
        mark(wanted, part.row);
    }
}

// The divided rows on which a sum rests, the last one first.
fn divided_rows(rows: &Rows, sum: &[Summand]) -> Result<Vec<Divided>, Unwritten> {
    let mut wanted = vec![in rows.alloc(); false; rows.len()]?;
    mark_all(&mut wanted, sum);
    let mut found = Vec::new(rows.alloc());
    for row in (0..rows.len()).rev() {
        if wanted.get(row) == Some(&true) {
            if let Some(one) = divided_row(rows, row)? {
                mark_all(&mut wanted, &one.sum);
                found.push(one)?;
            }
        }
    }
    Ok(found)
}

// The leaf with lines for divided rows alone; none where a multiplier is too large.
fn short_leaf(rows: &Rows, last: usize) -> Result<Option<Proof>, Unwritten> {
    let Some(sum) = flattened(rows, last)? else {
        return Ok(None);
    };
    match lines_for(rows, &sum) {
        Ok(lines) => {
            let end = lines.multiples(&sum)?;
            Ok(Some(proof_of(rows, last, lines, end)))
        }
        Err(Unwritten::TooLarge) => Ok(None),
        Err(stop) => Err(stop),
    }
}

// The lines of the divided rows on which a sum rests.
fn lines_for<'a>(rows: &'a Rows, sum: &[Summand]) -> Result<Lines<'a>, Unwritten> {
    if is_plain(rows, sum) {
        return Ok(Lines::empty(rows));
    }
    let mut lines = Lines::new(rows)?;
    for one in divided_rows(rows, sum)?.iter().rev() {
        lines.add_divided(one)?;
    }
    Ok(lines)
}

impl<'a> Lines<'a> {
    fn new(rows: &'a Rows) -> Result<Lines<'a>, AllocError> {
        Ok(Lines {
            rows,
            lines: Vec::new(rows.alloc()),
            places: vec![in rows.alloc(); 0; rows.len()]?,
        })
    }

    // No lines, where no row needs one.
    fn empty(rows: &'a Rows) -> Lines<'a> {
        Lines {
            rows,
            lines: Vec::new(rows.alloc()),
            places: Vec::new(rows.alloc()),
        }
    }

    // The name of a row: of what it is, or of its line.
    fn name(&self, row: usize) -> Name {
        match self.rows.origin(row) {
            Some(Origin::Given(place)) => Name::Given(*place),
            Some(Origin::Range { var, side }) => {
                let (var, side) = (*var, *side);
                Name::Range { var, side }
            }
            _ => Name::Line(self.places.get(row).copied().unwrap_or(0)),
        }
    }

    fn multiples(&self, sum: &[Summand]) -> Result<Vec<Multiple>, Unwritten> {
        let mut multiples = Vec::with_capacity(self.rows.alloc(), sum.len())?;
        for part in sum {
            let times = part.times;
            let name = self.name(part.row);
            multiples.push(Multiple { times, name })?;
        }
        Ok(multiples)
    }

    // The line of a row, if it is no fact and no bound.
    fn line(&self, row: usize) -> Result<Option<Line>, Unwritten> {
        match self.rows.origin(row) {
            Some(Origin::Sum(sum)) => Ok(Some(Line::Sum(self.multiples(sum)?))),
            Some(Origin::Cut { row, divisor }) => {
                let divisor = u64::try_from(*divisor).ok().ok_or(Unwritten::TooLarge)?;
                let name = self.name(*row);
                Ok(Some(Line::Cut { name, divisor }))
            }
            _ => Ok(None),
        }
    }

    // Adds the line of a row, if it has one, and notes where that stands.
    fn add(&mut self, row: usize) -> Result<(), Unwritten> {
        if let Some(line) = self.line(row)? {
            self.note(row);
            self.lines.push(line)?;
        }
        Ok(())
    }

    // Notes that the next line is that of the row.
    fn note(&mut self, row: usize) {
        if let Some(place) = self.places.get_mut(row) {
            *place = self.lines.len();
        }
    }

    // The name of a sum, by a line of its own where it is more than one row.
    fn name_of_sum(&mut self, sum: &[Summand]) -> Result<Name, Unwritten> {
        if let [only] = sum {
            if only.times == 1 {
                return Ok(self.name(only.row));
            }
        }
        let name = Name::Line(self.lines.len());
        let line = Line::Sum(self.multiples(sum)?);
        self.lines.push(line)?;
        Ok(name)
    }

    // Adds the line of a divided row, and that of the sum that it divides.
    fn add_divided(&mut self, one: &Divided) -> Result<(), Unwritten> {
        let divisor = u64::try_from(one.divisor).ok().ok_or(Unwritten::TooLarge)?;
        let name = self.name_of_sum(&one.sum)?;
        self.note(one.row);
        self.lines.push(Line::Cut { name, divisor })?;
        Ok(())
    }

    // The sum that closes with the last row.
    fn closing(&self, last: usize) -> Result<Vec<Multiple>, Unwritten> {
        match self.rows.origin(last) {
            Some(Origin::Sum(sum)) => self.multiples(sum),
            _ => self.multiples(&[Summand {
                times: 1,
                row: last,
            }]),
        }
    }
}

// Whether each row of the sum is a fact or a bound, and none needs a line.
fn is_plain(rows: &Rows, sum: &[Summand]) -> bool {
    sum.iter().all(|part| {
        matches!(
            rows.origin(part.row),
            Some(Origin::Given(_) | Origin::Range { .. })
        )
    })
}

// Whether the row needs no line of other rows.
fn is_alone(rows: &Rows, row: usize) -> bool {
    match rows.origin(row) {
        Some(Origin::Sum(sum)) => is_plain(rows, sum),
        Some(Origin::Given(_)) => true,
        _ => false,
    }
}

/// The leaf that ends with this row, a constant above 0.
pub fn leaf(rows: &Rows, last: usize) -> Result<Proof, Unwritten> {
    if is_alone(rows, last) {
        return leaf_of(rows, last, Lines::empty(rows));
    }
    match short_leaf(rows, last)? {
        Some(proof) => Ok(proof),
        None => long_leaf(rows, last),
    }
}

// The leaf with a line for each row.
fn long_leaf(rows: &Rows, last: usize) -> Result<Proof, Unwritten> {
    let wanted = rows_needed(rows, last)?;
    let mut lines = Lines::new(rows)?;
    for (row, is_wanted) in wanted.iter().take(last).enumerate() {
        if *is_wanted {
            lines.add(row)?;
        }
    }
    leaf_of(rows, last, lines)
}

// The leaf that ends with this row after these lines.
fn leaf_of(rows: &Rows, last: usize, lines: Lines) -> Result<Proof, Unwritten> {
    let end = lines.closing(last)?;
    Ok(proof_of(rows, last, lines, end))
}

fn proof_of(rows: &Rows, last: usize, lines: Lines, end: Vec<Multiple>) -> Proof {
    Proof {
        used: rows.used(last),
        tree: Tree::Leaf {
            lines: lines.lines,
            end,
        },
    }
}
