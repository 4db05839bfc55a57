//! Breaking lines that are too long.

ghost use Rattle.std.specs.Prelude.{◌<◌, ◌≤◌, length};

use crate::spaced::{Gap, Spaced};

// The last column that a line takes where it can be broken.
const COLUMNS: usize = 100;

// How often the lines of a text are gone over. Assertions have at most 100 levels, of three
// connectives each.
const PASSES: usize = 400;

// The index behind the line that begins at this one.
fn line_end(parts: &[Spaced], from: usize) -> usize
    requires { from < length parts.now }
    ensures behind { from < result }
    ensures within { result ≤ length parts.now }
{
    let mut to = from + 1;
    'line: while to < parts.len() && parts[to].gap != Gap::Line {
        to += 1;
    }
    to
}

fn width(line: &[Spaced]) -> usize {
    let mut width: usize = 0;
    for part in line {
        width = width.saturating_add(part.width());
    }
    width
}

// The rank of the outermost connectives behind the first word of a line.
fn outermost(line: &[Spaced]) -> Option<usize> {
    let [_, others @ ..] = line else {
        return None;
    };
    others.iter().filter_map(|part| part.rank).min()
}

// Breaks a line in front of the parts of a rank.
fn break_at(line: &mut [Spaced], rank: usize) {
    let [first, others @ ..] = line else {
        return;
    };
    let level = first.continued;
    first.continued = level.saturating_add(2);
    for part in others {
        if part.rank == Some(rank) {
            part.gap = Gap::Line;
            part.level = level;
            part.continued = level.saturating_add(2);
        }
    }
}

// Breaks a line that is too long at its outermost connectives. Returns whether it did.
fn break_line(line: &mut [Spaced]) -> bool {
    if width(line) <= COLUMNS {
        return false;
    }
    let Some(rank) = outermost(line) else {
        return false;
    };
    break_at(line, rank);
    true
}

// Breaks each line that is too long once. Returns whether one was.
fn break_once(parts: &mut [Spaced]) -> bool {
    let mut is_broken = false;
    let mut from = 0;
    'lines: while from < parts.len() {
        let to = line_end(parts, from);
        if break_line(&mut parts[from..to]) {
            is_broken = true;
        }
        from = to;
    }
    is_broken
}

/// Breaks lines that are too long at their connectives, from the outermost ones inwards.
pub(crate) fn break_long_lines(parts: &mut [Spaced]) {
    for _ in 0..PASSES {
        if !break_once(parts) {
            return;
        }
    }
}
