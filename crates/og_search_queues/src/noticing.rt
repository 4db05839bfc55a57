//! The looks for a queue among the choices on the path.

use crate::candidates::{Candidate, Hidden, candidates, hidden_pairs, range_of};
use crate::entries::Maker;
use crate::missed::Missed;
use crate::narrowing::Ground;
use crate::queue::{Queue, Var};
use og_search_choices::View;
use og_search_rows::{Inequality, Levels, Origin, Place, Side, Term};
use std::alloc::{AllocError, Global};

/// The fewest entries: fewer are left to the search.
const FEWEST: usize = 6;

/// The most entries: a refutation of more is too large.
const MOST: usize = 10;

/// The lowest level at which a queue is refuted, so that levels are left for it.
const LEVEL: u32 = 120;

/// The facts seen at a level, and how many facts on the path were looked at for it.
#[derive(Drop)]
pub struct Seen {
    pub detection: Detection,
    pub looks: usize,
}

/// The facts seen at a level.
#[derive(Drop)]
pub enum Detection {
    /// No queue.
    Nothing,
    /// A queue, once it is known that this form is above 0: that the counter has no more values.
    Bound(Inequality),
    /// A queue.
    Queue(Queue),
}

/// What counts the entries that are through: a sum of flags that is at most the counter.
#[derive(Clone, Copy)]
struct Count<'v> {
    place: Place,
    form: &'v Inequality,
}

/// The values of the counter.
#[derive(Clone, Copy)]
struct Values {
    least: i128,
    most: i128,
}

// Whether the inequality is that the counter is at least a sum of this many variables or more.
fn is_count(form: &Inequality, counter: Var, fewest: usize) -> bool {
    if form.terms.len() <= fewest {
        return false;
    }
    for term in &form.terms {
        let coefficient = if term.var == counter { -1 } else { 1 };
        if term.coefficient != coefficient {
            return false;
        }
    }
    form.coefficient(counter) == -1
}

// The first fact on the path that says so.
fn count_of<'v>(view: View<'v, '_>, counter: Var, fewest: usize) -> Option<Count<'v>> {
    for row in view.base {
        if let Some(Origin::Given(place)) = view.rows.origin(*row) {
            let form = view.rows.form(*row);
            if is_count(form, counter, fewest) {
                let place = *place;
                return Some(Count { place, form });
            }
        }
    }
    None
}

// The variables of a count.
fn counted(alloc: Global, count: Count, counter: Var) -> Result<Vec<Var>, AllocError> {
    let mut flags = Vec::with_capacity(alloc, count.form.terms.len())?;
    for term in &count.form.terms {
        if term.var != counter {
            flags.push(term.var)?;
        }
    }
    Ok(flags)
}

// The facts that the flags of others than the entries are at least what they are, and the least
// value of the counter where no entry is through.
fn others(
    ground: &mut Ground,
    count: Count,
    counter: Var,
    flags: &[Var],
) -> Result<(Vec<Place>, i128), Missed> {
    let mut places = Vec::new(ground.alloc);
    let mut sum = count.form.constant;
    for term in &count.form.terms {
        if term.var != counter && !flags.contains(&term.var) {
            let low = ground.view.bounds.get(term.var, Side::Lower).value;
            places.push(ground.path_fact(&[(term.var, -1)], low)?)?;
            sum = sum.saturating_add(low);
        }
    }
    Ok((places, sum))
}

// Whether the entries are as many as the values.
fn is_full(entries: usize, values: Values) -> bool {
    match values.most.checked_sub(values.least) {
        Some(gap) => values.least >= 0 && gap.checked_add(1) == Some(entries as i128),
        None => false,
    }
}

// The maker with the entries of all these candidates, whose numbers are less than the end, with the
// choices that hide that two numbers differ.
fn made<'a, 'h>(
    ground: &mut Ground<'_, 'a>,
    candidates: &[Candidate<'a>],
    hidden: &'h [Hidden],
    count: Count,
    counter: Var,
    end: Var,
) -> Result<Maker<'a, 'h>, Missed> {
    let counted = counted(ground.alloc, count, counter)?;
    let mut maker = Maker::new(ground.alloc, counted, end, hidden);
    for candidate in candidates {
        maker.add(ground, *candidate)?;
    }
    Ok(maker)
}

// The greatest value of a number that is less than the end.
fn most_of(view: View, end: Var) -> i128 {
    let end = view.bounds.get(end, Side::Upper).value;
    end.saturating_sub(1)
}

// The queue of what was made, where the entries are as many as the values of the counter.
fn finished(
    ground: &mut Ground,
    maker: Maker,
    count: Count,
    counter: Var,
    end: Var,
    level: u32,
) -> Result<Queue, Missed> {
    let (others, least) = others(ground, count, counter, &maker.flags)?;
    let most = most_of(ground.view, end);
    if !is_full(maker.entries.len(), Values { least, most }) {
        return Err(Missed::Fact);
    }
    Ok(Queue {
        level,
        counter,
        count: count.place,
        others,
        least,
        most,
        end,
        entries: maker.entries,
        flags: maker.flags,
        pairs: maker.pairs,
        used: ground.used,
    })
}

// The queue of these candidates, the first of which is this one, with the choices that hide that
// two numbers differ.
fn gathered<'a>(
    ground: &mut Ground<'_, 'a>,
    candidates: &[Candidate<'a>],
    hidden: &[Hidden],
    first: Candidate,
    level: u32,
) -> Result<Queue, Missed> {
    let counter = first.counter;
    let end = range_of(ground.view, first).ok_or(Missed::Fact)?.end;
    let count = count_of(ground.view, counter, candidates.len()).ok_or(Missed::Fact)?;
    ground.note(count.place);
    let maker = made(ground, candidates, hidden, count, counter, end)?;
    finished(ground, maker, count, counter, end, level)
}

// The queue, or the form that has to be above 0 before.
fn detection_of(alloc: Global, view: View, queue: Queue) -> Result<Detection, AllocError> {
    let most = queue.most;
    if view.bounds.get(queue.counter, Side::Upper).value <= most {
        return Ok(Detection::Queue(queue));
    }
    match most.checked_add(1) {
        Some(constant) if view.bounds.get(queue.counter, Side::Lower).value <= most => {
            let term = Term {
                var: queue.counter,
                coefficient: -1,
            };
            Ok(Detection::Bound(Inequality::single(alloc, term, constant)?))
        }
        _ => Ok(Detection::Nothing),
    }
}

// What these candidates are.
fn look_at<'a>(
    ground: &mut Ground<'_, 'a>,
    candidates: &[Candidate<'a>],
    hidden: &[Hidden],
    level: u32,
) -> Result<Detection, AllocError> {
    let Some(first) = candidates.first().copied() else {
        return Ok(Detection::Nothing);
    };
    if candidates.len() < FEWEST || candidates.len() > MOST {
        return Ok(Detection::Nothing);
    }
    match gathered(ground, candidates, hidden, first, level) {
        Ok(queue) => detection_of(ground.alloc, ground.view, queue),
        Err(Missed::Fact) => Ok(Detection::Nothing),
        Err(Missed::Memory) => Err(AllocError),
    }
}

/// A queue of 6 to 10 entries, to be refuted below this level, if one is seen.
///
/// # Errors
///
/// `AllocError` where an allocation was refused.
pub fn look(alloc: Global, view: View, level: u32) -> Result<Seen, AllocError> {
    let mut ground = Ground {
        alloc,
        view,
        used: Levels::NONE,
        looks: 0,
    };
    let hidden = hidden_pairs(alloc, view.open)?;
    if level < LEVEL || hidden.len() < FEWEST {
        let detection = Detection::Nothing;
        return Ok(Seen {
            detection,
            looks: 0,
        });
    }
    let candidates = candidates(alloc, view, &hidden)?;
    let detection = look_at(&mut ground, &candidates, &hidden, level)?;
    let looks = ground.looks;
    Ok(Seen { detection, looks })
}
