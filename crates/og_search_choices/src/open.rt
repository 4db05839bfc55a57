//! The choices that are open on the path of a search, and which of them is taken next.

use crate::part::{Atom, Choice, Known, Part, some_follows, ways, width};
use og_search_rows::{Bounds, Inequality, Model, Place, Rows, Variables};
use std::alloc::{AllocError, Global};

/// The most parts of a choice that is looked into.
const LOOK_LIMIT: usize = 32;

/// A choice among the facts on the path: its parts, and how many facts are looked at in them; the
/// choice itself, and without what others have too, if it is one of these.
#[derive(Clone, Copy)]
pub struct Open<'a> {
    pub place: Place,
    pub parts: &'a [Part],
    pub size: usize,
    pub is_taken: bool,
    choice: &'a Choice,
    rest: Option<&'a Choice>,
}

/// An inequality that all parts of a choice imply, and the number of the choice.
#[derive(Drop)]
pub struct Common {
    pub choice: usize,
    pub form: Inequality,
}

/// What changed since the choices on the path were last all looked at in vain: something became
/// known of these variables, and the choices from a number on are new.
#[derive(Clone, Copy)]
pub struct News {
    variables: Variables,
    from: usize,
}

impl News {
    /// All is new.
    pub const ALL: News = News {
        variables: Variables::ALL,
        from: 0,
    };

    /// Nothing is new, where there are this many choices on the path.
    pub fn none(choices: usize) -> News {
        News {
            variables: Variables::NONE,
            from: choices,
        }
    }

    /// With news of these variables too.
    pub fn with(self, variables: Variables) -> News {
        News {
            variables: self.variables.union(variables),
            from: self.from,
        }
    }

    /// Whether the choice with this number is new, or something may have become known of one of its
    /// variables.
    pub fn concern(self, number: usize, choice: &Open) -> bool {
        number >= self.from || choice.variables().may_meet(self.variables)
    }
}

/// The number of a choice, and how many ways it has.
#[derive(Clone, Copy)]
pub struct Candidate {
    pub choice: usize,
    pub ways: usize,
}

impl<'a> Open<'a> {
    /// A choice that is not taken, at this place.
    pub fn new(place: Place, choice: &'a Choice, rest: Option<&'a Choice>) -> Open<'a> {
        Open {
            place,
            parts: &choice.parts,
            size: choice.size,
            is_taken: false,
            choice,
            rest,
        }
    }

    /// The variables that occur in it.
    pub fn variables(&self) -> Variables {
        self.choice.variables
    }

    /// Whether it has facts in common with others.
    pub fn is_sharing(&self) -> bool {
        self.rest.is_some()
    }

    /// From now on its facts in common with others are looked at or not.
    pub fn set_whole(&mut self, is_whole: bool) {
        let choice = if is_whole {
            self.choice
        } else {
            self.rest.unwrap_or(self.choice)
        };
        self.parts = &choice.parts;
        self.size = choice.size;
    }

    // Whether all facts of some part are true by the known facts.
    fn follows(&self, known: Known) -> bool {
        some_follows(&self.choice.parts, known)
    }
}

/// How many facts there are in the parts of those of these choices that are not taken.
pub fn weight(open: &[Open]) -> usize {
    let mut weight = 0usize;
    for one in open {
        if !one.is_taken {
            weight = weight.saturating_add(one.size);
        }
    }
    weight
}

/// The choices that are open, by their numbers. `AllocError` where an allocation was refused.
pub fn untaken(alloc: Global, open: &[Open]) -> Result<Vec<usize>, AllocError> {
    let mut untaken = Vec::new(alloc);
    for (i, one) in open.iter().enumerate() {
        if !one.is_taken {
            untaken.push(i)?;
        }
    }
    Ok(untaken)
}

/// Those that do not hold of the values. `AllocError` where an allocation was refused.
pub fn failing(alloc: Global, open: &[Open], model: &Model) -> Result<Vec<usize>, AllocError> {
    let mut failing = Vec::new(alloc);
    for (i, one) in open.iter().enumerate() {
        if !one.is_taken && !one.follows(Known::Values(model)) {
            failing.push(i)?;
        }
    }
    Ok(failing)
}

/// The first open choice that has no way left, else the first that has one and no part that is
/// known, among those that the news concern.
pub fn forced(open: &[Open], bounds: &Bounds, news: News) -> Option<usize> {
    let mut single = None;
    for (i, one) in open.iter().enumerate() {
        if one.is_taken || !news.concern(i, one) {
            continue;
        }
        match ways(one.parts, bounds, 2) {
            0 => return Some(i),
            1 if single.is_none() && !one.follows(Known::Bounds(bounds)) => single = Some(i),
            _ => {}
        }
    }
    single
}

/// The first of these choices that has no way left, else the first that has one.
pub fn forced_among(open: &[Open], among: &[usize], bounds: &Bounds) -> Option<usize> {
    let mut single = None;
    for i in among {
        let parts = open.get(*i)?.parts;
        match ways(parts, bounds, 2) {
            0 => return Some(*i),
            1 if single.is_none() => single = Some(*i),
            _ => {}
        }
    }
    single
}

// The candidate with fewer ways, the first where both have as many.
fn narrower(first: Option<Candidate>, second: Candidate) -> Candidate {
    match first {
        Some(first) if first.ways <= second.ways => first,
        _ => second,
    }
}

// Whether one of the inequalities has one variable.
fn some_bounds(part: &Part) -> bool {
    for atom in &part.atoms {
        if atom.form.terms.len() == 1 {
            return true;
        }
    }
    false
}

// The bounds with those that the inequalities of one variable add, if they add some.
fn bounds_with(part: &Part, bounds: &Bounds) -> Result<Option<Bounds>, AllocError> {
    if !some_bounds(part) {
        return Ok(None);
    }
    let mut own = bounds.copy()?;
    let mut is_better = false;
    for atom in &part.atoms {
        if own.take(&atom.form, None)?.is_some() {
            is_better = true;
        }
    }
    if is_better { Ok(Some(own)) } else { Ok(None) }
}

// Whether a variable of the inequality has no value left.
fn is_emptied(atom: &Atom, bounds: &Bounds) -> bool {
    for term in &atom.form.terms {
        if bounds.is_empty_at(term.var) {
            return true;
        }
    }
    false
}

// Whether a variable of one of the inequalities has no value left.
fn some_emptied(part: &Part, bounds: &Bounds) -> bool {
    for atom in &part.atoms {
        if is_emptied(atom, bounds) {
            return true;
        }
    }
    false
}

/// What a choice is looked at against: the rows and the choices of the path, and the bounds.
#[derive(Clone, Copy)]
pub struct View<'v, 'a> {
    pub rows: &'v Rows,
    pub base: &'v [usize],
    pub open: &'v [Open<'a>],
    pub bounds: &'v Bounds,
}

impl View<'_, '_> {
    // Whether a row is false within the bounds.
    fn some_excluded(&self, bounds: &Bounds) -> bool {
        for row in self.base {
            if bounds.exclude(self.rows.form(*row)) {
                return true;
            }
        }
        false
    }

    // Whether another open choice has no way left within the bounds.
    fn some_shut(&self, but: usize, bounds: &Bounds) -> bool {
        for (i, one) in self.open.iter().enumerate() {
            if i != but && !one.is_taken && ways(one.parts, bounds, 1) == 0 {
                return true;
            }
        }
        false
    }

    // Whether these bounds leave each variable of the part a value, and each row and each other
    // choice a way.
    fn is_alive_within(&self, part: &Part, own: usize, bounds: &Bounds) -> bool {
        !some_emptied(part, bounds) && !self.some_excluded(bounds) && !self.some_shut(own, bounds)
    }

    // Whether the bounds, with those of the part, leave each row and each other choice a way.
    fn is_alive(&self, part: &Part, own: usize) -> Result<bool, AllocError> {
        if width(part, self.bounds, 1) == 0 {
            return Ok(false);
        }
        match bounds_with(part, self.bounds)? {
            Some(bounds) => Ok(self.is_alive_within(part, own, &bounds)),
            None => Ok(true),
        }
    }

    // Whether no part of the choice is alive.
    fn is_dead(&self, parts: &[Part], own: usize) -> Result<bool, AllocError> {
        for part in parts {
            if self.is_alive(part, own)? {
                return Ok(false);
            }
        }
        Ok(true)
    }

    /// The first of these choices with the fewest ways.
    pub fn narrowest(&self, among: &[usize]) -> Option<Candidate> {
        let mut best = None;
        let mut most = usize::MAX;
        for choice in among {
            let choice = *choice;
            let ways = ways(self.open.get(choice)?.parts, self.bounds, most);
            most = most.min(ways);
            best = Some(narrower(best, Candidate { choice, ways }));
        }
        best
    }

    /// The first choice with the fewest ways among those of which no part is alive. This looks into
    /// all choices for each part of a choice.
    pub fn dead_choice(&self) -> Result<Option<Candidate>, AllocError> {
        let mut best = None;
        for (choice, one) in self.open.iter().enumerate() {
            if !one.is_taken && one.parts.len() <= LOOK_LIMIT && self.is_dead(one.parts, choice)? {
                let ways = ways(one.parts, self.bounds, usize::MAX);
                best = Some(narrower(best, Candidate { choice, ways }));
            }
        }
        Ok(best)
    }
}

// The greatest constant of the inequalities with these terms.
fn tightest(part: &Part, form: &Inequality) -> Option<i128> {
    let mut best: Option<i128> = None;
    for atom in &part.atoms {
        if atom.form.is_parallel(form) {
            let constant = atom.form.constant;
            best = Some(best.unwrap_or(constant).max(constant));
        }
    }
    best
}

// The parts that have a way.
fn left<'a>(
    alloc: Global,
    parts: &'a [Part],
    bounds: &Bounds,
) -> Result<Vec<&'a Part>, AllocError> {
    let mut left = Vec::new(alloc);
    for part in parts {
        if width(part, bounds, 1) > 0 {
            left.push(part)?;
        }
    }
    Ok(left)
}

// The least of the constants with which each of these parts bounds these terms.
fn weakest(parts: &[&Part], form: &Inequality) -> Option<i128> {
    let mut weakest = form.constant;
    for part in parts {
        weakest = weakest.min(tightest(part, form)?);
    }
    Some(weakest)
}

// The inequality with these terms that each of these parts implies, where it is false of the
// values.
fn row_with(
    alloc: Global,
    parts: &[&Part],
    form: &Inequality,
    model: &Model,
) -> Result<Option<Inequality>, AllocError> {
    if form.terms.is_empty() || form.holds(model) {
        return Ok(None);
    }
    let Some(constant) = weakest(parts, form) else {
        return Ok(None);
    };
    let mut row = Inequality::number(alloc, constant);
    row.terms.extend_from_slice(&form.terms)?;
    if row.holds(model) {
        Ok(None)
    } else {
        Ok(Some(row))
    }
}

// An inequality that each part that has a way implies, and that is false of the values, where
// several have one.
fn common_row(
    alloc: Global,
    parts: &[Part],
    bounds: &Bounds,
    model: &Model,
) -> Result<Option<Inequality>, AllocError> {
    let left = left(alloc, parts, bounds)?;
    let [first, _, ..] = left.as_slice() else {
        return Ok(None);
    };
    for atom in &first.atoms {
        let row = row_with(alloc, &left, &atom.form, model)?;
        if row.is_some() {
            return Ok(row);
        }
    }
    Ok(None)
}

/// The first of these choices, which are false of the values, with an inequality that all its parts
/// imply, and that is false of the values too.
pub fn common_to_choice(
    alloc: Global,
    open: &[Open],
    among: &[usize],
    bounds: &Bounds,
    model: &Model,
) -> Result<Option<Common>, AllocError> {
    for choice in among {
        let choice = *choice;
        if let Some(one) = open.get(choice) {
            if let Some(form) = common_row(alloc, one.parts, bounds, model)? {
                return Ok(Some(Common { choice, form }));
            }
        }
    }
    Ok(None)
}
