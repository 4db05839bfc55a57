//! Parts of choices that are at odds with the known facts, each by one of its inequalities.

use crate::chains::Chains;
use crate::index::Index;
use crate::open::{News, Open};
use crate::part::{Atom, Part};
use og_search_rows::{Bounds, Inequality, Rows, TOP, Term, Variables};

/// The most parts of a choice that are held against each row.
const PAIRS_LIMIT: usize = 8;

/// The most facts of one direction that are held against an inequality.
const LOOK_LIMIT: usize = 64;

/// How many facts there may be between those that are at odds with one part and the next.
const STRIDE: usize = 8;

impl Reach {
    /// How far a look goes at the parts of a choice, where it costs less than what it saves: above
    /// all choices each row is looked at.
    pub fn of_level(level: u32) -> Reach {
        if level == TOP {
            Reach::Rows
        } else {
            Reach::Near
        }
    }
}

/// What an inequality is at odds with.
#[derive(Clone, Copy)]
pub enum Cause {
    /// The condition's own fact at this place, with the same terms and the other sign.
    Fact(usize),
    /// The bounds of its variables.
    Bounds,
    /// This row, and the bounds of the variables that do not cancel out.
    Row(usize),
}

/// How far a look goes.
#[derive(Clone, Copy)]
pub enum Reach {
    /// To the bounds, and to the row with the same terms and the other sign.
    Near,
    /// To each row.
    Rows,
}

/// An inequality of a part, and what it is at odds with.
#[derive(Clone, Copy)]
pub struct Conflict<'a> {
    pub atom: &'a Atom,
    pub cause: Cause,
}

/// The facts known on the path of a search.
#[derive(Clone, Copy)]
pub struct Facts<'v> {
    pub rows: &'v Rows,
    pub base: &'v [usize],
    pub index: &'v Index,
    pub bounds: &'v Bounds,
    /// The condition's own inequalities.
    pub own: &'v [Atom],
    /// Their numbers by their directions.
    pub directions: &'v Chains,
    /// A place among them: of several that an inequality is at odds with, one of the next is taken.
    pub near: usize,
    /// A part whose inequalities are assumed, where the question is which facts are at odds with
    /// them.
    pub assumed: Option<&'v Part>,
}

// The places of a few parts of a choice.
#[derive(Clone, Copy)]
struct Few {
    places: [usize; PAIRS_LIMIT],
    count: usize,
}

impl Few {
    fn add(&mut self, place: usize) {
        if let Some(next) = self.places.get_mut(self.count) {
            *next = place;
            self.count = self.count.saturating_add(1);
        }
    }
}

// The variables of all these choices.
fn all_variables(open: &[Open]) -> Variables {
    let mut all = Variables::NONE;
    for one in open {
        all = all.union(one.variables());
    }
    all
}

// Whether a variable has coefficients of different signs in the two lists of terms: else their sum
// is no greater, at its least, than what the two are by themselves.
fn may_cancel(a: &[Term], b: &[Term]) -> bool {
    for term in a {
        if has_opposite(b, *term) {
            return true;
        }
    }
    false
}

// Whether the variable has a coefficient of the other sign among the terms.
fn has_opposite(terms: &[Term], own: Term) -> bool {
    let is_above = own.coefficient > 0;
    for term in terms {
        if term.var == own.var && (term.coefficient > 0) != is_above {
            return true;
        }
    }
    false
}

impl Facts<'_> {
    // The place of the own fact with the opposite terms with which the inequality is at odds: the
    // first one that stands near, else the first.
    fn own_opposite(&self, atom: &Atom) -> Option<usize> {
        let mut walk = self.directions.walk(atom.direction?);
        let mut best: Option<usize> = None;
        for _ in 0..LOOK_LIMIT {
            let Some(number) = walk.step() else {
                break;
            };
            best = self.better_by(best, number, atom);
        }
        best
    }

    // The better one of this place and that of the own fact with this number, where the inequality
    // is at odds with it.
    fn better_by(&self, best: Option<usize>, number: usize, atom: &Atom) -> Option<usize> {
        match self.own.get(number) {
            Some(fact) if fact.is_at_odds(atom) => Some(self.better(best, fact.index)),
            _ => best,
        }
    }

    // That place of the two that stands near, the first one where both do or neither.
    fn better(&self, first: Option<usize>, second: usize) -> usize {
        match first {
            Some(first) if self.is_near(first) == self.is_near(second) => first.min(second),
            Some(first) if self.is_near(first) => first,
            _ => second,
        }
    }

    /// Whether a place is among the next ones.
    pub fn is_near(&self, index: usize) -> bool {
        let from = self.near.saturating_sub(1);
        index >= from && index <= self.near.saturating_add(STRIDE)
    }

    // The row with the opposite terms, if the two are at odds.
    fn opposite(&self, atom: &Atom) -> Option<usize> {
        let form = &atom.form;
        let row = self.index.opposite(self.rows, form, atom.direction?)?;
        let sum = form.constant.checked_add(self.rows.form(row).constant)?;
        if sum > 0 { Some(row) } else { None }
    }

    // What an inequality of one variable at most is at odds with. The bounds tell all that facts
    // say of one variable.
    fn bounds_cause(&self, atom: &Atom) -> Option<Cause> {
        if !self.bounds.exclude(&atom.form) {
            return None;
        }
        match self.own_opposite(atom) {
            Some(index) => Some(Cause::Fact(index)),
            None => Some(Cause::Bounds),
        }
    }

    // What the inequality is at odds with, by a look at its own terms. Where it is at odds with an
    // own fact of several variables, so it is with the tightest row with the same terms.
    fn cause(&self, atom: &Atom) -> Option<Cause> {
        if atom.form.terms.len() < 2 {
            return self.bounds_cause(atom);
        }
        let Some(row) = self.opposite(atom) else {
            return if self.bounds.exclude(&atom.form) {
                Some(Cause::Bounds)
            } else {
                None
            };
        };
        match self.own_opposite(atom) {
            Some(index) => Some(Cause::Fact(index)),
            None => Some(Cause::Row(row)),
        }
    }

    // The first row with which the inequality is at odds within the bounds, where neither is so by
    // itself.
    fn row_cause(&self, atom: &Atom) -> Option<Cause> {
        atom.direction?;
        let form = &atom.form;
        for row in self.base {
            let other = self.rows.form(*row);
            let is_worth_it = other.terms.len() > 1 && may_cancel(&form.terms, &other.terms);
            if is_worth_it && self.bounds.exclude_sum(form, other) {
                return Some(Cause::Row(*row));
            }
        }
        None
    }

    // The first inequality of the part that is at odds with the known facts, by a look at its
    // terms.
    fn near_conflict<'p>(&self, part: &'p Part) -> Option<Conflict<'p>> {
        for atom in &part.atoms {
            if let Some(cause) = self.cause(atom) {
                return Some(Conflict { atom, cause });
            }
        }
        None
    }

    // The first inequality of the part that is at odds with a row.
    fn conflict_with_row<'p>(&self, part: &'p Part) -> Option<Conflict<'p>> {
        for atom in &part.atoms {
            if let Some(cause) = self.row_cause(atom) {
                return Some(Conflict { atom, cause });
            }
        }
        None
    }

    /// An inequality of the part that is at odds with the known facts.
    pub fn conflict<'p>(&self, part: &'p Part, reach: Reach) -> Option<Conflict<'p>> {
        if let Some(conflict) = self.near_conflict(part) {
            return Some(conflict);
        }
        match reach {
            Reach::Near => None,
            Reach::Rows => self.conflict_with_row(part),
        }
    }

    // Whether the inequality is at odds with the known facts, by a look at its own terms.
    fn is_near_conflict(&self, atom: &Atom) -> bool {
        let has_opposite = atom.form.terms.len() > 1 && self.opposite(atom).is_some();
        has_opposite || self.bounds.exclude(&atom.form)
    }

    // Whether an inequality of the part is at odds with the known facts.
    fn has_conflict(&self, part: &Part, reach: Reach) -> bool {
        for atom in &part.atoms {
            if self.is_near_conflict(atom) {
                return true;
            }
        }
        match reach {
            Reach::Near => false,
            Reach::Rows => self.conflict_with_row(part).is_some(),
        }
    }

    // Whether an inequality of the part is at odds with one that is assumed.
    fn is_denied(&self, part: &Part) -> bool {
        match self.assumed {
            Some(assumed) => assumed.contradicts(part),
            None => false,
        }
    }

    // Whether the part is at odds with the known facts or the assumed ones.
    #[cycle(shutting)]
    fn is_shut(&self, part: &Part, reach: Reach) -> bool {
        if self.is_denied(part) || self.has_conflict(part, reach) {
            return true;
        }
        for choice in &part.choices {
            if self.are_shut(&choice.parts, reach) {
                return true;
            }
        }
        false
    }

    /// Whether each of the parts is at odds with the known facts or the assumed ones.
    #[cycle(shutting)]
    pub fn are_shut(&self, parts: &[Part], reach: Reach) -> bool {
        for part in parts {
            if !self.is_shut(part, reach) {
                return false;
            }
        }
        true
    }

    // The places of the parts that are not at odds with the known facts, by a look at their terms;
    // none where there are more than this many.
    fn open_parts(&self, parts: &[Part], most: usize) -> Option<Few> {
        let mut open = Few {
            places: [0; PAIRS_LIMIT],
            count: 0,
        };
        for (place, part) in parts.iter().enumerate() {
            if !self.is_shut(part, Reach::Near) {
                if open.count >= most {
                    return None;
                }
                open.add(place);
            }
        }
        Some(open)
    }

    // Whether each of these parts is at odds with the known facts.
    fn are_shut_at(&self, parts: &[Part], few: Few, reach: Reach) -> bool {
        for place in few.places.iter().take(few.count) {
            match parts.get(*place) {
                Some(part) if self.is_shut(part, reach) => {}
                _ => return false,
            }
        }
        true
    }

    // Whether each part is at odds with the known facts. Those that are not so nearby are held
    // against each row, if the look goes so far and they are few.
    fn is_refuted(&self, parts: &[Part], reach: Reach) -> bool {
        match reach {
            Reach::Near => self.are_shut(parts, reach),
            Reach::Rows => {
                let most = PAIRS_LIMIT.min(parts.len() / 2);
                match self.open_parts(parts, most) {
                    Some(few) => self.are_shut_at(parts, few, reach),
                    None => false,
                }
            }
        }
    }

    // Whether one of these choices with one of the variables has no way left.
    fn shuts_some(&self, open: &[Open], variables: Variables) -> bool {
        for one in open {
            let may_shut = !one.is_taken && one.variables().may_meet(variables);
            if may_shut && self.are_shut(one.parts, Reach::Near) {
                return true;
            }
        }
        false
    }

    // Whether the facts of the part leave one of these choices no way, of which none has no way
    // without them.
    fn shuts_one(&self, part: &Part, open: &[Open]) -> bool {
        let with = Facts {
            rows: self.rows,
            base: self.base,
            index: self.index,
            bounds: self.bounds,
            own: self.own,
            directions: self.directions,
            near: self.near,
            assumed: Some(part),
        };
        with.shuts_some(open, part.variables)
    }

    // Whether each of the parts is at odds with the known facts, or leaves one of these choices no
    // way.
    fn all_shut_one(&self, parts: &[Part], open: &[Open]) -> bool {
        for part in parts {
            if !self.is_shut(part, Reach::Near) && !self.shuts_one(part, open) {
                return false;
            }
        }
        true
    }

    // The first choice with the fewest parts, among those that are open and each of whose parts is
    // at odds with the known facts, or leaves one of the others no way.
    fn shutting(&self, open: &[Open], others: &[Open]) -> Option<usize> {
        let mut best = None;
        let mut least = usize::MAX;
        let shared = all_variables(others);
        for (i, one) in open.iter().enumerate() {
            let is_shorter = !one.is_taken && one.parts.len() < least;
            let may_shut = is_shorter && one.variables().may_meet(shared);
            if may_shut && self.all_shut_one(one.parts, others) {
                least = one.parts.len();
                best = Some(i);
            }
        }
        best
    }

    // The first of these choices all of whose parts but one at most are at odds with the known
    // facts.
    fn single(&self, open: &[Open]) -> Option<usize> {
        for (i, one) in open.iter().enumerate() {
            if !one.is_taken && self.open_parts(one.parts, 1).is_some() {
                return Some(i);
            }
        }
        None
    }

    /// A choice each of whose parts is at odds with the known facts, or leaves one of the last
    /// choices no way, which stand from a place on; if there is one, and all parts but one of one
    /// of the last choices are at odds with the known facts, that one.
    pub fn denied(&self, open: &[Open], from: usize) -> Option<usize> {
        let last = open.get(from..)?;
        let shutting = self.shutting(open.get(..from)?, last)?;
        match self.single(last) {
            Some(place) => Some(from.saturating_add(place)),
            None => Some(shutting),
        }
    }

    /// The first choice with the fewest parts, among those that are open, that the news concern,
    /// and each of whose parts is at odds with the known facts.
    pub fn refuted(&self, open: &[Open], reach: Reach, news: News) -> Option<usize> {
        let mut best = None;
        let mut least = usize::MAX;
        for (i, one) in open.iter().enumerate() {
            let is_shorter = !one.is_taken && one.parts.len() < least && news.concern(i, one);
            if is_shorter && self.is_refuted(one.parts, reach) {
                least = one.parts.len();
                best = Some(i);
            }
        }
        best
    }
}
