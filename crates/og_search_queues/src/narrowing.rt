//! Choices of which the facts that are known leave one part, or two.

use crate::missed::Missed;
use og_search_choices::{Atom, Part, View};
use og_search_rows::{Inequality, Levels, Origin, Place};
use std::alloc::Global;

/// The part of a choice whose facts an entry that waits has: that in which it waits, that which
/// has the range of its number, and that in which the number is above the counter.
#[derive(Clone, Copy)]
pub(crate) enum Stage {
    Waiting,
    Ranged,
    Above,
}

/// A fact of an entry: the number of the entry, and the fact's place in the part.
#[derive(Clone, Copy)]
pub(crate) struct Own {
    pub entry: usize,
    pub stage: Stage,
    pub index: usize,
}

/// A fact that is known.
#[derive(Clone, Copy)]
pub(crate) enum Source {
    /// It is on the path.
    Path(Place),
    /// It is one of an entry that waits.
    Own(Own),
}

/// What refutes a part: one of its inequalities, with a fact that is known, if it is not false by
/// itself.
#[derive(Clone, Copy)]
pub(crate) struct Closing {
    pub index: usize,
    pub source: Option<Source>,
}

/// A part of a choice: how many facts it has, and what refutes it, unless it is left.
#[derive(Clone, Copy)]
pub(crate) struct Remainder {
    pub count: usize,
    pub closing: Option<Closing>,
}

/// A choice, and what becomes of each of its parts.
#[derive(Drop)]
pub(crate) struct Narrowing {
    pub choice: Source,
    pub remainders: Vec<Remainder>,
}

/// A part whose facts are known, where its entry waits.
#[derive(Clone, Copy)]
pub(crate) struct Held<'a> {
    pub entry: usize,
    pub stage: Stage,
    pub part: &'a Part,
}

/// The facts on the path: the levels of those that are used, and how many were looked at.
#[derive(Drop)]
pub(crate) struct Ground<'v, 'a> {
    pub alloc: Global,
    pub view: View<'v, 'a>,
    pub used: Levels,
    pub looks: usize,
}

// The place of the first inequality of the part that is at odds with this one.
fn at_odds(part: &Part, atom: &Atom) -> Option<usize> {
    for own in &part.atoms {
        if own.is_at_odds(atom) {
            return Some(own.index);
        }
    }
    None
}

// Whether the inequality is false of all values.
fn is_false(form: &Inequality) -> bool {
    form.terms.is_empty() && form.constant > 0
}

// Whether the two are at odds.
fn are_at_odds(form: &Inequality, other: &Inequality) -> bool {
    let sum = form.constant.checked_add(other.constant);
    matches!(sum, Some(sum) if sum > 0) && form.is_opposite(other)
}

// The fact of these parts that is at odds with the inequality.
fn held_opposite(held: &[Held], atom: &Atom) -> Option<Source> {
    for one in held {
        if let Some(index) = at_odds(one.part, atom) {
            let (entry, stage) = (one.entry, one.stage);
            return Some(Source::Own(Own {
                entry,
                stage,
                index,
            }));
        }
    }
    None
}

impl Ground<'_, '_> {
    /// Notes that the fact at the place is used.
    pub(crate) fn note(&mut self, place: Place) {
        self.used = self.used.union(Levels::one(place.level));
    }

    // The fact at the place, which is used.
    fn taken(&mut self, place: Place) -> Source {
        self.note(place);
        Source::Path(place)
    }

    // The fact on the path that is at odds with the inequality.
    fn path_opposite(&mut self, form: &Inequality) -> Option<Place> {
        self.looks = self.looks.saturating_add(self.view.base.len());
        for row in self.view.base {
            if let Some(Origin::Given(place)) = self.view.rows.origin(*row) {
                if are_at_odds(self.view.rows.form(*row), form) {
                    return Some(*place);
                }
            }
        }
        None
    }

    // What refutes a part with this inequality.
    fn closing_of(&mut self, atom: &Atom, held: &[Held]) -> Option<Closing> {
        let index = atom.index;
        if is_false(&atom.form) {
            return Some(Closing {
                index,
                source: None,
            });
        }
        let source = match held_opposite(held, atom) {
            Some(own) => own,
            None => {
                let place = self.path_opposite(&atom.form)?;
                self.taken(place)
            }
        };
        let source = Some(source);
        Some(Closing { index, source })
    }

    // What refutes the part.
    fn closing(&mut self, part: &Part, held: &[Held]) -> Option<Closing> {
        for atom in &part.atoms {
            if let Some(closing) = self.closing_of(atom, held) {
                return Some(closing);
            }
        }
        None
    }

    // What becomes of a part that is left or not.
    fn remainder(
        &mut self,
        part: &Part,
        is_left: bool,
        held: &[Held],
    ) -> Result<Remainder, Missed> {
        let count = part.count;
        if is_left {
            let closing = None;
            return Ok(Remainder { count, closing });
        }
        match self.closing(part, held) {
            None => Err(Missed::Fact),
            closing => Ok(Remainder { count, closing }),
        }
    }

    /// What becomes of the parts of this choice, where the parts of these numbers are left and
    /// these facts are known.
    ///
    /// # Errors
    ///
    /// `Fact` where another part is not refuted by one fact more. `Memory` where an allocation was
    /// refused.
    pub(crate) fn narrowing(
        &mut self,
        choice: Source,
        parts: &[Part],
        left: &[usize],
        held: &[Held],
    ) -> Result<Narrowing, Missed> {
        let mut remainders = Vec::with_capacity(self.alloc, parts.len())?;
        for (number, part) in parts.iter().enumerate() {
            remainders.push(self.remainder(part, left.contains(&number), held)?)?;
        }
        if let Source::Path(place) = choice {
            self.note(place);
        }
        Ok(Narrowing { choice, remainders })
    }

    /// The place of the fact on the path that is this inequality, if there is one.
    pub(crate) fn path_place(&mut self, terms: &[(u32, i128)], constant: i128) -> Option<Place> {
        self.looks = self.looks.saturating_add(self.view.base.len());
        for row in self.view.base {
            if let Some(Origin::Given(place)) = self.view.rows.origin(*row) {
                if is_of(self.view.rows.form(*row), terms, constant) {
                    return Some(*place);
                }
            }
        }
        None
    }

    /// The place of the fact on the path that is this inequality.
    ///
    /// # Errors
    ///
    /// `Fact` where there is none.
    pub(crate) fn path_fact(
        &mut self,
        terms: &[(u32, i128)],
        constant: i128,
    ) -> Result<Place, Missed> {
        let place = self.path_place(terms, constant).ok_or(Missed::Fact)?;
        self.note(place);
        Ok(place)
    }
}

/// Whether the inequality has these terms, in any order, and this constant.
pub(crate) fn is_of(form: &Inequality, terms: &[(u32, i128)], constant: i128) -> bool {
    if form.constant != constant || form.terms.len() != terms.len() {
        return false;
    }
    for (var, coefficient) in terms {
        if form.coefficient(*var) != *coefficient {
            return false;
        }
    }
    true
}

/// The place of the fact of the part that has these terms and this constant.
pub(crate) fn fact_of(part: &Part, terms: &[(u32, i128)], constant: i128) -> Option<usize> {
    for atom in &part.atoms {
        if is_of(&atom.form, terms, constant) {
            return Some(atom.index);
        }
    }
    None
}
