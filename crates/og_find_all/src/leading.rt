//! Conditions of one shape, of which one leads, and shapes of one kind.

ghost use Rattle.std.specs.Prelude.{◌≡◌, ◌+◌, length, IfOk, OnOk, vec_len};

use crate::groups::place_of;
use og_cond::Condition;
use og_find::{Marks, kind};
use std::alloc::{AllocError, Global};
use std::collections::BTreeMap;

/// A condition for which the certificate of the leader of its shape is tried, or one that is alone
/// in its shape and has no leader.
#[derive(Clone, Copy)]
pub(crate) struct Follower {
    /// The index of the condition.
    pub(crate) index: usize,
    /// The place of its group.
    pub(crate) group: usize,
    /// The place of its leader, if it has one.
    pub(crate) leader: Option<usize>,
}

/// A condition that is looked at after the leader of its shape, or one that is alone in its shape.
#[derive(Clone, Copy)]
pub(crate) struct Waiting {
    /// The index of the condition.
    pub(crate) index: usize,
    /// The place of its group.
    pub(crate) group: usize,
    /// The group that leads its shape, if it has a leader.
    pub(crate) leader: Option<usize>,
}

/// The groups in the order in which they are looked at: of each kind of the shapes that several
/// have one leader, then the leaders of the other shapes of that kind, and then all others.
#[derive(Drop)]
pub(crate) struct Shapes {
    /// The index of each leader of a kind.
    pub(crate) leaders: Vec<usize>,
    /// The leaders of the other shapes, each led by that of its kind.
    pub(crate) heirs: Vec<Follower>,
    pub(crate) others: Vec<Waiting>,
    /// For each group its place among the leaders of kinds, if it is one.
    pub(crate) places: Vec<Option<usize>>,
}

/// The part of a group.
#[derive(Clone, Copy)]
enum Part {
    /// It leads its kind.
    Leads,
    /// It leads a shape, and follows the leader of its kind, which has this place.
    Inherits(usize),
    /// It follows the group that leads its shape.
    Follows(usize),
    /// There are no others of its shape.
    IsAlone,
}

impl Shapes {
    fn new(alloc: Global, groups: usize) -> Result<Shapes, AllocError>
        ensures { IfOk result (λ s.
            (vec_len s.leaders ≡ 0) × (vec_len s.heirs ≡ 0) × (vec_len s.others ≡ 0)) }
    {
        Ok(Shapes {
            leaders: Vec::new(alloc),
            heirs: Vec::new(alloc),
            others: Vec::new(alloc),
            places: Vec::with_capacity(alloc, groups)?,
        })
    }

    // Adds a group that leads its kind, whose first condition has this index.
    fn add_leader(&mut self, index: usize) -> Result<(), AllocError>
        ensures { OnOk result (vec_len self.new.leaders + vec_len self.new.heirs + vec_len
            self.new.others
            ≡ vec_len self.old.leaders + vec_len self.old.heirs + vec_len self.old.others + 1) }
    {
        self.places.push(Some(self.leaders.len()))?;
        self.leaders.push(index)?;
        Ok(())
    }

    // Adds a group that leads a shape, and follows the leader of its kind.
    fn add_heir(&mut self, group: usize, index: usize, leader: usize) -> Result<(), AllocError>
        ensures { OnOk result (vec_len self.new.leaders + vec_len self.new.heirs + vec_len
            self.new.others
            ≡ vec_len self.old.leaders + vec_len self.old.heirs + vec_len self.old.others + 1) }
    {
        self.heirs.push(Follower {
            index,
            group,
            leader: Some(leader),
        })?;
        self.places.push(None)?;
        Ok(())
    }

    // Adds a group that leads no shape.
    fn add_other(
        &mut self,
        group: usize,
        index: usize,
        leader: Option<usize>,
    ) -> Result<(), AllocError>
        ensures { OnOk result (vec_len self.new.leaders + vec_len self.new.heirs + vec_len
            self.new.others
            ≡ vec_len self.old.leaders + vec_len self.old.heirs + vec_len self.old.others + 1) }
    {
        self.others.push(Waiting {
            index,
            group,
            leader,
        })?;
        self.places.push(None)?;
        Ok(())
    }

    // Adds a group whose first condition has this index.
    fn add(&mut self, group: usize, index: usize, part: Part) -> Result<(), AllocError>
        ensures { OnOk result (vec_len self.new.leaders + vec_len self.new.heirs + vec_len
            self.new.others
            ≡ vec_len self.old.leaders + vec_len self.old.heirs + vec_len self.old.others + 1) }
    {
        match part {
            Part::Leads => self.add_leader(index),
            Part::Inherits(leader) => self.add_heir(group, index, leader),
            Part::Follows(leader) => self.add_other(group, index, Some(leader)),
            Part::IsAlone => self.add_other(group, index, None),
        }
    }
}

// A shape that groups have, or a kind that leaders of shapes are of.
#[derive(Clone, Copy)]
struct Shape {
    // How many groups have it.
    groups: usize,
    // The group that leads: the second one, or else the only one. The last condition of a shape,
    // which is the first one here, is more often unlike the others than any other one.
    first: usize,
    // The place of that leader among those of kinds, where this is a kind.
    leader: Option<usize>,
}

// All shapes, or kinds, and for each group the place of its own.
#[derive(Drop)]
struct Numbering {
    shapes: Vec<Shape>,
    places: Vec<usize>,
}

impl Numbering {
    // Of no groups yet, with room for this many.
    fn new(alloc: Global, groups: usize) -> Result<Numbering, AllocError> {
        Ok(Numbering {
            shapes: Vec::new(alloc),
            places: Vec::with_capacity(alloc, groups)?,
        })
    }

    // Counts a group to the shape with this place, or to a new one.
    fn count(&mut self, group: usize, place: usize) -> Result<(), AllocError> {
        match self.shapes.get_mut(place) {
            Some(shape) => {
                shape.groups = shape.groups.saturating_add(1);
                if shape.groups == 2 {
                    shape.first = group;
                }
            }
            None => self.shapes.push(Shape {
                groups: 1,
                first: group,
                leader: None,
            })?,
        }
        Ok(())
    }

    // Adds the next group, whose shape has this place.
    fn add(&mut self, place: usize) -> Result<(), AllocError> {
        let group = self.places.len();
        self.count(group, place)?;
        self.places.push(place)?;
        Ok(())
    }

    // Gives a group the shape with this place.
    fn move_to(&mut self, group: usize, place: usize) -> Result<(), AllocError> {
        self.count(group, place)?;
        if let Some(own) = self.places.get_mut(group) {
            *own = place;
        }
        Ok(())
    }

    // Adds the next group, which has none.
    fn pass(&mut self) -> Result<(), AllocError> {
        self.places.push(usize::MAX)?;
        Ok(())
    }

    // The shape of a group, if it has one.
    fn shape(&self, group: usize) -> Option<&Shape> {
        self.shapes.get(*self.places.get(group)?)
    }

    // The shape of a group, if others have it too.
    fn shared(&self, group: usize) -> Option<&Shape> {
        self.shape(group).filter(|shape| shape.groups >= 2)
    }

    // Whether the group leads a shape that others have too.
    fn is_leading(&self, group: usize) -> bool {
        matches!(self.shared(group), Some(shape) if shape.first == group)
    }

    // Notes the place of the leader of each kind among these leaders.
    fn place_leaders(&mut self) {
        let mut next = 0usize;
        for group in 0..self.places.len() {
            if matches!(self.shape(group), Some(shape) if shape.first == group) {
                self.place_leader(group, next);
                next = next.saturating_add(1);
            }
        }
    }

    // Notes the place of the leader of the kind of a group.
    fn place_leader(&mut self, group: usize, leader: usize) {
        if let Some(place) = self.places.get(group) {
            if let Some(shape) = self.shapes.get_mut(*place) {
                shape.leader = Some(leader);
            }
        }
    }

    // The part of a group, where these are the kinds of the leaders of shapes.
    fn part_of(&self, kinds: &Numbering, group: usize) -> Part {
        match (kinds.shape(group), self.shared(group)) {
            (Some(kind), _) if kind.first == group => Part::Leads,
            (
                Some(
                    Shape {
                        leader: Some(leader),
                        ..
                    },
                ),
                _,
            ) => Part::Inherits(*leader),
            (None, Some(shape)) => Part::Follows(shape.first),
            _ => Part::IsAlone,
        }
    }
}

// The shapes of the groups whose first conditions have these indices.
fn numbered(
    alloc: Global,
    marks: &[Option<Marks>],
    firsts: &[usize],
) -> Result<Numbering, AllocError> {
    let mut numbering = Numbering::new(alloc, firsts.len())?;
    let mut known = BTreeMap::new(alloc);
    for index in firsts {
        let mark = match marks.get(*index) {
            Some(Some(marks)) => Some(marks.shape),
            _ => None,
        };
        let place = place_of(&mut known, mark, numbering.shapes.len())?;
        numbering.add(place)?;
    }
    Ok(numbering)
}

// Gives those groups that are alone in their shape a common one where they are of one kind.
fn join_kinds(
    alloc: Global,
    numbering: &mut Numbering,
    conditions: &[Condition],
    firsts: &[usize],
) -> Result<(), AllocError> {
    let mut known = BTreeMap::new(alloc);
    for group in 0..firsts.len() {
        if let (None, Some(condition)) = (numbering.shared(group), conditions.get(firsts[group])) {
            let place = place_of(&mut known, Some(kind(condition)), numbering.shapes.len())?;
            numbering.move_to(group, place)?;
        }
    }
    Ok(())
}

// The kinds of the leaders of these shapes.
fn kinds_of(
    alloc: Global,
    numbering: &Numbering,
    conditions: &[Condition],
    firsts: &[usize],
) -> Result<Numbering, AllocError> {
    let mut kinds = Numbering::new(alloc, firsts.len())?;
    let mut known = BTreeMap::new(alloc);
    for group in 0..firsts.len() {
        match conditions.get(firsts[group]) {
            Some(condition) if numbering.is_leading(group) => {
                let mark = Some(kind(condition));
                let place = place_of(&mut known, mark, kinds.shapes.len())?;
                kinds.add(place)?;
            }
            _ => kinds.pass()?,
        }
    }
    kinds.place_leaders();
    Ok(kinds)
}

/// The groups whose first conditions have these indices, by their shapes and the kinds of these. A
/// group without marks has a shape of its own. Groups that are alone in their shape count as of one
/// shape where they are of one kind.
pub(crate) fn by_shape(
    alloc: Global,
    conditions: &[Condition],
    marks: &[Option<Marks>],
    firsts: &[usize],
) -> Result<Shapes, AllocError>
    ensures { IfOk result (λ s.
        vec_len s.leaders + vec_len s.heirs + vec_len s.others ≡ length firsts.now) }
{
    let mut numbering = numbered(alloc, marks, firsts)?;
    join_kinds(alloc, &mut numbering, conditions, firsts)?;
    let kinds = kinds_of(alloc, &numbering, conditions, firsts)?;
    let mut shapes = Shapes::new(alloc, firsts.len())?;
    for group in 0..firsts.len() {
        let part = numbering.part_of(&kinds, group);
        shapes.add(group, firsts[group], part)?;
    }
    Ok(shapes)
}
