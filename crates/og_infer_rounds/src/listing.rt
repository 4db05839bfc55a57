//! The candidates of each place, as they are asked of it and taken.

use crate::scene::Scene;
use og_infer_candidates::{Bits, Candidate, Candidates, Universe};
use og_infer_places::Obligation;
use og_pool::Numbered;
use og_typed::Assert;
use std::alloc::{AllocError, Global};

/// How much a unit of cost weighs at a place of a part that assigns a variable of the candidate,
/// or where no part does.
const PLAIN: u32 = 20;

/// How much it weighs where only other parts assign the variables.
const FOREIGN: u32 = 30;

/// A candidate of a place.
#[derive(Clone, Copy, PartialEq, Eq)]
pub struct Spot {
    pub place: u32,
    /// Where it stands in the list of the place.
    pub index: usize,
}

impl Spot {
    // Its place, and where it stands there.
    fn key(self) -> (u32, usize) {
        (self.place, self.index)
    }

    /// Whether it is one of these, which are by places and by where they stand there.
    pub fn is_among(self, spots: &[Spot]) -> bool {
        let at = spots.partition_point(|other| other.key() < self.key());
        matches!(spots.get(at), Some(other) if *other == self)
    }
}

/// These by places, and by where they stand there.
pub fn by_places(spots: &mut Vec<Spot>) -> Result<(), AllocError> {
    spots.sort_by_key(|spot| spot.key())
}

/// What may be done with a candidate.
#[derive(Clone, Copy, PartialEq, Eq)]
pub enum Role {
    /// It may be taken.
    Offered,
    /// It may be taken for nothing, since something else needs it.
    Needed,
    /// It is left out.
    Out,
}

/// A state, and which literals are true in it.
#[derive(Drop)]
pub struct Seen {
    pub values: Vec<i64>,
    pub mask: Bits,
}

impl Seen {
    /// The state of these values.
    pub fn new(alloc: Global, universe: &Universe, values: Vec<i64>) -> Result<Seen, AllocError> {
        let mask = universe.mask(alloc, &values)?;
        Ok(Seen { values, mask })
    }
}

/// A candidate in the list of a place.
#[derive(Drop)]
pub struct Listed {
    pub candidate: Candidate,
    pub assertion: Assert,
    pub role: Role,
    // How hard it is to read there.
    weight: u32,
}

impl Listed {
    /// A candidate of the place, which is offered.
    pub fn new(
        scene: &Scene,
        universe: &Universe,
        place: u32,
        candidate: Candidate,
    ) -> Result<Listed, AllocError> {
        let unit = if scene.is_foreign(universe, place, &candidate) {
            FOREIGN
        } else {
            PLAIN
        };
        let weight = candidate.cost(universe).saturating_mul(unit);
        let assertion = candidate.assertion(scene.alloc, universe)?;
        Ok(Listed {
            candidate,
            assertion,
            role: Role::Offered,
            weight,
        })
    }

    /// How hard it is to read at its place; 0 where it is needed anyway.
    pub fn weight(&self) -> u32 {
        if self.role == Role::Needed {
            0
        } else {
            self.weight
        }
    }

    /// Whether it is false in the state.
    pub fn excludes(&self, universe: &Universe, state: &Seen) -> bool {
        !self.candidate.is_true(universe, &state.values, &state.mask)
    }

    // Makes it lighter, since it stands elsewhere too.
    fn lighten(&mut self) {
        self.weight = self.weight.saturating_mul(3) / 5;
    }
}

/// A candidate that may be taken, and its weight.
#[derive(Clone, Copy)]
pub(crate) struct Pick {
    pub(crate) spot: Spot,
    pub(crate) weight: u32,
}

/// The one of less weight, the first one where they weigh the same.
pub(crate) fn lighter(first: Option<Pick>, second: Option<Pick>) -> Option<Pick> {
    match (first, second) {
        (Some(one), Some(other)) if other.weight < one.weight => second,
        (None, _) => second,
        _ => first,
    }
}

/// The candidates of one place, and which change of all lists they saw last.
#[derive(Drop)]
struct PlaceList {
    all: Vec<Listed>,
    changed: u64,
}

impl PlaceList {
    // Makes the candidate lighter, and notes the change where the place has it.
    fn lighten(&mut self, candidate: &Candidate, changes: u64) {
        for listed in self.all.iter_mut() {
            if listed.candidate.is_same(candidate) {
                listed.lighten();
                self.changed = changes;
            }
        }
    }

    // The needed ones alone, which are offered then.
    fn into_needed(self, alloc: Global) -> Result<PlaceList, AllocError> {
        let mut all = Vec::new(alloc);
        for mut listed in self.all {
            if listed.role == Role::Needed {
                listed.role = Role::Offered;
                all.push(listed)?;
            }
        }
        Ok(PlaceList { all, changed: 0 })
    }
}

/// The candidates of each place.
#[derive(Drop)]
pub struct Lists {
    of: Vec<PlaceList>,
    changes: u64,
}

impl Lists {
    /// Of this many places, without candidates.
    pub(crate) fn none(alloc: Global, places: usize) -> Result<Lists, AllocError> {
        let mut of = Vec::new(alloc);
        for _ in 0..places {
            let all = Vec::new(alloc);
            of.push(PlaceList { all, changed: 0 })?;
        }
        Ok(Lists { of, changes: 0 })
    }

    /// How many changes there were.
    pub fn changes(&self) -> u64 {
        self.changes
    }

    // Whether the candidates of a place changed after so many changes.
    fn is_changed(&self, place: u32, changes: u64) -> bool {
        match self.of.get(place as usize) {
            Some(list) => list.changed > changes,
            None => false,
        }
    }

    // Whether those of one of these places did.
    fn is_any_changed(&self, places: &[u32], changes: u64) -> bool {
        for place in places {
            if self.is_changed(*place, changes) {
                return true;
            }
        }
        false
    }

    // Whether those of the place of one of these alternatives did.
    fn is_one_changed(&self, alternatives: &[(u32, Option<&Assert>)], changes: u64) -> bool {
        for (place, _) in alternatives {
            if self.is_changed(*place, changes) {
                return true;
            }
        }
        false
    }

    /// Whether candidates that the obligation may take changed after so many changes.
    pub fn are_changed(&self, obligation: &Obligation, changes: u64) -> bool {
        for alternatives in &obligation.stuck {
            if self.is_one_changed(alternatives, changes) {
                return true;
            }
        }
        self.is_any_changed(&obligation.places, changes)
    }

    // The list of a place, which changes.
    fn changing(&mut self, place: u32) -> Option<&mut Vec<Listed>> {
        let list = self.of.get_mut(place as usize)?;
        self.changes = self.changes.saturating_add(1);
        list.changed = self.changes;
        Some(&mut list.all)
    }

    /// The candidates of a place.
    pub fn at(&self, place: u32) -> &[Listed] {
        match self.of.get(place as usize) {
            Some(list) => &list.all,
            None => &[],
        }
    }

    /// The candidate there.
    pub fn get(&self, spot: Spot) -> Option<&Listed> {
        self.at(spot.place).get(spot.index)
    }

    /// Gives a place these candidates.
    pub(crate) fn put(&mut self, place: u32, list: Vec<Listed>) {
        if let Some(own) = self.changing(place) {
            *own = list;
        }
    }

    /// Gives the candidate there a role.
    pub fn assign(&mut self, spot: Spot, role: Role) {
        if let Some(list) = self.changing(spot.place) {
            if let Some(listed) = list.get_mut(spot.index) {
                listed.role = role;
            }
        }
    }

    /// The weight of the candidate there.
    pub fn weight(&self, spot: Spot) -> u32 {
        match self.get(spot) {
            Some(listed) => listed.weight(),
            None => 0,
        }
    }

    /// Whether the candidate there has this role.
    pub fn has_role(&self, spot: Spot, role: Role) -> bool {
        matches!(self.get(spot), Some(listed) if listed.role == role)
    }

    /// Where a place lists the candidate.
    pub fn find(&self, place: u32, candidate: &Candidate) -> Option<Spot> {
        for (index, listed) in self.at(place).iter().enumerate() {
            if listed.candidate.is_same(candidate) {
                return Some(Spot { place, index });
            }
        }
        None
    }

    /// Adds a candidate to those of a place, and gives where it stands.
    pub fn add(&mut self, place: u32, listed: Listed) -> Result<Option<Spot>, AllocError> {
        let Some(list) = self.changing(place) else {
            return Ok(None);
        };
        let index = list.len();
        list.push(listed)?;
        Ok(Some(Spot { place, index }))
    }

    // Whether some place needs the candidate.
    fn needs(&self, candidate: &Candidate) -> bool {
        for list in &self.of {
            for listed in &list.all {
                if listed.role == Role::Needed && listed.candidate.is_same(candidate) {
                    return true;
                }
            }
        }
        false
    }

    /// Notes that the candidate there is needed. The first time it is lighter at other places from
    /// then on.
    pub fn need(&mut self, spot: Spot, candidate: &Candidate) {
        let is_known = self.needs(candidate);
        self.assign(spot, Role::Needed);
        if is_known {
            return;
        }
        self.changes = self.changes.saturating_add(1);
        let changes = self.changes;
        for list in self.of.iter_mut() {
            list.lighten(candidate, changes);
        }
    }

    /// The needed ones alone, which are offered then.
    pub fn into_needed(self, alloc: Global) -> Result<Lists, AllocError> {
        let mut of = Vec::new(alloc);
        for list in self.of {
            of.push(list.into_needed(alloc)?)?;
        }
        Ok(Lists { of, changes: 0 })
    }
}

/// The lists of these places are made.
#[derive(Clone, Copy)]
pub(crate) struct Listing<'a, 'o> {
    pub(crate) scene: &'a Scene<'o>,
    pub(crate) universe: &'a Universe,
    pub(crate) candidates: &'a [Candidates],
    pub(crate) places: &'a [u32],
    pub(crate) count: u32,
}

impl Listing<'_, '_> {
    // The list of a place.
    fn list(&self, place: u32) -> Result<Vec<Listed>, AllocError> {
        let alloc = self.scene.alloc;
        let mut list = Vec::new(alloc);
        let Some(own) = self.candidates.get(place as usize) else {
            return Ok(list);
        };
        for candidate in own.strongest(alloc, self.universe)? {
            list.push(Listed::new(self.scene, self.universe, place, candidate)?)?;
        }
        Ok(list)
    }
}

impl<'a, 'o> Numbered for Listing<'a, 'o> {
    ghost use Rattle.std.specs.Prelude.{⊤};

    type Answer = Vec<Listed>;

    type Kept = ();

    ghost count = { λ t. t.count };

    ghost may_answer = { λ _ _ _. ⊤ };

    ghost keeps = { λ _ _. ⊤ };

    fn kept(&self) {}

    fn answer(
        &self,
        alloc: Global,
        number: u32,
        _kept: &mut (),
    ) -> Result<Vec<Listed>, AllocError> {
        match self.places.get(number as usize - 1) {
            Some(place) => self.list(*place),
            None => Ok(Vec::new(alloc)),
        }
    }
}
