//! The places of an outline, and what must hold of them.

use og_infer_candidates::{Candidate, Universe};
use og_infer_places::{Claim, Frame, Obligation, Part, Places, Step};
use og_subst::Action;
use og_typed::Assert;
use std::alloc::{AllocError, Global};

/// What is the same at all tiers: the places of an outline, and what must hold of them. Threads may
/// share it.
#[derive(Drop)]
pub struct Scene<'a> {
    pub alloc: Global,
    /// What questions need of the outline.
    pub frame: Frame<'a>,
    pub obligations: Vec<Obligation<'a>>,
    /// The steps of each question.
    pub budget: u64,
    /// The places of processes that stand before an action.
    pub(crate) acting: Vec<u32>,
    // For each place the number of its part.
    parts: Vec<usize>,
    // For each place the obligations that claim its assertion.
    claiming: Vec<Vec<usize>>,
    // For each part the variables that it assigns or that no part assigns: those of the processes,
    // of the prologue, of the epilogue.
    own: Vec<Vec<u32>>,
}

/// This many lists without elements.
pub(crate) fn empty_lists<T: Drop>(alloc: Global, count: usize) -> Result<Vec<Vec<T>>, AllocError> {
    let mut lists = Vec::new(alloc);
    for _ in 0..count {
        lists.push(Vec::new(alloc))?;
    }
    Ok(lists)
}

// For each place the obligations that claim its assertion.
fn by_claim(
    alloc: Global,
    obligations: &[Obligation],
    places: usize,
) -> Result<Vec<Vec<usize>>, AllocError> {
    let mut lists = empty_lists(alloc, places)?;
    for (index, obligation) in obligations.iter().enumerate() {
        if let Claim::Holds(place) = obligation.claim {
            if let Some(list) = lists.get_mut(place as usize) {
                list.push(index)?;
            }
        }
    }
    Ok(lists)
}

// The places of processes that stand before an action.
fn acting_of(alloc: Global, places: &Places) -> Result<Vec<u32>, AllocError> {
    let mut acting = Vec::new(alloc);
    let mut number = 0u32;
    for place in places.as_slice() {
        if matches!(place.part, Part::Process(_)) && matches!(place.step, Step::Act { .. }) {
            acting.push(number)?;
        }
        number = number.saturating_add(1);
    }
    Ok(acting)
}

// The number of a part: of a process its own, then that of the prologue, then that of the epilogue.
fn number_of(part: Part, processes: u32) -> usize {
    match part {
        Part::Process(process) => process as usize,
        Part::Prologue => processes as usize,
        Part::Epilogue => processes as usize + 1,
    }
}

// For each place the number of its part.
fn parts_of(alloc: Global, places: &Places) -> Result<Vec<usize>, AllocError> {
    let mut parts = Vec::new(alloc);
    for place in places.as_slice() {
        parts.push(number_of(place.part, places.processes()))?;
    }
    Ok(parts)
}

// Notes the variables that the action assigns.
fn note_assigned(assigned: &mut [bool], action: &Action) {
    for (var, is_assigned) in assigned.iter_mut().enumerate() {
        if let Ok(var) = u32::try_from(var) {
            *is_assigned = *is_assigned || action.assigns(var);
        }
    }
}

// For each part and each variable whether the part assigns it.
fn assigned_by(
    alloc: Global,
    places: &Places,
    variables: u32,
) -> Result<Vec<Vec<bool>>, AllocError> {
    let mut assigned = empty_lists(alloc, places.processes() as usize + 2)?;
    for place in places.as_slice() {
        if let Step::Act { action, .. } = &place.step {
            if let Some(own) = assigned.get_mut(number_of(place.part, places.processes())) {
                own.resize(variables as usize, false)?;
                note_assigned(own, action);
            }
        }
    }
    Ok(assigned)
}

// Whether the list says so of the variable.
fn is_in(assigned: &[bool], var: u32) -> bool {
    matches!(assigned.get(var as usize), Some(true))
}

// Whether some part assigns the variable.
fn is_assigned(assigned: &[Vec<bool>], var: u32) -> bool {
    for own in assigned {
        if is_in(own, var) {
            return true;
        }
    }
    false
}

// The variables that the part assigns, or that no part does.
fn rest_of(
    alloc: Global,
    assigned: &[Vec<bool>],
    part: &[bool],
    variables: u32,
) -> Result<Vec<u32>, AllocError> {
    let mut own = Vec::new(alloc);
    for var in 0..variables {
        if is_in(part, var) || !is_assigned(assigned, var) {
            own.push(var)?;
        }
    }
    Ok(own)
}

impl<'a> Scene<'a> {
    /// That of these places and of what must hold of them, with this many steps for a question.
    pub fn new(
        alloc: Global,
        places: &Places<'a>,
        obligations: Vec<Obligation<'a>>,
        budget: u64,
    ) -> Result<Scene<'a>, AllocError> {
        let claiming = by_claim(alloc, &obligations, places.as_slice().len())?;
        let acting = acting_of(alloc, places)?;
        let frame = places.frame(alloc)?;
        let variables = frame.variables();
        let assigned = assigned_by(alloc, places, variables)?;
        let mut own = Vec::new(alloc);
        for part in &assigned {
            own.push(rest_of(alloc, &assigned, part, variables)?)?;
        }
        Ok(Scene {
            alloc,
            frame,
            obligations,
            budget,
            acting,
            parts: parts_of(alloc, places)?,
            claiming,
            own,
        })
    }

    /// How many places there are.
    pub fn count(&self) -> usize {
        self.parts.len()
    }

    /// The author's assertion of a place.
    pub fn author(&self, place: u32) -> Option<&'a Assert> {
        self.frame.author(place)
    }

    /// The obligations that claim the assertion of a place.
    pub fn claiming(&self, place: u32) -> &[usize] {
        match self.claiming.get(place as usize) {
            Some(list) => list,
            None => &[],
        }
    }

    // The variables that the part of a place assigns, or that no part assigns.
    fn own(&self, place: u32) -> &[u32] {
        let Some(part) = self.parts.get(place as usize) else {
            return &[];
        };
        match self.own.get(*part) {
            Some(list) => list,
            None => &[],
        }
    }

    /// Whether a candidate of the place speaks of variables alone that other parts assign.
    pub fn is_foreign(&self, universe: &Universe, place: u32, candidate: &Candidate) -> bool {
        for var in self.own(place) {
            if candidate.mentions(universe, *var) {
                return false;
            }
        }
        true
    }

    /// The variables that the action of an obligation assigns, rising.
    pub fn changed(&self, obligation: &Obligation) -> Result<Vec<u32>, AllocError> {
        let mut changed = Vec::new(self.alloc);
        let Some(action) = &obligation.action else {
            return Ok(changed);
        };
        for var in 0..self.frame.variables() {
            if action.assigns(var) {
                changed.push(var)?;
            }
        }
        Ok(changed)
    }
}
