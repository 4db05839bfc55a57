//! All obligations of an outline.

use crate::obligation::{Claim, Obligation};
use crate::place::{Place, Step, number_of};
use crate::places::Places;
use og_subst::Action;
use og_typed::{Assert, Basic, Part};
use std::alloc::{AllocError, Global};

/// An action of a process at its place.
#[derive(Clone, Copy)]
struct Move<'a> {
    place: u32,
    part: Part,
    guard: Option<&'a Assert>,
    action: Action<'a>,
}

// Whether one of these assigns a variable.
fn some_assigns(body: &[Basic]) -> bool {
    for basic in body {
        if matches!(basic, Basic::Assign(..)) {
            return true;
        }
    }
    false
}

// Whether the action assigns a variable.
fn assigns_some(action: &Action) -> bool {
    match action {
        Action::Assign(..) => true,
        Action::Await(body) => some_assigns(body),
    }
}

// The action at the place, if it is one of a process and assigns a variable.
fn move_at<'a>(number: u32, place: &Place<'a>) -> Option<Move<'a>> {
    let Part::Process(_) = place.part else {
        return None;
    };
    match place.step {
        Step::Act { guard, action, .. } if assigns_some(&action) => Some(Move {
            place: number,
            part: place.part,
            guard,
            action,
        }),
        _ => None,
    }
}

// Whether actions of this part may happen while a process stands at the place.
fn is_kept_from(place: &Place, part: Part) -> bool {
    match place.part {
        Part::Process(_) => place.is_shared && place.part != part,
        Part::Prologue | Part::Epilogue => false,
    }
}

// How many places may be disturbed by actions of this part.
fn count_kept(places: &[Place], part: Part) -> usize {
    let mut count = 0usize;
    for place in places {
        if is_kept_from(place, part) {
            count = count.saturating_add(1);
        }
    }
    count
}

// How many obligations the step of a place has.
fn count_local(step: &Step) -> usize {
    match step {
        Step::End => 0,
        Step::Go { .. } => 1,
        Step::Test { .. } | Step::Act { .. } => 2,
    }
}

// How many obligations there are, those of a begin and of an end among them.
fn count_all(places: &Places) -> usize {
    let all = places.as_slice();
    let mut count = (places.processes() as usize).saturating_add(4);
    for place in all {
        count = count.saturating_add(count_local(&place.step));
        if move_at(0, place).is_some() {
            count = count.saturating_add(count_kept(all, place.part));
        }
    }
    count
}

// The guard, which is true.
fn passed<'a>(guard: Option<&'a Assert>) -> Option<(&'a Assert, bool)> {
    match guard {
        Some(guard) => Some((guard, true)),
        None => None,
    }
}

// The obligation of one way of a test.
fn add_test<'a>(
    list: &mut Vec<Obligation<'a>>,
    place: u32,
    test: &'a Assert,
    truth: bool,
    to: u32,
) -> Result<(), AllocError> {
    let mut obligation = Obligation::of_place(*list.allocator(), place, Claim::Holds(to))?;
    obligation.test = Some((test, truth));
    list.push(obligation)?;
    Ok(())
}

// An obligation of an action.
fn add_act<'a>(
    list: &mut Vec<Obligation<'a>>,
    place: u32,
    guard: Option<&'a Assert>,
    action: Action<'a>,
    claim: Claim,
) -> Result<(), AllocError> {
    let mut obligation = Obligation::of_place(*list.allocator(), place, claim)?;
    obligation.test = passed(guard);
    obligation.action = Some(action);
    list.push(obligation)?;
    Ok(())
}

// The obligations of the step of a place.
fn add_step<'a>(
    list: &mut Vec<Obligation<'a>>,
    place: u32,
    step: Step<'a>,
) -> Result<(), AllocError> {
    match step {
        Step::End => Ok(()),
        Step::Go { to } => add_place(list, place, Claim::Holds(to)),
        Step::Test { test, yes, no } => {
            add_test(list, place, test, true, yes)?;
            add_test(list, place, test, false, no)
        }
        Step::Act { guard, action, to } => {
            add_act(list, place, guard, action, Claim::Holds(to))?;
            add_act(list, place, guard, action, Claim::Fits)
        }
    }
}

// The obligation that the assertion of the place gives this.
fn add_place(list: &mut Vec<Obligation>, place: u32, claim: Claim) -> Result<(), AllocError> {
    let obligation = Obligation::of_place(*list.allocator(), place, claim)?;
    list.push(obligation)?;
    Ok(())
}

// The obligations of the steps of all places.
fn add_local<'a>(list: &mut Vec<Obligation<'a>>, places: &Places<'a>) -> Result<(), AllocError> {
    for (index, place) in places.as_slice().iter().enumerate() {
        add_step(list, number_of(index)?, place.step)?;
    }
    Ok(())
}

// The precondition gives the first assertion of a part.
fn add_begin(list: &mut Vec<Obligation>, first: u32) -> Result<(), AllocError> {
    let obligation = Obligation::of_begin(*list.allocator(), Claim::Holds(first));
    list.push(obligation)?;
    Ok(())
}

// Each process may start: after the prologue, or at the begin where there is none.
fn add_starts(list: &mut Vec<Obligation>, places: &Places) -> Result<(), AllocError> {
    let before = places.last(Part::Prologue);
    for p in 0..places.processes() {
        match (places.first(Part::Process(p)), before) {
            (Some(first), Some(last)) => add_place(list, last, Claim::Holds(first))?,
            (Some(first), None) => add_begin(list, first)?,
            (None, _) => {}
        }
    }
    Ok(())
}

// The obligations of the begin.
fn add_begins(list: &mut Vec<Obligation>, places: &Places) -> Result<(), AllocError> {
    if let Some(first) = places.first(Part::Prologue) {
        add_begin(list, first)?;
    }
    add_starts(list, places)
}

// The action keeps the assertion of a place of another process.
fn add_kept<'a>(
    list: &mut Vec<Obligation<'a>>,
    kept: u32,
    action: &Move<'a>,
) -> Result<(), AllocError> {
    let alloc = *list.allocator();
    let mut places = Vec::with_capacity(alloc, 2)?;
    places.push(kept)?;
    places.push(action.place)?;
    let mut obligation = Obligation::of_places(alloc, places, Claim::Holds(kept));
    obligation.test = passed(action.guard);
    obligation.action = Some(action.action);
    list.push(obligation)?;
    Ok(())
}

// The action keeps the assertions of the other processes.
fn add_crossings<'a>(
    list: &mut Vec<Obligation<'a>>,
    places: &Places<'a>,
    action: &Move<'a>,
) -> Result<(), AllocError> {
    for (index, place) in places.as_slice().iter().enumerate() {
        if is_kept_from(place, action.part) {
            add_kept(list, number_of(index)?, action)?;
        }
    }
    Ok(())
}

// The obligations of interference.
fn add_interference<'a>(
    list: &mut Vec<Obligation<'a>>,
    places: &Places<'a>,
) -> Result<(), AllocError> {
    for (index, place) in places.as_slice().iter().enumerate() {
        if let Some(action) = move_at(number_of(index)?, place) {
            add_crossings(list, places, &action)?;
        }
    }
    Ok(())
}

// The last places of all processes.
fn last_places(alloc: Global, places: &Places) -> Result<Vec<u32>, AllocError> {
    let mut all = Vec::new(alloc);
    for p in 0..places.processes() {
        if let Some(last) = places.last(Part::Process(p)) {
            all.push(last)?;
        }
    }
    Ok(all)
}

// The last assertions together give the epilogue's first one, or the postcondition; the epilogue's
// last one gives it too.
fn add_end(list: &mut Vec<Obligation>, places: &Places) -> Result<(), AllocError> {
    let alloc = *list.allocator();
    let claim = match places.first(Part::Epilogue) {
        Some(first) => Claim::Holds(first),
        None => Claim::Post,
    };
    let ends = last_places(alloc, places)?;
    list.push(Obligation::of_places(alloc, ends, claim))?;
    match places.last(Part::Epilogue) {
        Some(last) => add_place(list, last, Claim::Post),
        None => Ok(()),
    }
}

// Adds the places of these at which the process of this part waits, each with its guard.
fn add_waits<'a>(
    waits: &mut Vec<(u32, Option<&'a Assert>)>,
    places: &Places<'a>,
    part: Part,
) -> Result<(), AllocError> {
    for (index, place) in places.as_slice().iter().enumerate() {
        if let Step::Act { guard, .. } = place.step {
            if place.part == part && guard.is_some() {
                waits.push((number_of(index)?, guard))?;
            }
        }
    }
    Ok(())
}

// Where a process may have stopped: at its end, or where it waits.
fn stops<'a>(
    alloc: Global,
    places: &Places<'a>,
    part: Part,
) -> Result<Vec<(u32, Option<&'a Assert>)>, AllocError> {
    let mut all = Vec::new(alloc);
    if let Some(last) = places.last(part) {
        all.push((last, None))?;
    }
    add_waits(&mut all, places, part)?;
    Ok(all)
}

// The processes never all wait.
fn add_blocking<'a>(list: &mut Vec<Obligation<'a>>, places: &Places<'a>) -> Result<(), AllocError> {
    let alloc = *list.allocator();
    let mut obligation = Obligation::of_places(alloc, Vec::new(alloc), Claim::Never);
    let mut waits = Vec::new(alloc);
    for p in 0..places.processes() {
        let part = Part::Process(p);
        obligation.stuck.push(stops(alloc, places, part)?)?;
        add_waits(&mut waits, places, part)?;
    }
    obligation.stuck.push(waits)?;
    list.push(obligation)?;
    Ok(())
}

/// What must hold of the assertions of an outline: of each step in the order of the places; of the
/// begin; of each action and each place of another process; of the end; of blocking. None where there
/// would be more than `most`.
///
/// # Errors
///
/// An allocation was refused.
pub fn obligations<'a>(
    alloc: Global,
    places: &Places<'a>,
    most: usize,
) -> Result<Option<Vec<Obligation<'a>>>, AllocError> {
    if count_all(places) > most {
        return Ok(None);
    }
    let mut list = Vec::new(alloc);
    add_local(&mut list, places)?;
    add_begins(&mut list, places)?;
    add_interference(&mut list, places)?;
    add_end(&mut list, places)?;
    add_blocking(&mut list, places)?;
    Ok(Some(list))
}
