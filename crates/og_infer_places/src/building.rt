//! How the places of a part of a program are found: in the order of the text, each step once the
//! places after it are numbered.

use crate::place::{Place, Step, number_of};
use og_subst::Action;
use og_typed::{Assert, Item, Part, Seq, Stmt};
use std::alloc::{AllocError, Global};

/// The first place of a part, and the last one.
#[derive(Clone, Copy)]
pub(crate) struct Region {
    pub(crate) first: u32,
    pub(crate) last: u32,
}

// The number that the next place gets.
fn next_number(places: &[Place]) -> Result<u32, AllocError> {
    number_of(places.len())
}

// One place more, whose number is returned.
fn push<'a>(places: &mut Vec<Place<'a>>, place: Place<'a>) -> Result<u32, AllocError> {
    let number = next_number(places)?;
    places.push(place)?;
    Ok(number)
}

// The step of the place with this number is this one.
fn set_step<'a>(places: &mut Vec<Place<'a>>, number: u32, step: Step<'a>) {
    if let Some(place) = places.get_mut(number as usize) {
        place.step = step;
    }
}

// Adds the places of a sequence. Returns the number of its last one, from which nothing goes on yet.
#[cycle(building)]
fn add_seq<'a>(
    places: &mut Vec<Place<'a>>,
    part: Part,
    seq: &'a Seq,
    is_shared: bool,
) -> Result<u32, AllocError> {
    for item in &seq.items {
        add_item(places, part, item)?;
    }
    push(
        places,
        Place {
            part,
            note: &seq.last,
            step: Step::End,
            is_shared,
        },
    )
}

// Adds the place before a statement, and those in it.
#[cycle(building)]
fn add_item<'a>(places: &mut Vec<Place<'a>>, part: Part, item: &'a Item) -> Result<(), AllocError> {
    let place = Place {
        part,
        note: &item.before,
        step: Step::End,
        is_shared: true,
    };
    let number = push(places, place)?;
    let step = add_stmt(places, part, number, &item.stmt)?;
    set_step(places, number, step);
    Ok(())
}

// Adds the places in a statement. Returns the step of the place before it, which has this number;
// the next number is that of the place after it.
#[cycle(building)]
fn add_stmt<'a>(
    places: &mut Vec<Place<'a>>,
    part: Part,
    number: u32,
    stmt: &'a Stmt,
) -> Result<Step<'a>, AllocError> {
    match stmt {
        Stmt::Skip => {
            let to = next_number(places)?;
            Ok(Step::Go { to })
        }
        Stmt::Assign(var, form) => act(places, None, Action::Assign(*var, form)),
        Stmt::Await(guard, body) => act(places, Some(guard), Action::Await(body)),
        Stmt::While(test, body) => {
            let yes = next_number(places)?;
            let end = add_seq(places, part, body, false)?;
            set_step(places, end, Step::Go { to: number });
            let no = next_number(places)?;
            Ok(Step::Test { test, yes, no })
        }
        Stmt::If(test, branch, other) => {
            let yes = next_number(places)?;
            let end = add_seq(places, part, branch, false)?;
            let no = next_number(places)?;
            if let Some(other) = other {
                let end = add_seq(places, part, other, false)?;
                let to = next_number(places)?;
                set_step(places, end, Step::Go { to });
            }
            let to = next_number(places)?;
            set_step(places, end, Step::Go { to });
            Ok(Step::Test { test, yes, no })
        }
    }
}

// The step of an action, after which the next place comes.
fn act<'a>(
    places: &[Place],
    guard: Option<&'a Assert>,
    action: Action<'a>,
) -> Result<Step<'a>, AllocError> {
    let to = next_number(places)?;
    Ok(Step::Act { guard, action, to })
}

/// Adds the places of a part. Returns the first and the last one.
///
/// # Errors
///
/// An allocation was refused, or there are more than 4294967295 places.
pub(crate) fn add_part<'a>(
    places: &mut Vec<Place<'a>>,
    part: Part,
    seq: &'a Seq,
) -> Result<Region, AllocError> {
    let first = next_number(places)?;
    let last = add_seq(places, part, seq, true)?;
    Ok(Region { first, last })
}

/// Adds the places of a part of the main process, if there is one.
///
/// # Errors
///
/// As `add_part`.
pub(crate) fn add_main<'a>(
    places: &mut Vec<Place<'a>>,
    part: Part,
    seq: Option<&'a Seq>,
) -> Result<Option<Region>, AllocError> {
    match seq {
        Some(seq) => Ok(Some(add_part(places, part, seq)?)),
        None => Ok(None),
    }
}

/// Adds the places of each process.
///
/// # Errors
///
/// As `add_part`.
pub(crate) fn add_processes<'a>(
    alloc: Global,
    places: &mut Vec<Place<'a>>,
    processes: &'a [Seq],
) -> Result<Vec<Region>, AllocError> {
    let mut regions = Vec::with_capacity(alloc, processes.len())?;
    for seq in processes {
        let number = number_of(regions.len())?;
        regions.push(add_part(places, Part::Process(number), seq)?)?;
    }
    Ok(regions)
}
