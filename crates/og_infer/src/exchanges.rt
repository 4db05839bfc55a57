//! Processes that are equal but for an exchange of names.

use og_infer_candidates::{Candidate, Universe};
use og_infer_places::{Part, Places, Step};
use og_infer_rounds::Held;
use og_linear::Form;
use og_subst::Action;
use og_typed::{Assert, Basic, Outline};
use std::alloc::{AllocError, Global};

/// With more processes none are compared.
const MOST_PROCESSES: u32 = 32;

/// How many images of one candidate are looked at.
const MOST_IMAGES: usize = 64;

/// A piece of the program of a process, without its assertions: a name, or anything else.
#[derive(Clone, Copy, PartialEq, Eq)]
enum Word {
    Name(u32),
    Number(i64),
}

/// The end of a list.
const END: Word = Word::Number(i64::MIN);

/// The program of a process, and where its places begin.
#[derive(Drop)]
struct Program {
    words: Vec<Word>,
    first: u32,
    count: u32,
}

/// An exchange of variables under which two processes become each other, and all others stay.
#[derive(Drop)]
pub(crate) struct Exchange {
    names: Vec<u32>,
    // Where the places of the two processes begin, and how many each of them has.
    first: u32,
    second: u32,
    count: u32,
}

/// A candidate of a place.
#[derive(Drop)]
pub(crate) struct Image {
    pub(crate) place: u32,
    pub(crate) candidate: Candidate,
}

// Adds a number, or the end of a list where it is too large.
fn put_number(words: &mut Vec<Word>, number: i128) -> Result<(), AllocError> {
    let word = match i64::try_from(number) {
        Ok(number) => Word::Number(number),
        Err(_) => END,
    };
    words.push(word)?;
    Ok(())
}

// Adds the words of a form.
fn put_form(words: &mut Vec<Word>, form: &Form) -> Result<(), AllocError> {
    put_number(words, form.offset())?;
    for i in 0..usize::MAX {
        let Some((var, coefficient)) = form.term(i) else {
            break;
        };
        put_number(words, coefficient)?;
        words.push(Word::Name(var))?;
    }
    words.push(END)?;
    Ok(())
}

// Adds the words of an assertion.
fn put_assertion(words: &mut Vec<Word>, assertion: &Assert) -> Result<(), AllocError> {
    let kind = match assertion {
        Assert::True => 0,
        Assert::False => 1,
        Assert::Le(_) => 2,
        Assert::Eq(_) => 3,
        Assert::Ne(_) => 4,
        Assert::Not(_) => 5,
        Assert::And(_) => 6,
        Assert::Or(_) => 7,
        Assert::Imp(..) => 8,
    };
    words.push(Word::Number(kind))?;
    match assertion {
        Assert::True | Assert::False => {}
        Assert::Le(form) | Assert::Eq(form) | Assert::Ne(form) => put_form(words, form)?,
        Assert::Not(inner) => put_assertion(words, inner)?,
        Assert::And(all) | Assert::Or(all) => {
            for inner in all {
                put_assertion(words, inner)?;
            }
        }
        Assert::Imp(left, right) => {
            put_assertion(words, left)?;
            put_assertion(words, right)?;
        }
    }
    words.push(END)?;
    Ok(())
}

// Adds the words of an assignment.
fn put_assignment(words: &mut Vec<Word>, var: u32, form: &Form) -> Result<(), AllocError> {
    words.push(Word::Name(var))?;
    put_form(words, form)
}

// Adds the words of the statements of an await.
fn put_body(words: &mut Vec<Word>, body: &[Basic]) -> Result<(), AllocError> {
    for basic in body {
        match basic {
            Basic::Skip => words.push(Word::Number(0))?,
            Basic::Assign(var, form) => put_assignment(words, *var, form)?,
        }
    }
    words.push(END)?;
    Ok(())
}

// Adds the number of a place, counted from the first one of its process.
fn put_place(words: &mut Vec<Word>, place: u32, first: u32) -> Result<(), AllocError> {
    let offset = i64::from(place).wrapping_sub(i64::from(first));
    words.push(Word::Number(offset))?;
    Ok(())
}

// Adds the words of an action.
fn put_action(words: &mut Vec<Word>, action: &Action) -> Result<(), AllocError> {
    match action {
        Action::Assign(var, form) => put_assignment(words, *var, form),
        Action::Await(body) => put_body(words, body),
    }
}

// Adds the words of a step of a process whose places begin there.
fn put_step(words: &mut Vec<Word>, step: &Step, first: u32) -> Result<(), AllocError> {
    match step {
        Step::End => {}
        Step::Go { to } => put_place(words, *to, first)?,
        Step::Test { test, yes, no } => {
            put_place(words, *yes, first)?;
            put_place(words, *no, first)?;
            put_assertion(words, test)?;
        }
        Step::Act { guard, action, to } => {
            put_place(words, *to, first)?;
            if let Some(guard) = guard {
                put_assertion(words, guard)?;
            }
            put_action(words, action)?;
        }
    }
    words.push(END)?;
    Ok(())
}

// The program of a process, where it has places.
fn program_of(alloc: Global, places: &Places, process: u32) -> Result<Option<Program>, AllocError> {
    let part = Part::Process(process);
    let (Some(first), Some(last)) = (places.first(part), places.last(part)) else {
        return Ok(None);
    };
    let mut words = Vec::new(alloc);
    let count = last.saturating_sub(first).saturating_add(1);
    for offset in 0..count {
        if let Some(place) = places.place(first.saturating_add(offset)) {
            put_step(&mut words, &place.step, first)?;
        }
    }
    Ok(Some(Program {
        words,
        first,
        count,
    }))
}

// The variable that stands for this one: itself, where the list has none.
fn name_of(names: &[Option<u32>], var: u32) -> u32 {
    match names.get(var as usize) {
        Some(Some(name)) => *name,
        _ => var,
    }
}

// Notes that one stands for the other. Whether nothing else does.
fn note(names: &mut [Option<u32>], var: u32, name: u32) -> bool {
    match names.get_mut(var as usize) {
        Some(Some(known)) => *known == name,
        Some(own) => {
            *own = Some(name);
            true
        }
        None => false,
    }
}

// For each of this many variables the one that stands for it, so that each list of words becomes
// the other. None where nothing does, or where they are equal.
fn names_between(
    alloc: Global,
    one: &[Word],
    other: &[Word],
    variables: usize,
) -> Result<Option<Vec<Option<u32>>>, AllocError> {
    let mut names = vec![in alloc; None; variables]?;
    if one.len() != other.len() || one == other {
        return Ok(None);
    }
    for (word, second) in one.iter().zip(other) {
        let is_alike = match (word, second) {
            (Word::Name(var), Word::Name(name)) => {
                note(&mut names, *var, *name) && note(&mut names, *name, *var)
            }
            _ => *word == *second,
        };
        if !is_alike {
            return Ok(None);
        }
    }
    Ok(Some(names))
}

// Whether the words stay the same.
fn is_kept(names: &[Option<u32>], words: &[Word]) -> bool {
    for word in words {
        if let Word::Name(var) = word {
            if name_of(names, *var) != *var {
                return false;
            }
        }
    }
    true
}

// Whether all programs but these two stay the same.
fn keeps_others(names: &[Option<u32>], programs: &[Program], first: usize, second: usize) -> bool {
    for (index, program) in programs.iter().enumerate() {
        if index != first && index != second && !is_kept(names, &program.words) {
            return false;
        }
    }
    true
}

// The initial value of an auxiliary.
fn initial(outline: &Outline, var: u32) -> Option<i64> {
    let index = var.checked_sub(outline.vars())?;
    outline.aux_values().get(index as usize).copied()
}

// For each variable the one that stands for it, where auxiliaries stand for auxiliaries with the
// same initial value, and no others for others.
fn checked(
    alloc: Global,
    outline: &Outline,
    names: &[Option<u32>],
) -> Result<Option<Vec<u32>>, AllocError> {
    let mut all = Vec::new(alloc);
    for var in 0..u32::try_from(names.len()).unwrap_or(0) {
        let name = name_of(names, var);
        if initial(outline, var) != initial(outline, name) {
            return Ok(None);
        }
        all.push(name)?;
    }
    Ok(Some(all))
}

// The exchange under which these two programs become each other, and all others stay.
fn exchange_of(
    alloc: Global,
    outline: &Outline,
    programs: &[Program],
    first: usize,
    second: usize,
) -> Result<Option<Exchange>, AllocError> {
    let variables = outline.names().len();
    let (Some(one), Some(other)) = (programs.get(first), programs.get(second)) else {
        return Ok(None);
    };
    let Some(names) = names_between(alloc, &one.words, &other.words, variables)? else {
        return Ok(None);
    };
    if !keeps_others(&names, programs, first, second) {
        return Ok(None);
    }
    let Some(names) = checked(alloc, outline, &names)? else {
        return Ok(None);
    };
    Ok(Some(Exchange {
        names,
        first: one.first,
        second: other.first,
        count: one.count,
    }))
}

// The programs of all processes; none where there are too many.
fn programs(alloc: Global, places: &Places) -> Result<Vec<Program>, AllocError> {
    let mut programs = Vec::new(alloc);
    let processes = places.processes();
    if processes > MOST_PROCESSES {
        return Ok(programs);
    }
    for process in 0..processes {
        if let Some(program) = program_of(alloc, places, process)? {
            programs.push(program)?;
        }
    }
    Ok(programs)
}

/// The exchanges under which two processes become each other, and all others stay.
pub(crate) fn exchanges(alloc: Global, places: &Places) -> Result<Vec<Exchange>, AllocError> {
    let programs = programs(alloc, places)?;
    let mut exchanges = Vec::new(alloc);
    for second in 0..programs.len() {
        for first in 0..second {
            if let Some(one) = exchange_of(alloc, places.outline(), &programs, first, second)? {
                exchanges.push(one)?;
            }
        }
    }
    Ok(exchanges)
}

impl Exchange {
    // The place that stands for this one.
    fn place(&self, place: u32) -> u32 {
        let from_first = place.wrapping_sub(self.first);
        let from_second = place.wrapping_sub(self.second);
        if from_first < self.count {
            self.second.saturating_add(from_first)
        } else if from_second < self.count {
            self.first.saturating_add(from_second)
        } else {
            place
        }
    }

    // The image of a candidate, where it is true of all states that its place admitted.
    fn image(
        &self,
        alloc: Global,
        universe: &Universe,
        held: &Held,
        image: &Image,
    ) -> Result<Option<Image>, AllocError> {
        let place = self.place(image.place);
        let Some(candidate) = image.candidate.renamed(alloc, universe, &self.names)? else {
            return Ok(None);
        };
        let is_held = held.has(alloc, universe, place, &candidate)?;
        Ok(if is_held {
            Some(Image { place, candidate })
        } else {
            None
        })
    }
}

/// Whether this candidate of the place is among these.
pub(crate) fn contains(images: &[Image], place: u32, candidate: &Candidate) -> bool {
    for image in images {
        if image.place == place && image.candidate.is_same(candidate) {
            return true;
        }
    }
    false
}

// Adds the images of the one at this index that are not among them.
fn add_images(
    alloc: Global,
    universe: &Universe,
    held: &Held,
    exchanges: &[Exchange],
    at: usize,
    images: &mut Vec<Image>,
) -> Result<(), AllocError> {
    for exchange in exchanges {
        let Some(image) = images.get(at) else {
            break;
        };
        if let Some(other) = exchange.image(alloc, universe, held, image)? {
            if !contains(images, other.place, &other.candidate) {
                images.push(other)?;
            }
        }
    }
    Ok(())
}

/// The candidate of the place, and its images under these exchanges that are true of all states
/// that their places admitted.
pub(crate) fn images(
    alloc: Global,
    universe: &Universe,
    held: &Held,
    exchanges: &[Exchange],
    first: Image,
) -> Result<Vec<Image>, AllocError> {
    let mut images = Vec::new(alloc);
    images.push(first)?;
    for at in 0..MOST_IMAGES {
        if at >= images.len() {
            break;
        }
        add_images(alloc, universe, held, exchanges, at, &mut images)?;
    }
    Ok(images)
}
