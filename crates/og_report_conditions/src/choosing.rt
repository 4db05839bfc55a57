//! The answer to a request for the conditions of a source.

ghost use Rattle.std.specs.Prelude.{◌≡◌, ◌≤◌, length, not, find, IfOk, IfErr};
ghost use Rattle.og_cond.specs.Groups.{rest};
ghost use Rattle.og_cond.specs.Limits.{condition_limit};
ghost use Rattle.og_report_text.specs.InputErrors.{OnFault, IsFaultOfCount};
ghost use Rattle.og_report_conditions.specs.Chosen as specified;
ghost use Rattle.og_report_conditions.specs.Chosen.{no_numbers_line, no_condition_line, IsWithin, IsCounted, IsReplyOf, IsReplyToAll, IsReplyTo, IsReply};

use crate::form::Form;
use crate::listing::Listing;
use og_cond::{ConditionsError, Groups};
use og_io::numbers;
use og_report_text::{InputError, put_number};
use og_typed::{Outline, Source};
use std::alloc::{AllocError, Global};

/// The answer to a request for the conditions of a source.
#[derive(Drop)]
pub enum Reply<'a> {
    /// The listing, of which nothing is written yet.
    Listing(Listing),
    /// This word names no conditions; and the line that says why, after two blanks.
    Bad(&'a str, Vec<u8>),
}

// That a word is no list of numbers, as a line.
fn no_numbers(alloc: Global) -> Result<Vec<u8>, AllocError>
    ensures { IfOk result (λ line. line.items ≡ no_numbers_line) }
{
    Vec::from_slice(
        alloc,
        b"  conditions are numbers with commas between them, as 3,7\n",
    )
}

// That none of this many conditions has this number, as a line.
fn no_condition(alloc: Global, number: u32, count: u32) -> Result<Vec<u8>, AllocError>
    ensures { IfOk result (λ line. line.items ≡ no_condition_line number count) }
{
    let mut line = Vec::from_slice(alloc, b"  there is no condition ")?;
    put_number(&mut line, u128::from(number))?;
    line.extend_from_slice(b": they are numbered from 1 to ")?;
    put_number(&mut line, u128::from(count))?;
    line.extend_from_slice(b"\n")?;
    Ok(line)
}

// How many conditions are still to come.
fn count_rest(alloc: Global, groups: &mut Groups<'_>) -> Result<u32, AllocError>
    requires { length (rest groups.old) ≤ condition_limit }
    ensures { IfOk result (λ count. count ≡ length (rest groups.old)) }
{
    let mut count = 0;
    while let Some(group) = groups.next(alloc)? {
        count += group.len() as u32;
    }
    Ok(count)
}

// That there are not too many conditions.
fn within_limit(alloc: Global, outline: &Outline) -> Result<(), ConditionsError>
    ensures { IsWithin outline.now result }
{
    drop(Groups::new(alloc, outline)?);
    Ok(())
}

// How many conditions an outline has.
fn count(alloc: Global, outline: &Outline) -> Result<u32, ConditionsError>
    ensures { IsCounted outline.now result }
{
    let mut groups = Groups::new(alloc, outline)?;
    Ok(count_rest(alloc, &mut groups)?)
}

// Whether one of this many conditions has this number.
fn is_number(count: u32, number: u32) -> bool
    ensures { result ≡ specified.is_number count number }
{
    1 <= number && number <= count
}

// The first number that none of this many conditions has.
fn first_other(count: u32, numbers: &[u32]) -> Option<u32>
    ensures { result ≡ find (λ m. not (specified.is_number count m)) numbers.now }
{
    for number in numbers {
        if !is_number(count, *number) {
            return Some(*number);
        }
    }
    None
}

// The answer where all conditions are asked for.
fn of_all<'a>(alloc: Global, form: Form, source: Source<'_>) -> Result<Reply<'a>, InputError>
    ensures reply { IfOk result (IsReplyToAll form source.entry.outline source.entry.bytes) }
    ensures refused { IfErr result (OnFault (IsFaultOfCount source.entry.outline)) }
{
    within_limit(alloc, source.outline())?;
    Ok(Reply::Listing(Listing::of(alloc, form, None, source)?))
}

// The answer to the numbers in a word.
fn of_numbers<'a>(
    alloc: Global,
    form: Form,
    word: &'a str,
    numbers: Vec<u32>,
    source: Source<'_>,
) -> Result<Reply<'a>, InputError>
    ensures reply { IfOk result (IsReplyOf form word.entry numbers.items source.entry.outline
        source.entry.bytes) }
    ensures refused { IfErr result (OnFault (IsFaultOfCount source.entry.outline)) }
{
    let count = count(alloc, source.outline())?;
    match first_other(count, &numbers) {
        Some(number) => Ok(Reply::Bad(word, no_condition(alloc, number, count)?)),
        None => Ok(Reply::Listing(Listing::of(alloc, form, Some(numbers), source)?)),
    }
}

// The answer to a word.
fn of_word<'a>(
    alloc: Global,
    form: Form,
    word: &'a str,
    source: Source<'_>,
) -> Result<Reply<'a>, InputError>
    ensures reply { IfOk result (IsReplyTo form word.entry source.entry.outline source.entry.bytes) }
    ensures refused { IfErr result (OnFault (IsFaultOfCount source.entry.outline)) }
{
    match numbers(alloc, word)? {
        Some(numbers) => of_numbers(alloc, form, word, numbers, source),
        None => Ok(Reply::Bad(word, no_numbers(alloc)?)),
    }
}

/// The answer to a request for the conditions of a source in this form: all, or those whose numbers
/// are in a word, counted from 1 and with a comma between two: the listing, of which nothing is
/// written yet.
///
/// `Bad` where the word is anything else, once the source was read, or has a number that no
/// condition has; its line has the first one.
///
/// # Errors
///
/// `Fault` where the source has more than 4,000,000 conditions. `Memory` where an allocation was
/// refused.
pub fn listed<'a>(
    alloc: Global,
    form: Form,
    only: Option<&'a str>,
    source: Source<'_>,
) -> Result<Reply<'a>, InputError>
    ensures reply { IfOk result (IsReply form only.entry source.entry.outline source.entry.bytes) }
    ensures refused { IfErr result (OnFault (IsFaultOfCount source.entry.outline)) }
{
    match only {
        Some(word) => of_word(alloc, form, word, source),
        None => of_all(alloc, form, source),
    }
}
