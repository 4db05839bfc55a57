//! The ranges that words give to variables. Nothing is promised of which range that is: the answer
//! prints them.

ghost use Rattle.std.specs.Prelude.{◌≡◌, length, map, IfOk, IfErr, Contains};
ghost use Rattle.og_command_explore.specs.Words.{IsOneOrMemory};

use og_explore::Range;
use og_text::Name;
use og_typed::Outline;
use std::alloc::{AllocError, AllocFailed, Global};

/// Why words give no ranges.
pub enum WordsError<'a> {
    /// The first word that gives no variable a range.
    Bad(&'a str),
    /// An allocation was refused.
    Memory,
}

impl<'a> From<AllocError> for WordsError<'a> {
    ghost use Rattle.og_command_explore.specs.declared.words.WordsError.TheVariants.{Memory};

    ghost from_gives = { λ _ e. e ≡ Memory };

    fn from(_: AllocError) -> WordsError<'a> {
        WordsError::Memory
    }
}

impl<'a, T: Drop> From<AllocFailed<T>> for WordsError<'a> {
    ghost use Rattle.og_command_explore.specs.declared.words.WordsError.TheVariants.{Memory};

    ghost from_gives = { λ _ e. e ≡ Memory };

    fn from(_: AllocFailed<T>) -> WordsError<'a> {
        WordsError::Memory
    }
}

// The number that a text writes: one digit or more, with or without one `-` before them.
fn integer(text: &str) -> Option<i64> {
    if text.as_bytes().first() == Some(&b'+') {
        return None;
    }
    text.parse::<i64>().ok()
}

// The range that a text writes: a number, or two with `..` between them.
fn range(text: &str) -> Option<Range> {
    match text.split_once("..") {
        Some((low, high)) => Range::new(integer(low)?, integer(high)?),
        None => {
            let value = integer(text)?;
            Range::new(value, value)
        }
    }
}

// The number of a variable, by its name.
fn number_of(names: &[Name], name: &str) -> Option<usize> {
    names
        .iter()
        .position(|other| other.as_slice() == name.as_bytes())
}

// The variable that a word names, by its number, and the range that it says.
fn said(names: &[Name], word: &str) -> Option<(usize, Range)> {
    let (name, text) = word.split_once('=')?;
    let var = number_of(names, name)?;
    Some((var, range(text)?))
}

// No range for this many variables.
fn nothing(alloc: Global, vars: u32) -> Result<Vec<Option<Range>>, AllocError>
    ensures { IfOk result (λ v. length v.items ≡ vars) }
{
    let mut given = Vec::new(alloc);
    for _ in 0..vars {
        given.push(None)?;
    }
    Ok(given)
}

/// For each variable that is no auxiliary the range that a word gives it, if one does. A word is
/// NAME=INT or NAME=LO..HI; each names a variable that no word before it names.
///
/// # Errors
///
/// `Bad` with the first word that gives none. `Memory` where an allocation was refused.
pub fn given<'a>(
    alloc: Global,
    outline: &Outline,
    words: &[&'a str],
) -> Result<Vec<Option<Range>>, WordsError<'a>>
    ensures count { IfOk result (λ v. length v.items ≡ outline.now.vars) }
    ensures bad { IfErr result (IsOneOrMemory (map (λ w. w.now) words.now)) }
{
    let mut given = nothing(alloc, outline.vars())?;
    for word in words {
        let Some((var, range)) = said(outline.names(), word) else {
            return Err(WordsError::Bad(word));
        };
        match given.get(var) {
            Some(None) => given[var] = Some(range),
            _ => return Err(WordsError::Bad(word)),
        }
    }
    Ok(given)
}
