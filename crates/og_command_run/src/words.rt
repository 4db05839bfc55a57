//! The values that words give to variables.

ghost use Rattle.std.specs.Prelude.{◌≡◌, ◌≢◌, ℕ, ℤ, true, false, Some, slice_get, IfOk, IfErr, IfSome, IsNone, map, pos, unwrap_or, replicate, None, Ok, Err};
ghost use Rattle.og_typed.specs.Resolved.{number_in};
ghost use Rattle.og_command_run.specs.Words.{IsInteger, Says, Adds, Reads, Give, IsBadIn, IsBadOr};

use og_linear::State;
use og_text::Name;
use og_typed::Outline;
use std::alloc::{AllocError, Global};

/// Why words give no values.
#[derive(Clone, Copy, Drop, PartialEq, Eq)]
pub enum WordsError<'a> {
    /// The first word that gives no variable a value.
    Bad(&'a str),
    /// An allocation was refused.
    Memory,
}

impl<'a> From<AllocError> for WordsError<'a> {
    ghost use Rattle.og_command_run.specs.declared.words.WordsError.TheVariants.{Memory};

    ghost from_gives = { λ _ e. e ≡ Memory };

    fn from(_: AllocError) -> WordsError<'a> {
        WordsError::Memory
    }
}

/// The number that a text writes: one digit or more, with or without one `-` before them; none
/// where it writes none, or one that is no `i64`. Takes no memory.
pub fn integer(text: &str) -> Option<i64>
    ensures some { IfSome result (IsInteger text.now) }
    ensures none { IsNone result → (z : ℤ) → IsInteger text.now z → ⊥ }
{
    if text.as_bytes().first() == Some(&b'+') {
        return None;
    }
    text.parse::<i64>().ok()
}

/// The number of a variable, by its name. Takes no memory.
pub fn number_of(names: &[Name], name: &str) -> Option<usize>
    ensures { result ≡ number_in names.now name.now }
{
    names
        .iter()
        .position(|other| other.as_slice() == name.as_bytes())
}

// The variable that a word names, by its number, and the value that it says.
fn said(names: &[Name], word: &str) -> Option<(usize, i64)>
    ensures some { IfSome result (λ r. Says names.now word.now r.0 r.1) }
    ensures none { IsNone result → (x : ℕ) (z : ℤ) → Says names.now word.now x z → ⊥ }
{
    let (name, number) = word.split_once('=')?;
    let var = number_of(names, name)?;
    Some((var, integer(number)?))
}

// Whether there is such a variable, and it has no value yet.
fn is_new(given: &[Option<i64>], var: usize) -> bool
    ensures yes { result ≡ true → slice_get given.now var ≡ Some None }
    ensures no { result ≡ false → slice_get given.now var ≢ Some None }
{
    matches!(given.get(var), Some(None))
}

// The variable to which a word gives its first value, and this value.
fn added(names: &[Name], given: &[Option<i64>], word: &str) -> Option<(usize, i64)>
    ensures some { IfSome result (λ r. Adds names.now given.now word.now r.0 r.1) }
    ensures none { IsNone result → (x : ℕ) (z : ℤ) → Adds names.now given.now word.now x z → ⊥ }
{
    let (var, value) = said(names, word)?;
    if is_new(given, var) {
        Some((var, value))
    } else {
        None
    }
}

// The values that the words give to this many variables.
fn given<'a>(
    alloc: Global,
    names: &[Name],
    vars: usize,
    words: &[&'a str],
) -> Result<Vec<Option<i64>>, WordsError<'a>>
    ensures given { IfOk result (λ v.
        Reads names.now (replicate vars None) (map (λ w. w.now) words.now) (Ok v.items)) }
    ensures bad { IfErr result (IsBadOr
        (λ w. Reads names.now (replicate vars None) (map (λ w. w.now) words.now) (Err w))) }
{
    let mut given = Vec::from_elem(alloc, None, vars)?;
    for word in words {
        let Some((var, value)) = added(names, &given, word) else {
            return Err(WordsError::Bad(word));
        };
        given[var] = Some(value);
    }
    Ok(given)
}

// The values that were given, and 0 where none was.
fn state_of(alloc: Global, given: &[Option<i64>]) -> Result<State, AllocError>
    ensures { IfOk result (λ s. s ≡ map (λ v. unwrap_or v (pos 0)) given.now) }
{
    let mut values = Vec::new(alloc);
    for value in given {
        values.push(value.unwrap_or(0))?;
    }
    Ok(State::new(values))
}

/// The values that the words, each `NAME=INT`, give to the variables that are no auxiliaries, in
/// order; 0 where none does.
///
/// # Errors
///
/// `Bad`, the first word that gives none: it has no `=`, its name is not declared, an auxiliary's
/// or one that a word before it has, or its number is none. `Memory` where an allocation was
/// refused.
pub fn values<'a>(
    alloc: Global,
    outline: &Outline,
    words: &[&'a str],
) -> Result<State, WordsError<'a>>
    ensures values { IfOk result (Give outline.now (map (λ w. w.now) words.now)) }
    ensures bad { IfErr result (IsBadOr (IsBadIn outline.now (map (λ w. w.now) words.now))) }
{
    let given = given(alloc, outline.names(), outline.vars() as usize, words)?;
    Ok(state_of(alloc, &given)?)
}
