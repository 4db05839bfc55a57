//! Numbers in a word, with a comma between two.

ghost use Rattle.std.specs.Prelude.{◌≡◌, ◌<◌, ℕ, List, length, IfOk, IfSome, IsNone};
ghost use Rattle.std.specs.List.{position_or_len, before_first, after_first};
ghost use Rattle.og_io.specs.Numbers.{is_comma, IsNumber, AreNumbers};

use std::alloc::{AllocError, Global};

// The number that a text writes: one digit or more.
fn number(text: &str) -> Option<u32>
    ensures some { IfSome result (IsNumber text.now) }
    ensures none { IsNone result → (n : ℕ) → IsNumber text.now n → ⊥ }
{
    if text.as_bytes().first() == Some(&b'+') {
        return None;
    }
    text.parse::<u32>().ok()
}

// The text before the first comma, and the text after it.
fn parted(text: &str) -> Option<(&str, &str)>
    ensures comma { IfSome result (λ _. position_or_len is_comma text.now < length text.now) }
    ensures first { IfSome result (λ r. r.0.now ≡ before_first is_comma text.now) }
    ensures others { IfSome result (λ r. r.1.now ≡ after_first is_comma text.now) }
    ensures none { IsNone result → position_or_len is_comma text.now ≡ length text.now }
{
    text.split_once(',')
}

/// The numbers of a word, with a comma between two; each has 32 bits, one digit or more, and no
/// sign. `None` where the word is anything else: so of the empty one.
///
/// # Errors
///
/// An allocation was refused.
pub fn numbers(alloc: Global, word: &str) -> Result<Option<Vec<u32>>, AllocError>
    ensures some { IfOk result (λ r. IfSome r (λ ns. AreNumbers word.now ns.items)) }
    ensures only { IfOk result (λ r.
        IfSome r (λ ns. (all : List ℕ) → AreNumbers word.now all → all ≡ ns.items)) }
    ensures none { IfOk result (λ r. IsNone r → (all : List ℕ) → AreNumbers word.now all → ⊥) }
{
    let mut found = Vec::new(alloc);
    let mut rest = word;
    while let Some((first, others)) = parted(rest) {
        let Some(value) = number(first) else {
            return Ok(None);
        };
        found.push(value)?;
        rest = others;
    }
    let Some(value) = number(rest) else {
        return Ok(None);
    };
    found.push(value)?;
    Ok(Some(found))
}
