//! The words of a line.

ghost use Rattle.std.specs.Prelude.{◌≡◌, ◌≤◌, ◌<◌, ◌∷◌, IfOk, ◌-◌, negsuc, IfSome, option_map, Some};
ghost use Rattle.og_cert_text.specs.Plain.{ref_of};
ghost use Rattle.og_cert_read.specs.Words as words;

use crate::limits::{FACTOR_LIMIT, NUMBER_LIMIT};
use crate::wide::wide_number;
use og_cert_text::{Source, Term};

/// The bytes before the first such byte, and those after it.
#[inline(never)]
pub(crate) fn split_at_byte(text: &[u8], byte: u8) -> (&[u8], Option<&[u8]>)
    ensures before { result.0.now ≡ words.before byte text.now }
    ensures past { option_map (λ s. s.now) result.1 ≡ words.past byte text.now }
{
    for (i, b) in text.iter().enumerate() {
        if *b == byte {
            return (&text[..i], Some(&text[i + 1..]));
        }
    }
    (text, None)
}

/// What stands after these bytes at the front.
pub(crate) fn after<'a>(front: &[u8], text: &'a [u8]) -> Option<&'a [u8]>
    ensures { option_map (λ s. s.now) result ≡ words.after front.now text.now }
{
    let mut rest = text;
    for p in front {
        let [b, later @ ..] = rest else {
            return None;
        };
        if *b != *p {
            return None;
        }
        rest = later;
    }
    Some(rest)
}

/// The number that is the whole word, without leading zeros and up to a limit below 2^63.
pub(crate) fn number(word: &[u8], most: u64) -> Option<u64>
    requires { most ≤ 9223372036854775807 }
    ensures value { result ≡ words.number_of most word.now }
    ensures within { IfSome result (λ n. n ≤ most) }
{
    let n = wide_number(word, most as u128)?;
    Some(n as u64)
}

/// The number of a condition or a fact.
pub(crate) fn index(word: &[u8]) -> Option<u32>
    ensures { result ≡ words.index_of word.now }
{
    match number(word, NUMBER_LIMIT as u64)? {
        0 => None,
        n => Some(n as u32),
    }
}

/// The number of a variable.
pub(crate) fn variable(word: &[u8]) -> Option<u32>
    ensures { result ≡ words.variable_of word.now }
{
    let v = number(word, NUMBER_LIMIT as u64)?;
    Some(v as u32)
}

/// A multiplier or a divisor.
pub(crate) fn factor(word: &[u8]) -> Option<u64>
    ensures { result ≡ words.factor_of word.now }
{
    number(word, FACTOR_LIMIT)
}

// The number below 0.
fn negated(n: u128) -> i128
    requires some { 0 < n }
    requires within { n ≤ 170141183460469231731687303715884105728 }
    ensures { result ≡ negsuc (n - 1) }
{
    -1 - (n - 1) as i128
}

/// A whole number with its sign.
pub(crate) fn whole(word: &[u8]) -> Option<i128>
    ensures { result ≡ words.whole_of word.now }
{
    if let [b'-', digits @ ..] = word {
        return match wide_number(digits, i128::MAX as u128 + 1)? {
            0 => None,
            n => Some(negated(n)),
        };
    }
    let n = wide_number(word, i128::MAX as u128)?;
    Some(n as i128)
}

fn source(word: &[u8]) -> Option<Source>
    ensures { option_map ref_of result ≡ words.source_of word.now }
{
    match word {
        [b'l', digits @ ..] => Some(Source::Low(variable(digits)?)),
        [b'u', digits @ ..] => Some(Source::High(variable(digits)?)),
        _ => Some(Source::Known(index(word)?)),
    }
}

// A term whose multiplier is one digit, by the digit and what stands after the `*`.
#[tactic(auto, using(crate::proofs::Numbers::short_term_is))]
fn short_term(digit: u8, rest: &[u8]) -> Option<Term>
    requires low { 49 ≤ digit }
    requires high { digit ≤ 57 }
    ensures { option_map (λ t. (t.times, ref_of t.source)) result
        ≡ words.term_of (digit ∷ 42 ∷ rest.now) }
{
    let source = source(rest)?;
    Some(Term {
        times: (digit - b'0') as u64,
        source,
    })
}

/// A term of a combination.
pub(crate) fn term(word: &[u8]) -> Option<Term>
    ensures { option_map (λ t. (t.times, ref_of t.source)) result ≡ words.term_of word.now }
{
    if let [digit, b'*', rest @ ..] = word {
        if b'1' <= *digit && *digit <= b'9' {
            return short_term(*digit, rest);
        }
    }
    let (times, past) = split_at_byte(word, b'*');
    let times = factor(times)?;
    let source = source(past?)?;
    Some(Term { times, source })
}

fn named_variable(word: &[u8]) -> Option<u32>
    ensures { result ≡ words.named_variable word.now }
{
    match word {
        [b'v', digits @ ..] => variable(digits),
        _ => None,
    }
}

/// A variable of a form, with its coefficient.
pub(crate) fn part(word: &[u8]) -> Option<(u32, i128)>
    ensures { result ≡ words.part_of word.now }
{
    let (coefficient, past) = split_at_byte(word, b'*');
    let coefficient = whole(coefficient)?;
    let variable = named_variable(past?)?;
    if coefficient == 0 {
        return None;
    }
    Some((variable, coefficient))
}
