//! The words of a program.

use og_words::{Usage, given_words};
use std::alloc::{AllocError, Global};
use std::env::FillError;
use std::rt::Env;
use std::test::Fail;

// Gives these words, the first of which is the program's name.
#[derive(Drop)]
struct WordList<'a> {
    words: &'a [&'a [u8]],
}

impl<'a> Env for WordList<'a> {
    fn arg(&self, i: usize, buf: &mut [u8]) -> Result<usize, FillError> {
        let Some(word) = self.words.get(i) else {
            return Err(FillError::NotPresent);
        };
        let Some(room) = buf.get_mut(..word.len()) else {
            return Err(FillError::TooLong);
        };
        room.copy_from_slice(word);
        Ok(word.len())
    }

    fn var(&self, _name: &str, _buf: &mut [u8]) -> Result<usize, FillError> {
        Err(FillError::NotPresent)
    }

    fn var_at(&self, _i: usize, _buf: &mut [u8]) -> Result<usize, FillError> {
        Err(FillError::NotPresent)
    }
}

// The words after the name, each with `|` behind it, or their fault.
fn text_of<'a>(alloc: Global, words: &'a [&'a [u8]]) -> Result<String, AllocError> {
    let given = match given_words(&(WordList { words }, alloc)) {
        Ok(given) => given,
        Err(Usage::Wrong(why)) => return Ok(why),
        Err(_) => return String::from_str(alloc, "another"),
    };
    let mut text = String::new(alloc);
    for word in &given {
        text.push_str(word.as_str())?;
        text.push('|')?;
    }
    Ok(text)
}

// Words, and the message about them.
const WORDS: &[(&[&[u8]], &str)] = &[
    (&[], ""),
    (&[b"og"], ""),
    (&[b"og", b"check", b"", b"a b"], "check||a b|"),
    (&[b"og", b"\xc3\xa9"], "\u{e9}|"),
    (&[b"og", b"check", b"\xc3"], "og: a word is no text\n"),
    (&[b"\xff", b"check"], "og: a word is no text\n"),
];

#[test]
fn words_that_are_given(rt: HostRuntime) -> Result<(), Fail> {
    for (words, expected) in WORDS {
        let got = text_of(rt.alloc(), words)?;
        assert_eq!(rt; got.as_str(), *expected);
    }
    Ok(())
}
