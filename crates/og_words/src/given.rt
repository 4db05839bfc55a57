//! The words that the program was given.

ghost use Rattle.std.specs.IoError.{error_kind};
ghost use Rattle.std.specs.Prelude.{◌≡◌, IfErr, codes, drop as after};
ghost use Rattle.og_words.specs.Jobs.{SaysWrong};
ghost use Rattle.og_words.specs.declared.job.Usage.TheVariants.{Memory};

use crate::job::Usage;
use std::alloc::Global;
use std::env;
use std::io::{Error, ErrorKind};
use std::rt::Env;

// The words after the first, which is the program's name.
fn without_name(mut words: Vec<String>) -> Vec<String>
    ensures { result.items ≡ after 1 words.items }
{
    if !words.is_empty() {
        words.remove(0);
    }
    words
}

// Why the words could not be copied.
fn fault_of(alloc: Global, error: &Error) -> Usage
    ensures wrong { SaysWrong (codes "og: a word is no text\n") result }
    ensures memory { error_kind error.now ≡ ErrorKind.OutOfMemory → result ≡ Memory }
{
    if error.kind() == ErrorKind::OutOfMemory {
        return Usage::Memory;
    }
    Usage::wrong(alloc, "og: a word is no text\n")
}

/// The words after the program's name.
///
/// # Errors
///
/// `Wrong` where a word is no text; `Memory` where memory ran out.
pub fn given_words<R: Env + Alloc<A = Global>>(rt: &R) -> Result<Vec<String>, Usage>
    ensures { IfErr result (SaysWrong (codes "og: a word is no text\n")) }
{
    let all = match env::args(rt) {
        Ok(all) => all,
        Err(error) => return Err(fault_of(rt.alloc(), &error)),
    };
    let all: Vec<String> = all.collect(rt.alloc())?;
    Ok(without_name(all))
}
