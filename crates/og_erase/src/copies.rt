//! Copies of the parts of an outline that stay.

ghost use Rattle.std.specs.Prelude.{◌≡◌, IfOk, IsOk};
ghost use Rattle.og_typed.specs.Erase.{blank};
ghost use Rattle.og_typed.specs.Plain.{noted, simple};
ghost use Rattle.og_typed.specs.Syntax.{Pass};

use og_text::Name;
use og_typed::{Assert, Basic, Note};
use std::alloc::{AllocError, Global};

pub(crate) fn copy_name(alloc: Global, name: &Name) -> Result<Name, AllocError>
    ensures { IfOk result (λ copy. copy ≡ name.now) }
{
    Ok(Name::new(Vec::from_slice(alloc, name.as_slice())?))
}

pub(crate) fn copy_names(alloc: Global, names: &[Name]) -> Result<Vec<Name>, AllocError>
    ensures { IfOk result (λ copies. copies.items ≡ names.now) }
{
    let mut copies = Vec::new(alloc);
    for name in names {
        copies.push(copy_name(alloc, name)?)?;
    }
    Ok(copies)
}

pub(crate) fn copy_note(alloc: Global, note: &Note) -> Result<Note, AllocError>
    ensures { IfOk result (λ copy. noted copy ≡ noted note.now) }
{
    Ok(Note {
        assertion: note.assertion.copy(alloc)?,
        at: note.at,
    })
}

// `true` in the place of the assertion.
pub(crate) fn blank_note(note: &Note) -> Note
    ensures { noted result ≡ blank (noted note.now) }
{
    Note {
        assertion: Assert::True,
        at: note.at,
    }
}

// Takes no memory for `skip`.
pub(crate) fn copy_basic(basic: &Basic) -> Result<Basic, AllocError>
    ensures copy { IfOk result (λ copy. simple copy ≡ simple basic.now) }
    ensures skip { simple basic.now ≡ Pass → IsOk result }
{
    match basic {
        Basic::Skip => Ok(Basic::Skip),
        Basic::Assign(var, form) => Ok(Basic::Assign(*var, form.copy()?)),
    }
}
