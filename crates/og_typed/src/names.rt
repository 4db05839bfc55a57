//! The names of the variables, by number.

ghost use Rattle.std.specs.Prelude.{◌≡◌, ◌<◌, ◌≤◌, [], IsOk, IfOk, IfSome, length};
ghost use Rattle.og_typed.specs.Answer.{IsResolved, OnMemory};
ghost use Rattle.og_typed.specs.Resolved.{number_in, declared};

use crate::fault::{TypeError, TypeFault};
use indexmap::IndexSet;
use og_parse::RawName;
use og_text::Name;
use std::alloc::{AllocError, Global};
use std::marker::Model;

/// The greatest number of variables, auxiliaries included.
const VARIABLE_LIMIT: u32 = 256;

// Names in the order of declaration. Contracts see the list of them.
#[derive(Drop)]
pub(crate) struct Names<'a> {
    set: IndexSet<&'a [u8]>,
}

impl<'a> Model for Names<'a> {
    ghost use Rattle.std.specs.Prelude.{List, ℕ, map};

    ghost Value = { List (List ℕ) };

    ghost view = { λ n. map (λ name. name.now) n.set.keys };

    ghost use Rattle.std.specs.Prelude.{length, ◌≤◌};

    ghost invariant = { λ n. length n.set.keys ≤ 256 };
}

impl<'a> Names<'a> {
    pub(crate) fn new(alloc: Global) -> Names<'a>
        ensures { result ≡ [] }
    {
        Names {
            set: IndexSet::new(alloc),
        }
    }

    pub(crate) fn len(&self) -> u32
        ensures len { result ≡ length self.now }
        ensures few { result ≤ 256 }
    {
        self.set.len() as u32
    }

    // The number of a name.
    pub(crate) fn number(&self, name: &[u8]) -> Option<u32>
        ensures found { result ≡ number_in self.now name.now }
        ensures few { IfSome result (λ i. i < 256) }
    {
        match self.set.get_index_of(name) {
            Some(i) => Some(i as u32),
            None => None,
        }
    }

    // The names, in the order of declaration.
    pub(crate) fn to_vec(&self, alloc: Global) -> Result<Vec<Name>, AllocError>
        ensures { IfOk result (λ v. v.items ≡ self.now) }
    {
        let mut names = Vec::new(alloc);
        for bytes in self.set.as_slice() {
            names.push(Name::new(Vec::from_slice(alloc, bytes)?))?;
        }
        Ok(names)
    }

    // One name more. Asks for memory only where there is no fault.
    pub(crate) fn declare(&mut self, name: &'a RawName) -> Result<(), TypeError>
        ensures answer { IsResolved (λ _. self.new) result (declared self.old name.now) }
        ensures memory { OnMemory result (IsOk (declared self.old name.now)) }
    {
        if self.number(name.name.as_slice()).is_some() {
            return Err(TypeError::Fault(TypeFault::DeclaredTwice(name.span.start)));
        }
        if self.len() >= VARIABLE_LIMIT {
            return Err(TypeError::Fault(TypeFault::TooManyVariables(name.span.start)));
        }
        self.set.insert(name.name.as_slice())?;
        Ok(())
    }
}
