//! Names that are in scope.

use crate::details::{Kind, NameDetail, Wanted};
use indexmap::IndexMap;
use og_parse::RawName;
use og_template::{FaultKind, TemplateError, TemplateFault};
use std::alloc::{AllocError, AllocFailed, Global};

/// Why the names of a template are not as they must be.
#[derive(Clone, Copy, Drop)]
pub(crate) enum NameError {
    /// An allocation was refused.
    Memory,
    /// The fault, and what more is known of it.
    Fault(TemplateFault, Option<NameDetail>),
}

impl From<AllocError> for NameError {
    fn from(_: AllocError) -> NameError {
        NameError::Memory
    }
}

impl<T: Drop> From<AllocFailed<T>> for NameError {
    fn from(_: AllocFailed<T>) -> NameError {
        NameError::Memory
    }
}

impl From<NameError> for TemplateError {
    fn from(error: NameError) -> TemplateError {
        match error {
            NameError::Memory => TemplateError::Memory,
            NameError::Fault(fault, _) => TemplateError::Fault(fault),
        }
    }
}

// What a name stands for, and where it was declared or bound.
#[derive(Clone, Copy, Drop)]
struct Entry {
    kind: Kind,
    at: u32,
}

/// The names in scope, in the order in which they came into it.
#[derive(Drop)]
pub(crate) struct Scope<'a> {
    names: IndexMap<&'a [u8], Entry>,
}

// The error of a fault at a name.
fn fault_at(kind: FaultKind, name: &RawName, detail: Option<NameDetail>) -> NameError {
    let at = name.span.start;
    NameError::Fault(TemplateFault { kind, at }, detail)
}

/// The error of a name that was declared before, at a byte offset.
pub(crate) fn declared_before(name: &RawName, first: u32) -> NameError {
    fault_at(
        FaultKind::DeclaredTwice,
        name,
        Some(NameDetail::First(first)),
    )
}

/// The error of a name of one kind in a place for another.
pub(crate) fn wrong_kind(name: &RawName, is: Kind, wanted: Wanted) -> NameError {
    fault_at(
        FaultKind::WrongKind,
        name,
        Some(NameDetail::Kind { is, wanted }),
    )
}

/// The error of a named assertion with another number of values than parameters.
pub(crate) fn wrong_count(name: &RawName, parameters: usize, values: usize) -> NameError {
    fault_at(
        FaultKind::WrongCount,
        name,
        Some(NameDetail::Count { parameters, values }),
    )
}

// Whether a name ends in `_` and one digit or more.
fn is_reserved(name: &[u8]) -> bool {
    let digits = name.iter().rev().take_while(|b| b.is_ascii_digit()).count();
    let len = name.len();
    if digits == 0 || digits >= len {
        return false;
    }
    name[len - 1 - digits] == b'_'
}

impl<'a> Scope<'a> {
    pub(crate) fn new(alloc: Global) -> Scope<'a> {
        Scope {
            names: IndexMap::new(alloc),
        }
    }

    /// How many names are in scope.
    pub(crate) fn len(&self) -> usize {
        self.names.len()
    }

    /// Takes the names out of scope that came after the first this many.
    pub(crate) fn leave(&mut self, len: usize) {
        self.names.truncate(len);
    }

    /// Asks that the name is not in scope.
    pub(crate) fn absent(&self, name: &RawName) -> Result<(), NameError> {
        match self.names.get(name.name.as_slice()) {
            Some(entry) => Err(declared_before(name, entry.at)),
            None => Ok(()),
        }
    }

    /// Asks that the name may be that of a variable or a family.
    pub(crate) fn free(&self, name: &RawName) -> Result<(), NameError> {
        self.absent(name)?;
        if is_reserved(name.name.as_slice()) {
            return Err(fault_at(FaultKind::ReservedName, name, None));
        }
        Ok(())
    }

    /// Brings a name into scope.
    pub(crate) fn enter(&mut self, name: &'a RawName, kind: Kind) -> Result<(), NameError> {
        let at = name.span.start;
        self.names.insert(name.name.as_slice(), Entry { kind, at })?;
        Ok(())
    }

    /// What a name in scope stands for.
    pub(crate) fn kind(&self, name: &RawName) -> Result<Kind, NameError> {
        match self.names.get(name.name.as_slice()) {
            Some(entry) => Ok(entry.kind),
            None => Err(fault_at(FaultKind::Undeclared, name, None)),
        }
    }

    /// Asks that the name is in scope and may stand where this is wanted.
    pub(crate) fn expect(&self, name: &RawName, wanted: Wanted) -> Result<(), NameError> {
        let is = self.kind(name)?;
        if !wanted.takes(is) {
            return Err(wrong_kind(name, is, wanted));
        }
        Ok(())
    }
}
