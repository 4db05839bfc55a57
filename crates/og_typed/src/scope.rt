//! Names that are used.

ghost use Rattle.std.specs.Prelude.{◌≡◌, ◌<◌, IfOk};
ghost use Rattle.og_typed.specs.Answer.{IsResolved, OnMemory};
ghost use Rattle.og_typed.specs.Resolved as meaning;
ghost use Rattle.og_typed.specs.Scoped.{scope_of, use_of};

use crate::fault::{TypeError, TypeFault};
use crate::names::Names;
use og_parse::RawName;
use std::alloc::Global;

// The variables by name, the auxiliaries last, and how many are no auxiliaries; and the memory for
// what is resolved.
#[derive(Drop)]
pub(crate) struct Scope<'a> {
    pub(crate) alloc: Global,
    pub(crate) names: Names<'a>,
    pub(crate) vars: u32,
}

// Where a name is used.
#[derive(Clone, Copy)]
pub(crate) enum Use {
    // The precondition or the postcondition, where no auxiliary may stand.
    Outer,
    // A test, a guard, or the right side of an assignment to a variable that is no auxiliary.
    Visible,
    // Where an auxiliary may stand.
    Free,
}

impl<'a> Scope<'a> {
    // The number of a name that is used. Takes no memory.
    pub(crate) fn number(&self, usage: Use, name: &RawName) -> Result<u32, TypeError>
        ensures answer { IsResolved (λ x. x) result
            (meaning.number (scope_of self.now) (use_of usage) name.now) }
        ensures few { IfOk result (λ x. x < 256) }
        ensures memory { OnMemory result ⊥ }
    {
        let at = name.span.start;
        match self.names.number(name.name.as_slice()) {
            None => Err(TypeError::Fault(TypeFault::Undeclared(at))),
            Some(x) if x < self.vars => Ok(x),
            Some(x) => match usage {
                Use::Outer => Err(TypeError::Fault(TypeFault::AuxInPrePost(at))),
                Use::Visible => Err(TypeError::Fault(TypeFault::AuxUsed(at))),
                Use::Free => Ok(x),
            },
        }
    }
}
