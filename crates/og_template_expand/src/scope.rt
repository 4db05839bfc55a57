//! What the names of a template stand for.

ghost use Rattle.std.specs.Prelude.{◌≡◌, [], map, option_map, IfOk};
ghost use Rattle.std.specs.Map.{lookup};
ghost use Rattle.std.specs.Str.{bytes_eq};
ghost use Rattle.og_template_expand.specs.Scope as scope;
ghost use Rattle.og_template_expand.specs.Scoped.{IsExpanded, binding_of, range_of, meaning_of, names_of, scope_of};
ghost use Rattle.og_template_expand.specs.TreeOf.{definition_of};

use crate::fault::{Stop, fault_at};
use crate::origin::Binding;
use crate::range::Range;
use indexmap::IndexMap;
use og_parse::RawName;
use og_template::{FaultKind, Named};
use std::alloc::{AllocError, Global};

/// What a name stands for.
#[derive(Clone, Copy, Drop)]
pub(crate) enum Meaning<'a> {
    /// A number: a constant, a parameter or a bound name.
    Value(i64),
    Variable,
    /// A family of variables with these indices.
    Family(Range),
    Named(&'a Named),
}

/// The declared names.
#[derive(Drop)]
pub(crate) struct Names<'a> {
    map: IndexMap<&'a [u8], Meaning<'a>>,
}

/// The names at a place: those that are declared, and the parameters and bound names in scope, from
/// the outside.
#[derive(Drop)]
pub(crate) struct Scope<'s, 'a> {
    pub(crate) names: &'s Names<'a>,
    pub(crate) bound: Vec<Binding<'a>>,
}

// The value of the last binding of a name.
fn last_value(bindings: &[Binding<'_>], name: &[u8]) -> Option<i64>
    ensures { result ≡ scope.last_value None (map binding_of bindings.now) name.now }
{
    let mut found = None;
    for binding in bindings {
        if binding.name == name {
            found = Some(binding.value);
        }
    }
    found
}

/// The bindings, once more.
pub(crate) fn same_bindings<'a>(
    alloc: Global,
    bindings: &[Binding<'a>],
) -> Result<Vec<Binding<'a>>, AllocError>
    ensures { IfOk result (λ v. map binding_of v.items ≡ map binding_of bindings.now) }
{
    let mut all = Vec::new(alloc);
    for binding in bindings {
        all.push(*binding)?;
    }
    Ok(all)
}

impl<'a> Names<'a> {
    pub(crate) fn new(alloc: Global) -> Names<'a>
        ensures { names_of result ≡ [] }
    {
        Names {
            map: IndexMap::new(alloc),
        }
    }

    /// Declares a name, or declares it anew.
    pub(crate) fn declare(&mut self, name: &'a RawName, meaning: Meaning<'a>) -> Result<(), Stop>
        ensures { IsExpanded (λ _. names_of self.new) result
            (Ok (scope.declared_with name.now.name (meaning_of meaning.entry)
            (names_of self.old))) }
    {
        self.map.insert(name.name.as_slice(), meaning)?;
        Ok(())
    }

    // What a declared name stands for.
    fn get(&self, name: &[u8]) -> Option<Meaning<'a>>
        ensures { option_map meaning_of result ≡ lookup (bytes_eq name.now) (names_of self.now) }
    {
        match self.map.get(name) {
            Some(meaning) => Some(*meaning),
            None => None,
        }
    }
}

impl<'s, 'a> Scope<'s, 'a> {
    /// These names, and no others.
    pub(crate) fn new(alloc: Global, names: &'s Names<'a>) -> Scope<'s, 'a>
        ensures { scope_of result ≡ record { declared = names_of names.now; bound = [] } }
    {
        Scope {
            names,
            bound: Vec::new(alloc),
        }
    }

    /// The names with one more, which is bound to a number.
    pub(crate) fn with(
        &self,
        alloc: Global,
        name: &'a RawName,
        value: i64,
    ) -> Result<Scope<'s, 'a>, AllocError>
        ensures { IfOk result (λ s. scope_of s ≡ scope.bound_to (scope_of self.now) name.now.name
            value) }
    {
        let mut bound = same_bindings(alloc, &self.bound)?;
        bound.push(Binding {
            name: name.name.as_slice(),
            value,
        })?;
        Ok(Scope {
            names: self.names,
            bound,
        })
    }

    /// What a name stands for.
    pub(crate) fn meaning(&self, name: &RawName) -> Result<Meaning<'a>, Stop>
        ensures { IsExpanded meaning_of result (scope.meaning_of (scope_of self.now) name.now) }
    {
        let bytes = name.name.as_slice();
        if let Some(value) = last_value(&self.bound, bytes) {
            return Ok(Meaning::Value(value));
        }
        match self.names.get(bytes) {
            Some(meaning) => Ok(meaning),
            None => Err(fault_at(FaultKind::Undeclared, name)),
        }
    }

    /// The number that a name stands for.
    pub(crate) fn value(&self, name: &RawName) -> Result<i64, Stop>
        ensures { IsExpanded (λ v. v) result (scope.number_of (scope_of self.now) name.now) }
    {
        match self.meaning(name)? {
            Meaning::Value(value) => Ok(value),
            _ => Err(fault_at(FaultKind::WrongKind, name)),
        }
    }

    /// The indices of the family that a name stands for.
    pub(crate) fn family(&self, name: &RawName) -> Result<Range, Stop>
        ensures { IsExpanded range_of result (scope.family_of (scope_of self.now) name.now) }
    {
        match self.meaning(name)? {
            Meaning::Family(range) => Ok(range),
            _ => Err(fault_at(FaultKind::WrongKind, name)),
        }
    }

    /// The named assertion that a name stands for.
    pub(crate) fn named(&self, name: &RawName) -> Result<&'a Named, Stop>
        ensures { IsExpanded (λ n. definition_of n.now) result
            (scope.defined_of (scope_of self.now) name.now) }
    {
        match self.meaning(name)? {
            Meaning::Named(named) => Ok(named),
            _ => Err(fault_at(FaultKind::WrongKind, name)),
        }
    }
}
