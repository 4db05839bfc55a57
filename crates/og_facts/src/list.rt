//! The facts of a condition, by number.

ghost use Rattle.std.specs.Prelude.{◌≡◌, ◌↔◌, map, option_map, IsTrue};
ghost use Rattle.og_facts.specs.Plain.{plain_fact};
ghost use Rattle.og_facts.specs.Listed.{numbered};

use crate::equality::same_facts;
use crate::fact::Fact;
use std::marker::Model;

/// Facts in order, numbered from 1, over this many variables.
///
/// Contracts see the list of the facts as plain trees, and the number of variables.
#[derive(Debug, Drop)]
pub struct FactList<'a> {
    facts: Vec<Fact<'a>>,
    variables: u32,
}

impl<'a> Model for FactList<'a> {
    ghost use Rattle.std.specs.Prelude.{map};
    ghost use Rattle.og_facts.specs.Plain.{plain_fact};
    ghost use Rattle.og_facts.specs.Listed.{Listed, listed};
    ghost use Rattle.og_facts.specs.Codes.{listed_code};

    ghost Value = { Listed };

    ghost coded = { listed_code };

    ghost view = { λ l. listed (map plain_fact l.facts.items) l.variables };
}

impl<'a> FactList<'a> {
    // These facts, over this many variables.
    pub(crate) fn new(facts: Vec<Fact<'a>>, variables: u32) -> FactList<'a>
        ensures facts { result.facts ≡ map plain_fact facts.entry.items }
        ensures variables { result.variables ≡ variables }
    {
        FactList { facts, variables }
    }

    /// The fact with this number, counted from 1, if there is one. Takes no memory, like all
    /// readers.
    pub fn fact(&self, n: u32) -> Option<&Fact<'a>>
        ensures { option_map (λ f. plain_fact f.now) result ≡ numbered n self.now.facts }
    {
        if n == 0 {
            return None;
        }
        self.facts.get(n as usize - 1)
    }

    /// All facts, in order.
    pub fn as_slice(&self) -> &[Fact<'a>]
        ensures { map plain_fact result.now ≡ self.now.facts }
    {
        &self.facts
    }

    /// How many variables the outline of the condition has.
    pub fn variables(&self) -> u32
        ensures { result ≡ self.now.variables }
    {
        self.variables
    }

    /// Whether the other list has equal facts in the same order, over as many variables.
    pub fn equals(&self, other: &FactList) -> bool
        ensures { IsTrue result ↔ (self.now ≡ other.now) }
    {
        other.variables == self.variables && same_facts(self.as_slice(), other.as_slice())
    }
}
