//! Outlines.

ghost use Rattle.std.specs.Prelude.{◌≡◌, map, option_map};
ghost use Rattle.og_typed.specs.Plain.{noted, sequence};
ghost use Rattle.og_typed.specs.Rule.{IsOutline};

use crate::statement::{Note, Seq};
use og_text::Name;
use std::marker::Model;

/// A whole outline.
#[derive(Debug, Drop)]
pub struct Outline {
    pub(crate) names: Vec<Name>,
    pub(crate) vars: u32,
    pub(crate) aux_values: Vec<i64>,
    pub(crate) pre: Note,
    pub(crate) prologue: Option<Seq>,
    pub(crate) processes: Vec<Seq>,
    pub(crate) epilogue: Option<Seq>,
    pub(crate) post: Note,
    pub(crate) cobegin_at: u32,
}

/// The parts of an outline, by name.
#[derive(Drop)]
pub struct Parts {
    /// The names of the variables, the auxiliaries last.
    pub names: Vec<Name>,
    /// How many of the variables are no auxiliaries.
    pub vars: u32,
    /// The initial values of the auxiliaries.
    pub aux_values: Vec<i64>,
    /// The precondition.
    pub pre: Note,
    /// The statements before `cobegin`.
    pub prologue: Option<Seq>,
    /// The processes.
    pub processes: Vec<Seq>,
    /// The statements after `coend`.
    pub epilogue: Option<Seq>,
    /// The postcondition.
    pub post: Note,
    /// The byte offset of `cobegin`.
    pub cobegin_at: u32,
}

impl Model for Outline {
    ghost use Rattle.og_typed.specs.Syntax.{Program};
    ghost use Rattle.og_typed.specs.Codes.{program_code};

    ghost Value = { Program };

    ghost coded = { program_code };

    ghost use Rattle.og_typed.specs.Outlined.{program};

    ghost view = { program };

    ghost use Rattle.og_typed.specs.Rule.{IsOutline};

    ghost invariant = { λ o. IsOutline (program o) };
}

impl Outline {
    ghost use Rattle.og_typed.specs.Parted.{program_of};

    /// The outline with these parts, which meet the rule for auxiliary variables and the limits.
    /// Takes no memory.
    pub fn new(parts: Parts) -> Outline
        requires { IsOutline (program_of parts) }
        ensures { result ≡ program_of parts }
    {
        Outline {
            names: parts.names,
            vars: parts.vars,
            aux_values: parts.aux_values,
            pre: parts.pre,
            prologue: parts.prologue,
            processes: parts.processes,
            epilogue: parts.epilogue,
            post: parts.post,
            cobegin_at: parts.cobegin_at,
        }
    }

    /// A law: an outline meets the rule for auxiliary variables and the limits.
    pub fn follows_rule(&self)
        ensures { IsOutline self.now }
    {
        let _ = &self.vars;
    }

    /// The names of the variables, the auxiliaries last. Takes no memory, like all readers.
    pub fn names(&self) -> &[Name]
        ensures { result.now ≡ self.now.names }
    {
        &self.names
    }

    /// How many of the variables are no auxiliaries.
    pub fn vars(&self) -> u32
        ensures { result ≡ self.now.vars }
    {
        self.vars
    }

    /// The initial values of the auxiliaries.
    pub fn aux_values(&self) -> &[i64]
        ensures { result.now ≡ self.now.aux_values }
    {
        &self.aux_values
    }

    /// The byte offset of `cobegin`.
    pub fn cobegin_at(&self) -> u32
        ensures { result ≡ self.now.cobegin_at }
    {
        self.cobegin_at
    }

    /// The precondition.
    pub fn pre(&self) -> &Note
        ensures { noted result.now ≡ self.now.pre }
    {
        &self.pre
    }

    /// The postcondition.
    pub fn post(&self) -> &Note
        ensures { noted result.now ≡ self.now.post }
    {
        &self.post
    }

    /// The statements before `cobegin`, where there are some.
    pub fn prologue(&self) -> Option<&Seq>
        ensures { option_map (λ part. sequence part.now) result ≡ self.now.prologue }
    {
        self.prologue.as_ref()
    }

    /// The statements after `coend`, where there are some.
    pub fn epilogue(&self) -> Option<&Seq>
        ensures { option_map (λ part. sequence part.now) result ≡ self.now.epilogue }
    {
        self.epilogue.as_ref()
    }

    /// The processes: at least one, and at most 256.
    pub fn processes(&self) -> &[Seq]
        ensures { map sequence result.now ≡ self.now.processes }
    {
        &self.processes
    }
}
