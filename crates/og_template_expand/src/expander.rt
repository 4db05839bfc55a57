//! An expansion under way.

ghost use Rattle.std.specs.Prelude.{◌≡◌, ◌+◌, ◌++◌, IfOk, IfErr, OnOk, OnErr};
ghost use Rattle.og_template_expand.specs.Sums as sums;
ghost use Rattle.og_template_expand.specs.Scoped.{IsExpanded};
ghost use Rattle.og_template.specs.declared.fault.FaultKind.TheVariants.{TooManySteps, TooManyStatements};
ghost use Rattle.og_template_expand.specs.declared.fault.Stop.TheVariants.{Spent};

use crate::fault::{Stop, fault_at};
use crate::indices::Outside;
use crate::origin::{Binding, Origin};
use crate::scope::same_bindings;
use itoa::Buffer;
use og_parse::RawName;
use og_template::{FaultKind, TemplateFault};
use og_text::{NAME_LIMIT, Name, Span};
use std::alloc::{AllocError, Global};

/// The greatest number of steps of an expansion.
const STEP_LIMIT: u32 = 2_097_152;

/// The greatest number of statements outside the bodies of awaits.
const STATEMENT_LIMIT: u32 = 4096;

/// The steps and statements that are left, the origins so far, and the index that was outside.
#[derive(Drop)]
pub(crate) struct Expander<'a> {
    pub(crate) alloc: Global,
    pub(crate) origins: Vec<Origin<'a>>,
    pub(crate) outside: Option<Outside>,
    steps_left: u32,
    statements_left: u32,
}

/// The name, once more.
pub(crate) fn same_name(alloc: Global, name: &RawName) -> Result<RawName, AllocError>
    ensures { IfOk result (λ n. n ≡ name.now) }
{
    let bytes = Vec::from_slice(alloc, name.name.as_slice())?;
    Ok(RawName {
        name: Name::new(bytes),
        span: name.span,
    })
}

// The bytes of the name of a family's element.
fn element_bytes(alloc: Global, family: &[u8], index: i64) -> Result<Vec<u8>, AllocError>
    ensures { IfOk result (λ v. v.items ≡ sums.element_bytes family.now index) }
{
    let mut bytes = Vec::from_slice(alloc, family)?;
    bytes.extend_from_slice(b"_")?;
    bytes.extend_from_slice(Buffer::new().format(index).as_bytes())?;
    Ok(bytes)
}

/// The name of a family's element, at the place of the family's name.
pub(crate) fn element_name(alloc: Global, family: &RawName, index: i64) -> Result<RawName, Stop>
    ensures { IsExpanded (λ n. n) result (sums.element_name family.now index) }
{
    let bytes = element_bytes(alloc, family.name.as_slice(), index)?;
    if NAME_LIMIT < bytes.len() {
        return Err(fault_at(FaultKind::NameTooLong, family));
    }
    Ok(RawName {
        name: Name::new(bytes),
        span: family.span,
    })
}

impl<'a> Expander<'a> {
    pub(crate) fn new(alloc: Global) -> Expander<'a>
        ensures steps { result.steps_left ≡ 2097152 }
        ensures statements { result.statements_left ≡ 4096 }
    {
        Expander {
            alloc,
            origins: Vec::new(alloc),
            outside: None,
            steps_left: STEP_LIMIT,
            statements_left: STATEMENT_LIMIT,
        }
    }

    /// Counts a step at a word.
    pub(crate) fn step(&mut self, span: Span) -> Result<(), Stop>
        ensures ok { OnOk result (self.old.steps_left ≡ self.new.steps_left + 1) }
        ensures none { OnErr result (self.old.steps_left ≡ 0) }
        ensures err { IfErr result (λ e. e ≡ Spent
            (record { kind = TooManySteps; at = span.start })) }
    {
        if self.steps_left == 0 {
            return Err(Stop::Spent(TemplateFault {
                kind: FaultKind::TooManySteps,
                at: span.start,
            }));
        }
        self.steps_left -= 1;
        Ok(())
    }

    /// Counts a statement at its first word.
    pub(crate) fn count_statement(&mut self, span: Span) -> Result<(), Stop>
        ensures ok { OnOk result (self.old.statements_left ≡ self.new.statements_left + 1) }
        ensures none { OnErr result (self.old.statements_left ≡ 0) }
        ensures err { IfErr result (λ e. e ≡ Spent
            (record { kind = TooManyStatements; at = span.start })) }
    {
        if self.statements_left == 0 {
            return Err(Stop::Spent(TemplateFault {
                kind: FaultKind::TooManyStatements,
                at: span.start,
            }));
        }
        self.statements_left -= 1;
        Ok(())
    }

    /// Notes that the next note or statement comes from this place.
    pub(crate) fn note_origin(
        &mut self,
        span: Span,
        bound: &[Binding<'a>],
    ) -> Result<(), AllocError> {
        let instance = same_bindings(self.alloc, bound)?;
        self.origins.push(Origin { span, instance })?;
        Ok(())
    }
}
