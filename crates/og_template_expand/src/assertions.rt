//! Assertions, with uses, quantifiers and lists as og has them.

ghost use Rattle.std.specs.Prelude.{◌≡◌, map, IfOk};
ghost use Rattle.og_parse.specs.Trees as outlines;
ghost use Rattle.og_parse.specs.TreeOf.{assertion_of as tree_of, note_of as note_tree};
ghost use Rattle.og_template_expand.specs.Answer.{behind};
ghost use Rattle.og_template_expand.specs.Ranges.{instances, instance_of};
ghost use Rattle.og_template_expand.specs.Trees.{Comparison, Implies};
ghost use Rattle.og_template_expand.specs.Assertions as meaning;
ghost use Rattle.og_template_expand.specs.Statements as statements;
ghost use Rattle.og_template_expand.specs.Scoped.{IsExpanded, binding_of, scope_of};
ghost use Rattle.og_template_expand.specs.TreeOf.{expression_of, binder_of, sum_of, unit_of, conjunction_of, disjunction_of, assertion_of, conjoined, disjoined, note_of};

use crate::binders::{enter, values};
use crate::connective::{Connective, joined, put_spliced};
use crate::expander::Expander;
use crate::exprs::value;
use crate::fault::{Stop, fault};
use crate::origin::Binding;
use crate::scope::Scope;
use crate::sums::sum;
use og_parse::{RawAssert, RawName, RawNote, Relation};
use og_template::{Assertion, Binder, Conjunction, Disjunction, Expr, FaultKind, Note, Sum, Unit};
use og_text::Span;
use std::alloc::{AllocError, Global};

/// The greatest number of levels in a note, a test or a guard.
const LEVELS: u32 = 100;

// The names at a place of an assertion, and how many levels may be opened there.
#[derive(Drop)]
struct Level<'l, 's, 'a> {
    scope: &'l Scope<'s, 'a>,
    levels: u32,
}

// The values of arguments, with the names of the parameters.
fn arguments_of<'a>(
    scope: &Scope<'_, '_>,
    work: &mut Expander<'_>,
    parameters: &'a [RawName],
    arguments: &[Expr],
) -> Result<Vec<Binding<'a>>, Stop>
    ensures { IsExpanded (λ v. map binding_of v.items) result
        (meaning.arguments_of (scope_of scope.now) parameters.now
        (map expression_of arguments.now)) }
{
    let mut all = Vec::new(work.alloc);
    let mut rest = parameters;
    for argument in arguments {
        let [parameter, others @ ..] = rest else {
            return Ok(all);
        };
        let value = value(scope, work, argument)?;
        all.push(Binding {
            name: parameter.name.as_slice(),
            value,
        })?;
        rest = others;
    }
    Ok(all)
}

// The first word of a unit.
fn place(unit: &Unit) -> Span
    ensures { result ≡ meaning.first_word (unit_of unit.now) }
{
    match unit {
        Unit::True(span)
        | Unit::False(span)
        | Unit::Not(span, _)
        | Unit::Group(span, _)
        | Unit::All(span, _, _)
        | Unit::Any(span, _, _) => *span,
        Unit::Compare(left, _, _) => left.span,
        Unit::Use(name, _) => name.span,
    }
}

fn implication(alloc: Global, left: RawAssert, right: RawAssert) -> Result<RawAssert, AllocError>
    ensures { IfOk result (λ a. tree_of a ≡ outlines.Implication (tree_of left) (tree_of right)) }
{
    let left = Box::new(alloc, left)?;
    Ok(RawAssert::Implies(left, Box::new(alloc, right)?))
}

impl<'l, 's, 'a> Level<'l, 's, 'a> {
    fn comparison(
        &self,
        work: &mut Expander<'_>,
        left: &'a Sum,
        relation: Relation,
        right: &'a Sum,
    ) -> Result<RawAssert, Stop>
        ensures { IsExpanded tree_of result (meaning.unit_by (meaning.opens 0)
            (scope_of self.now.scope.now)
            (Comparison (sum_of left.now) relation (sum_of right.now))) }
    {
        let left = sum(self.scope, work, left)?;
        let right = sum(self.scope, work, right)?;
        Ok(RawAssert::Compare(left, relation, right))
    }

    // What a named assertion is under the values of its arguments.
    #[cycle(assertions)]
    fn used(
        &self,
        work: &mut Expander<'_>,
        name: &RawName,
        arguments: &[Expr],
    ) -> Result<RawAssert, Stop>
        ensures { IsExpanded tree_of result (meaning.use_by (meaning.opens self.now.levels)
            (scope_of self.now.scope.now) name.now (map expression_of arguments.now)) }
    {
        let named = self.scope.named(name)?;
        let bound = arguments_of(self.scope, work, &named.parameters, arguments)?;
        let inner = Scope {
            names: self.scope.names,
            bound,
        };
        let level = Level {
            scope: &inner,
            levels: self.levels,
        };
        level.assertion(work, &named.assertion)
    }

    // Adds the operands of an instance.
    #[cycle(assertions)]
    fn put_instance(
        &self,
        work: &mut Expander<'_>,
        connective: Connective,
        binder: &'a Binder,
        value: i64,
        inner: &'a Unit,
        all: &mut Vec<RawAssert>,
    ) -> Result<(), Stop>
        ensures { IsExpanded (λ _. map tree_of all.new.items) result
            (behind (map tree_of all.old.items) (instance_of (scope_of self.now.scope.now)
            (binder_of binder.now) (meaning.operands_by (meaning.opens self.now.levels) connective
            (unit_of inner.now)) value)) }
    {
        match enter(self.scope, work, binder, value)? {
            Some(scope) => {
                let level = Level {
                    scope: &scope,
                    levels: self.levels,
                };
                let operand = level.unit(work, inner)?;
                Ok(put_spliced(connective, operand, all)?)
            }
            None => Ok(()),
        }
    }

    // The operands of each instance.
    #[cycle(assertions)]
    fn instances_of(
        &self,
        work: &mut Expander<'_>,
        connective: Connective,
        binder: &'a Binder,
        inner: &'a Unit,
    ) -> Result<Vec<RawAssert>, Stop>
        ensures { IsExpanded (λ v. map tree_of v.items) result
            (instances (scope_of self.now.scope.now) (binder_of binder.now)
            (meaning.operands_by (meaning.opens self.now.levels) connective
            (unit_of inner.now))) }
    {
        let values = values(self.scope, work, binder)?;
        let mut all = Vec::new(work.alloc);
        for value in &values {
            self.put_instance(work, connective, binder, *value, inner, &mut all)?;
        }
        Ok(all)
    }

    // The negation of a unit.
    #[cycle(assertions)]
    fn negation(&self, work: &mut Expander<'_>, inner: &'a Unit) -> Result<RawAssert, Stop>
        ensures { IsExpanded tree_of result (meaning.negation_by (meaning.opens self.now.levels)
            (scope_of self.now.scope.now) (unit_of inner.now)) }
    {
        let inner = self.unit(work, inner)?;
        Ok(RawAssert::Not(Box::new(work.alloc, inner)?))
    }

    // What `all` (of `And`) or `some` (of `Or`) is.
    #[cycle(assertions)]
    fn quantified(
        &self,
        work: &mut Expander<'_>,
        connective: Connective,
        binder: &'a Binder,
        inner: &'a Unit,
    ) -> Result<RawAssert, Stop>
        ensures { IsExpanded tree_of result (meaning.quantified_by
            (meaning.opens self.now.levels) connective (scope_of self.now.scope.now)
            (binder_of binder.now) (unit_of inner.now)) }
    {
        let all = self.instances_of(work, connective, binder, inner)?;
        Ok(joined(connective, all))
    }

    // What a unit is that opens a level, which this is.
    #[cycle(assertions)]
    fn opened(&self, work: &mut Expander<'_>, unit: &'a Unit) -> Result<RawAssert, Stop>
        ensures { IsExpanded tree_of result (meaning.opened_by (meaning.opens self.now.levels)
            (scope_of self.now.scope.now) (unit_of unit.now)) }
    {
        match unit {
            Unit::True(_) => Ok(RawAssert::True),
            Unit::False(_) => Ok(RawAssert::False),
            Unit::Compare(left, relation, right) => {
                self.comparison(work, left, *relation, right)
            }
            Unit::Use(name, arguments) => self.used(work, name, arguments),
            Unit::Not(_, inner) => self.negation(work, inner),
            Unit::Group(_, inner) => self.assertion(work, inner),
            Unit::All(_, binder, inner) => { self.quantified(work, Connective::And, binder, inner) }
            Unit::Any(_, binder, inner) => { self.quantified(work, Connective::Or, binder, inner) }
        }
    }

    // A unit that opens a level.
    #[cycle(assertions)]
    fn deeper(&self, work: &mut Expander<'_>, unit: &'a Unit, span: Span) -> Result<RawAssert, Stop>
        requires { span ≡ meaning.first_word (unit_of unit.now) }
        ensures { IsExpanded tree_of result ((meaning.opens self.now.levels).unit
            (scope_of self.now.scope.now) (unit_of unit.now)) }
    {
        if self.levels == 0 {
            return Err(fault(FaultKind::TooDeep, span));
        }
        let level = Level {
            scope: self.scope,
            levels: self.levels - 1,
        };
        level.opened(work, unit)
    }

    #[cycle(assertions)]
    fn unit(&self, work: &mut Expander<'_>, unit: &'a Unit) -> Result<RawAssert, Stop>
        ensures { IsExpanded tree_of result (meaning.unit_by (meaning.opens self.now.levels)
            (scope_of self.now.scope.now) (unit_of unit.now)) }
    {
        let span = place(unit);
        work.step(span)?;
        match unit {
            Unit::True(_) => Ok(RawAssert::True),
            Unit::False(_) => Ok(RawAssert::False),
            Unit::Compare(left, relation, right) => {
                self.comparison(work, left, *relation, right)
            }
            Unit::Use(_, _)
            | Unit::Not(_, _)
            | Unit::Group(_, _)
            | Unit::All(_, _, _)
            | Unit::Any(_, _, _) => self.deeper(work, unit, span),
        }
    }

    // The operands of a list with `and`.
    #[cycle(assertions)]
    fn conjuncts(&self, work: &mut Expander<'_>, units: &'a [Unit]) -> Result<Vec<RawAssert>, Stop>
        ensures { IsExpanded (λ v. map tree_of v.items) result
            (meaning.conjuncts_by (meaning.opens self.now.levels) (scope_of self.now.scope.now)
            (conjoined (map unit_of units.now))) }
    {
        let mut all = Vec::new(work.alloc);
        for inner in units {
            let operand = self.unit(work, inner)?;
            put_spliced(Connective::And, operand, &mut all)?;
        }
        Ok(all)
    }

    #[cycle(assertions)]
    fn conjunction(
        &self,
        work: &mut Expander<'_>,
        conjunction: &'a Conjunction,
    ) -> Result<RawAssert, Stop>
        ensures { IsExpanded tree_of result (meaning.conjunction_by
            (meaning.opens self.now.levels) (scope_of self.now.scope.now)
            (conjunction_of conjunction.now)) }
    {
        match conjunction.parts.as_slice() {
            [] => Ok(joined(Connective::And, Vec::new(work.alloc))),
            [alone] => self.unit(work, alone),
            units => {
                let all = self.conjuncts(work, units)?;
                Ok(joined(Connective::And, all))
            }
        }
    }

    // The operands of a list with `or`.
    #[cycle(assertions)]
    fn disjuncts(
        &self,
        work: &mut Expander<'_>,
        conjunctions: &'a [Conjunction],
    ) -> Result<Vec<RawAssert>, Stop>
        ensures { IsExpanded (λ v. map tree_of v.items) result
            (meaning.disjuncts_by (meaning.opens self.now.levels) (scope_of self.now.scope.now)
            (disjoined (map conjunction_of conjunctions.now))) }
    {
        let mut all = Vec::new(work.alloc);
        for inner in conjunctions {
            let operand = self.conjunction(work, inner)?;
            put_spliced(Connective::Or, operand, &mut all)?;
        }
        Ok(all)
    }

    #[cycle(assertions)]
    fn disjunction(
        &self,
        work: &mut Expander<'_>,
        disjunction: &'a Disjunction,
    ) -> Result<RawAssert, Stop>
        ensures { IsExpanded tree_of result (meaning.disjunction_by
            (meaning.opens self.now.levels) (scope_of self.now.scope.now)
            (disjunction_of disjunction.now)) }
    {
        match disjunction.parts.as_slice() {
            [] => Ok(joined(Connective::Or, Vec::new(work.alloc))),
            [alone] => self.conjunction(work, alone),
            conjunctions => {
                let all = self.disjuncts(work, conjunctions)?;
                Ok(joined(Connective::Or, all))
            }
        }
    }

    // What stands behind a `->`, which opens a level.
    #[cycle(assertions)]
    fn implied(
        &self,
        work: &mut Expander<'_>,
        span: Span,
        right: &'a Assertion,
    ) -> Result<RawAssert, Stop>
        ensures { IsExpanded tree_of result ((meaning.opens self.now.levels).implied
            (scope_of self.now.scope.now) span (assertion_of right.now)) }
    {
        if self.levels == 0 {
            return Err(fault(FaultKind::TooDeep, span));
        }
        let level = Level {
            scope: self.scope,
            levels: self.levels - 1,
        };
        level.assertion(work, right)
    }

    #[cycle(assertions)]
    fn implies(
        &self,
        work: &mut Expander<'_>,
        left: &'a Disjunction,
        span: Span,
        right: &'a Assertion,
    ) -> Result<RawAssert, Stop>
        ensures { IsExpanded tree_of result (meaning.assertion_by (meaning.opens self.now.levels)
            (scope_of self.now.scope.now)
            (Implies (disjunction_of left.now) span (assertion_of right.now))) }
    {
        work.step(span)?;
        let left = self.disjunction(work, left)?;
        let right = self.implied(work, span, right)?;
        Ok(implication(work.alloc, left, right)?)
    }

    // What an assertion is.
    #[cycle(assertions)]
    fn assertion(
        &self,
        work: &mut Expander<'_>,
        assertion: &'a Assertion,
    ) -> Result<RawAssert, Stop>
        ensures { IsExpanded tree_of result (meaning.assertion_by (meaning.opens self.now.levels)
            (scope_of self.now.scope.now) (assertion_of assertion.now)) }
    {
        match &assertion.implied {
            None => self.disjunction(work, &assertion.left),
            Some((span, right)) => self.implies(work, &assertion.left, *span, right),
        }
    }
}

impl<'s, 'a> Scope<'s, 'a> {
    /// The assertion of a test or a guard.
    pub(crate) fn test(&self, work: &mut Expander<'_>, a: &'a Assertion) -> Result<RawAssert, Stop>
        ensures { IsExpanded tree_of result (meaning.assertion_of (scope_of self.now)
            (assertion_of a.now)) }
    {
        let level = Level {
            scope: self,
            levels: LEVELS,
        };
        level.assertion(work, a)
    }

    /// An assertion in braces.
    pub(crate) fn note(&self, work: &mut Expander<'a>, note: &'a Note) -> Result<RawNote, Stop>
        ensures { IsExpanded note_tree result (statements.note_of (scope_of self.now)
            (note_of note.now)) }
    {
        work.step(note.span)?;
        work.note_origin(note.span, &self.bound)?;
        Ok(RawNote {
            assertion: self.test(work, &note.assertion)?,
            span: note.span,
        })
    }
}
