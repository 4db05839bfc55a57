//! Templates.

ghost use Rattle.std.specs.Prelude.{◌≡◌, map, option_map, IfOk};
ghost use Rattle.og_parse.specs.Trees as outlines;
ghost use Rattle.og_parse.specs.TreeOf.{seq_of, seqs_of, tree_of};
ghost use Rattle.og_template_expand.specs.Outline as meaning;
ghost use Rattle.og_template_expand.specs.Scoped.{IsExpanded, binding_of, scope_of};
ghost use Rattle.og_template_expand.specs.TreeOf.{binder_of, sequence_of};
ghost use Rattle.og_template_expand.specs.WholeOf.{process_of, template_of};

use crate::declarations::{
    declare_auxiliaries, declare_constants, declare_named, declare_variables,
};
use crate::expander::Expander;
use crate::fault::{Stop, fault};
use crate::indices::Outside;
use crate::origin::{Binding, Origin};
use crate::repeated::{Repeated, all_made};
use crate::scope::{Names, Scope};
use crate::statements::sequence;
use og_parse::{Raw, RawAux, RawName, RawProcesses, RawSeq};
use og_template::{Binder, FaultKind, Process, Sequence, Template, TemplateError};
use og_text::Span;
use std::alloc::{AllocError, Global};

/// The tree of an outline, with places of the template, and where it comes from.
#[derive(Drop)]
pub struct Expanded<'a> {
    /// The tree. Each span is the place of the word of the template that it comes from.
    pub raw: Raw,
    /// The origins of the precondition, `cobegin`, each note, each statement outside the bodies of
    /// awaits, and the postcondition, in the order of the text.
    pub origins: Vec<Origin<'a>>,
}

fn main_part<'a>(
    scope: &Scope<'_, 'a>,
    work: &mut Expander<'a>,
    main: &'a Option<Sequence>,
) -> Result<Option<RawSeq>, Stop>
    ensures { IsExpanded (option_map seq_of) result
        (meaning.main_of (scope_of scope.now) (option_map sequence_of main.now)) }
{
    match main {
        Some(inner) => Ok(Some(sequence(scope, work, inner)?)),
        None => Ok(None),
    }
}

impl Repeated for Process {
    type Made = RawSeq;

    ghost Tree = { outlines.Seq };

    ghost view = { seq_of };

    ghost binds = { λ p. option_map binder_of p.binder };

    ghost means = { λ p. meaning.one_process (sequence_of p.body) };

    fn binder(&self) -> &Option<Binder> {
        &self.binder
    }

    fn made<'a>(&'a self, scope: &Scope<'_, 'a>, work: &mut Expander<'a>) -> Result<RawSeq, Stop> {
        sequence(scope, work, &self.body)
    }
}

// Processes, of which there must be one.
fn some_of(mut processes: Vec<RawSeq>, cobegin: Span) -> Result<RawProcesses, Stop>
    ensures { IsExpanded seqs_of result (meaning.some_of cobegin (map seq_of processes.items)) }
{
    if processes.is_empty() {
        return Err(fault(FaultKind::NothingLeft, cobegin));
    }
    let first = processes.remove(0);
    Ok(RawProcesses {
        first,
        others: processes,
    })
}

// The processes between `cobegin` and `coend`.
fn middle<'a>(
    scope: &Scope<'_, 'a>,
    work: &mut Expander<'a>,
    cobegin: Span,
    processes: &'a [Process],
) -> Result<RawProcesses, Stop>
    ensures { IsExpanded seqs_of result (meaning.processes_of (scope_of scope.now) cobegin
        (map process_of processes.now)) }
{
    work.note_origin(cobegin, &scope.bound)?;
    let all = all_made(scope, work, processes)?;
    some_of(all, cobegin)
}

// What stands behind the declarations.
fn outline<'a>(
    scope: &Scope<'_, 'a>,
    work: &mut Expander<'a>,
    template: &'a Template,
    vars: Vec<RawName>,
    auxes: Vec<RawAux>,
) -> Result<Raw, Stop>
    ensures { IsExpanded tree_of result (meaning.outline_in (scope_of scope.now)
        (template_of template.now) vars.items auxes.items) }
{
    let pre = scope.note(work, &template.pre)?;
    let prologue = main_part(scope, work, &template.prologue)?;
    let processes = middle(scope, work, template.cobegin, &template.processes)?;
    let epilogue = main_part(scope, work, &template.epilogue)?;
    let post = scope.note(work, &template.post)?;
    Ok(Raw {
        vars,
        auxes,
        pre,
        prologue,
        cobegin: template.cobegin,
        processes,
        epilogue,
        post,
    })
}

fn whole<'a>(
    work: &mut Expander<'a>,
    template: &'a Template,
    values: &[Binding<'_>],
) -> Result<Raw, Stop>
    ensures { IsExpanded tree_of result (meaning.outline_by (template_of template.now)
        (map binding_of values.now)) }
{
    let mut names = Names::new(work.alloc);
    declare_constants(&mut names, work, values, &template.constants)?;
    let vars = declare_variables(&mut names, work, &template.variables)?;
    let auxes = declare_auxiliaries(&mut names, work, &template.auxiliaries)?;
    declare_named(&mut names, &template.named)?;
    outline(&Scope::new(work.alloc, &names), work, template, vars, auxes)
}

/// The tree of the outline that a template means, where constants have the values that are given,
/// and the others their own. Of two values of one name the first is taken, and one of a name that
/// is no constant is passed over.
///
/// # Errors
///
/// `Fault`, the first in the order of the evaluation: constants, variables, auxiliaries, the
/// precondition, the prologue, the processes, the epilogue, the postcondition, each from the left.
/// `TooManySteps` at the word that is one step too many; `NameTooLong`, `OutOfRange` at a family's
/// name; `TooDeep` at the word that opens the 101st level; `TooManyStatements` at the 4,097th
/// statement; `ValueTooLarge`, `BadModulus` at the operator; `BadRange` at the range's first word;
/// `NothingLeft` at the first `{` of a sequence, at `await` or at `cobegin`. Where the names of the
/// template were not checked, `Undeclared` or `WrongKind` at a name. `Memory` where an allocation
/// was refused.
pub fn expand<'a>(
    alloc: Global,
    template: &'a Template,
    values: &[Binding<'_>],
) -> Result<Expanded<'a>, TemplateError>
    ensures { IfOk result (λ e. meaning.outline_by (template_of template.now)
        (map binding_of values.now) ≡ Ok (tree_of e.raw)) }
{
    let mut work = Expander::new(alloc);
    let raw = whole(&mut work, template, values)?;
    Ok(Expanded {
        raw,
        origins: work.origins,
    })
}

/// The index that is outside of its family's range, where [`expand`] gives `OutOfRange` for this
/// template and these values.
///
/// # Errors
///
/// An allocation was refused.
pub fn outside(
    alloc: Global,
    template: &Template,
    values: &[Binding<'_>],
) -> Result<Option<Outside>, AllocError> {
    let mut work = Expander::new(alloc);
    match whole(&mut work, template, values) {
        Ok(raw) => {
            drop(raw);
            Ok(None)
        }
        Err(Stop::Memory) => Err(AllocError),
        Err(_) => Ok(work.outside),
    }
}
