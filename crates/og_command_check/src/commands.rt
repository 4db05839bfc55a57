//! The answers of the commands that print what an outline stands for.

ghost use Rattle.std.specs.Prelude.{IfOk};
ghost use Rattle.og_parse.specs.TreeOf.{tree_of};
ghost use Rattle.og_erase_readable.specs.Readable.{readable};
ghost use Rattle.og_erase.specs.Collected.{raw_of};
ghost use Rattle.og_print.specs.Print.{program_text};
ghost use Rattle.og_report_text.specs.Answers.{Says};
ghost use Rattle.og_command_check.specs.Commands.{IsErased};

use og_erase::{Program, erase};
use og_erase_readable::print_readable;
use og_parse::Raw;
use og_print::print_program;
use og_report_text::Answer;
use og_typed::Outline;
use std::alloc::{AllocError, Global};

// The text of a tree.
fn of_tree(alloc: Global, raw: &Raw) -> Result<Answer, AllocError>
    ensures { IfOk result (Says (program_text (tree_of raw.now)) 0) }
{
    let text = print_program(alloc, raw)?;
    Ok(Answer { text, status: 0 })
}

// The text of a program with collected relations.
fn of_program(alloc: Global, program: &Program) -> Result<Answer, AllocError>
    ensures { IfOk result (Says (program_text (raw_of program.now)) 0) }
{
    let raw = program.raw(alloc)?;
    let answer = of_tree(alloc, &raw);
    drop(raw);
    answer
}

// The text of a program with readable relations.
fn of_readable(alloc: Global, program: &Program) -> Result<Answer, AllocError>
    ensures { IfOk result (Says (program_text (readable (raw_of program.now))) 0) }
{
    let text = print_readable(alloc, program)?;
    Ok(Answer { text, status: 0 })
}

/// The program of an outline without its auxiliary variables and its assertions, with terms on both
/// sides of its relations or with all on the left, and status 0.
///
/// # Errors
///
/// An allocation was refused.
pub fn erased(alloc: Global, outline: &Outline, is_readable: bool) -> Result<Answer, AllocError>
    ensures { IfOk result (IsErased is_readable outline.now) }
{
    let program = erase(alloc, outline)?;
    let answer = if is_readable {
        of_readable(alloc, &program)
    } else {
        of_program(alloc, &program)
    };
    drop(program);
    answer
}
