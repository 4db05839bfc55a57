//! Printing outlines and programs.

ghost use Rattle.std.specs.Prelude.{◌≡◌, ◌≤◌, ◌^◌, ◌++◌, ℕ, length, option_map, IfOk, OnOk};
ghost use Rattle.og_print.specs.Again.{IsRead, ReadsBack};
ghost use Rattle.og_parse.specs.TreeOf.{tree_of, seq_of, seqs_of};
ghost use Rattle.og_print.specs.Print.{written, vars_in, aux_in, auxes_in, main_in, cobegin_in, processes_in, outline_in, outline_text, program_text};

use crate::statements::{put_line, put_note, put_seq};
use crate::terms::{put_leading, put_name, put_number};
use og_parse::{Raw, RawAux, RawName, RawProcesses, RawSeq};
use std::alloc::{AllocError, Global};

/// The text of an outline, with all its assertions.
///
/// Each line ends with LF. Of a tree that was parsed, this text is lexed and parsed to that tree
/// again, apart from the places, unless it is longer than a source may be.
pub fn print_outline(alloc: Global, raw: &Raw) -> Result<Vec<u8>, AllocError>
    ensures text { IfOk result (λ text. text.items ≡ outline_text (tree_of raw.now)) }
    ensures again { IfOk result (λ text. (levels statements : ℕ) → IsRead levels statements (tree_of raw.now) →
        length text.items ≤ 2 ^ 20 → ReadsBack levels statements (tree_of raw.now) text.items) }
{
    let mut text = Vec::new(alloc);
    put_outline(&mut text, true, raw)?;
    Ok(text)
}

/// The text of the program of an outline: without the assertions, and with `;` between statements.
pub fn print_program(alloc: Global, raw: &Raw) -> Result<Vec<u8>, AllocError>
    ensures { IfOk result (λ text. text.items ≡ program_text (tree_of raw.now)) }
{
    let mut text = Vec::new(alloc);
    put_outline(&mut text, false, raw)?;
    Ok(text)
}

fn put_outline(text: &mut Vec<u8>, notes: bool, raw: &Raw) -> Result<(), AllocError>
    ensures { OnOk result (text.new.items ≡ text.old.items
        ++ outline_in written notes (tree_of raw.now)) }
{
    put_declarations(text, raw)?;
    put_note(text, notes, b"", &raw.pre)?;
    put_main(text, notes, &raw.prologue)?;
    put_cobegin(text, notes, &raw.processes)?;
    put_main(text, notes, &raw.epilogue)?;
    put_note(text, notes, b"", &raw.post)
}

fn put_declarations(text: &mut Vec<u8>, raw: &Raw) -> Result<(), AllocError>
    ensures { OnOk result (text.new.items ≡ text.old.items
        ++ (vars_in written raw.now.vars.items ++ auxes_in written raw.now.auxes.items)) }
{
    put_vars(text, raw.vars.as_slice())?;
    put_auxes(text, raw.auxes.as_slice())
}

fn put_vars(text: &mut Vec<u8>, vars: &[RawName]) -> Result<(), AllocError>
    ensures { OnOk result (text.new.items ≡ text.old.items ++ vars_in written vars.now) }
{
    let [first, later @ ..] = vars else {
        return Ok(());
    };
    text.extend_from_slice(b"var ")?;
    put_name(text, first)?;
    for name in later {
        text.extend_from_slice(b", ")?;
        put_name(text, name)?;
    }
    text.extend_from_slice(b";\n")
}

fn put_aux(text: &mut Vec<u8>, aux: &RawAux) -> Result<(), AllocError>
    ensures { OnOk result (text.new.items ≡ text.old.items ++ aux_in written aux.now) }
{
    put_name(text, &aux.name)?;
    text.extend_from_slice(b" = ")?;
    put_leading(text, aux.value.sign)?;
    put_number(text, aux.value.number)
}

fn put_auxes(text: &mut Vec<u8>, auxes: &[RawAux]) -> Result<(), AllocError>
    ensures { OnOk result (text.new.items ≡ text.old.items ++ auxes_in written auxes.now) }
{
    let [first, later @ ..] = auxes else {
        return Ok(());
    };
    text.extend_from_slice(b"aux ")?;
    put_aux(text, first)?;
    for aux in later {
        text.extend_from_slice(b", ")?;
        put_aux(text, aux)?;
    }
    text.extend_from_slice(b";\n")
}

// The statements before or after the processes.
fn put_main(text: &mut Vec<u8>, notes: bool, main: &Option<RawSeq>) -> Result<(), AllocError>
    ensures { OnOk result (text.new.items ≡ text.old.items
        ++ main_in written notes (option_map seq_of main.now)) }
{
    let Some(seq) = main else {
        return Ok(());
    };
    text.extend_from_slice(b"begin\n")?;
    put_seq(text, notes, b"  ", seq)?;
    text.extend_from_slice(b"end\n")
}

// From `cobegin` to `coend`.
fn put_cobegin(text: &mut Vec<u8>, notes: bool, processes: &RawProcesses) -> Result<(), AllocError>
    ensures { OnOk result (text.new.items ≡ text.old.items
        ++ cobegin_in written notes (seqs_of processes.now)) }
{
    text.extend_from_slice(b"cobegin\n")?;
    put_processes(text, notes, processes)?;
    text.extend_from_slice(b"coend\n")
}

fn put_processes(
    text: &mut Vec<u8>,
    notes: bool,
    processes: &RawProcesses,
) -> Result<(), AllocError>
    ensures { OnOk result (text.new.items ≡ text.old.items
        ++ processes_in written notes (seqs_of processes.now)) }
{
    put_seq(text, notes, b"  ", &processes.first)?;
    for process in &processes.others {
        text.extend_from_slice(b"//\n")?;
        put_seq(text, notes, b"  ", process)?;
    }
    Ok(())
}
