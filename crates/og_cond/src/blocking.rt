//! When all processes wait.

ghost use Rattle.std.specs.Prelude.{◌≡◌, ◌++◌, ◌∷◌, [], map, flat_map, filter_map, OnOk, IfOk};
ghost use Rattle.og_typed.specs.Syntax.{last_of};
ghost use Rattle.og_typed.specs.Plain.{sequence};
ghost use Rattle.og_cond.specs.Condition.{OneOf, Yes as Yes'};
ghost use Rattle.og_cond.specs.Conditions as plain;
ghost use Rattle.og_cond.specs.Pieces.{piece_of};
ghost use Rattle.og_cond.specs.Seen.{hypothesis_of, parts_of};

use crate::condition::{Hypothesis, Part};
use crate::pieces::pieces_of;
use og_typed::{Item, Seq, Stmt};
use std::alloc::{AllocError, Global};

// Per await: the assertion before it is true, and its guard false.
fn add_blocked<'a>(parts: &mut Vec<Vec<Part<'a>>>, items: &[&'a Item]) -> Result<(), AllocError>
    ensures { OnOk result (map parts_of parts.new.items ≡
        map parts_of parts.old.items
        ++ filter_map (λ p. plain.stmt_blocked p.before.assertion p.stmt) (map piece_of items.now)) }
{
    let alloc = *parts.allocator();
    for item in items {
        if let Stmt::Await(guard, _) = &item.stmt {
            let mut both = Vec::with_capacity(alloc, 2)?;
            both.push(Part::Yes(&item.before.assertion))?;
            both.push(Part::No(guard))?;
            parts.push(both)?;
        }
    }
    Ok(())
}

// The awaits of all processes.
fn all_blocked<'a>(alloc: Global, processes: &'a [Seq]) -> Result<Vec<Vec<Part<'a>>>, AllocError>
    ensures { IfOk result (λ parts.
        map parts_of parts.items ≡ flat_map plain.blocked (map sequence processes.now)) }
{
    let mut parts = Vec::new(alloc);
    for process in processes {
        let items = pieces_of(alloc, process)?;
        add_blocked(&mut parts, &items)?;
    }
    Ok(parts)
}

// The process is at its end, or at one of its awaits and blocked.
fn stopped<'a>(alloc: Global, process: &'a Seq) -> Result<Hypothesis<'a>, AllocError>
    ensures { IfOk result (λ h. hypothesis_of h ≡
        OneOf ((Yes' (last_of (sequence process.now)).assertion ∷ []) ∷ plain.blocked (sequence process.now))) }
{
    let mut end = Vec::with_capacity(alloc, 1)?;
    end.push(Part::Yes(&process.last().assertion))?;
    let mut parts = Vec::new(alloc);
    parts.push(end)?;
    let items = pieces_of(alloc, process)?;
    add_blocked(&mut parts, &items)?;
    Ok(Hypothesis::OneOf(parts))
}

/// Each process is at its end or blocked, and some process is blocked.
pub(crate) fn blocked_hypotheses<'a>(
    alloc: Global,
    processes: &'a [Seq],
) -> Result<Vec<Hypothesis<'a>>, AllocError>
    ensures { IfOk result (λ hs.
        map hypothesis_of hs.items ≡ plain.blocked_hypotheses (map sequence processes.now)) }
{
    let mut hypotheses = Vec::new(alloc);
    for process in processes {
        hypotheses.push(stopped(alloc, process)?)?;
    }
    hypotheses.push(Hypothesis::OneOf(all_blocked(alloc, processes)?))?;
    Ok(hypotheses)
}
