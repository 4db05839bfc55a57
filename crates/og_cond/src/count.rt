//! How many conditions an outline has, counted without memory.
//!
//! Each count takes the room that is left and returns the rest after it, or nothing where the
//! room is too small.

ghost use Rattle.std.specs.Prelude.{◌≡◌, ◌++◌, [], map, option_map};
ghost use Rattle.og_typed.specs.Plain.{noted, sequence, simple, statement};
ghost use Rattle.og_cond.specs.Sets.{has, assigns_some};
ghost use Rattle.og_cond.specs.Counting.{Leaves, seq_count, stmt_count, local_count, part_count, seq_hits, stmt_hits, all_hits, note_count, seq_breaks, stmt_breaks, process_breaks, all_breaks, condition_count};

use crate::sets::variables_of;
use crate::varset::VarSet;
use og_typed::{Basic, Note, Outline, Seq, Stmt};

// The conditions of the statements of a sequence.
#[cycle(count)]
#[tactic(auto, using(crate::proofs::Counts::more_count, crate::proofs::Counts::whole_count, crate::proofs::Counts::no_count))]
fn room_after_seq(room: usize, seq: &Seq) -> Option<usize>
    ensures { Leaves room (seq_count (sequence seq.now)) result }
{
    let mut left = room;
    for item in &seq.items {
        left = room_after_stmt(left, &item.stmt)?;
    }
    Some(left)
}

// The conditions of one statement.
#[cycle(count)]
fn room_after_stmt(room: usize, stmt: &Stmt) -> Option<usize>
    ensures { Leaves room (stmt_count (statement stmt.now)) result }
{
    match stmt {
        Stmt::Skip => room.checked_sub(1),
        Stmt::Assign(..) | Stmt::Await(..) => room.checked_sub(2),
        Stmt::While(_, body) => room_after_seq(room, body)?.checked_sub(3),
        Stmt::If(_, branch, other) => {
            let left = room_after_seq(room, branch)?;
            match other {
                Some(other) => room_after_seq(left, other)?.checked_sub(4),
                None => left.checked_sub(3),
            }
        }
    }
}

// The local conditions of the processes.
fn room_after_local(room: usize, processes: &[Seq]) -> Option<usize>
    ensures { Leaves room (local_count (map sequence processes.now)) result }
{
    let mut left = room;
    for process in processes {
        left = room_after_seq(left, process)?;
    }
    Some(left)
}

// The conditions of the prologue or the epilogue.
fn room_after_part(room: usize, part: Option<&Seq>) -> Option<usize>
    ensures { Leaves room (part_count (option_map (λ q. sequence q.now) part.entry)) result }
{
    match part {
        Some(seq) => room_after_seq(room, seq)?.checked_sub(1),
        None => Some(room),
    }
}

// Whether the body assigns a variable of the set.
fn assigns_any(body: &[Basic], set: &VarSet) -> bool
    ensures { result ≡ assigns_some (has set.now) (map simple body.now) }
{
    for basic in body {
        if let Basic::Assign(var, _) = basic {
            if set.has(*var) {
                return true;
            }
        }
    }
    false
}

// The actions of a sequence that assign a variable of the set.
#[cycle(hits)]
#[tactic(auto, using(crate::proofs::Counts::more_hits, crate::proofs::Counts::whole_hits, crate::proofs::Counts::no_hits))]
fn room_after_hits(room: usize, seq: &Seq, set: &VarSet) -> Option<usize>
    ensures { Leaves room (seq_hits (has set.now) (sequence seq.now)) result }
{
    let mut left = room;
    for item in &seq.items {
        left = room_after_stmt_hits(left, &item.stmt, set)?;
    }
    Some(left)
}

// Of one statement.
#[cycle(hits)]
fn room_after_stmt_hits(room: usize, stmt: &Stmt, set: &VarSet) -> Option<usize>
    ensures { Leaves room (stmt_hits (has set.now) (statement stmt.now)) result }
{
    match stmt {
        Stmt::Skip => Some(room),
        Stmt::Assign(var, _) if set.has(*var) => room.checked_sub(1),
        Stmt::Assign(..) => Some(room),
        Stmt::Await(_, body) if assigns_any(body, set) => room.checked_sub(1),
        Stmt::Await(..) => Some(room),
        Stmt::While(_, body) => room_after_hits(room, body, set),
        Stmt::If(_, branch, other) => {
            let left = room_after_hits(room, branch, set)?;
            match other {
                Some(other) => room_after_hits(left, other, set),
                None => Some(left),
            }
        }
    }
}

// Of several processes.
fn room_after_all_hits(room: usize, processes: &[Seq], set: &VarSet) -> Option<usize>
    ensures { Leaves room (all_hits (has set.now) (map sequence processes.now)) result }
{
    let mut left = room;
    for process in processes {
        left = room_after_hits(left, process, set)?;
    }
    Some(left)
}

// The actions of the others that may break the assertion.
fn room_after_note(room: usize, note: &Note, earlier: &[Seq], later: &[Seq]) -> Option<usize>
    ensures { Leaves room (note_count (map sequence earlier.now ++ map sequence later.now)
        (noted note.now)) result }
{
    let set = variables_of(&note.assertion);
    let left = room_after_all_hits(room, earlier, &set)?;
    room_after_all_hits(left, later, &set)
}

// The pairs of such an action and an assertion before a statement of a sequence.
#[cycle(breaks)]
#[tactic(auto, using(crate::proofs::Counts::more_breaks, crate::proofs::Counts::whole_breaks, crate::proofs::Counts::no_breaks))]
fn room_after_seq_breaks(room: usize, seq: &Seq, earlier: &[Seq], later: &[Seq]) -> Option<usize>
    ensures { Leaves room (seq_breaks (map sequence earlier.now ++ map sequence later.now)
        (sequence seq.now)) result }
{
    let mut left = room;
    for item in &seq.items {
        left = room_after_note(left, &item.before, earlier, later)?;
        left = room_after_stmt_breaks(left, &item.stmt, earlier, later)?;
    }
    Some(left)
}

// Of the statements in a statement.
#[cycle(breaks)]
fn room_after_stmt_breaks(room: usize, stmt: &Stmt, earlier: &[Seq], later: &[Seq]) -> Option<usize>
    ensures { Leaves room (stmt_breaks (map sequence earlier.now ++ map sequence later.now)
        (statement stmt.now)) result }
{
    match stmt {
        Stmt::Skip | Stmt::Assign(..) | Stmt::Await(..) => Some(room),
        Stmt::While(_, body) => room_after_seq_breaks(room, body, earlier, later),
        Stmt::If(_, branch, other) => {
            let left = room_after_seq_breaks(room, branch, earlier, later)?;
            match other {
                Some(other) => room_after_seq_breaks(left, other, earlier, later),
                None => Some(left),
            }
        }
    }
}

// Of each assertion of a process that others may break.
fn room_after_process(room: usize, process: &Seq, earlier: &[Seq], later: &[Seq]) -> Option<usize>
    ensures { Leaves room (process_breaks (map sequence earlier.now ++ map sequence later.now)
        (sequence process.now)) result }
{
    let left = room_after_seq_breaks(room, process, earlier, later)?;
    room_after_note(left, process.last(), earlier, later)
}

// The conditions of interference.
fn room_after_interference(room: usize, processes: &[Seq]) -> Option<usize>
    ensures { Leaves room (all_breaks [] (map sequence processes.now)) result }
{
    let mut left = room;
    for index in 0..processes.len() {
        let earlier = &processes[..index];
        let later = &processes[index + 1..];
        left = room_after_process(left, &processes[index], earlier, later)?;
    }
    Some(left)
}

/// The rest of the room after all conditions of the outline.
pub(crate) fn room_after_conditions(room: usize, outline: &Outline) -> Option<usize>
    ensures { Leaves room (condition_count outline.now) result }
{
    let processes = outline.processes();
    let mut left = room_after_part(room, outline.prologue())?;
    left = left.checked_sub(processes.len())?;
    left = room_after_local(left, processes)?;
    left = room_after_interference(left, processes)?;
    left = room_after_part(left, outline.epilogue())?;
    left.checked_sub(2)
}
