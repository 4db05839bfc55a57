//! What matters of the processes for interference, gathered once.

ghost use Rattle.std.specs.Prelude.{◌≡◌, ◌++◌, ◌∷◌, [], map, filter_map, option_map, IfOk};
ghost use Rattle.og_typed.specs.Plain.{formula, noted, sequence, statement};
ghost use Rattle.og_cond.specs.Conditions.{stmt_action};
ghost use Rattle.og_cond.specs.Crossing.{side_of};
ghost use Rattle.og_cond.specs.Pieces.{piece_of};
ghost use Rattle.og_cond.specs.Seen.{guarded};
ghost use Rattle.og_subst.specs.Actions.{action_tree};
ghost use Rattle.og_cond.specs.Sides.{action_of, note_of, side_seen};

use crate::pieces::pieces_of;
use crate::sets::{assigned_by, variables_of};
use crate::watched::{Move, Side, Watched};
use og_subst::Action;
use og_typed::{Assert, Item, Note, Seq, Stmt};
use std::alloc::{AllocError, Global};

fn new_move<'a>(
    at: u32,
    before: &'a Assert,
    guard: Option<&'a Assert>,
    action: Action<'a>,
) -> Move<'a>
    ensures { action_of result ≡
        record { at = at; hypotheses = guarded before.entry guard.entry; does = action_tree action.entry } }
{
    let assigned = assigned_by(action);
    Move {
        at,
        before,
        guard,
        action,
        assigned,
    }
}

// The action of a statement, if it is one.
fn move_of<'a>(item: &'a Item) -> Option<Move<'a>>
    ensures { option_map action_of result ≡
        stmt_action (formula item.now.before.assertion) item.now.at (statement item.now.stmt) }
{
    let before = &item.before.assertion;
    match &item.stmt {
        Stmt::Assign(var, form) => {
            Some(new_move(item.at, before, None, Action::Assign(*var, form)))
        }
        Stmt::Await(guard, body) => {
            Some(new_move(item.at, before, Some(guard), Action::Await(body)))
        }
        _ => None,
    }
}

fn moves_of<'a>(alloc: Global, items: &[&'a Item]) -> Result<Vec<Move<'a>>, AllocError>
    ensures { IfOk result (λ moves. map action_of moves.items ≡
        filter_map (λ p. stmt_action p.before.assertion p.at p.stmt) (map piece_of items.now)) }
{
    let mut moves = Vec::new(alloc);
    for item in items {
        if let Some(action) = move_of(item) {
            moves.push(action)?;
        }
    }
    Ok(moves)
}

fn watched<'a>(note: &'a Note) -> Watched<'a>
    ensures { note_of result ≡ noted note.now }
{
    Watched {
        note,
        variables: variables_of(&note.assertion),
    }
}

fn notes_of<'a>(
    alloc: Global,
    items: &[&'a Item],
    last: &'a Note,
) -> Result<Vec<Watched<'a>>, AllocError>
    ensures { IfOk result (λ notes. map note_of notes.items ≡
        map (λ p. p.before) (map piece_of items.now) ++ noted last.now ∷ []) }
{
    let mut notes = Vec::new(alloc);
    for item in items {
        notes.push(watched(&item.before))?;
    }
    notes.push(watched(last))?;
    Ok(notes)
}

fn gathered<'a>(alloc: Global, process: &'a Seq) -> Result<Side<'a>, AllocError>
    ensures { IfOk result (λ side. side_seen side ≡ side_of (sequence process.now)) }
{
    let items = pieces_of(alloc, process)?;
    let moves = moves_of(alloc, &items)?;
    let notes = notes_of(alloc, &items, process.last())?;
    Ok(Side { moves, notes })
}

/// The actions and the assertions of each process.
pub(crate) fn sides_of<'a>(alloc: Global, processes: &'a [Seq]) -> Result<Vec<Side<'a>>, AllocError>
    ensures { IfOk result (λ sides.
        map side_seen sides.items ≡ map side_of (map sequence processes.now)) }
{
    let mut sides = Vec::new(alloc);
    for process in processes {
        sides.push(gathered(alloc, process)?)?;
    }
    Ok(sides)
}
