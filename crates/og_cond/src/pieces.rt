//! The statements of a process, outside the bodies of awaits, in text order.

ghost use Rattle.std.specs.Prelude.{◌≡◌, ◌++◌, map, IfOk, OnOk};
ghost use Rattle.og_typed.specs.Pieces.{pieces, pieces_of_stmt};
ghost use Rattle.og_typed.specs.Plain.{sequence, statement};
ghost use Rattle.og_cond.specs.Pieces.{piece_of};

use og_typed::{Item, Seq, Stmt};
use std::alloc::{AllocError, Global};

#[cycle(pieces)]
#[tactic(auto, using(crate::proofs::PieceItems::more_pieces, crate::proofs::PieceItems::whole_pieces, crate::proofs::PieceItems::no_pieces))]
fn add_seq<'a>(items: &mut Vec<&'a Item>, seq: &'a Seq) -> Result<(), AllocError>
    ensures { OnOk result (map piece_of items.new.items ≡ map piece_of items.old.items
        ++ pieces (sequence seq.now)) }
{
    for item in &seq.items {
        items.push(item)?;
        add_stmt(items, &item.stmt)?;
    }
    Ok(())
}

// The statements in a statement.
#[cycle(pieces)]
fn add_stmt<'a>(items: &mut Vec<&'a Item>, stmt: &'a Stmt) -> Result<(), AllocError>
    ensures { OnOk result (map piece_of items.new.items ≡ map piece_of items.old.items
        ++ pieces_of_stmt (statement stmt.now)) }
{
    match stmt {
        Stmt::Skip | Stmt::Assign(..) | Stmt::Await(..) => Ok(()),
        Stmt::While(_, body) => add_seq(items, body),
        Stmt::If(_, branch, other) => {
            add_seq(items, branch)?;
            match other {
                Some(other) => add_seq(items, other),
                None => Ok(()),
            }
        }
    }
}

/// Each statement with the assertion before it.
pub(crate) fn pieces_of<'a>(alloc: Global, seq: &'a Seq) -> Result<Vec<&'a Item>, AllocError>
    ensures { IfOk result (λ items. map piece_of items.items ≡ pieces (sequence seq.now)) }
{
    let mut items = Vec::new(alloc);
    add_seq(&mut items, seq)?;
    Ok(items)
}
