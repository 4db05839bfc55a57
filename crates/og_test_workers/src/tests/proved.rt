//! A board of an outline that certificates prove safe.

use crate::tests::sources::state_of;
use og_judge::{Judgement, judge};
use og_run::{OpenGate, ProvedBoard, RunTurn};
use og_test_samples::{TWO_ADD, TWO_ADD_CERTS};
use std::alloc::Global;
use std::process::Abort;
use std::test::Fail;

fn expect_steps<R: Abort>(rt: &R, board: &mut ProvedBoard<'_>) {
    assert!(rt; board.step(1) == RunTurn::Moved);
    assert!(rt; board.step(0) == RunTurn::Moved);
    assert!(rt; board.step(0) == RunTurn::Done);
    assert!(rt; board.history() == [1, 0].as_slice());
}

fn expect_board<R: Abort>(rt: &R, alloc: Global, judgement: &Judgement) -> Result<(), Fail> {
    let proved = judgement.proved().ok_or("not proved")?;
    let mut board = ProvedBoard::begin(alloc, &proved, state_of(alloc, &[0])?, 10)?;
    expect_steps(rt, &mut board);
    Ok(())
}

#[test]
fn proved_board_steps(rt: HostRuntime) -> Result<(), Fail> {
    let alloc = rt.alloc();
    let (source, certs) = (TWO_ADD.as_bytes(), TWO_ADD_CERTS.as_bytes());
    let judgement = judge(&rt, alloc, source, certs, 1, &OpenGate)?;
    let result = expect_board(&rt, alloc, &judgement);
    drop(judgement);
    result
}
