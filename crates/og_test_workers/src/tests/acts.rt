//! Turns of boards, and acts of seats.

ghost use Rattle.std.specs.Prelude.{◌≡◌, []};

use crate::tests::sources::{ONE_OVERFLOWS, ONE_WAITS, state_of};
use og_run::{Arena, ArenaName, Board, RunTurn, Seat, Unstarted};
use og_test_samples::{TWO_ADD, WITH_MAIN, outline_of};
use og_typed::Outline;
use std::alloc::{AllocError, Global};
use std::marker::Brand;
use std::process::Abort;
use std::sync::Wait;
use std::test::Fail;

// What a seat does, and how the board looks then.
#[derive(Clone, Copy)]
enum Act {
    // Its process acts: the turn, how often the process has moved, and how long the history was.
    Acts(RunTurn, u64, u64),
    // It waits until the history is longer than it knows, or a process has overflowed.
    Waits,
}

#[derive(Clone, Copy)]
struct Row<'a> {
    source: &'a str,
    values: &'a [i64],
    // Seats, by the numbers of their processes, with their deeds.
    acts: &'a [(u32, Act)],
    // The state of a board after the same turns.
    history: &'a [u32],
    halted: Option<u32>,
    is_finished: bool,
}

// A board answers each turn alike.
fn expect_turns<R: Abort>(rt: &R, board: &mut Board<'_>, row: &Row<'_>) {
    for (process, act) in row.acts {
        if let Act::Acts(turn, _, _) = act {
            assert!(rt; board.step(*process) == *turn);
        }
    }
    assert!(rt; board.history() == row.history);
    assert!(rt; board.halted() == row.halted);
    assert!(rt; board.moment().is_finished() == row.is_finished);
}

fn expect_deed<K: ArenaName, R: Wait + Abort>(
    rt: &R,
    arena: &Arena<K, Board<'_>>,
    seat: &mut Seat<K>,
    act: &Act,
) {
    match act {
        Act::Acts(turn, moves, seen) => {
            assert!(rt; arena.act(rt, seat) == *turn);
            assert!(rt; seat.moves() == *moves);
            assert!(rt; seat.seen() == *seen);
        }
        Act::Waits => arena.wait_change(rt, seat),
    }
}

fn expect_deeds<K: ArenaName, R: Wait + Abort>(
    rt: &R,
    arena: &Arena<K, Board<'_>>,
    seats: &mut [Seat<K>],
    acts: &[(u32, Act)],
) {
    for (process, act) in acts {
        match seats.get_mut(*process as usize) {
            Some(seat) => {
                assert!(rt; seat.process() == *process);
                expect_deed(rt, arena, seat, act);
            }
            None => panic!(rt; "no seat of {process}"),
        }
    }
}

fn expect_arena<K: ArenaName, R: Wait + Abort>(
    rt: &R,
    alloc: Global,
    unstarted: Unstarted,
    board: Board<'_>,
    acts: &[(u32, Act)],
) -> Result<(), AllocError>
    requires name { unstarted.table ≡ K.table }
    requires given { unstarted.given ≡ board.given }
    requires empty { board.history ≡ [] }
{
    let (arena, mut seats) = Arena::<K, Board<'_>>::new(alloc, unstarted, board)?;
    assert!(rt; seats.len() == 2);
    expect_deeds(rt, &arena, seats.as_mut_slice(), acts);
    Ok(())
}

fn expect_board<R: Wait + Abort>(
    rt: &R,
    alloc: Global,
    outline: &Outline,
    row: &Row<'_>,
) -> Result<(), Fail> {
    let board = Board::begin(alloc, outline, state_of(alloc, row.values)?, 10)?;
    let unstarted = Unstarted::new(alloc, &board)?;
    Ok(expect_arena::<Brand, _>(rt, alloc, unstarted, board, row.acts)?)
}

fn expect_both<R: Wait + Abort>(
    rt: &R,
    alloc: Global,
    outline: &Outline,
    row: &Row<'_>,
) -> Result<(), Fail> {
    let mut board = Board::begin(alloc, outline, state_of(alloc, row.values)?, 10)?;
    expect_turns(rt, &mut board, row);
    drop(board);
    expect_board(rt, alloc, outline, row)
}

const ROWS: &[Row] = &[
    // A guard is judged at the newest history, and a wait ends once that is longer.
    Row {
        source: ONE_WAITS,
        values: &[0],
        acts: &[
            (0, Act::Acts(RunTurn::Waits, 0, 0)),
            (1, Act::Acts(RunTurn::Moved, 1, 1)),
            (0, Act::Acts(RunTurn::Moved, 1, 2)),
            (0, Act::Acts(RunTurn::Done, 1, 2)),
            (1, Act::Waits),
        ],
        history: &[1, 0],
        halted: None,
        is_finished: true,
    },
    // The first overflow is noted, and after it every turn is one. Every seat hears of a halt, and
    // ends a wait.
    Row {
        source: ONE_OVERFLOWS,
        values: &[i64::MAX],
        acts: &[
            (0, Act::Acts(RunTurn::Waits, 0, 0)),
            (1, Act::Acts(RunTurn::Overflow, 0, 0)),
            (0, Act::Waits),
            (0, Act::Acts(RunTurn::Overflow, 0, 0)),
        ],
        history: &[],
        halted: Some(1),
        is_finished: false,
    },
    Row {
        source: TWO_ADD,
        values: &[0],
        acts: &[
            (1, Act::Acts(RunTurn::Moved, 1, 1)),
            (0, Act::Acts(RunTurn::Moved, 1, 2)),
            (0, Act::Acts(RunTurn::Done, 1, 2)),
        ],
        history: &[1, 0],
        halted: None,
        is_finished: true,
    },
    // The main process has the number after the last, and each waits for its part to begin.
    Row {
        source: WITH_MAIN,
        values: &[7],
        acts: &[
            (0, Act::Acts(RunTurn::Early, 0, 0)),
            (1, Act::Acts(RunTurn::Moved, 1, 1)),
            (1, Act::Acts(RunTurn::Early, 1, 1)),
            (0, Act::Acts(RunTurn::Moved, 1, 2)),
            (0, Act::Acts(RunTurn::Done, 1, 2)),
            (1, Act::Acts(RunTurn::Moved, 2, 3)),
            (1, Act::Acts(RunTurn::Done, 2, 3)),
        ],
        history: &[1, 0, 1],
        halted: None,
        is_finished: true,
    },
];

#[test]
fn acts_in_turn(rt: HostRuntime) -> Result<(), Fail> {
    for row in ROWS {
        let outline = outline_of(rt.alloc(), row.source)?;
        let result = expect_both(&rt, rt.alloc(), &outline, row);
        drop(outline);
        result?;
    }
    Ok(())
}
