ghost use Rattle.std.specs.Prelude.{◌≡◌, IfOk};
ghost use Rattle.shared_board.specs.Board.{board_of, own_board, known};
ghost use Rattle.shared_board.specs.Calls.{IsSearcher};
ghost use Rattle.search_crew.specs.Crews.{IsSameHand};
ghost use Rattle.search_crew.specs.Turns.{IsCrewTurn};
ghost use Rattle.search_crew.specs.Working.{KeepsOn};

use crate::answered::answered;
use crate::crew::{Crew, Hand};
use disp_model::{Answer, Memory, Unfinished};
use dispatch_core::CoreReply;
use open_nodes::Work;
use search_workers::FOR_BOUND;
use shared_board::{Board, Pass};
use std::alloc::Global;
use std::sync::Wait;

/// What there is for a searcher to do.
#[derive(Drop)]
pub(crate) enum Turn {
    /// The leaf of this work is to be grown.
    Work(Work),
    /// The search of the edition is over.
    Answer(Answer),
    /// The board is to be asked again.
    On,
}

/// Gives a work back as it is.
pub(crate) fn give_back<W: Wait>(rt: &W, alloc: Global, board: &Board, pass: &mut Pass, work: Work)
    requires board { own_board pass.old ≡ board_of board.now }
    requires searcher { IsSearcher (known pass.old) }
    ensures { KeepsOn pass.old pass.new }
{
    board.give_back(rt, alloc, pass, work, false);
}

/// Whether an edition is the newest one, and is neither settled nor stopped.
pub(crate) fn is_worked_on<W: Wait>(
    rt: &W,
    alloc: Global,
    board: &Board,
    pass: &mut Pass,
    edition: u32,
) -> bool
    requires { own_board pass.old ≡ board_of board.now }
    ensures { KeepsOn pass.old pass.new }
{
    match board.next(rt, alloc, pass) {
        CoreReply::Work(newest) => newest == edition,
        _ => false,
    }
}

/// Settles an edition, if it can be.
fn settle<W: Wait>(
    rt: &W,
    alloc: Global,
    board: &Board,
    pass: &mut Pass,
    edition: u32,
) -> Result<Turn, Memory>
    requires { own_board pass.old ≡ board_of board.now }
    ensures on { KeepsOn pass.old pass.new }
    ensures turn { IfOk result (IsCrewTurn edition (known pass.new).seen) }
{
    board.settle(rt, alloc, pass, edition)?;
    Ok(Turn::On)
}

/// Stops an edition, if it can be.
fn stop<W: Wait>(
    rt: &W,
    alloc: Global,
    board: &Board,
    pass: &mut Pass,
    edition: u32,
) -> Result<Turn, Memory>
    requires { own_board pass.old ≡ board_of board.now }
    ensures on { KeepsOn pass.old pass.new }
    ensures turn { IfOk result (IsCrewTurn edition (known pass.new).seen) }
{
    board.stop(rt, alloc, pass, edition)?;
    Ok(Turn::On)
}

/// Takes a leaf of an edition from the board, to grow so many branches. Where none is wanted,
/// settles it; where none may be taken and none is out, stops it; where all that may be taken are
/// out, rests.
pub(crate) fn next_turn<W: Wait>(
    rt: &W,
    alloc: Global,
    board: &Board,
    pass: &mut Pass,
    edition: u32,
    want: u32,
) -> Result<Turn, Memory>
    requires board { own_board pass.old ≡ board_of board.now }
    requires searcher { IsSearcher (known pass.old) }
    ensures on { KeepsOn pass.old pass.new }
    ensures turn { IfOk result (IsCrewTurn edition (known pass.new).seen) }
{
    let moves = board.moves();
    match board.take(rt, alloc, pass, edition, want)? {
        CoreReply::Taken(work) => Ok(Turn::Work(work)),
        CoreReply::Closed(mark) => Ok(answered(mark)),
        CoreReply::Newer(number) => {
            Ok(Turn::Answer(Answer::Unfinished(Unfinished::Newer(number))))
        }
        CoreReply::Ripe => settle(rt, alloc, board, pass, edition),
        CoreReply::Dry(_) => stop(rt, alloc, board, pass, edition),
        _ => {
            board.rest(rt, moves);
            Ok(Turn::On)
        }
    }
}

/// Keeps one work more, if there is one, for others to steal, where the searcher asked for few
/// branches: it works on the bound then, and need not stay where it is.
pub(crate) fn keep_another<W: Wait>(
    rt: &W,
    alloc: Global,
    board: &Board,
    pass: &mut Pass,
    crew: &Crew,
    hand: &mut Hand,
    edition: u32,
    want: u32,
)
    requires board { own_board pass.old ≡ board_of board.now }
    requires searcher { IsSearcher (known pass.old) }
    ensures on { KeepsOn pass.old pass.new }
    ensures hand { IsSameHand hand.old hand.new }
{
    if !crew.shares() {
        return;
    }
    if want > FOR_BOUND {
        return;
    }
    if let Ok(CoreReply::Taken(work)) = board.take(rt, alloc, pass, edition, FOR_BOUND) {
        if let Err(work) = hand.keep(work) {
            give_back(rt, alloc, board, pass, work);
        }
    }
}
