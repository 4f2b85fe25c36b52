ghost use Rattle.std.specs.Prelude.{◌≡◌, [], OnOk};
ghost use Rattle.turn_lock.specs.Section.{OwnsPlaces};
ghost use Rattle.shared_board.specs.Board.{board_of, own_board, known, fetched, lines};
ghost use Rattle.shared_board.specs.Callers.{caller_of};
ghost use Rattle.shared_board.specs.Calls.{HasLines};
ghost use Rattle.shared_board.specs.Onward.{entries_by, PassGoesOn};
ghost use Rattle.shared_board.specs.Standing.{SameRole};
ghost use Rattle.solved_problems.specs.Solved.{AreLinesFor, AsksNext};

use disp_model::{Change, Memory};
use shared_board::{Board, Pass};
use std::alloc::Global;
use std::sync::Wait;

/// Enters what the caller's next line asks for.
fn enter_line<W: Wait>(
    rt: &W,
    alloc: Global,
    board: &Board,
    pass: &mut Pass,
    change: Change,
) -> Result<(), Memory>
    requires board { own_board pass.old ≡ board_of board.now }
    requires lines { HasLines (known pass.old) }
    ensures on { PassGoesOn pass.old pass.new }
    ensures asks { OnOk result (AsksNext pass.old pass.new change) }
{
    board.ask(rt, alloc, pass, change)?;
    Ok(())
}

/// Enters what the lines of a caller that has none yet ask for, one after the other.
fn enter_lines<W: Wait>(
    rt: &W,
    alloc: Global,
    board: &Board,
    pass: &mut Pass,
    asked: &[Change],
) -> Result<(), Memory>
    requires board { own_board pass.old ≡ board_of board.now }
    requires lines { HasLines (known pass.old) }
    requires none { (lines pass.old ≡ 0)
        × (entries_by (known pass.old).caller (known pass.old).seen ≡ []) }
    ensures on { PassGoesOn pass.old pass.new }
    ensures asks { OnOk result (AreLinesFor (known pass.old).caller 1 asked.now
        (entries_by (known pass.old).caller (known pass.new).seen)) }
{
    for change in asked {
        enter_line(rt, alloc, board, pass, *change)?;
    }
    Ok(())
}

/// Enters what the lines of a board's first pass ask for, before any other pass is given. So there
/// are no other entries; if there were, the answer would be `Memory`.
pub(crate) fn enter<W: Wait>(
    rt: &W,
    alloc: Global,
    board: &Board,
    first: &mut Pass,
    asked: &[Change],
) -> Result<(), Memory>
    requires board { own_board first.old ≡ board_of board.now }
    requires lines { HasLines (known first.old) }
    requires none { (lines first.old ≡ 0) × (fetched first.old ≡ 0)
        × (entries_by (known first.old).caller (known first.old).seen ≡ []) }
    ensures board { own_board first.new ≡ own_board first.old }
    ensures role { SameRole (known first.old) (known first.new) }
    ensures owns { OnOk result (OwnsPlaces caller_of (known first.new)) }
    ensures asks { OnOk result (AreLinesFor (known first.old).caller 1 asked.now
        (known first.new).seen) }
{
    enter_lines(rt, alloc, board, first, asked)?;
    let news = board.news(rt, alloc, first)?;
    if news.entries.len() == asked.len() {
        Ok(())
    } else {
        Err(Memory)
    }
}
