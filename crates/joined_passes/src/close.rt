//! The end of a board.
ghost use Rattle.std.specs.Prelude.{◌≡◌, ◌≢◌, ◌↔◌, ◌<◌, ℕ, IsTrue, Some, Contains, length};
ghost use Rattle.disp_model.specs.declared.entry.Mark.TheVariants.{Working};
ghost use Rattle.disp_model.specs.History.{mark_of, newest};
ghost use Rattle.dispatch_core.specs.Replies.{IsNextReply};
ghost use Rattle.dispatch_core.specs.States.{Core as State, IsSound};
ghost use Rattle.turn_lock.specs.Known.{IsLast};
ghost use Rattle.turn_lock.specs.Section.{OwnsPlaces};
ghost use Rattle.shared_board.specs.Board.{board_of, own_board, known};
ghost use Rattle.shared_board.specs.Callers.{caller_of, terms_of};

use dispatch_core::{Core, CoreReply};
use shared_board::{Board, Pass};
use std::alloc::Global;
use std::sync::Wait;

/// What a run leaves.
#[derive(Drop)]
pub struct Closed {
    pub core: Core,
    /// The newest edition is settled or stopped.
    pub over: bool,
}

/// Whether a reply to the question what is there to do says that no edition is worked on.
fn is_over(told: CoreReply) -> bool
    ensures { (core : State) → IsNextReply core told
        → (IsTrue result ↔ (mark_of (newest core.history) core.history ≢ Working)) }
{
    !matches!(told, CoreReply::Work(_))
}

/// Ends a board whose other passes were joined into the first one, and says whether its newest
/// edition is settled or stopped. No entry came behind those that the first pass has seen. It takes
/// no memory, and waits for the board's lock.
pub fn close_run<W: Wait>(rt: &W, alloc: Global, board: Board, first: Pass) -> Closed
    requires board { own_board first ≡ board_of board }
    requires last { IsLast (known first) }
    requires owns { OwnsPlaces caller_of (known first) }
    ensures sound { IsSound result.core }
    ensures terms { (known first).terms ≡ Some (terms_of result.core) }
    ensures seen { result.core.history ≡ (known first).seen }
    ensures places { (place : ℕ) → place < length result.core.history
        → Contains (known first).mine place }
    ensures over { IsTrue result.over
        ↔ (mark_of (newest result.core.history) result.core.history ≢ Working) }
{
    let mut pass = first;
    let over = is_over(board.next(rt, alloc, &mut pass));
    let core = board.close(pass);
    Closed { core, over }
}
