//! Passes that are joined.
ghost use Rattle.std.specs.Prelude.{◌≡◌, ◌++◌, ◌∷◌, [], List, true};
ghost use Rattle.shared_board.specs.declared.pass.Pass.{Pass as PassOf};
ghost use Rattle.shared_board.specs.Board.{board_of, own_board, known};
ghost use Rattle.joined_passes.specs.Joined.{Joins};

use shared_board::{Board, Pass};

/// Puts what a pass knows into the first pass, behind those that were joined before, and ends it.
pub fn join_next(board: &Board, first: &mut Pass, pass: Pass)
    requires board { own_board first.old ≡ board_of board.now }
    requires first { (known first.old).first ≡ true }
    requires other_board { own_board pass ≡ board_of board.now }
    ensures board { own_board first.new ≡ own_board first.old }
    ensures first { (known first.new).first ≡ true }
    ensures joins { (before : PassOf) (done : List PassOf) → Joins before done first.old
        → Joins before (done ++ pass ∷ []) first.new }
{
    board.join(first, pass);
}
