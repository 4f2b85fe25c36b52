ghost use Rattle.std.specs.Prelude.{◌≡◌, true, All, IfOk, map, length};
ghost use Rattle.shared_board.specs.Board.{board_of, own_board, known, fetched, lines};
ghost use Rattle.joined_passes.specs.Joined.{Joins};
ghost use Rattle.crew_runs.specs.Seats.{MaySeat, AreSeats, with_searchers};

use crate::searcher::Searcher;
use disp_model::Memory;
use joined_passes::join_next;
use search_crew::Hand;
use shared_board::{Board, Pass, SEARCHERS_FROM};
use std::alloc::Global;

/// A searcher for each hand, in order, with a pass that begins with what the first pass has seen.
///
/// # Errors
///
/// `Memory` where memory runs out.
pub fn seats_of(
    alloc: Global,
    board: &Board,
    first: &mut Pass,
    hands: Vec<Hand>,
) -> Result<Vec<Searcher>, Memory>
    requires board { own_board first.old ≡ board_of board.now }
    requires may { MaySeat (known first.old) (length hands.items) }
    ensures board { own_board first.new ≡ own_board first.old }
    ensures counts { (fetched first.new ≡ fetched first.old) × (lines first.new ≡ lines first.old) }
    ensures first { IfOk result
        (λ seats. known first.new ≡ with_searchers (known first.old) (length hands.items)) }
    ensures hands { IfOk result (λ seats. map (λ s. s.hand) seats.items ≡ hands.items) }
    ensures seats { IfOk result (λ seats. AreSeats board.now (known first.old) seats.items) }
{
    let mut seats = Vec::with_capacity(alloc, hands.len())?;
    let mut caller = SEARCHERS_FROM;
    for hand in hands {
        let pass = board.split(first, caller);
        seats.push(Searcher { pass, hand })?;
        caller += 1;
    }
    Ok(seats)
}

/// Puts what the passes of searchers know into the first pass, one after the other, and ends them.
pub fn join_searchers(board: &Board, first: &mut Pass, searchers: Vec<Searcher>)
    requires board { own_board first.old ≡ board_of board.now }
    requires first { (known first.old).first ≡ true }
    requires boards { All (λ s. own_board s.pass ≡ board_of board.now) searchers.items }
    ensures { Joins first.old (map (λ s. s.pass) searchers.items) first.new }
{
    for searcher in searchers {
        let Searcher { pass, .. } = searcher;
        join_next(board, first, pass);
    }
}
