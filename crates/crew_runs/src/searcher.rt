ghost use Rattle.turn_lock.specs.Section.{OwnsPlaces};
ghost use Rattle.shared_board.specs.Board.{known};
ghost use Rattle.shared_board.specs.Callers.{caller_of};
ghost use Rattle.search_crew.specs.Crews.{IsHandOf, IsSameHand};
ghost use Rattle.search_crew.specs.Working.{IsAtWork, KeepsOn};
ghost use Rattle.crew_runs.specs.Seats.{IsSeated, HasRun};

use disp_model::{Answer, Rule};
use disp_outside::Gate;
use dispatch_core::CoreReply;
use search_crew::{Crew, Hand, search};
use shared_board::{Board, Pass};
use std::alloc::Global;
use std::sync::Wait;

/// One searcher of a run: its pass to the board, and its hand of the crew.
#[derive(Drop)]
pub struct Searcher {
    pub pass: Pass,
    pub hand: Hand,
}

/// Searches edition after edition, as long as there is one to search or a feed may bring one. Where
/// there is none it rests.
fn search_on<W: Wait, G: Gate>(
    rt: &W,
    alloc: Global,
    board: &Board,
    pass: &mut Pass,
    crew: &Crew,
    hand: &mut Hand,
    rule: Rule,
    gate: &G,
)
    requires at { IsAtWork board.now rule 0 pass.old }
    requires hand { IsHandOf crew.now hand.old }
    ensures on { KeepsOn pass.old pass.new }
    ensures hand { IsSameHand hand.old hand.new }
{
    for _ in rt.forever() {
        let moves = board.moves();
        match board.next(rt, alloc, pass) {
            CoreReply::Work(edition) => {
                let answer = search(rt, alloc, board, pass, crew, hand, rule, edition, gate);
                if answer == Answer::Memory {
                    return;
                }
            }
            CoreReply::FeedsOpen(_) => board.rest(rt, moves),
            _ => return,
        }
    }
}

/// Searches until the run is over or memory runs out, and leaves.
fn search_and_leave<W: Wait, G: Gate>(
    rt: &W,
    alloc: Global,
    board: &Board,
    pass: &mut Pass,
    crew: &Crew,
    hand: &mut Hand,
    rule: Rule,
    gate: &G,
)
    requires at { IsAtWork board.now rule 0 pass.old }
    requires hand { IsHandOf crew.now hand.old }
    ensures on { KeepsOn pass.old pass.new }
    ensures owns { OwnsPlaces caller_of (known pass.new) }
{
    search_on(rt, alloc, board, pass, crew, hand, rule, gate);
    board.leave(rt, alloc, pass);
}

/// The part of one searcher in a run.
pub(crate) fn run_searcher<W: Wait, G: Gate>(
    rt: &W,
    alloc: Global,
    board: &Board,
    crew: &Crew,
    rule: Rule,
    gate: &G,
    searcher: &mut Searcher,
)
    requires { IsSeated board.now crew.now rule searcher.old }
    ensures { HasRun searcher.old searcher.new }
{
    let Searcher { pass, hand } = searcher;
    search_and_leave(rt, alloc, board, pass, crew, hand, rule, gate);
}
