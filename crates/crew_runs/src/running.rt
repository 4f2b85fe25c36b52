ghost use Rattle.std.specs.Prelude.{◌<◌, All};
ghost use Rattle.crew_runs.specs.Seats.{IsSeated, HasRun, HaveRun};

use crate::searcher::{Searcher, run_searcher};
use disp_model::Rule;
use disp_outside::Gate;
use search_crew::Crew;
use shared_board::Board;
use std::alloc::Global;
use std::sync::Wait;
use std::thread::{Threads, for_each_mut};

/// Runs all searchers, each in a thread of its own where one can be made, until there is no edition
/// to search any more and no feed that may bring one, or memory runs out.
///
/// It waits for the board's lock, and as long as a feed may still bring an edition.
pub fn run_searchers<R: Threads + Wait + Sync, G: Gate>(
    rt: &R,
    alloc: Global,
    board: &Board,
    crew: &Crew,
    rule: Rule,
    gate: &G,
    searchers: &mut [Searcher],
)
    requires { All (IsSeated board.now crew.now rule) searchers.old }
    ensures { HaveRun searchers.old searchers.new }
{
    let threads = searchers.len().max(1);
    let run = |_place: usize, searcher: &mut Searcher|
        requires { IsSeated board.now crew.now rule searcher.now }
        ensures { HasRun searcher.entry.now searcher.exit.now }
    { run_searcher(rt, alloc, board, crew, rule, gate, searcher) };
    for_each_mut(rt, searchers, threads, &run);
}
