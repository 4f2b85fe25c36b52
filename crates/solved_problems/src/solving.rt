ghost use Rattle.std.specs.Prelude.{◌≡◌, ◌≤◌, [], IfOk};
ghost use Rattle.disp_model.specs.declared.limits.TheConstants.{MOST_CALLERS};
ghost use Rattle.solved_problems.specs.Solved.{IsSearched, MayBeAsked};

use crate::entering::enter;
use crew_runs::{join_searchers, run_searchers, seats_of};
use disp_model::{Change, Memory, Problem, Settings};
use disp_outside::Gate;
use dispatch_core::Core;
use joined_passes::close_run;
use search_crew::{Pace, crew_of};
use shared_board::Board;
use std::alloc::Global;
use std::sync::Wait;
use std::thread::Threads;

/// Solves a problem with so many searchers, each in a thread of its own where one can be made: asks
/// for changes, each of which is taken, and searches the edition that stands then until it is
/// settled, or stopped where the budget is spent.
///
/// # Errors
///
/// `Memory` where memory runs out.
pub fn solve<R: Threads + Wait + Sync, G: Gate>(
    rt: &R,
    alloc: Global,
    problem: &Problem,
    settings: Settings,
    searchers: u32,
    asked: &[Change],
    gate: &G,
) -> Result<Core, Memory>
    requires searchers { searchers ≤ MOST_CALLERS }
    requires taken { MayBeAsked problem.now [] asked.now }
    ensures problem { IfOk result (λ core. core.problem ≡ problem.now) }
    ensures searched { IfOk result
        (λ core. IsSearched problem.now settings asked.now core.history) }
{
    let (board, mut first) = Board::new(alloc, problem, settings, 0, searchers)?;
    enter(rt, alloc, &board, &mut first, asked)?;
    let (crew, hands) = crew_of(alloc, searchers, settings.budget, Pace::Steady)?;
    let mut seats = seats_of(alloc, &board, &mut first, hands)?;
    run_searchers(
        rt,
        alloc,
        &board,
        &crew,
        settings.rule,
        gate,
        seats.as_mut_slice(),
    );
    join_searchers(&board, &mut first, seats);
    let closed = close_run(rt, alloc, board, first);
    if closed.over {
        Ok(closed.core)
    } else {
        Err(Memory)
    }
}
