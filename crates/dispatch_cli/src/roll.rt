ghost use Rattle.std.specs.Prelude.{◌≡◌, ◌≤◌, ℕ, List, IfOk, IfErr, IsErrAnd, OnErr, length};
ghost use Rattle.disp_model.specs.declared.limits.TheConstants.{MOST_CALLERS as most};
ghost use Rattle.text_puts.specs.Outside.{outside};
ghost use Rattle.answered_tasks.specs.Files.{IsProblemFile};
ghost use Rattle.answered_tasks.specs.Outside.{ReadsOne};
ghost use Rattle.dispatch_cli.specs.Feeds.{StopsFeeds};
ghost use Rattle.dispatch_cli.specs.Rolls.{StopsRoll, HasNotBegun, RunsFeeds, EndsRun, EndsRoll};
ghost use Rattle.dispatch_cli.specs.Stops.{IsFault};

use crate::feeds::open_feeds;
use crate::roll_no::{RollNo, stop_roll};
use answered_tasks::{Done, problem_file};
use command_words::RollTask;
use disp_model::{MOST_CALLERS, Problem};
use disp_outside::{Gate, Shelf, Sink};
use rolling_driver::{Rolled, roll};
use std::alloc::Global;
use std::sync::Wait;
use std::thread::Threads;

/// The problem of a task's file, where it names no more feeds than there may be.
fn problem_of<S: Shelf>(alloc: Global, shelf: &mut S, task: &RollTask) -> Result<Problem, RollNo>
    ensures ok { IfOk result (IsProblemFile (S.state shelf.old).holds task.now.problem) }
    ensures few { IfOk result (λ _. length task.now.feeds ≤ most) }
    ensures no { IfErr result (StopsRoll task.now (S.state shelf.old).holds
        (S.state shelf.old).reading (S.state shelf.new).reading) }
    ensures reads { ReadsOne task.now.problem (S.state shelf.old) (S.state shelf.new)
        (IsErrAnd result IsFault) }
    ensures feeds { S.open_feeds shelf.new ≡ S.open_feeds shelf.old }
{
    let count = task.feeds.len();
    if count > MOST_CALLERS as usize {
        return Err(RollNo::TooManyFeeds(count as u64));
    }
    match problem_file(alloc, shelf, task.problem.as_str()) {
        Ok(problem) => Ok(problem),
        Err(cause) => Err(RollNo::Problem(cause)),
    }
}

/// Opens the feeds of a task, and runs them and the searchers on a problem.
fn roll_feeds<R: Threads + Wait + Sync, S: Shelf, O: Sink, G: Gate>(
    rt: &R,
    alloc: Global,
    problem: &Problem,
    task: &RollTask,
    shelf: &mut S,
    out: &mut O,
    gate: &G,
) -> Result<Rolled, RollNo>
    requires few { length task.now.feeds ≤ most }
    ensures ok { IfOk result (λ rolled. RunsFeeds task.now problem.now
        (outside (S.state shelf.old) (O.state out.old))
        (outside (S.state shelf.new) (O.state out.new)) rolled.status rolled.journal.items) }
    ensures no { IfErr result (StopsFeeds task.now.feeds (S.state shelf.old).reading
        (S.state shelf.new).reading) }
    ensures puttings { OnErr result ((name : List ℕ) → (S.state shelf.new).putting name
        ≡ (S.state shelf.old).putting name) }
    ensures held { OnErr result ((name : List ℕ) → (S.state shelf.new).holds name
        ≡ (S.state shelf.old).holds name) }
    ensures faults { OnErr result ((O.state out.new).faults ≡ (O.state out.old).faults) }
    ensures written { OnErr result ((O.state out.new).written ≡ (O.state out.old).written) }
    ensures feeds { S.open_feeds shelf.new ≡ S.open_feeds shelf.old }
{
    let feeds = match open_feeds(alloc, shelf, task.feeds.as_slice()) {
        Ok(feeds) => feeds,
        Err(no) => return Err(no),
    };
    let trees = task.trees.as_ref();
    let settings = task.settings();
    match roll(
        rt,
        alloc,
        problem,
        settings,
        task.workers,
        feeds,
        trees,
        shelf,
        out,
        gate,
    ) {
        Ok(rolled) => Ok(rolled),
        Err(_) => Err(RollNo::Memory),
    }
}

/// Runs a task, unless something stops it before.
fn rolled_of<R: Threads + Wait + Sync, S: Shelf, O: Sink, G: Gate>(
    rt: &R,
    alloc: Global,
    task: &RollTask,
    shelf: &mut S,
    out: &mut O,
    gate: &G,
) -> Result<Rolled, RollNo>
    ensures ok { IfOk result (λ rolled. EndsRun task.now
        (outside (S.state shelf.old) (O.state out.old))
        (outside (S.state shelf.new) (O.state out.new)) rolled.status rolled.journal.items) }
    ensures no { IfErr result (HasNotBegun task.now
        (outside (S.state shelf.old) (O.state out.old))
        (outside (S.state shelf.new) (O.state out.new))) }
    ensures feeds { S.open_feeds shelf.new ≡ S.open_feeds shelf.old }
{
    match problem_of(alloc, shelf, task) {
        Ok(problem) => roll_feeds(rt, alloc, &problem, task, shelf, out, gate),
        Err(no) => Err(no),
    }
}

/// Runs a task, and says how it ended.
pub(crate) fn run_roll<R: Threads + Wait + Sync, S: Shelf, O: Sink, G: Gate>(
    rt: &R,
    alloc: Global,
    task: &RollTask,
    shelf: &mut S,
    out: &mut O,
    gate: &G,
) -> Done
    ensures ends { EndsRoll task.now
        (outside (S.state shelf.old) (O.state out.old))
        (outside (S.state shelf.new) (O.state out.new)) result.status result.journal.items }
    ensures feeds { S.open_feeds shelf.new ≡ S.open_feeds shelf.old }
{
    match rolled_of(rt, alloc, task, shelf, out, gate) {
        Ok(rolled) => Done {
            status: rolled.status,
            journal: rolled.journal,
        },
        Err(no) => Done {
            status: stop_roll(alloc, out, &no),
            journal: Vec::new(alloc),
        },
    }
}
