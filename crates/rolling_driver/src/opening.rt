ghost use Rattle.std.specs.Prelude.{◌≡◌, ◌≤◌, ◌-◌, ℕ, List, All, IfOk, IfErr, OnOk, OnErr, length};
ghost use Rattle.disp_model.specs.declared.limits.TheConstants.{MOST_CALLERS};
ghost use Rattle.rolling_driver.specs.Opened.{IsOpened, AreNew, feeds_of};

use crate::closing::{close_feeds, close_readers};
use crew_runs::{Searcher, seats_of};
use disp_model::{Memory, Problem, Settings};
use disp_outside::{Feed, Shelf};
use feed_runs::{Reader, readers_of};
use search_crew::{Crew, Pace, crew_of};
use shared_board::{Board, Pass};
use std::alloc::Global;

/// A run that may start.
#[derive(Drop)]
pub(crate) struct Run<F> {
    pub(crate) board: Board,
    pub(crate) first: Pass,
    pub(crate) crew: Crew,
    pub(crate) readers: Vec<Reader<F>>,
    pub(crate) searchers: Vec<Searcher>,
}

/// The feeds of a run that may not start, of which nothing was read.
#[derive(Drop)]
enum Left<F> {
    /// They have no readers.
    Feeds(Vec<F>),
    /// They have readers.
    Readers(Vec<Reader<F>>),
}

/// Closes the feeds of a run that may not start.
fn close_left<S: Shelf>(shelf: &mut S, left: Left<S::Feed>)
    requires feeds { AreNew S.Feed.has_ended S.Feed.faults (feeds_of left) }
    requires known { All (λ feed. S.knows shelf.old (S.Feed.name feed)) (feeds_of left) }
    ensures counts { (name : List ℕ) → (S.state shelf.new).reading name
        ≡ (S.state shelf.old).reading name }
    ensures puttings { (name : List ℕ) → (S.state shelf.new).putting name
        ≡ (S.state shelf.old).putting name }
    ensures held { (name : List ℕ) → (S.state shelf.new).holds name
        ≡ (S.state shelf.old).holds name }
    ensures still_known { (name : List ℕ) → S.knows shelf.old name → S.knows shelf.new name }
    ensures closed { S.open_feeds shelf.new
        ≡ S.open_feeds shelf.old - length (feeds_of left) }
{
    match left {
        Left::Feeds(feeds) => close_feeds(shelf, feeds),
        Left::Readers(readers) => close_readers(shelf, readers),
    }
}

/// A run of these feeds and so many searchers on a problem, or the feeds, where there is no memory
/// for it.
fn seat_run<F: Feed + Drop>(
    alloc: Global,
    problem: &Problem,
    settings: Settings,
    workers: u32,
    feeds: Vec<F>,
) -> Result<Run<F>, Left<F>>
    requires workers { workers ≤ MOST_CALLERS }
    requires few { length feeds.items ≤ MOST_CALLERS }
    requires feeds { AreNew F.has_ended F.faults feeds.items }
    ensures opened { IfOk result
        (IsOpened F.has_ended F.faults problem.now settings workers feeds.items) }
    ensures left { IfErr result (λ left. feeds_of left ≡ feeds.items) }
{
    let count = feeds.len() as u32;
    let Ok((board, mut first)) = Board::new(alloc, problem, settings, count, workers) else {
        return Err(Left::Feeds(feeds));
    };
    let Ok((crew, hands)) = crew_of(alloc, workers, settings.budget, Pace::Prompt) else {
        return Err(Left::Feeds(feeds));
    };
    let readers = match readers_of(alloc, &board, &mut first, feeds) {
        Ok(readers) => readers,
        Err(feeds) => return Err(Left::Feeds(feeds)),
    };
    let Ok(searchers) = seats_of(alloc, &board, &mut first, hands) else {
        return Err(Left::Readers(readers));
    };
    Ok(Run {
        board,
        first,
        crew,
        readers,
        searchers,
    })
}

/// A run of these feeds and so many searchers on a problem. Where there is no memory for it, the
/// feeds are closed.
pub(crate) fn open_run<S: Shelf>(
    alloc: Global,
    problem: &Problem,
    settings: Settings,
    workers: u32,
    feeds: Vec<S::Feed>,
    shelf: &mut S,
) -> Result<Run<S::Feed>, Memory>
    requires workers { workers ≤ MOST_CALLERS }
    requires few { length feeds.items ≤ MOST_CALLERS }
    requires feeds { AreNew S.Feed.has_ended S.Feed.faults feeds.items }
    requires known { All (λ feed. S.knows shelf.old (S.Feed.name feed)) feeds.items }
    ensures opened { IfOk result
        (IsOpened S.Feed.has_ended S.Feed.faults problem.now settings workers feeds.items) }
    ensures same { OnOk result (shelf.new ≡ shelf.old) }
    ensures still_known { (name : List ℕ) → S.knows shelf.old name → S.knows shelf.new name }
    ensures closed { OnErr result
        (S.open_feeds shelf.new ≡ S.open_feeds shelf.old - length feeds.items) }
    ensures counts { OnErr result ((name : List ℕ) → (S.state shelf.new).reading name
        ≡ (S.state shelf.old).reading name) }
    ensures puttings { OnErr result ((name : List ℕ) → (S.state shelf.new).putting name
        ≡ (S.state shelf.old).putting name) }
    ensures held { OnErr result ((name : List ℕ) → (S.state shelf.new).holds name
        ≡ (S.state shelf.old).holds name) }
{
    match seat_run(alloc, problem, settings, workers, feeds) {
        Ok(run) => Ok(run),
        Err(left) => {
            close_left(shelf, left);
            Err(Memory)
        }
    }
}
