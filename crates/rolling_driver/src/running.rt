ghost use Rattle.std.specs.Prelude.{◌≡◌, ℕ, List, All, OnOk, option_map, drop, length};
ghost use Rattle.std.specs.Thread.{IsSync};
ghost use Rattle.text_puts.specs.Outside.{outside};
ghost use Rattle.shared_board.specs.Board.{board_of, own_board, known, fetched};
ghost use Rattle.crew_runs.specs.Seats.{IsSeated, HaveRun};
ghost use Rattle.feed_runs.specs.Readers.{AreReady, HaveRead};
ghost use Rattle.rolling_driver.specs.Printed.{PrintsJournal, Watches};

use crate::printing::print_news;
use crew_runs::{Searcher, run_searchers};
use disp_model::{Rule, Text};
use disp_outside::{Feed, Gate, Shelf, Sink};
use feed_runs::{Reader, run_readers};
use journal_printer::PrintNo;
use search_crew::Crew;
use shared_board::{Board, Pass};
use std::alloc::Global;
use std::sync::Wait;
use std::thread::{Threads, join_mut};

/// Runs the feeds and the searchers side by side. Where no thread can be made, the feeds go first.
fn run_both<R: Threads + Wait + Sync, F: Feed, G: Gate>(
    rt: &R,
    alloc: Global,
    board: &Board,
    crew: &Crew,
    rule: Rule,
    gate: &G,
    readers: &mut [Reader<F>],
    searchers: &mut [Searcher],
)
    requires readers { AreReady F.has_ended board.now readers.old }
    requires searchers { All (IsSeated board.now crew.now rule) searchers.old }
    ensures readers { HaveRead F.lines F.faults F.name readers.old readers.new }
    ensures searchers { HaveRun searchers.old searchers.new }
{
    let mut search = ||
        requires { IsSync R.row × All (IsSeated board.now crew.now rule) searchers.now }
        ensures { HaveRun searchers.entry.now searchers.exit.now }
    { run_searchers(rt, alloc, board, crew, rule, gate, searchers) };
    let mut read = ||
        requires { IsSync R.row × AreReady F.has_ended board.now readers.now }
        ensures { HaveRead F.lines F.faults F.name readers.entry.now readers.exit.now }
    { run_readers(rt, alloc, board, gate, readers) };
    join_mut(rt, &mut search, &mut read);
}

/// Runs the feeds, the searchers and the printer side by side. Where no thread can be made, they go
/// one after the other, in this order.
pub(crate) fn run_all<R: Threads + Wait + Sync, S: Shelf, O: Sink, G: Gate>(
    rt: &R,
    alloc: Global,
    board: &Board,
    crew: &Crew,
    rule: Rule,
    gate: &G,
    readers: &mut [Reader<S::Feed>],
    searchers: &mut [Searcher],
    first: &mut Pass,
    shelf: &mut S,
    out: &mut O,
    trees: Option<&Text>,
) -> Result<(), PrintNo>
    requires readers { AreReady S.Feed.has_ended board.now readers.old }
    requires searchers { All (IsSeated board.now crew.now rule) searchers.old }
    requires first { own_board first.old ≡ board_of board.now }
    ensures readers { HaveRead S.Feed.lines S.Feed.faults S.Feed.name readers.old readers.new }
    ensures searchers { HaveRun searchers.old searchers.new }
    ensures watches { Watches first.old first.new }
    ensures printed { PrintsJournal (option_map (λ prefix. prefix.now) trees.entry)
        (drop (fetched first.old) (known first.new).seen)
        (outside (S.state shelf.old) (O.state out.old))
        (outside (S.state shelf.new) (O.state out.new)) result }
    ensures fetched { OnOk result (fetched first.new ≡ length (known first.new).seen) }
    ensures known { (name : List ℕ) → S.knows shelf.old name → S.knows shelf.new name }
    ensures feeds { S.open_feeds shelf.new ≡ S.open_feeds shelf.old }
{
    let mut print = || -> Result<(), PrintNo>
        requires { own_board first.now ≡ board_of board.now }
        ensures watches { Watches first.entry.now first.exit.now }
        ensures printed { PrintsJournal (option_map (λ prefix. prefix.now) trees.entry)
            (drop (fetched first.entry.now) (known first.exit.now).seen)
            (outside (S.state shelf.entry.now) (O.state out.entry.now))
            (outside (S.state shelf.exit.now) (O.state out.exit.now))
            result }
        ensures fetched { OnOk result
            (fetched first.exit.now ≡ length (known first.exit.now).seen) }
        ensures known { (name : List ℕ) → S.knows shelf.entry.now name
            → S.knows shelf.exit.now name }
        ensures feeds { S.open_feeds shelf.exit.now ≡ S.open_feeds shelf.entry.now }
    { print_news(rt, alloc, board, first, shelf, out, trees) };
    let mut work = ||
        requires { IsSync R.row × AreReady S.Feed.has_ended board.now readers.now
            × All (IsSeated board.now crew.now rule) searchers.now }
        ensures readers { HaveRead S.Feed.lines S.Feed.faults S.Feed.name readers.entry.now
            readers.exit.now }
        ensures searchers { HaveRun searchers.entry.now searchers.exit.now }
    { run_both(rt, alloc, board, crew, rule, gate, readers, searchers) };
    let (printed, ()) = join_mut(rt, &mut print, &mut work);
    printed
}
