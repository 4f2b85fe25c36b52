ghost use Rattle.std.specs.Prelude.{◌≡◌, ◌-◌, All, ℕ, List, OnOk, option_map, drop, length};
ghost use Rattle.text_puts.specs.Outside.{outside};
ghost use Rattle.shared_board.specs.Board.{board_of, own_board, known, fetched};
ghost use Rattle.rolling_driver.specs.Ended.{MayEnd, IsEnded, PrintsBehind};
ghost use Rattle.rolling_driver.specs.Printed.{Watches};

use crate::printing::print_news;
use crew_runs::{Searcher, join_searchers};
use disp_model::Text;
use disp_outside::{Shelf, Sink};
use dispatch_core::Core;
use feed_runs::{Reader, join_readers};
use joined_passes::close_run;
use journal_printer::PrintNo;
use shared_board::{Board, Pass};
use std::alloc::Global;
use std::sync::Wait;

/// Prints what is not printed yet, where all before it was.
fn print_rest<W: Wait, S: Shelf, O: Sink>(
    rt: &W,
    alloc: Global,
    board: &Board,
    first: &mut Pass,
    printed: Result<(), PrintNo>,
    shelf: &mut S,
    out: &mut O,
    trees: Option<&Text>,
) -> Result<(), PrintNo>
    requires board { own_board first.old ≡ board_of board.now }
    ensures watches { Watches first.old first.new }
    ensures printed { PrintsBehind (option_map (λ prefix. prefix.now) trees.entry)
        (drop (fetched first.old) (known first.new).seen)
        (outside (S.state shelf.old) (O.state out.old))
        (outside (S.state shelf.new) (O.state out.new)) printed result }
    ensures readings { (name : List ℕ) → (S.state shelf.new).reading name
        ≡ (S.state shelf.old).reading name }
    ensures still_known { (name : List ℕ) → S.knows shelf.old name → S.knows shelf.new name }
    ensures feeds { S.open_feeds shelf.new ≡ S.open_feeds shelf.old }
{
    match printed {
        Ok(()) => print_news(rt, alloc, board, first, shelf, out, trees),
        Err(no) => Err(no),
    }
}

/// Joins the passes of a run, prints what is not printed yet, where all before it was, and closes
/// the board and the feeds.
pub(crate) fn end_run<W: Wait, S: Shelf, O: Sink>(
    rt: &W,
    alloc: Global,
    board: Board,
    first: Pass,
    readers: Vec<Reader<S::Feed>>,
    searchers: Vec<Searcher>,
    printed: Result<(), PrintNo>,
    shelf: &mut S,
    out: &mut O,
    trees: Option<&Text>,
) -> (Core, Result<(), PrintNo>)
    requires may { MayEnd board first readers.items searchers.items }
    requires fetched { OnOk printed (fetched first ≡ length (known first).seen) }
    requires known { All (λ r. S.knows shelf.old (S.Feed.name r.feed)) readers.items }
    ensures ended { IsEnded S.Feed.name S.Feed.faults
        (option_map (λ prefix. prefix.now) trees.entry) first readers.items searchers.items printed
        (outside (S.state shelf.old) (O.state out.old))
        (outside (S.state shelf.new) (O.state out.new)) result.0 result.1 }
    ensures still_known { (name : List ℕ) → S.knows shelf.old name → S.knows shelf.new name }
    ensures closed { S.open_feeds shelf.new
        ≡ S.open_feeds shelf.old - length readers.items }
{
    let mut first = first;
    join_readers(&board, &mut first, shelf, readers);
    join_searchers(&board, &mut first, searchers);
    let printed = print_rest(rt, alloc, &board, &mut first, printed, shelf, out, trees);
    let closed = close_run(rt, alloc, board, first);
    (closed.core, printed)
}
