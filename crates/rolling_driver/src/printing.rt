ghost use Rattle.std.specs.Prelude.{◌≡◌, ℕ, List, OnOk, option_map, drop, length};
ghost use Rattle.text_puts.specs.Outside.{outside};
ghost use Rattle.shared_board.specs.Board.{board_of, own_board, known, fetched};
ghost use Rattle.rolling_driver.specs.Printed.{PrintsJournal, Watches};

use disp_model::Text;
use disp_outside::{Shelf, Sink};
use journal_printer::{PrintNo, print_entries};
use shared_board::{Board, Pass};
use std::alloc::Global;
use std::sync::Wait;

/// Rests until there is another entry, where there is nothing to do.
fn rest_if<W: Wait>(is_idle: bool, rt: &W, board: &Board, moves: u64) {
    if is_idle {
        board.rest(rt, moves);
    }
}

/// Prints what is new, and notes whether the run is over.
fn print_new<W: Wait, S: Shelf, O: Sink>(
    rt: &W,
    alloc: Global,
    board: &Board,
    pass: &mut Pass,
    shelf: &mut S,
    out: &mut O,
    trees: Option<&Text>,
    over: &mut bool,
) -> Result<(), PrintNo>
    requires board { own_board pass.old ≡ board_of board.now }
    ensures watches { Watches pass.old pass.new }
    ensures printed { PrintsJournal (option_map (λ prefix. prefix.now) trees.entry)
        (drop (fetched pass.old) (known pass.new).seen)
        (outside (S.state shelf.old) (O.state out.old))
        (outside (S.state shelf.new) (O.state out.new)) result }
    ensures fetched { OnOk result (fetched pass.new ≡ length (known pass.new).seen) }
    ensures known { (name : List ℕ) → S.knows shelf.old name → S.knows shelf.new name }
    ensures feeds { S.open_feeds shelf.new ≡ S.open_feeds shelf.old }
{
    let moves = board.moves();
    let Ok(news) = board.news(rt, alloc, pass) else {
        return Err(PrintNo::Memory);
    };
    *over = news.ended;
    rest_if(news.entries.len() == 0 && !news.ended, rt, board, moves);
    print_entries(alloc, shelf, out, trees, news.entries.as_slice())
}

/// Prints what is new, again and again, until the run is over or something fails.
pub(crate) fn print_news<W: Wait, S: Shelf, O: Sink>(
    rt: &W,
    alloc: Global,
    board: &Board,
    pass: &mut Pass,
    shelf: &mut S,
    out: &mut O,
    trees: Option<&Text>,
) -> Result<(), PrintNo>
    requires board { own_board pass.old ≡ board_of board.now }
    ensures watches { Watches pass.old pass.new }
    ensures printed { PrintsJournal (option_map (λ prefix. prefix.now) trees.entry)
        (drop (fetched pass.old) (known pass.new).seen)
        (outside (S.state shelf.old) (O.state out.old))
        (outside (S.state shelf.new) (O.state out.new)) result }
    ensures fetched { OnOk result (fetched pass.new ≡ length (known pass.new).seen) }
    ensures known { (name : List ℕ) → S.knows shelf.old name → S.knows shelf.new name }
    ensures feeds { S.open_feeds shelf.new ≡ S.open_feeds shelf.old }
{
    let mut over = false;
    for _ in rt.forever() {
        print_new(rt, alloc, board, pass, shelf, out, trees, &mut over)?;
        if over {
            return Ok(());
        }
    }
    unreachable!()
}
