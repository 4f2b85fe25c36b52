ghost use Rattle.std.specs.Prelude.{◌≡◌, map, string_bytes};
ghost use Rattle.text_puts.specs.Outside.{outside};
ghost use Rattle.dispatch_cli.specs.Rolls.{EndsAs};

use crate::roll::run_roll;
use answered_tasks::{Done, answer};
use command_words::{Task, read_words};
use disp_outside::{Gate, Shelf, Sink};
use std::alloc::Global;
use std::sync::Wait;
use std::thread::Threads;

/// Does what the words behind the program's name ask for, and says how it ended.
///
/// `solve PROBLEM` reads the file of that name from the shelf, with `--fixings F` what the lines of
/// another ask for, and searches with so many searchers side by side as `--workers W` says, and at
/// most so many branchings as `--budget B` says. It writes to the sink the edition, the verdict,
/// and the best plan, where there is one, one line each; with `--plan OUT` that plan is put under
/// that name before, and with `--tree OUT` the tree that shows the verdict, where the search came
/// to one. What is refused is told in one line; for refused words that is clap's text. `verify
/// PROBLEM SOLUTION` judges a solution and tells its cost, `report PROBLEM SOLUTION` judges it too
/// and writes the table of its trains, and `check PROBLEM TREE` judges a tree and, with `--plan P`,
/// a plan behind it; all read fixings with `--fixings F`. `make NUMBER TRAINS` makes the problem of
/// a number, solves it with one searcher, and writes how large it is and the verdict; with `--out
/// FILE` that problem is put under that name before. `roll PROBLEM FEED...` searches while the
/// feeds' lines change the problem, with `--workers W` searchers, and writes each entry of the
/// journal as it comes (none for a growth of the tree); with `--trees PREFIX` it puts the tree of
/// each settled edition under that prefix and the edition's number before its line. Searchers and
/// feeds ask the gate on their way.
///
/// The status is 0 where a plan of least cost was found, a solution is valid or a tree is accepted,
/// 1 where no plan is valid, a solution has a fault, or a tree is refused, 2 where the words, a
/// file or the number of feeds or of a feed's lines are refused, 3 where the budget is spent before
/// the search ended, 4 where a reading of a file or a feed, a putting of a plan, a tree or a
/// problem, or a write failed, and 5 where memory ran out. For `roll` it is that of the newest
/// edition.
pub fn dispatch<R: Threads + Wait + Sync, S: Shelf, O: Sink, G: Gate>(
    rt: &R,
    alloc: Global,
    words: &[String],
    shelf: &mut S,
    out: &mut O,
    gate: &G,
) -> Done
    ensures ends { EndsAs (map (λ word. string_bytes word) words.now)
        (outside (S.state shelf.old) (O.state out.old))
        (outside (S.state shelf.new) (O.state out.new)) result.status result.journal.items }
    ensures feeds { S.open_feeds shelf.new ≡ S.open_feeds shelf.old }
{
    match read_words(alloc, words) {
        Ok(Task::Roll(task)) => run_roll(rt, alloc, &task, shelf, out, gate),
        read => answer(rt, alloc, read, shelf, out, gate),
    }
}
