ghost use Rattle.std.specs.Prelude.{◌≡◌, ◌<◌, ℕ, List};
ghost use Rattle.text_puts.specs.Outside.{outside};
ghost use Rattle.text_puts.specs.Puts.{PutsOnly};
ghost use Rattle.answered_tasks.specs.Causes.{IsAnswerStatus};
ghost use Rattle.answered_tasks.specs.Reading.{IsRead, IsNoRoll};
ghost use Rattle.answered_tasks.specs.Endings.{Ends, Publishes};

use crate::done::Done;
use crate::outcome::Answer;
use crate::print::{finish, give_up, stop};
use crate::run::run;
use command_words::{Task, WordsNo};
use disp_outside::{Gate, PutNo, Shelf, Sink};
use std::alloc::Global;
use std::sync::Wait;
use std::thread::Threads;
use text_puts::put_all;

/// Puts what is to be put, and then writes the lines of an answer.
fn publish<S: Shelf, O: Sink>(alloc: Global, shelf: &mut S, out: &mut O, answer: &Answer) -> u8
    requires { IsAnswerStatus answer.now.status }
    ensures ends { Publishes answer.now
        (outside (S.state shelf.old) (O.state out.old))
        (outside (S.state shelf.new) (O.state out.new)) result }
    ensures risen { (name : List ℕ) → (S.state shelf.old).putting name
        < (S.state shelf.new).putting name → result ≡ 4 }
    ensures others { (name : List ℕ)
        → PutsOnly answer.now.puts (S.state shelf.old).holds (S.state shelf.new).holds
        (S.state shelf.old).putting (S.state shelf.new).putting name }
    ensures readings { (name : List ℕ) → (S.state shelf.new).reading name
        ≡ (S.state shelf.old).reading name }
    ensures feeds { S.open_feeds shelf.new ≡ S.open_feeds shelf.old }
{
    match put_all(alloc, shelf, answer.puts.as_slice()) {
        Ok(()) => finish(out, answer.lines.as_slice(), answer.status),
        Err(PutNo::Failed) => 4,
        Err(PutNo::Memory) => give_up(out),
    }
}

/// Does what is asked, if it is another task than `roll`, and says how it ended.
///
/// `solve PROBLEM` reads the file of that name from the shelf, with `--fixings F` what the lines of
/// another ask for, and searches with so many searchers side by side as `--workers W` says, and at
/// most so many branchings as `--budget B` says. It writes to the sink the edition, the verdict,
/// and the best plan, where there is one, one line each; with `--plan OUT` that plan is put under
/// that name before, and with `--tree OUT` the tree that shows the verdict, where the search came
/// to one. What is refused is told in one line; for refused words that is clap's text. `verify
/// PROBLEM SOLUTION` judges a solution and tells its cost, `report PROBLEM SOLUTION` judges it too
/// and writes the table of its trains, and `check PROBLEM TREE` judges a tree and, with `--plan P`,
/// a plan behind it; all read fixings with `--fixings F`. `make NUMBER TRAINS` makes the problem of
/// a number, solves it with one searcher, and writes how large it is and the verdict; with `--out
/// FILE` that problem is put under that name before. A searcher passes the gate before each work.
///
/// The status is 0 where a plan of least cost was found, a solution is valid or a tree is accepted,
/// 1 where no plan is valid, a solution has a fault, or a tree is refused, 2 where the words or a
/// file are refused, 3 where the budget is spent before the search ended, 4 where a reading of a
/// file, a putting of the plan, the tree or the problem, or a write failed, and 5 where memory ran
/// out.
pub fn answer<R: Threads + Wait + Sync, S: Shelf, O: Sink, G: Gate>(
    rt: &R,
    alloc: Global,
    read: Result<Task, WordsNo>,
    shelf: &mut S,
    out: &mut O,
    gate: &G,
) -> Done
    requires task { IsNoRoll read }
    ensures ends { (words : List (List ℕ)) → IsRead words read → Ends words
        (outside (S.state shelf.old) (O.state out.old))
        (outside (S.state shelf.new) (O.state out.new)) result.status result.journal.items }
    ensures feeds { S.open_feeds shelf.new ≡ S.open_feeds shelf.old }
{
    match run(rt, alloc, read, shelf, gate) {
        Ok(answer) => {
            let status = publish(alloc, shelf, out, &answer);
            Done {
                status,
                journal: answer.journal.into_vec(),
            }
        }
        Err(cause) => Done {
            status: stop(alloc, out, &cause),
            journal: Vec::new(alloc),
        },
    }
}
