ghost use Rattle.std.specs.Prelude.{◌<◌, length};
ghost use Rattle.std.specs.Thread.{IsSend, IsSync};
ghost use Rattle.feed_runs.specs.Readers.{AreReady, HaveRead};

use crate::reader::{Reader, run_reader};
use disp_outside::{Feed, Gate};
use shared_board::Board;
use std::alloc::Global;
use std::sync::Wait;
use std::thread::{Threads, join_mut};

/// Reads all feeds to their ends, each in a thread of its own where one can be made.
///
/// It waits for the board's lock, and for lines where the feeds do.
#[cycle(halves)]
pub fn run_readers<R: Threads + Wait + Sync, F: Feed, G: Gate>(
    rt: &R,
    alloc: Global,
    board: &Board,
    gate: &G,
    readers: &mut [Reader<F>],
)
    requires { AreReady F.has_ended board.now readers.old }
    ensures { HaveRead F.lines F.faults F.name readers.old readers.new }
{
    match readers.len() {
        0 => {}
        1 => run_reader(rt, alloc, board, gate, &mut readers[0]),
        count => {
            let (front, back) = readers.split_at_mut(count / 2);
            run_halves(rt, alloc, board, gate, front, back);
        }
    }
}

/// Reads the feeds of both halves, side by side.
#[cycle(halves)]
fn run_halves<R: Threads + Wait + Sync, F: Feed, G: Gate>(
    rt: &R,
    alloc: Global,
    board: &Board,
    gate: &G,
    front: &mut [Reader<F>],
    back: &mut [Reader<F>],
)
    requires some { (0 < length front.old) × (0 < length back.old) }
    requires front { AreReady F.has_ended board.now front.old }
    requires back { AreReady F.has_ended board.now back.old }
    ensures front { HaveRead F.lines F.faults F.name front.old front.new }
    ensures back { HaveRead F.lines F.faults F.name back.old back.new }
{
    let mut read_front = ||
        requires { IsSync R.row × IsSync G.row × IsSend F.row
            × AreReady F.has_ended board.now front.now }
        ensures { HaveRead F.lines F.faults F.name front.entry.now front.exit.now }
    { run_readers(rt, alloc, board, gate, front) };
    let mut read_back = ||
        requires { IsSync R.row × IsSync G.row × IsSend F.row
            × AreReady F.has_ended board.now back.now }
        ensures { HaveRead F.lines F.faults F.name back.entry.now back.exit.now }
    { run_readers(rt, alloc, board, gate, back) };
    join_mut(rt, &mut read_front, &mut read_back);
}
