ghost use Rattle.std.specs.Prelude.{◌≡◌, ◌≤◌, ◌<◌, ◌↔◌, [], false, IfSome};
ghost use Rattle.turn_lock.specs.Section.{OwnsPlaces};
ghost use Rattle.shared_board.specs.Board.{board_of, own_board, known, lines};
ghost use Rattle.shared_board.specs.Callers.{caller_of};
ghost use Rattle.shared_board.specs.Calls.{IsFeed};
ghost use Rattle.shared_board.specs.Onward.{entries_by, PassGoesOn};
ghost use Rattle.feed_reader.specs.Answered.{AnswersAs};
ghost use Rattle.feed_runs.specs.Readers.{IsReady, HasRead};

use disp_outside::{Feed, Gate};
use feed_reader::{Reading, read_lines};
use shared_board::{Board, Pass};
use std::alloc::Global;
use std::sync::Wait;

/// One feed of a run: its pass to the board, where its lines come from, and how its reading ended.
#[derive(Drop)]
pub struct Reader<F> {
    pub pass: Pass,
    pub feed: F,
    pub reading: Reading,
}

/// Reads a feed to its end, and enters that.
fn read_and_end<W: Wait, F: Feed, G: Gate>(
    rt: &W,
    alloc: Global,
    board: &Board,
    pass: &mut Pass,
    feed: &mut F,
    gate: &G,
) -> Reading
    requires board { own_board pass.old ≡ board_of board.now }
    requires feed { IsFeed (known pass.old) }
    requires none { (lines pass.old ≡ 0)
        × (entries_by (known pass.old).caller (known pass.old).seen ≡ []) }
    requires open { F.has_ended feed.old ≡ false }
    ensures on { PassGoesOn pass.old pass.new }
    ensures owns { OwnsPlaces caller_of (known pass.new) }
    ensures answered { IfSome (F.lines feed.old) (λ told. AnswersAs (known pass.old).caller told
        (entries_by (known pass.old).caller (known pass.new).seen) result) }
    ensures failed { (result ≡ Reading.Failed) ↔ (F.faults feed.old < F.faults feed.new) }
    ensures counted { F.faults feed.old ≤ F.faults feed.new }
    ensures name { F.name feed.new ≡ F.name feed.old }
{
    let reading = read_lines(rt, alloc, board, pass, feed, gate);
    board.feed_end(rt, alloc, pass);
    reading
}

/// The part of one feed in a run.
pub(crate) fn run_reader<W: Wait, F: Feed, G: Gate>(
    rt: &W,
    alloc: Global,
    board: &Board,
    gate: &G,
    reader: &mut Reader<F>,
)
    requires { IsReady F.has_ended board.now reader.old }
    ensures { HasRead F.lines F.faults F.name reader.old reader.new }
{
    let Reader {
        pass,
        feed,
        reading,
    } = reader;
    *reading = read_and_end(rt, alloc, board, pass, feed, gate);
}
