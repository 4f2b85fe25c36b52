ghost use Rattle.std.specs.Prelude.{◌≡◌, ◌≤◌, ◌<◌, ◌+◌, ◌↔◌, ◌++◌, ◌∷◌, [], false, true, length, Ok, Err, IfErr, IfSome, IsErrOf};
ghost use Rattle.disp_model.specs.declared.limits.TheConstants.{MOST_LINES};
ghost use Rattle.disp_outside.specs.Lines.{NoneLeft};
ghost use Rattle.shared_board.specs.Board.{board_of, own_board, known, lines};
ghost use Rattle.shared_board.specs.Calls.{IsFeed};
ghost use Rattle.shared_board.specs.Onward.{entries_by, PassGoesOn};
ghost use Rattle.feed_reader.specs.Answered.{AnsweredSome, AnswersAs, AnswersNext, one_too_many};

use crate::enter::{enter_text, enter_unread};
use disp_model::{MOST_LINES, Memory, Unasked};
use disp_outside::{Feed, FeedLine, Gate, LineBuf, Point};
use shared_board::{Board, Pass};
use std::alloc::Global;
use std::sync::Wait;

/// How the reading of a feed ended.
#[derive(Clone, Copy, Debug, PartialEq, Eq)]
pub enum Reading {
    /// Each line is entered.
    Ended,
    /// There are more lines than are read, which is entered too.
    TooMany,
    /// The feed failed.
    Failed,
    /// Memory ran out.
    Memory,
}

impl From<Memory> for Reading {
    ghost use Rattle.std.specs.Prelude.{◌≡◌};
    ghost use Rattle.feed_reader.specs.declared.read.Reading.TheVariants.{Memory as OutOfMemory};

    ghost from_gives = { λ _ no. no ≡ OutOfMemory };

    fn from(_refused: Memory) -> Reading {
        Reading::Memory
    }
}

/// Reads the next line and enters it. Says whether there was none.
fn read_next<W: Wait, F: Feed, G: Gate>(
    rt: &W,
    alloc: Global,
    board: &Board,
    pass: &mut Pass,
    feed: &mut F,
    line: &mut LineBuf,
    gate: &G,
) -> Result<bool, Reading>
    requires board { own_board pass.old ≡ board_of board.now }
    requires feed { IsFeed (known pass.old) }
    requires open { F.has_ended feed.old ≡ false }
    ensures on { PassGoesOn pass.old pass.new }
    ensures given { result ≡ Ok false
        → AnswersNext (known pass.old).caller (lines pass.old + 1) (F.lines feed.old)
        (F.lines feed.new) (entries_by (known pass.old).caller (known pass.old).seen)
        (entries_by (known pass.old).caller (known pass.new).seen)
        × (lines pass.new ≡ lines pass.old + 1) × (F.has_ended feed.new ≡ false) }
    ensures none { result ≡ Ok true → NoneLeft (F.lines feed.old)
        × (entries_by (known pass.old).caller (known pass.new).seen
        ≡ entries_by (known pass.old).caller (known pass.old).seen) }
    ensures no { IfErr result (λ no. (entries_by (known pass.old).caller (known pass.new).seen
        ≡ entries_by (known pass.old).caller (known pass.old).seen)) }
    ensures why { (result ≡ Err Reading.Ended → ⊥) × (result ≡ Err Reading.TooMany → ⊥) }
    ensures left { result ≡ Err Reading.Failed → F.lines feed.new ≡ F.lines feed.old }
    ensures failed { IsErrOf result Reading.Failed ↔ (F.faults feed.old < F.faults feed.new) }
    ensures counted { F.faults feed.old ≤ F.faults feed.new }
    ensures name { F.name feed.new ≡ F.name feed.old }
{
    gate.reach(Point::Line, pass.caller());
    match feed.line(line) {
        FeedLine::Got => {
            enter_text(rt, alloc, board, pass, line.as_slice())?;
            gate.reach(Point::Answered, pass.caller());
            Ok(false)
        }
        FeedLine::Long => {
            enter_unread(rt, alloc, board, pass, Unasked::Long)?;
            Ok(false)
        }
        FeedLine::End => Ok(true),
        FeedLine::Failed => Err(Reading::Failed),
    }
}

/// Sees whether there is a line behind as many as are read, and enters that.
fn read_end<W: Wait, F: Feed>(
    rt: &W,
    alloc: Global,
    board: &Board,
    pass: &mut Pass,
    feed: &mut F,
    line: &mut LineBuf,
) -> Reading
    requires board { own_board pass.old ≡ board_of board.now }
    requires feed { IsFeed (known pass.old) }
    requires open { F.has_ended feed.old ≡ false }
    requires read { lines pass.old ≡ MOST_LINES }
    ensures on { PassGoesOn pass.old pass.new }
    ensures ended { result ≡ Reading.Ended → NoneLeft (F.lines feed.old) }
    ensures more { result ≡ Reading.TooMany
        → IfSome (F.lines feed.old) (λ left. 0 < length left)
        × (entries_by (known pass.old).caller (known pass.new).seen
        ≡ entries_by (known pass.old).caller (known pass.old).seen
        ++ one_too_many (known pass.old).caller ∷ []) }
    ensures quiet { (result ≡ Reading.TooMany → ⊥)
        → entries_by (known pass.old).caller (known pass.new).seen
        ≡ entries_by (known pass.old).caller (known pass.old).seen }
    ensures left { result ≡ Reading.Failed → F.lines feed.new ≡ F.lines feed.old }
    ensures failed { (result ≡ Reading.Failed) ↔ (F.faults feed.old < F.faults feed.new) }
    ensures counted { F.faults feed.old ≤ F.faults feed.new }
    ensures name { F.name feed.new ≡ F.name feed.old }
{
    match feed.line(line) {
        FeedLine::End => Reading::Ended,
        FeedLine::Failed => Reading::Failed,
        FeedLine::Got | FeedLine::Long => {
            match enter_unread(rt, alloc, board, pass, Unasked::TooMany) {
                Ok(()) => Reading::TooMany,
                Err(_) => Reading::Memory,
            }
        }
    }
}

/// Reads the lines of a feed, one after the other, and enters each on the board under the number of
/// the pass's caller: the change or the look that it asks for, or that it asks nothing. It goes on
/// until there is no line any more, or 1048576 are entered and there is one more, which is entered
/// as such; or the feed fails, or memory runs out.
///
/// It waits for the board's lock, and for lines where the feed does.
pub fn read_lines<W: Wait, F: Feed, G: Gate>(
    rt: &W,
    alloc: Global,
    board: &Board,
    pass: &mut Pass,
    feed: &mut F,
    gate: &G,
) -> Reading
    requires board { own_board pass.old ≡ board_of board.now }
    requires feed { IsFeed (known pass.old) }
    requires none { (lines pass.old ≡ 0)
        × (entries_by (known pass.old).caller (known pass.old).seen ≡ []) }
    requires open { F.has_ended feed.old ≡ false }
    ensures on { PassGoesOn pass.old pass.new }
    ensures answered { IfSome (F.lines feed.old) (λ told. AnswersAs (known pass.old).caller told
        (entries_by (known pass.old).caller (known pass.new).seen) result) }

    // Before a fault no line is lost.
    ensures left { result ≡ Reading.Failed
        → AnsweredSome (known pass.old).caller (F.lines feed.old) (F.lines feed.new)
        (entries_by (known pass.old).caller (known pass.new).seen) }

    // A fault is told exactly where it is counted.
    ensures failed { (result ≡ Reading.Failed) ↔ (F.faults feed.old < F.faults feed.new) }
    ensures counted { F.faults feed.old ≤ F.faults feed.new }
    ensures name { F.name feed.new ≡ F.name feed.old }
{
    let mut line = LineBuf::new();
    for _read in 0..MOST_LINES {
        match read_next(rt, alloc, board, pass, feed, &mut line, gate) {
            Ok(false) => {}
            Ok(true) => return Reading::Ended,
            Err(no) => return no,
        }
    }
    gate.reach(Point::Line, pass.caller());
    read_end(rt, alloc, board, pass, feed, &mut line)
}
