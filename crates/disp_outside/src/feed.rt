// Lines of bytes, one after the other.
ghost use Rattle.std.specs.Prelude.{◌≡◌, ◌≢◌, ◌<◌, ◌≤◌, ◌↔◌, ◌⊎◌, List, ℕ, Bool, true, Option, IsTrue};
ghost use Rattle.disp_outside.specs.declared.feed.FeedNo.TheVariants.{Memory};
ghost use Rattle.disp_outside.specs.Lines.{GivesLine, Skips, NoneLeft};
ghost use Rattle.disp_outside.specs.FeedLine.{is_last};

use crate::LineBuf;
use std::alloc::AllocError;

/// Why a feed was not opened.
#[derive(Clone, Copy, Debug, PartialEq, Eq)]
pub enum FeedNo {
    /// There is no such file, or it could not be read.
    Failed,
    /// There was no room.
    Memory,
}

impl From<AllocError> for FeedNo {
    ghost from_gives = { λ _ no. no ≡ Memory };

    fn from(_: AllocError) -> Self {
        FeedNo::Memory
    }
}

/// What a feed answers when it is asked for a line.
#[derive(Clone, Copy, Debug, PartialEq, Eq)]
pub enum FeedLine {
    /// Here is the line.
    Got,
    /// There is no line any more.
    End,
    /// The line has more than 256 bytes before its LF, and was skipped.
    Long,
    /// The device failed.
    Failed,
}

/// Lines, one after the other. A line ends at LF, and one CR before it is dropped. The bytes behind
/// the last LF are a line too, as they are, if there are any. A feed may tell which lines are left.
pub trait Feed: Send {
    /// The name that the feed was opened by.
    ghost name: { Self → List ℕ };

    /// The lines left, each with the LF that ends it, where they are told.
    ghost lines: { Self → Option (List (List ℕ)) };

    /// How often a call has failed.
    ghost faults: { Self → ℕ };

    /// The last answer was `End` or `Failed`.
    ghost has_ended: { Self → Bool };

    /// The next line, in `into`, which holds anything after any other answer than `Got`. A feed
    /// that has answered `Failed` or `End` answers `End` from then on.
    fn line(&mut self, into: &mut LineBuf) -> FeedLine
        ensures got { result ≡ FeedLine.Got → GivesLine (lines self.old) (lines self.new) into.new }
        ensures long { result ≡ FeedLine.Long → Skips (lines self.old) (lines self.new) }
        ensures end { result ≡ FeedLine.End → (has_ended self.old ≡ true)
            ⊎ NoneLeft (lines self.old) }
        ensures kept { is_last result ≡ true → lines self.new ≡ lines self.old }

        ensures ended { has_ended self.new ≡ is_last result }
        ensures over { has_ended self.old ≡ true → result ≡ FeedLine.End }

        // A fault is told exactly where it is counted.
        ensures failed { (result ≡ FeedLine.Failed) ↔ (faults self.old < faults self.new) }
        ensures counted { faults self.old ≤ faults self.new }

        ensures name { name self.new ≡ name self.old };
}
