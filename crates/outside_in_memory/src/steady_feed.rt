// Lines in memory that never fail.
ghost use Rattle.std.specs.Prelude.{◌≡◌, false, Some, IfOk, List, ℕ};
ghost use Rattle.disp_outside.specs.Lines.{feed_lines};

use crate::mem_lines::MemLines;
use disp_outside::{Feed, FeedLine, LineBuf};
use std::alloc::{AllocError, Global};

/// A feed in memory that tells its lines. No call fails.
#[derive(Drop)]
pub struct SteadyFeed {
    name: String,
    lines: MemLines,
    has_ended: bool,
}

impl SteadyFeed {
    ghost use Rattle.outside_in_memory.specs.SteadyFeed.{feed_name, lines_left, has_ended};

    /// A feed of this name and these bytes.
    pub fn new(alloc: Global, name: &str, bytes: &[u8]) -> Result<Self, AllocError>
        ensures name { IfOk result (λ feed. feed_name feed ≡ name.now) }
        ensures lines { IfOk result (λ feed. lines_left feed ≡ feed_lines bytes.now) }
        ensures open { IfOk result (λ feed. has_ended feed ≡ false) }
    {
        Ok(SteadyFeed {
            name: String::from_str(alloc, name)?,
            lines: MemLines::new(bytes.to_vec(alloc)?),
            has_ended: false,
        })
    }
}

impl Feed for SteadyFeed {
    ghost use Rattle.outside_in_memory.specs.SteadyFeed.{feed_name, lines_left, has_ended};

    ghost name = { λ feed. feed_name feed };

    ghost lines = { λ feed. Some (lines_left feed) };

    ghost faults = { λ _. 0 };

    ghost has_ended = { λ feed. has_ended feed };

    fn line(&mut self, into: &mut LineBuf) -> FeedLine {
        if self.has_ended {
            return FeedLine::End;
        }
        let answer = self.lines.next(into);
        self.has_ended = answer == FeedLine::End;
        answer
    }
}
