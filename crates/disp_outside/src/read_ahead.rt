// Lines out of a reader that gives some bytes at a time.
ghost use Rattle.std.specs.Prelude.{◌≡◌, ◌≤◌, ◌<◌};

use crate::turns::MOST_TURNS;
use crate::{FeedLine, LineBuf, line_feed_at};
use std::io::{ErrorKind, Read};

// How many bytes one read asks for at most.
const CHUNK: usize = 4096;

// What one turn came to.
#[derive(Clone, Copy, Debug, PartialEq, Eq)]
enum Turn {
    // The line goes on.
    On,
    // Here is its LF.
    LineFeed,
    // The reader has no more.
    End,
    // The reader failed.
    Failed,
}

/// A reader, and the bytes that it gave ahead of what was asked for.
#[derive(Drop)]
pub struct ReadAhead<R> {
    reader: R,
    chunk: [u8; CHUNK],
    start: usize,
    end: usize,
    ghost from: { start ≤ end },
    ghost to: { end ≤ 4096 },
}

impl<R: Read> ReadAhead<R> {
    pub fn new(reader: R) -> Self {
        ReadAhead {
            reader,
            chunk: [0; CHUNK],
            start: 0,
            end: 0,
        }
    }

    // Reads once. An interrupted read goes on.
    fn refill(&mut self) -> Turn {
        match self.reader.read(&mut self.chunk) {
            Ok(0) => Turn::End,
            Ok(count) => {
                self.start = 0;
                self.end = count;
                Turn::On
            }
            Err(error) if error.kind() == ErrorKind::Interrupted => Turn::On,
            Err(_) => Turn::Failed,
        }
    }

    // Puts what is there of the line behind what came before, as long as the line has room.
    fn take_part(&mut self, into: &mut LineBuf, is_long: &mut bool) -> Turn {
        let ahead = &self.chunk[self.start..self.end];
        let (part, turn) = match line_feed_at(ahead) {
            Some(at) => (&ahead[..at], Turn::LineFeed),
            None => (ahead, Turn::On),
        };
        if !into.append(part) {
            *is_long = true;
        }
        self.start += match turn {
            Turn::LineFeed => part.len() + 1,
            _ => part.len(),
        };
        turn
    }

    fn turn(&mut self, into: &mut LineBuf, is_long: &mut bool) -> Turn {
        if self.start == self.end {
            self.refill()
        } else {
            self.take_part(into, is_long)
        }
    }

    /// The next line, as a feed gives it.
    pub fn read_line(&mut self, into: &mut LineBuf) -> FeedLine {
        into.clear();
        let mut is_long = false;
        for _ in 0..MOST_TURNS {
            match self.turn(into, &mut is_long) {
                Turn::On => {}
                Turn::LineFeed => return line_before_end(into, is_long),
                Turn::End => return last_line(into, is_long),
                Turn::Failed => return FeedLine::Failed,
            }
        }
        FeedLine::Failed
    }
}

// What stood before an LF.
fn line_before_end(into: &mut LineBuf, is_long: bool) -> FeedLine {
    if is_long {
        return FeedLine::Long;
    }
    into.drop_carriage_return();
    FeedLine::Got
}

// What stood at the end, without an LF.
fn last_line(into: &LineBuf, is_long: bool) -> FeedLine {
    if is_long {
        FeedLine::Long
    } else if into.as_slice().is_empty() {
        FeedLine::End
    } else {
        FeedLine::Got
    }
}
