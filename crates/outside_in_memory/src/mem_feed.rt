// Lines in memory, some of whose readings break.
ghost use Rattle.std.specs.Prelude.{◌≡◌, ◌≤◌, ◌<◌, ◌+◌, ◌↔◌, ◌⊎◌, true, false, Some, IfOk, IfSome, IfNone, List, ℕ, Contains, string_bytes};
ghost use Rattle.disp_outside.specs.Lines.{feed_lines, GivesLine, Skips, NoneLeft};
ghost use Rattle.disp_outside.specs.FeedLine.{is_last};

use crate::mem_lines::MemLines;
use disp_outside::{Feed, FeedLine, FeedState, LineBuf};
use fault_counts::Ticket;
use std::alloc::{AllocError, Global};

/// A feed in memory that tells its lines. It fails in the first of the calls that it is told to.
#[derive(Drop)]
pub struct MemFeed {
    ticket: Ticket,
    lines: MemLines,
    broken: Vec<u64>,
    given: u64,
    state: FeedState,
    ghost each_line_has_a_byte: { given ≤ lines.at },
}

impl MemFeed {
    ghost use Rattle.outside_in_memory.specs.MemFeed.{feed_name, lines_left, feed_fault_count, has_ended, broken_calls, call_count};

    /// A feed of this name and these bytes. Its calls of these numbers, counted from 1, fail.
    pub fn new(alloc: Global, name: &str, bytes: &[u8], broken: &[u64]) -> Result<Self, AllocError>
        ensures name { IfOk result (λ feed. feed_name feed ≡ name.now) }
        ensures lines { IfOk result (λ feed. lines_left feed ≡ feed_lines bytes.now) }
        ensures faults { IfOk result (λ feed. feed_fault_count feed ≡ 0) }
        ensures open { IfOk result (λ feed. has_ended feed ≡ false) }
        ensures broken { IfOk result (λ feed. broken_calls feed ≡ broken.now) }
        ensures calls { IfOk result (λ feed. call_count feed ≡ 0) }
    {
        Ok(MemFeed {
            ticket: Ticket::new(alloc, name)?,
            lines: MemLines::new(bytes.to_vec(alloc)?),
            broken: broken.to_vec(alloc)?,
            given: 0,
            state: FeedState::Open,
        })
    }

    /// What the feed is closed with, where a call has failed.
    pub(crate) fn into_fault(self) -> Option<Ticket>
        ensures none { IfNone result (feed_fault_count self ≡ 0) }
        ensures some { IfSome result (λ ticket. (0 < feed_fault_count self)
            × (string_bytes ticket.name ≡ feed_name self)) }
    {
        match self.state {
            FeedState::Broken => Some(self.ticket),
            FeedState::Open => None,
            FeedState::Ended => None,
        }
    }
}

impl Feed for MemFeed {
    ghost use Rattle.outside_in_memory.specs.MemFeed.{feed_name, lines_left, feed_fault_count, has_ended, broken_calls, call_count};

    ghost name = { λ feed. feed_name feed };

    ghost lines = { λ feed. Some (lines_left feed) };

    ghost faults = { λ feed. feed_fault_count feed };

    ghost has_ended = { λ feed. has_ended feed };

    fn line(&mut self, into: &mut LineBuf) -> FeedLine
        ensures got { result ≡ FeedLine.Got
            → GivesLine (Some (lines_left self.old)) (Some (lines_left self.new)) into.new }
        ensures long { result ≡ FeedLine.Long
            → Skips (Some (lines_left self.old)) (Some (lines_left self.new)) }
        ensures end { result ≡ FeedLine.End → (has_ended self.old ≡ true)
            ⊎ NoneLeft (Some (lines_left self.old)) }
        ensures kept { is_last result ≡ true → Some (lines_left self.new)
            ≡ Some (lines_left self.old) }
        ensures ended { has_ended self.new ≡ is_last result }
        ensures over { has_ended self.old ≡ true → result ≡ FeedLine.End }
        ensures failed { (result ≡ FeedLine.Failed)
            ↔ (feed_fault_count self.old < feed_fault_count self.new) }
        ensures counted { feed_fault_count self.old ≤ feed_fault_count self.new }
        ensures name { feed_name self.new ≡ feed_name self.old }

        // It fails exactly in the calls of the list, while it has not ended.
        ensures breaks { (result ≡ FeedLine.Failed)
            ↔ ((has_ended self.old ≡ false)
            × Contains (broken_calls self.old) (call_count self.old + 1)) }
        ensures calls { is_last result ≡ false → call_count self.new ≡ call_count self.old + 1 }
        ensures list { broken_calls self.new ≡ broken_calls self.old }
    {
        if self.state.is_over() {
            return FeedLine::End;
        }
        if self.broken.contains(&(self.given + 1)) {
            self.state = FeedState::Broken;
            return FeedLine::Failed;
        }
        match self.lines.next(into) {
            FeedLine::End => {
                self.state = FeedState::Ended;
                FeedLine::End
            }
            line => {
                self.given += 1;
                line
            }
        }
    }
}
