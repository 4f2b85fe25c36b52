// Lines out of a file of the system.
ghost use Rattle.std.specs.Prelude.{◌≡◌, ◌<◌, false, None, IfSome, IfNone, string_bytes};

use crate::feed_state::FeedState;
use crate::read_ahead::ReadAhead;
use crate::{Feed, FeedLine, LineBuf};
use fault_counts::Ticket;
use std::io::Read;

/// The lines that a reader gives, such as a file of the system or a named pipe. It tells nothing of
/// them.
#[derive(Drop)]
pub struct FileFeed<R> {
    ticket: Ticket,
    ahead: ReadAhead<R>,
    state: FeedState,
}

impl<R: Read + Drop> FileFeed<R> {
    ghost use Rattle.disp_outside.specs.FileFeed.{feed_name, fault_count, has_ended};

    /// A feed of what the reader gives, by the name of the ticket, which counts its fault.
    pub fn new(ticket: Ticket, reader: R) -> Self
        ensures name { feed_name result ≡ string_bytes ticket.name }
        ensures faults { fault_count result ≡ 0 }
        ensures open { has_ended result ≡ false }
    {
        FileFeed {
            ticket,
            ahead: ReadAhead::new(reader),
            state: FeedState::Open,
        }
    }

    /// What the feed is closed with, where a call has failed.
    pub(crate) fn into_fault(self) -> Option<Ticket>
        ensures none { IfNone result (fault_count self ≡ 0) }
        ensures some { IfSome result (λ ticket. (0 < fault_count self)
            × (string_bytes ticket.name ≡ feed_name self)) }
    {
        match self.state {
            FeedState::Broken => Some(self.ticket),
            FeedState::Open => None,
            FeedState::Ended => None,
        }
    }
}

impl<R: Read + Send> Feed for FileFeed<R> {
    ghost use Rattle.disp_outside.specs.FileFeed.{feed_name, fault_count, has_ended};

    ghost name = { λ feed. feed_name feed };

    ghost lines = { λ _. None };

    ghost faults = { λ feed. fault_count feed };

    ghost has_ended = { λ feed. has_ended feed };

    fn line(&mut self, into: &mut LineBuf) -> FeedLine {
        if self.state.is_over() {
            return FeedLine::End;
        }
        let answer = self.ahead.read_line(into);
        self.state = FeedState::after(answer);
        answer
    }
}
