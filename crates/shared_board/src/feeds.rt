//! The calls of feeds.
ghost use Rattle.std.specs.Prelude.{◌≡◌, ◌+◌, IfOk, OnErr};
ghost use Rattle.dispatch_core.specs.declared.event.CoreEvent.TheVariants as event;
ghost use Rattle.shared_board.specs.Board.{board_of, own_board, known, fetched, lines};
ghost use Rattle.shared_board.specs.Calls.{Enters, SeesOnly, IsLegalSeen, IsFeed, HasLines};

use crate::board::Board;
use crate::pass::Pass;
use disp_model::{Change, Memory, Unasked};
use dispatch_core::{CoreEvent, CoreReply};
use std::alloc::Global;
use std::sync::Wait;

/// The number of the next line. Where numbers run out, so has memory.
pub(crate) fn next_line(lines: u64) -> Result<u64, Memory>
    ensures { IfOk result (λ line. line ≡ lines + 1) }
{
    lines.checked_add(1).ok_or(Memory)
}

impl Board {
    /// Asks for a change in the next line of the caller, a feed of the board or the first pass.
    ///
    /// # Errors
    ///
    /// `Memory` where memory runs out; then at most what was seen has grown.
    pub fn ask<W: Wait>(
        &self,
        rt: &W,
        alloc: Global,
        pass: &mut Pass,
        change: Change,
    ) -> Result<CoreReply, Memory>
        requires board { own_board pass.old ≡ board_of self.now }
        requires lines { HasLines (known pass.old) }
        ensures board { own_board pass.new ≡ own_board pass.old }
        ensures fetched { fetched pass.new ≡ fetched pass.old }
        ensures asked { IfOk result (λ told. Enters (known pass.old)
            (event.Ask (known pass.old).caller (lines pass.old + 1) change) told (known pass.new)
            × (lines pass.new ≡ lines pass.old + 1)) }
        ensures legal { IfOk result (λ _. IsLegalSeen (known pass.new)) }
        ensures err { OnErr result (SeesOnly (known pass.old) (known pass.new)
            × (lines pass.new ≡ lines pass.old)) }
    {
        let line = next_line(pass.lines)?;
        let event = CoreEvent::Ask {
            feed: pass.caller,
            line,
            change,
        };
        self.enter_line(rt, alloc, pass, line, event)
            .map_err(|_| Memory)
    }

    /// Notes that the next line of the caller, a feed of the board or the first pass, asks nothing.
    ///
    /// # Errors
    ///
    /// `Memory` where memory runs out; then at most what was seen has grown.
    pub fn unread<W: Wait>(
        &self,
        rt: &W,
        alloc: Global,
        pass: &mut Pass,
        why: Unasked,
    ) -> Result<CoreReply, Memory>
        requires board { own_board pass.old ≡ board_of self.now }
        requires lines { HasLines (known pass.old) }
        ensures board { own_board pass.new ≡ own_board pass.old }
        ensures fetched { fetched pass.new ≡ fetched pass.old }
        ensures noted { IfOk result (λ told. Enters (known pass.old)
            (event.Unread (known pass.old).caller (lines pass.old + 1) why) told (known pass.new)
            × (lines pass.new ≡ lines pass.old + 1)) }
        ensures legal { IfOk result (λ _. IsLegalSeen (known pass.new)) }
        ensures err { OnErr result (SeesOnly (known pass.old) (known pass.new)
            × (lines pass.new ≡ lines pass.old)) }
    {
        let line = next_line(pass.lines)?;
        let event = CoreEvent::Unread {
            feed: pass.caller,
            line,
            why,
        };
        self.enter_line(rt, alloc, pass, line, event)
            .map_err(|_| Memory)
    }

    /// Shows where the search stands, in the next line of the caller, a feed of the board or the
    /// first pass.
    ///
    /// # Errors
    ///
    /// `Memory` where memory runs out; then at most what was seen has grown.
    pub fn show<W: Wait>(&self, rt: &W, alloc: Global, pass: &mut Pass) -> Result<CoreReply, Memory>
        requires board { own_board pass.old ≡ board_of self.now }
        requires lines { HasLines (known pass.old) }
        ensures board { own_board pass.new ≡ own_board pass.old }
        ensures fetched { fetched pass.new ≡ fetched pass.old }
        ensures shown { IfOk result (λ told. Enters (known pass.old)
            (event.Show (known pass.old).caller (lines pass.old + 1)) told (known pass.new)
            × (lines pass.new ≡ lines pass.old + 1)) }
        ensures legal { IfOk result (λ _. IsLegalSeen (known pass.new)) }
        ensures err { OnErr result (SeesOnly (known pass.old) (known pass.new)
            × (lines pass.new ≡ lines pass.old)) }
    {
        let line = next_line(pass.lines)?;
        let event = CoreEvent::Show {
            feed: pass.caller,
            line,
        };
        self.enter_line(rt, alloc, pass, line, event)
            .map_err(|_| Memory)
    }

    /// Notes that the caller, a feed of the board, has no more lines. It takes no memory.
    pub fn feed_end<W: Wait>(&self, rt: &W, alloc: Global, pass: &mut Pass) -> CoreReply
        requires board { own_board pass.old ≡ board_of self.now }
        requires feed { IsFeed (known pass.old) }
        ensures board { own_board pass.new ≡ own_board pass.old }
        ensures counts { (fetched pass.new ≡ fetched pass.old) × (lines pass.new ≡ lines pass.old) }
        ensures noted { Enters (known pass.old) (event.FeedEnd (known pass.old).caller) result
            (known pass.new) }
        ensures legal { IsLegalSeen (known pass.new) }
    {
        let event = CoreEvent::FeedEnd { feed: pass.caller };
        self.enter_without_memory(rt, alloc, pass, event)
    }
}
