//! The calls that show what is there.
ghost use Rattle.std.specs.Prelude.{◌≡◌, ◌+◌, ◌≤◌, ◌↔◌, IsTrue, IfOk, IfErr, OnErr, drop, length};
ghost use Rattle.dispatch_core.specs.declared.event.CoreEvent.TheVariants as event;
ghost use Rattle.dispatch_core.specs.declared.event.CoreReply.TheVariants as reply;
ghost use Rattle.dispatch_core.specs.States.{Core as State};
ghost use Rattle.turn_lock.specs.Known.{with_count};
ghost use Rattle.shared_board.specs.Board.{board_of, own_board, known, fetched, lines};
ghost use Rattle.shared_board.specs.Fresh.{IsEditionIn, IsEnded};
ghost use Rattle.shared_board.specs.Calls.{Enters, Looks, Looked, SeesOnly, IsLegalSeen, ShowsNot, HasLines};

use crate::board::Board;
use crate::errors::TryNo;
use crate::feeds::next_line;
use crate::news::{Edition, News};
use crate::pass::Pass;
use disp_model::{Memory, Standing};
use dispatch_core::{CoreEvent, CoreReply};
use std::alloc::Global;
use std::sync::Wait;

impl Board {
    /// The entries that the pass has not fetched yet, in order, each once; and whether all feeds
    /// have ended and all searchers have left.
    ///
    /// # Errors
    ///
    /// `Memory` where memory runs out; then only what was seen has grown.
    pub fn news<W: Wait>(&self, rt: &W, alloc: Global, pass: &mut Pass) -> Result<News, Memory>
        requires { own_board pass.old ≡ board_of self.now }
        ensures board { own_board pass.new ≡ own_board pass.old }
        ensures lines { lines pass.new ≡ lines pass.old }
        ensures entries { IfOk result (λ news.
            (news.entries ≡ drop (fetched pass.old) (known pass.new).seen)
            × (fetched pass.new ≡ length (known pass.new).seen)) }
        ensures ended { IfOk result (λ news. (core : State)
            × Looks (known pass.old) core (known pass.new)
            × (IsTrue news.ended ↔ IsEnded core)) }
        ensures legal { IsLegalSeen (known pass.new) }
        ensures err { OnErr result (Looked (known pass.old) (known pass.new)
            × (fetched pass.new ≡ fetched pass.old)) }
    {
        let fetched = pass.fetched;
        let found = self
            .turns
            .with(rt, &mut pass.turn, |stored| stored.news(alloc, fetched))?;
        pass.fetched = found.1;
        Ok(found.0)
    }

    /// The newest edition.
    ///
    /// # Errors
    ///
    /// `Memory` where memory runs out; then only what was seen has grown.
    pub fn edition<W: Wait>(
        &self,
        rt: &W,
        alloc: Global,
        pass: &mut Pass,
    ) -> Result<Edition, Memory>
        requires { own_board pass.old ≡ board_of self.now }
        ensures board { own_board pass.new ≡ own_board pass.old }
        ensures counts { (fetched pass.new ≡ fetched pass.old) × (lines pass.new ≡ lines pass.old) }
        ensures edition { IfOk result (IsEditionIn (known pass.new).seen) }
        ensures legal { IsLegalSeen (known pass.new) }
        ensures looked { Looked (known pass.old) (known pass.new) }
    {
        self.turns
            .with(rt, &mut pass.turn, |stored| stored.edition(alloc))
    }

    /// Shows where the search stands, in the next line of the caller, a feed of the board or the
    /// first pass, where one try gets the turn.
    ///
    /// # Errors
    ///
    /// `Busy` only where that try found it taken. `Memory` where memory runs out; then at most what
    /// was seen has grown.
    pub fn try_show(&self, alloc: Global, pass: &mut Pass) -> Result<Standing, TryNo>
        requires board { own_board pass.old ≡ board_of self.now }
        requires lines { HasLines (known pass.old) }
        ensures board { own_board pass.new ≡ own_board pass.old }
        ensures fetched { fetched pass.new ≡ fetched pass.old }
        ensures shown { IfOk result (λ standing. Enters (known pass.old)
            (event.Show (known pass.old).caller (lines pass.old + 1)) (reply.Shown standing)
            (known pass.new) × (lines pass.new ≡ lines pass.old + 1)) }
        ensures tries { IfOk result (λ _. (known pass.new).tries ≡ (known pass.old).tries) }
        ensures legal { IfOk result (λ _. IsLegalSeen (known pass.new)) }
        ensures err { IfErr result (λ no. ShowsNot no (known pass.old) (known pass.new)
            × (lines pass.new ≡ lines pass.old)) }
    {
        let Ok(line) = next_line(pass.lines) else {
            return Err(TryNo::Memory);
        };
        let event = CoreEvent::Show {
            feed: pass.caller,
            line,
        };
        match self.try_line(alloc, pass, line, event) {
            Ok(Ok(CoreReply::Shown(standing))) => Ok(standing),
            Ok(Ok(_)) => unreachable!(),
            Ok(Err(_)) => Err(TryNo::Memory),
            Err(_) => Err(TryNo::Busy),
        }
    }

    /// How many entries were added, as `rest` counts them.
    pub fn moves(&self) -> u64 {
        self.turns.moves()
    }

    /// Sleeps until an entry is added, where none was since `moves` gave this number, and for two
    /// milliseconds at most. It may return at any time.
    pub fn rest<W: Wait>(&self, rt: &W, moves: u64) {
        self.turns.rest(rt, moves);
    }

    /// How many entries there are, as one load found it.
    pub fn heard(&self, pass: &mut Pass) -> u64
        requires { own_board pass.old ≡ board_of self.now }
        ensures board { own_board pass.new ≡ own_board pass.old }
        ensures counts { (fetched pass.new ≡ fetched pass.old) × (lines pass.new ≡ lines pass.old) }
        ensures known { known pass.new ≡ with_count (known pass.old) result }
        ensures seen { length (known pass.old).seen ≤ result }
        ensures rises { (known pass.old).count ≤ result }
    {
        self.turns.grown(&mut pass.turn)
    }
}
