//! One event under the lock.
ghost use Rattle.std.specs.Prelude.{◌≡◌, ◌+◌, IfOk, IfErr};
ghost use Rattle.dispatch_core.specs.declared.event.StepNo.TheVariants.{Memory as OutOfMemory};
ghost use Rattle.dispatch_core.specs.Replies.{TakesMemory};
ghost use Rattle.turn_lock.specs.Known.{with_miss};
ghost use Rattle.shared_board.specs.Board.{board_of, own_board, known, fetched, lines};
ghost use Rattle.shared_board.specs.Calls.{MayEnter, Enters, Looked, IsLegalSeen, lines_in};

use crate::board::Board;
use crate::pass::Pass;
use dispatch_core::{CoreEvent, CoreReply, StepNo};
use std::alloc::Global;
use std::sync::Wait;
use turn_lock::Busy;

impl Board {
    /// One event of the pass's caller, under the lock. Waits for the turn. On `Memory` only what
    /// was seen may have grown.
    pub(crate) fn enter<W: Wait>(
        &self,
        rt: &W,
        alloc: Global,
        pass: &mut Pass,
        event: CoreEvent,
    ) -> Result<CoreReply, StepNo>
        requires board { own_board pass.old ≡ board_of self.now }
        requires may { MayEnter (known pass.old) event }
        requires quiet { lines_in event ≡ 0 }
        ensures board { own_board pass.new ≡ own_board pass.old }
        ensures counts { (fetched pass.new ≡ fetched pass.old) × (lines pass.new ≡ lines pass.old) }
        ensures entered { IfOk result (λ told.
            Enters (known pass.old) event told (known pass.new)) }
        ensures back { IfErr result (λ no. no ≡ OutOfMemory event) }
        ensures memory { IfErr result (λ _. TakesMemory event) }
        ensures looked { IfErr result (λ _. Looked (known pass.old) (known pass.new)) }
        ensures legal { IsLegalSeen (known pass.new) }
    {
        self.turns
            .with(rt, &mut pass.turn, |stored| stored.step(alloc, event))
    }

    /// The same of an event that takes no memory, so that it always has its reply.
    pub(crate) fn enter_without_memory<W: Wait>(
        &self,
        rt: &W,
        alloc: Global,
        pass: &mut Pass,
        event: CoreEvent,
    ) -> CoreReply
        requires board { own_board pass.old ≡ board_of self.now }
        requires may { MayEnter (known pass.old) event }
        requires quiet { lines_in event ≡ 0 }
        requires none { TakesMemory event → ⊥ }
        ensures board { own_board pass.new ≡ own_board pass.old }
        ensures counts { (fetched pass.new ≡ fetched pass.old) × (lines pass.new ≡ lines pass.old) }
        ensures entered { Enters (known pass.old) event result (known pass.new) }
        ensures legal { IsLegalSeen (known pass.new) }
    {
        match self.enter(rt, alloc, pass, event) {
            Ok(told) => told,
            Err(_) => unreachable!(),
        }
    }

    /// The same of an event that answers the next line of the pass's caller.
    pub(crate) fn enter_line<W: Wait>(
        &self,
        rt: &W,
        alloc: Global,
        pass: &mut Pass,
        line: u64,
        event: CoreEvent,
    ) -> Result<CoreReply, StepNo>
        requires board { own_board pass.old ≡ board_of self.now }
        requires may { MayEnter (known pass.old) event }
        requires line { (lines_in event ≡ 1) × (line ≡ lines pass.old + 1) }
        ensures board { own_board pass.new ≡ own_board pass.old }
        ensures fetched { fetched pass.new ≡ fetched pass.old }
        ensures entered { IfOk result (λ told. Enters (known pass.old) event told (known pass.new)
            × (lines pass.new ≡ line)) }
        ensures looked { IfErr result (λ _. Looked (known pass.old) (known pass.new)
            × (lines pass.new ≡ lines pass.old)) }
        ensures legal { IsLegalSeen (known pass.new) }
    {
        let answer = self
            .turns
            .with(rt, &mut pass.turn, |stored| stored.step(alloc, event));
        if answer.is_ok() {
            pass.lines = line;
        }
        answer
    }

    /// The same, where one try gets the turn.
    pub(crate) fn try_line(
        &self,
        alloc: Global,
        pass: &mut Pass,
        line: u64,
        event: CoreEvent,
    ) -> Result<Result<CoreReply, StepNo>, Busy>
        requires board { own_board pass.old ≡ board_of self.now }
        requires may { MayEnter (known pass.old) event }
        requires line { (lines_in event ≡ 1) × (line ≡ lines pass.old + 1) }
        ensures board { own_board pass.new ≡ own_board pass.old }
        ensures fetched { fetched pass.new ≡ fetched pass.old }
        ensures entered { IfOk result (λ answer. IfOk answer (λ told.
            Enters (known pass.old) event told (known pass.new) × (lines pass.new ≡ line))) }
        ensures looked { IfOk result (λ answer. IfErr answer (λ _.
            Looked (known pass.old) (known pass.new) × (lines pass.new ≡ lines pass.old))) }
        ensures tries { IfOk result (λ _. (known pass.new).tries ≡ (known pass.old).tries) }
        ensures legal { IfOk result (λ _. IsLegalSeen (known pass.new)) }
        ensures busy { IfErr result (λ _. (known pass.new ≡ with_miss (known pass.old))
            × (lines pass.new ≡ lines pass.old)) }
    {
        let answer = self
            .turns
            .try_with(&mut pass.turn, |stored| stored.step(alloc, event))?;
        if answer.is_ok() {
            pass.lines = line;
            return Ok(answer);
        }
        Ok(answer)
    }
}
