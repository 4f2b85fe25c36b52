//! The calls of searchers, and of whoever looks for work.
ghost use Rattle.std.specs.Prelude.{◌≡◌, ◌≤◌, IfOk, IfErr, OnErr, true};
ghost use Rattle.dispatch_core.specs.declared.event.CoreEvent.TheVariants as event;
ghost use Rattle.dispatch_core.specs.declared.event.StepNo.TheVariants.{Memory as OutOfMemory};
ghost use Rattle.shared_board.specs.Board.{board_of, own_board, known, fetched, lines};
ghost use Rattle.shared_board.specs.Callers.{searcher_caller, searcher_of};
ghost use Rattle.shared_board.specs.Calls.{Enters, Looked, IsLegalSeen, IsSearcher, IsGrowthOf, IsExaminedFor, IsPlanFor};

use crate::board::Board;
use crate::pass::Pass;
use crate::terms::SEARCHERS_FROM;
use disp_model::{Memory, Plan};
use dispatch_core::{CoreEvent, CoreReply, StepNo};
use open_nodes::{Fragment, Work};
use std::alloc::Global;
use std::sync::Wait;

/// The searcher of a caller.
fn searcher_of(caller: u32) -> u32
    requires { searcher_caller 0 ≤ caller }
    ensures { result ≡ searcher_of caller }
{
    caller - SEARCHERS_FROM
}

impl Board {
    /// What is there to do. It takes no memory.
    pub fn next<W: Wait>(&self, rt: &W, alloc: Global, pass: &mut Pass) -> CoreReply
        requires { own_board pass.old ≡ board_of self.now }
        ensures board { own_board pass.new ≡ own_board pass.old }
        ensures counts { (fetched pass.new ≡ fetched pass.old) × (lines pass.new ≡ lines pass.old) }
        ensures told { Enters (known pass.old) event.Next result (known pass.new) }
        ensures legal { IsLegalSeen (known pass.new) }
    {
        self.enter_without_memory(rt, alloc, pass, CoreEvent::Next)
    }

    /// Takes a wanted leaf of an edition for the caller, a searcher of the board, to grow at most
    /// so many branches.
    ///
    /// # Errors
    ///
    /// `Memory` where memory runs out; then only what was seen has grown.
    pub fn take<W: Wait>(
        &self,
        rt: &W,
        alloc: Global,
        pass: &mut Pass,
        edition: u32,
        want: u32,
    ) -> Result<CoreReply, Memory>
        requires board { own_board pass.old ≡ board_of self.now }
        requires searcher { IsSearcher (known pass.old) }
        ensures board { own_board pass.new ≡ own_board pass.old }
        ensures counts { (fetched pass.new ≡ fetched pass.old) × (lines pass.new ≡ lines pass.old) }
        ensures told { IfOk result (λ told. Enters (known pass.old)
            (event.Take (searcher_of (known pass.old).caller) edition want) told (known pass.new)) }
        ensures legal { IsLegalSeen (known pass.new) }
        ensures err { OnErr result (Looked (known pass.old) (known pass.new)) }
    {
        let searcher = searcher_of(pass.caller);
        let event = CoreEvent::Take {
            searcher,
            edition,
            want,
        };
        self.enter(rt, alloc, pass, event).map_err(|_| Memory)
    }

    /// Puts what the caller, a searcher of the board, grew in the place of its leaf.
    ///
    /// # Errors
    ///
    /// `Memory` where memory runs out, with the event; then only what was seen has grown.
    pub fn grow<W: Wait>(
        &self,
        rt: &W,
        alloc: Global,
        pass: &mut Pass,
        fragment: Fragment,
    ) -> Result<CoreReply, StepNo>
        requires board { own_board pass.old ≡ board_of self.now }
        requires searcher { IsSearcher (known pass.old) }
        requires growth { IsGrowthOf (known pass.old) fragment }
        ensures board { own_board pass.new ≡ own_board pass.old }
        ensures counts { (fetched pass.new ≡ fetched pass.old) × (lines pass.new ≡ lines pass.old) }
        ensures told { IfOk result (λ told. Enters (known pass.old)
            (event.Grow (searcher_of (known pass.old).caller) fragment) told (known pass.new)) }
        ensures legal { IsLegalSeen (known pass.new) }
        ensures back { IfErr result (λ no. no
            ≡ OutOfMemory (event.Grow (searcher_of (known pass.old).caller) fragment)) }
        ensures err { OnErr result (Looked (known pass.old) (known pass.new)) }
    {
        let searcher = searcher_of(pass.caller);
        let event = CoreEvent::Grow { searcher, fragment };
        self.enter(rt, alloc, pass, event)
    }

    /// Takes the leaf of a work of the caller, a searcher of the board, in again, as examined or
    /// not. It takes no memory.
    pub fn give_back<W: Wait>(
        &self,
        rt: &W,
        alloc: Global,
        pass: &mut Pass,
        work: Work,
        examined: bool,
    ) -> CoreReply
        requires board { own_board pass.old ≡ board_of self.now }
        requires searcher { IsSearcher (known pass.old) }
        requires examined { examined ≡ true → IsExaminedFor (known pass.old) work }
        ensures board { own_board pass.new ≡ own_board pass.old }
        ensures counts { (fetched pass.new ≡ fetched pass.old) × (lines pass.new ≡ lines pass.old) }
        ensures told { Enters (known pass.old) (event.GiveBack work examined) result
            (known pass.new) }
        ensures legal { IsLegalSeen (known pass.new) }
    {
        let event = CoreEvent::GiveBack { work, examined };
        self.enter_without_memory(rt, alloc, pass, event)
    }

    /// Publishes a plan of an edition, where it is valid for the newest and better than the best.
    ///
    /// # Errors
    ///
    /// `Memory` where memory runs out; then only what was seen has grown.
    pub fn publish<W: Wait>(
        &self,
        rt: &W,
        alloc: Global,
        pass: &mut Pass,
        edition: u32,
        plan: Plan,
    ) -> Result<CoreReply, Memory>
        requires board { own_board pass.old ≡ board_of self.now }
        requires plan { IsPlanFor (known pass.old) edition plan }
        ensures board { own_board pass.new ≡ own_board pass.old }
        ensures counts { (fetched pass.new ≡ fetched pass.old) × (lines pass.new ≡ lines pass.old) }
        ensures told { IfOk result (λ told. Enters (known pass.old)
            (event.Publish edition plan) told (known pass.new)) }
        ensures legal { IsLegalSeen (known pass.new) }
        ensures err { OnErr result (Looked (known pass.old) (known pass.new)) }
    {
        let event = CoreEvent::Publish { edition, plan };
        self.enter(rt, alloc, pass, event).map_err(|_| Memory)
    }

    /// Settles an edition, where no leaf is wanted any more.
    ///
    /// # Errors
    ///
    /// `Memory` where memory runs out; then only what was seen has grown.
    pub fn settle<W: Wait>(
        &self,
        rt: &W,
        alloc: Global,
        pass: &mut Pass,
        edition: u32,
    ) -> Result<CoreReply, Memory>
        requires { own_board pass.old ≡ board_of self.now }
        ensures board { own_board pass.new ≡ own_board pass.old }
        ensures counts { (fetched pass.new ≡ fetched pass.old) × (lines pass.new ≡ lines pass.old) }
        ensures told { IfOk result (λ told. Enters (known pass.old)
            (event.Settle edition) told (known pass.new)) }
        ensures legal { IsLegalSeen (known pass.new) }
        ensures err { OnErr result (Looked (known pass.old) (known pass.new)) }
    {
        let event = CoreEvent::Settle { edition };
        self.enter(rt, alloc, pass, event).map_err(|_| Memory)
    }

    /// Stops an edition, where its budget is spent and each wanted leaf is examined.
    ///
    /// # Errors
    ///
    /// `Memory` where memory runs out; then only what was seen has grown.
    pub fn stop<W: Wait>(
        &self,
        rt: &W,
        alloc: Global,
        pass: &mut Pass,
        edition: u32,
    ) -> Result<CoreReply, Memory>
        requires { own_board pass.old ≡ board_of self.now }
        ensures board { own_board pass.new ≡ own_board pass.old }
        ensures counts { (fetched pass.new ≡ fetched pass.old) × (lines pass.new ≡ lines pass.old) }
        ensures told { IfOk result (λ told. Enters (known pass.old)
            (event.Stop edition) told (known pass.new)) }
        ensures legal { IsLegalSeen (known pass.new) }
        ensures err { OnErr result (Looked (known pass.old) (known pass.new)) }
    {
        let event = CoreEvent::Stop { edition };
        self.enter(rt, alloc, pass, event).map_err(|_| Memory)
    }

    /// Notes that the caller, a searcher of the board, leaves. It takes no memory.
    pub fn leave<W: Wait>(&self, rt: &W, alloc: Global, pass: &mut Pass) -> CoreReply
        requires board { own_board pass.old ≡ board_of self.now }
        requires searcher { IsSearcher (known pass.old) }
        ensures board { own_board pass.new ≡ own_board pass.old }
        ensures counts { (fetched pass.new ≡ fetched pass.old) × (lines pass.new ≡ lines pass.old) }
        ensures told { Enters (known pass.old) (event.Leave (searcher_of (known pass.old).caller))
            result (known pass.new) }
        ensures legal { IsLegalSeen (known pass.new) }
    {
        let searcher = searcher_of(pass.caller);
        self.enter_without_memory(rt, alloc, pass, CoreEvent::Leave { searcher })
    }
}
