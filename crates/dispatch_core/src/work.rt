ghost use Rattle.std.specs.Prelude.{◌≡◌, IfOk, OnErr, true};
ghost use Rattle.dispatch_core.specs.Asked.{MayGiveBack};
ghost use Rattle.dispatch_core.specs.Replies.{IsTake, IsGiveBack};
ghost use Rattle.dispatch_core.specs.States.{free_of};

use crate::event::CoreReply;
use crate::machine::Core;
use disp_model::Memory;
use open_nodes::{GiveBack, Take, Work};
use std::alloc::Global;

impl Core {
    /// How many branchings may still be allowed for the newest edition.
    pub(crate) fn free(&self) -> u32
        ensures { result ≡ free_of self.now }
    {
        (u64::from(self.settings.budget) - u64::from(self.spent) - self.nodes.allowed()) as u32
    }

    /// Takes a leaf out for a searcher, to grow at most so many branches.
    pub(crate) fn take(
        &mut self,
        alloc: Global,
        searcher: u32,
        edition: u32,
        want: u32,
    ) -> Result<CoreReply, Memory>
        ensures ok { IfOk result (λ told. IsTake self.old edition want told self.new) }
        ensures err { OnErr result (self.new ≡ self.old) }
    {
        if let Some(told) = self.not_current(edition) {
            return Ok(told);
        }
        let (free, seen) = (self.free(), self.history.len() as u64);
        match self
            .nodes
            .take(alloc, self.best, free, want, seen, searcher)?
        {
            Take::Ripe => Ok(CoreReply::Ripe),
            Take::Taken(work) => Ok(CoreReply::Taken(work)),
            Take::AllOut(count) => Ok(CoreReply::AllOut(count as u64)),
            Take::Dry => Ok(CoreReply::Dry(self.spent)),
        }
    }

    /// Takes the leaf of a work in again.
    pub(crate) fn give_back(&mut self, work: Work, examined: bool) -> CoreReply
        requires { MayGiveBack self.old work examined }
        ensures { IsGiveBack self.old work examined result self.new }
    {
        match self.nodes.give_back(work, examined) {
            GiveBack::Back => CoreReply::Noted,
            GiveBack::Gone(node) => CoreReply::Gone(node),
        }
    }
}
