ghost use Rattle.std.specs.Prelude.{◌≡◌, ◌≤◌, All, Some, MatchOption, IfErr, IfOk, OnErr};
ghost use Rattle.disp_model.specs.WellFormed.{horizon};
ghost use Rattle.disp_model.specs.History.{mark_of_verdict, IsBestCost};
ghost use Rattle.disp_model.specs.Replay.{IsBelowBest};
ghost use Rattle.dispatch_core.specs.Judging.{IsPlanJudged};
ghost use Rattle.disp_model.specs.Legal.{IsVerdictOf};
ghost use Rattle.dispatch_core.specs.Replies.{IsPublish, IsSettle, IsStopReply};

use crate::event::CoreReply;
use crate::machine::Core;
use crate::settling::standing;
use disp_model::{Entry, Mark, Memory, Plan, Verdict};
use solution_verifier::{Fault, verify};
use std::alloc::Global;

/// What is found of a plan: its cost, or its first fault.
pub(crate) enum Judged {
    Costs(u64),
    Fault(Fault),
}

impl Core {
    /// Publishes a plan for an edition, where it is valid and better than the best.
    pub(crate) fn publish(
        &mut self,
        alloc: Global,
        edition: u32,
        plan: Plan,
    ) -> Result<CoreReply, (Plan, Memory)>
        requires { All (λ e. e.time ≤ horizon self.old.problem.trains) plan }
        ensures ok { IfOk result (λ told. IsPublish self.old edition plan told self.new) }
        ensures back { IfErr result (λ no. no.0 ≡ plan) }
        ensures err { OnErr result (self.new ≡ self.old) }
    {
        if let Some(told) = self.not_current(edition) {
            return Ok(told);
        }
        let cost = match self.judge(alloc, &plan) {
            Ok(Judged::Costs(cost)) => cost,
            Ok(Judged::Fault(fault)) => return Ok(CoreReply::Invalid(fault)),
            Err(memory) => return Err((plan, memory)),
        };
        if let Some(best) = self.no_more_than(cost) {
            return Ok(CoreReply::NotBetter(best));
        }
        let place = self.history.len();
        if self.history.reserve(1).is_err() {
            return Err((plan, Memory));
        }
        self.last = Some(place);
        self.best = Some(cost);
        self.history.push_reserved(Entry::Published {
            edition,
            plan,
            cost,
        });
        Ok(CoreReply::Published(cost))
    }

    /// What a plan costs that is valid for the newest edition, or its first fault.
    fn judge(&self, alloc: Global, plan: &Plan) -> Result<Judged, Memory>
        requires { All (λ e. e.time ≤ horizon self.now.problem.trains) plan.now }
        ensures { IfOk result (IsPlanJudged self.now plan.now) }
    {
        let fixings = standing(alloc, self.editions.changes())?;
        match verify(self.editions.problem(), fixings.as_slice(), plan, None) {
            Ok(cost) => Ok(Judged::Costs(cost as u64)),
            Err(fault) => Ok(Judged::Fault(fault)),
        }
    }

    /// The best cost, where it is no more than this.
    fn no_more_than(&self, cost: u64) -> Option<u64>
        ensures { MatchOption result (IsBelowBest self.now.problem self.now.history cost)
            (λ best. IsBestCost self.now.problem self.now.history (Some best) × (best ≤ cost)) }
    {
        let best = self.best?;
        if best <= cost { Some(best) } else { None }
    }

    /// Settles an edition, where no leaf is wanted any more.
    pub(crate) fn settle(&mut self, alloc: Global, edition: u32) -> Result<CoreReply, Memory>
        ensures ok { IfOk result (λ told. IsSettle self.old edition told self.new) }
        ensures err { OnErr result (self.new ≡ self.old) }
    {
        if let Some(told) = self.not_current(edition) {
            return Ok(told);
        }
        if let Some((node, bound)) = self.nodes.wanted(self.best) {
            return Ok(CoreReply::StillOpen { node, bound });
        }
        let verdict = verdict_of(self.best);
        let tree = self.nodes.tree(alloc)?;
        self.history.push(Entry::Settled {
            edition,
            verdict,
            tree,
        })?;
        self.mark = mark_of(verdict);
        Ok(CoreReply::Settled(verdict))
    }

    /// Stops an edition, where the budget is spent and each wanted leaf is examined.
    pub(crate) fn stop(&mut self, edition: u32) -> Result<CoreReply, Memory>
        ensures ok { IfOk result (λ told. IsStopReply self.old edition told self.new) }
        ensures err { OnErr result (self.new ≡ self.old) }
    {
        if let Some(told) = self.not_current(edition) {
            return Ok(told);
        }
        if self.spent < self.settings.budget {
            return Ok(CoreReply::NotSpent(self.spent));
        }
        let Some(_) = self.nodes.wanted(self.best) else {
            return Ok(CoreReply::Ripe);
        };
        if let Some(node) = self.nodes.unexamined(self.best) {
            return Ok(CoreReply::Unexamined(node));
        }
        let Some(bound) = self.nodes.bound() else {
            return Ok(CoreReply::Ripe);
        };
        let spent = u64::from(self.spent);
        self.history.push(Entry::Stopped {
            edition,
            spent,
            bound,
        })?;
        self.mark = Mark::Stopped { spent, bound };
        Ok(CoreReply::Stopped(bound))
    }
}

/// The verdict of a search without wanted leaves.
fn verdict_of(best: Option<u64>) -> Verdict
    ensures { IsVerdictOf best result }
{
    match best {
        Some(cost) => Verdict::Optimal(cost),
        None => Verdict::Infeasible,
    }
}

/// The mark of a verdict.
fn mark_of(verdict: Verdict) -> Mark
    ensures { result ≡ mark_of_verdict verdict }
{
    match verdict {
        Verdict::Optimal(cost) => Mark::Optimal(cost),
        Verdict::Infeasible => Mark::Infeasible,
    }
}
