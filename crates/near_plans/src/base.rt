ghost use Rattle.std.specs.Prelude.{◌≡◌, IfOk, IfSome};
ghost use Rattle.disp_model.specs.Node.{Node};
ghost use Rattle.near_plans.specs.Plans.{IsFoundBeside};

use crate::outlook::Outlook;
use crate::taking::Course;
use disp_model::{Memory, Plan, Problem};
use std::alloc::Global;
use train_insertion::Target;

/// A plan, what it costs, and the target that it is.
#[derive(Drop)]
pub(crate) struct Base {
    pub plan: Plan,
    pub cost: u64,
    pub target: Target,
}

impl Base {
    /// A plan that costs so much.
    pub(crate) fn of(
        alloc: Global,
        problem: &Problem,
        plan: Plan,
        cost: u64,
    ) -> Result<Base, Memory>
        ensures { IfOk result (λ base. base.plan ≡ plan) }
    {
        Ok(Base {
            target: Target::of_plan(alloc, problem, plan.as_slice())?,
            cost,
            plan,
        })
    }

    /// How its trains go on.
    pub(crate) fn course(&self) -> Course<'_> {
        Course {
            events: self.plan.as_slice(),
            target: &self.target,
        }
    }

    /// The plan that was found, if one was.
    pub(crate) fn of_outlook(
        alloc: Global,
        problem: &Problem,
        outlook: Outlook,
    ) -> Result<Option<Base>, Memory>
        ensures { (root : Node) → IfSome outlook.plan (IsFoundBeside root)
            → IfOk result (λ found. IfSome found (λ base. IsFoundBeside root base.plan)) }
    {
        let Outlook { plan, below, .. } = outlook;
        match plan {
            Some(plan) => Ok(Some(Base::of(alloc, problem, plan, below)?)),
            None => Ok(None),
        }
    }

    /// Becomes the plan that was found, if one was. Gives how many nodes were looked at.
    pub(crate) fn keep(
        &mut self,
        alloc: Global,
        problem: &Problem,
        outlook: Outlook,
    ) -> Result<u32, Memory>
        ensures { (root : Node) → IfSome outlook.plan (IsFoundBeside root)
            → IsFoundBeside root self.old.plan → IsFoundBeside root self.new.plan }
    {
        let nodes = outlook.nodes;
        if let Some(base) = Base::of_outlook(alloc, problem, outlook)? {
            *self = base;
        }
        Ok(nodes)
    }
}
